//! The three kinds of grade, each code as the set of the points that it holds: bit p of the mask is point p.

/// A kind of grade.
#[derive(Clone, Copy, PartialEq, Eq, Debug)]
pub enum Kind {
    Plain,
    Releases,
    Views,
}

impl Kind {
    /// All points of the kind.
    pub fn points(self) -> u64 {
        match self {
            Kind::Plain => 1,
            Kind::Releases => u64::MAX,
            Kind::Views => 0xffff,
        }
    }

    /// The points that the code holds; a number that is no code holds nothing.
    pub fn mask(self, code: u16) -> u64 {
        match self {
            Kind::Plain => u64::from(code == 1),
            Kind::Releases => u64::MAX.checked_shl(u32::from(code)).unwrap_or(0),
            Kind::Views => u64::from(code),
        }
    }

    /// The code that holds exactly these points, if the kind has one.
    pub fn code(self, points: u64) -> Option<u16> {
        match self {
            Kind::Plain => u16::try_from(points).ok().filter(|code| *code <= 1),
            Kind::Releases => (0..=64u16).find(|code| self.mask(*code) == points),
            Kind::Views => u16::try_from(points).ok(),
        }
    }
}
