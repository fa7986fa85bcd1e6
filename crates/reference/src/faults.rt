//! Why a text is no sheet, and where.

/// The layer that a fault belongs to.
#[derive(Clone, Copy, PartialEq, Eq, Debug)]
pub enum Layer {
    Field,
    Line,
    Sheet,
}

/// What is wrong, with the number that is printed for it.
#[derive(Clone, Copy, PartialEq, Eq, Debug)]
pub enum Reason {
    /// The text ends in the middle of a line.
    UnfinishedLine = 1,
    /// No line begins with this letter.
    UnknownLetter = 2,
    /// A field is not blank, or has no number, where it has to.
    BadField = 3,
    /// The last column has no line feed.
    NoLineFeed = 4,
    /// A number names nothing above the line.
    UnknownName = 5,
    /// There are more concepts, roles or inclusions than there may be.
    BeyondLimit = 6,
}

/// A fault: its layer, what is wrong, and the line and column, both counted from 1.
#[derive(Clone, Copy, PartialEq, Eq, Debug)]
pub struct Fault {
    pub layer: Layer,
    pub reason: Reason,
    pub line: usize,
    pub column: usize,
}

impl Fault {
    /// The number that is printed for the fault.
    pub fn number(self) -> u16 {
        self.reason as u16
    }
}
