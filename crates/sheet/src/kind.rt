//! The eight sorts of line.
ghost use Rattle.std.specs.Prelude.{◌≡◌};
ghost use Rattle.sheet.specs.Line.{kind_of, count_of};

/// What a line is about.
#[derive(Clone, Copy)]
pub(crate) enum LineKind {
    Atomic,
    Top,
    Conjunction,
    Restriction,
    Role,
    Order,
    Transitive,
    Inclusion,
}

impl LineKind {
    /// The sort of a line that begins with the letter.
    pub(crate) fn of(letter: char) -> Option<LineKind>
        ensures { result ≡ kind_of letter }
    {
        Some(match letter {
            'A' => LineKind::Atomic,
            'T' => LineKind::Top,
            'N' => LineKind::Conjunction,
            'E' => LineKind::Restriction,
            'R' => LineKind::Role,
            'I' => LineKind::Order,
            'P' => LineKind::Transitive,
            'S' => LineKind::Inclusion,
            _ => return None,
        })
    }

    /// How many fields of such a line have a number.
    pub(crate) fn count(self) -> u8
        ensures { result ≡ count_of self }
    {
        match self {
            LineKind::Atomic | LineKind::Top | LineKind::Role => 0,
            LineKind::Transitive => 1,
            LineKind::Conjunction | LineKind::Restriction | LineKind::Order => 2,
            LineKind::Inclusion => 3,
        }
    }
}
