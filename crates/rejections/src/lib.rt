//! Every way in which the library turns its input down, and the number that users know it by.
#![tactic(auto)]

ghost use Rattle.std.specs.Prelude.{◌≡◌};
ghost use Rattle.rejections.specs.Numbers.{number_of};

/// Why a call was rejected. 1 to 6 come from reading, 7 from piles, 8 to 16 from the board, 17 to 20 from questions, and 11 from both.
#[derive(Clone, Copy, PartialEq, Eq, Debug)]
pub enum Rejection {
    /// The text's length is no multiple of 20.
    UnfinishedLine = 1,
    /// Column 1 of a line has another letter than A, T, N, E, R, I, P or S.
    UnknownLetter = 2,
    /// A field is not blank, or is no number, where it must be.
    BadField = 3,
    /// Column 20 of a line has no line feed.
    NoLineFeed = 4,
    /// A number names no earlier concept or role.
    UnknownName = 5,
    /// A line goes beyond a fixed limit or the caller's list.
    BeyondLimit = 6,
    /// A number put into a pile is not below the pile's size.
    NotBelowSize = 7,
    /// An inclusion's code is not below the kind's count of codes.
    ForeignCode = 8,
    /// The words handed over are too few for a board.
    TooFewWords = 9,
    /// The pile handed over for a board is too small, or is not empty.
    UnfitPile = 10,
    /// The terms have another count of concepts or roles than the board.
    OtherTerms = 11,
    /// The pile's size is below the board's count of concepts.
    SmallPile = 12,
    /// The pile holds nothing to take.
    EmptyPile = 13,
    /// The number drawn from the pile is not queued on this board.
    NotQueued = 14,
    /// The token names a concept that is not held or, at a recheck, that the board does not have.
    UnfitLease = 15,
    /// No job waits at the lease's concept.
    NothingWaits = 16,
    /// A job still waits, so the board has no final answer.
    JobWaits = 17,
    /// There is no such concept, or it is not named, which is atomic, where it must be.
    NoSuchConcept = 18,
    /// The kind of grade lacks the point.
    NoSuchPoint = 19,
    /// The caller's list is shorter than the answer.
    ShortList = 20,
}

impl Rejection {
    /// The number that users know the rejection by.
    pub fn number(self) -> u16
        ensures { result ≡ number_of self }
    {
        self as u16
    }
}
