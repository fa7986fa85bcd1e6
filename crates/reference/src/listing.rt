//! What the program `tree` prints.
use crate::columns::push_line;
use crate::faults::{Fault, Layer, Reason};
use crate::kinds::Kind;
use crate::rounds::{Table, saturate};
use crate::sheets::Room;
use crate::vocabularies::{Unread, Vocabulary, read};
use std::alloc::{AllocError, Global};

/// The longest text that the program reads.
const MOST_BYTES: usize = 4000;

/// The concepts and inclusions that its lists have room for.
const ROOM: Room = Room {
    concepts: 40,
    inclusions: 200,
};

/// The words of its board.
const WORDS: usize = 17640;

/// The greatest code of releases, which holds nothing.
const LAST_CODE: u16 = 64;

/// The fault of a text that is longer than the program reads: at the first line that it does not read.
const TOO_LONG: Fault = Fault {
    layer: Layer::Sheet,
    reason: Reason::BeyondLimit,
    line: 201,
    column: 1,
};

/// Why a sheet gets no board, with the number that is printed for it.
#[derive(Clone, Copy, Debug)]
enum Boardless {
    /// An inclusion has a code beyond the last.
    ForeignCode = 8,
    /// The board has too few words.
    TooFewWords = 9,
}

/// Why there is no listing.
#[derive(Debug, Drop)]
enum Unlisted {
    /// The text is no sheet.
    Fault(Fault),
    /// The sheet gets no board.
    Board(Boardless),
    /// There is no memory.
    Memory(AllocError),
}

impl Boardless {
    /// The number that is printed for it.
    fn number(self) -> u16 {
        self as u16
    }
}

impl From<Boardless> for Unlisted {
    fn from(error: Boardless) -> Unlisted {
        Unlisted::Board(error)
    }
}

impl From<Unread> for Unlisted {
    fn from(error: Unread) -> Unlisted {
        match error {
            Unread::Fault(fault) => Unlisted::Fault(fault),
            Unread::Memory(error) => Unlisted::Memory(error),
        }
    }
}

impl From<AllocError> for Unlisted {
    fn from(error: AllocError) -> Unlisted {
        Unlisted::Memory(error)
    }
}

/// Whether the vocabulary gets a board.
fn check_board(vocabulary: &Vocabulary) -> Result<(), Boardless> {
    if vocabulary
        .inclusions
        .iter()
        .any(|inclusion| inclusion.code > LAST_CODE)
    {
        return Err(Boardless::ForeignCode);
    }
    let concepts = vocabulary.concepts.len();
    let planes = vocabulary.above.len().saturating_mul(2).saturating_add(3);
    let words = concepts
        .saturating_mul(concepts)
        .saturating_mul(planes)
        .saturating_add(concepts);
    if words > WORDS {
        return Err(Boardless::TooFewWords);
    }
    Ok(())
}

/// Adds a line for each other atomic concept that the atomic concept lies under at some point.
fn push_row(
    output: &mut Vec<u8>,
    vocabulary: &Vocabulary,
    table: &Table,
    a: usize,
) -> Result<(), AllocError> {
    for d in (0..table.concepts).filter(|d| *d != a && vocabulary.is_atomic(*d)) {
        // Points without a code would be a mistake of the rounds: a number that is no code then shows it.
        let grade = Kind::Releases.code(table.under(a, d)).unwrap_or(u16::MAX);
        if grade != LAST_CODE {
            push_line(output, b"", &[a, d, usize::from(grade)])?;
        }
    }
    Ok(())
}

/// The listing of the text, or why there is none.
fn listing(heap: Global, text: &[u8]) -> Result<Vec<u8>, Unlisted> {
    if text.len() > MOST_BYTES {
        return Err(Unlisted::Fault(TOO_LONG));
    }
    let vocabulary = read(heap, text, ROOM)?;
    check_board(&vocabulary)?;
    let table = saturate(heap, &vocabulary, Kind::Releases)?;
    let mut output = Vec::new(heap);
    for a in (0..table.concepts).filter(|a| vocabulary.is_atomic(*a)) {
        push_row(&mut output, &vocabulary, &table, a)?;
    }
    Ok(output)
}

/// Exactly the bytes that the program prints for the text.
pub fn expected_output(heap: Global, text: &[u8]) -> Result<Vec<u8>, AllocError> {
    let numbers = match listing(heap, text) {
        Ok(output) => return Ok(output),
        Err(Unlisted::Memory(error)) => return Err(error),
        Err(Unlisted::Fault(fault)) => [usize::from(fault.number()), fault.line, fault.column],
        Err(Unlisted::Board(error)) => [usize::from(error.number()), 0, 0],
    };
    let mut output = Vec::new(heap);
    push_line(&mut output, b"!", &numbers)?;
    Ok(output)
}
