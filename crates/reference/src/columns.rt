//! Text in columns: numbers written in six, lines filled up to twenty.
use std::alloc::{AllocError, Global};
use std::iter;

/// A field with nothing in it.
pub const BLANK: [u8; 6] = [b' '; 6];

/// The last six digits of the number, right-justified after spaces, without leading zeros.
// By hand: `{:>6}` writes all digits of a longer number, and this the last six.
pub fn six_columns(number: usize) -> [u8; 6] {
    let mut columns = BLANK;
    let mut rest = number;
    for column in columns.iter_mut().rev() {
        *column = b'0' + (rest % 10) as u8;
        rest /= 10;
        if rest == 0 {
            break;
        }
    }
    columns
}

/// Adds a line: its start, three fields of six columns, which have the numbers and then are blank, and a line feed.
pub fn push_line(text: &mut Vec<u8>, start: &[u8], numbers: &[usize]) -> Result<(), AllocError> {
    text.extend_from_slice(start)?;
    let written = numbers.iter().map(|number| six_columns(*number));
    for field in written.chain(iter::repeat(BLANK)).take(3) {
        text.extend_from_slice(&field)?;
    }
    text.extend_from_slice(b"\n")
}

/// The text with every line filled by spaces to 19 columns, which saves writing them out.
pub fn padded(heap: Global, text: &[u8]) -> Result<Vec<u8>, AllocError> {
    let mut filled = Vec::new(heap);
    for line in text.split_inclusive(|byte| *byte == b'\n') {
        if let [columns @ .., b'\n'] = line {
            filled.extend_from_slice(columns)?;
            filled.extend(iter::repeat_n(b' ', 19usize.saturating_sub(columns.len())))?;
            filled.push(b'\n')?;
        } else {
            filled.extend_from_slice(line)?;
        }
    }
    Ok(filled)
}
