//! Sheets with one thing changed, mostly to something wrong.
use crate::generator::Random;
use reference::{WIDTH, six_columns};
use std::alloc::{AllocError, Global};
use std::ops::Range;

/// Bytes that sheets have, and some that they have not.
const BYTES: [u8; 24] = *b" 0123456789ATNERIPS\n\r\t-a";

/// Numbers at the limits of something.
const NUMBERS: [usize; 16] = [
    0, 1, 31, 32, 39, 40, 63, 64, 65, 1023, 1024, 65535, 65536, 99999, 100000, 999999,
];

/// A sheet to be damaged, and the numbers that the damage is drawn by.
#[derive(Drop)]
struct Damage<'a> {
    heap: Global,
    random: &'a mut Random,
    sheet: &'a [u8],
}

impl Damage<'_> {
    /// The sheet with the bytes of the range, as far as there are such, replaced.
    fn replaced(&self, range: Range<usize>, by: &[u8]) -> Result<Vec<u8>, AllocError> {
        let before = self.sheet.iter().take(range.start);
        let after = self.sheet.iter().skip(range.end);
        before.chain(by).chain(after).copied().collect(self.heap)
    }

    /// The sheet with the byte at the place replaced.
    fn with(&self, place: usize, by: &[u8]) -> Result<Vec<u8>, AllocError> {
        self.replaced(place..place.saturating_add(1), by)
    }

    /// A byte changed, left out or put in somewhere, the letter or the end of a line changed, or the end cut off.
    fn with_other_byte(&mut self) -> Result<Vec<u8>, AllocError> {
        let any = self.random.below(self.sheet.len());
        let line = any - any % WIDTH;
        let by = [self.random.pick(&BYTES)];
        match self.random.below(7) {
            0 => {
                let byte = (self.random.next() & 255) as u8;
                self.with(any, &[byte])
            }
            1 => self.with(any, &by),
            2 => self.with(any, b""),
            3 => self.replaced(any..any, &by),
            4 => self.with(line, &by),
            5 => self.with(line.saturating_add(19), &by),
            _ => self.replaced(any..self.sheet.len(), b""),
        }
    }

    /// The six columns with one digit made another byte.
    fn with_other_digit(&mut self, columns: [u8; 6]) -> [u8; 6] {
        let mut changed = columns;
        let byte = self.random.pick(&BYTES);
        let from = self.random.below(6);
        if let Some(column) = changed
            .iter_mut()
            .skip(from)
            .find(|column| column.is_ascii_digit())
        {
            *column = byte;
        }
        changed
    }

    /// A field blank, with another number, moved by a column, with a leading zero or with another digit.
    fn with_other_field(&mut self) -> Result<Vec<u8>, AllocError> {
        let line = self
            .random
            .below(self.sheet.len() / WIDTH)
            .saturating_mul(WIDTH);
        let field = self.random.below(3).saturating_mul(6).saturating_add(1);
        let start = line.saturating_add(field);
        let columns = columns_at(self.sheet, start);
        let [a, b, c, d, e, f] = columns;
        let by = match self.random.below(6) {
            0 => [b' '; 6],
            1 => [b, c, d, e, f, a],
            2 => [f, a, b, c, d, e],
            3 => with_leading_zero(columns),
            4 => self.with_other_digit(columns),
            _ => six_columns(some_number(self.random)),
        };
        self.replaced(start..start.saturating_add(6), &by)
    }

    /// A line left out, put in once more somewhere, or repeated in place so often that a limit may be passed.
    fn with_other_lines(&mut self) -> Result<Vec<u8>, AllocError> {
        let lines = self.sheet.len() / WIDTH;
        let number = self.random.below(lines);
        let line = self.sheet.chunks(WIDTH).nth(number).unwrap_or(b"");
        let start = number.saturating_mul(WIDTH);
        let range = start..start.saturating_add(WIDTH);
        match self.random.below(3) {
            0 => self.replaced(range, b""),
            1 => {
                let place = self.random.below(lines).saturating_mul(WIDTH);
                self.replaced(place..place, line)
            }
            _ => {
                let copies = line.repeat(self.heap, self.random.below(220))?;
                self.replaced(range, &copies)
            }
        }
    }
}

/// Some number of the list, or any of at most six digits.
fn some_number(random: &mut Random) -> usize {
    match random.below(4) {
        0 => random.below(64),
        1 => random.below(1_000_000),
        _ => random.pick(&NUMBERS),
    }
}

/// The six columns from the place on, with spaces past the end of the text.
fn columns_at(text: &[u8], start: usize) -> [u8; 6] {
    let mut columns = [b' '; 6];
    for (column, byte) in columns.iter_mut().zip(text.iter().skip(start)) {
        *column = *byte;
    }
    columns
}

/// The six columns with the last space before the number made a zero, or as they are if there is none.
fn with_leading_zero(columns: [u8; 6]) -> [u8; 6] {
    let mut changed = columns;
    for (column, next) in changed.iter_mut().zip(columns.iter().skip(1)) {
        if *column == b' ' && *next != b' ' {
            *column = b'0';
        }
    }
    changed
}

/// The sheet with one change, drawn among many sorts.
pub fn damaged(heap: Global, random: &mut Random, sheet: &[u8]) -> Result<Vec<u8>, AllocError> {
    let mut damage = Damage {
        heap,
        random,
        sheet,
    };
    match damage.random.below(8) {
        0..=2 => damage.with_other_byte(),
        3..=5 => damage.with_other_field(),
        _ => damage.with_other_lines(),
    }
}
