//! The lines of a term sheet, and what each of them says.
use crate::columns::{BLANK, six_columns};
use crate::faults::{Fault, Layer, Reason};
use std::str;

/// The columns of a line.
pub const WIDTH: usize = 20;

/// The first column of each field, counted from 1.
pub const FIELD_COLUMNS: [usize; 3] = [2, 8, 14];

/// A concept, by the numbers of its parts.
#[derive(Clone, Copy)]
pub enum Concept {
    Atomic,
    Top,
    /// The common part of two concepts.
    Conjunction(usize, usize),
    /// What the role relates to something in the concept.
    Restriction(usize, usize),
}

/// The first concept lies inside the second, at the points of the code.
#[derive(Clone, Copy)]
pub struct Inclusion {
    pub left: usize,
    pub right: usize,
    pub code: u16,
}

/// What a line says.
#[derive(Clone, Copy)]
pub enum Entry {
    /// There is a concept more.
    Concept(Concept),
    /// There is a role more.
    Role,
    /// The first role lies below the second.
    Order(usize, usize),
    /// The role is transitive.
    Transitive(usize),
    /// One concept lies inside another.
    Inclusion(Inclusion),
}

/// A line, with its number, counted from 1.
#[derive(Clone, Copy)]
pub struct NumberedLine<'a> {
    pub columns: &'a [u8; WIDTH],
    pub number: usize,
}

/// The number in a field, if it is written there just so as it is written in six columns.
fn number_in(field: &[u8; 6]) -> Option<u16> {
    let text = str::from_utf8(field).ok()?;
    let number = text.trim_start().parse::<u16>().ok()?;
    (six_columns(usize::from(number)) == *field).then_some(number)
}

impl NumberedLine<'_> {
    /// A fault in a column of the line.
    pub fn fault(&self, layer: Layer, reason: Reason, column: usize) -> Fault {
        Fault {
            layer,
            reason,
            line: self.number,
            column,
        }
    }

    /// The numbers in the first fields, where the others are blank.
    fn numbers<const N: usize>(&self) -> Result<[u16; N], Fault> {
        let mut numbers = [0; N];
        let columns = self.columns;
        let (fields, _) = columns[1..19].as_chunks::<6>();
        for (place, (field, column)) in fields.iter().zip(FIELD_COLUMNS).enumerate() {
            let fault = self.fault(Layer::Field, Reason::BadField, column);
            if place < N {
                numbers[place] = number_in(field).ok_or(fault)?;
            } else if *field != BLANK {
                return Err(fault);
            }
        }
        Ok(numbers)
    }

    /// What the line says, if it is in form.
    pub fn entry(&self) -> Result<Entry, Fault> {
        let entry = match self.columns[0] {
            b'A' => self
                .numbers::<0>()
                .map(|_| Entry::Concept(Concept::Atomic))?,
            b'T' => self.numbers::<0>().map(|_| Entry::Concept(Concept::Top))?,
            b'N' => {
                let [x, y] = self.numbers::<2>()?.map(usize::from);
                Entry::Concept(Concept::Conjunction(x, y))
            }
            b'E' => {
                let [role, x] = self.numbers::<2>()?.map(usize::from);
                Entry::Concept(Concept::Restriction(role, x))
            }
            b'R' => self.numbers::<0>().map(|_| Entry::Role)?,
            b'I' => {
                let [lower, upper] = self.numbers::<2>()?.map(usize::from);
                Entry::Order(lower, upper)
            }
            b'P' => {
                let [role] = self.numbers::<1>()?.map(usize::from);
                Entry::Transitive(role)
            }
            b'S' => {
                let [left, right, code] = self.numbers::<3>()?;
                Entry::Inclusion(Inclusion {
                    left: usize::from(left),
                    right: usize::from(right),
                    code,
                })
            }
            _ => return Err(self.fault(Layer::Line, Reason::UnknownLetter, 1)),
        };
        if self.columns[19] == b'\n' {
            Ok(entry)
        } else {
            Err(self.fault(Layer::Line, Reason::NoLineFeed, 20))
        }
    }
}
