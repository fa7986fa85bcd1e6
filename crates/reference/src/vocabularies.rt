//! A vocabulary in plain lists, and its reading from a sheet.
use crate::faults::Fault;
use crate::lines::{Concept, Entry, Inclusion, NumberedLine, WIDTH};
use crate::sheets::{Room, check};
use std::alloc::{AllocError, Global};

/// Concepts, inclusions and roles. Bit s of `above[r]` says r ≤ s; bit r of `transitive` says that r is transitive.
#[derive(Drop)]
pub struct Vocabulary {
    pub concepts: Vec<Concept>,
    pub inclusions: Vec<Inclusion>,
    pub above: Vec<u64>,
    pub transitive: u64,
}

/// Why there is no vocabulary of a text.
#[derive(Debug, Drop)]
pub enum Unread {
    /// The text is no sheet.
    Fault(Fault),
    /// There is no memory.
    Memory(AllocError),
}

impl From<Fault> for Unread {
    fn from(fault: Fault) -> Unread {
        Unread::Fault(fault)
    }
}

impl From<AllocError> for Unread {
    fn from(error: AllocError) -> Unread {
        Unread::Memory(error)
    }
}

/// The mask with the one bit, or none beyond the last bit.
fn bit(place: usize) -> u64 {
    if place < 64 { 1 << place } else { 0 }
}

/// Whether the mask has the bit.
pub fn has(mask: u64, place: usize) -> bool {
    mask & bit(place) != 0
}

impl Vocabulary {
    /// Whether the number names an atomic concept.
    pub fn is_atomic(&self, number: usize) -> bool {
        matches!(self.concepts.get(number), Some(Concept::Atomic))
    }

    /// The roles above the role, itself among them.
    pub fn above(&self, role: usize) -> u64 {
        self.above.get(role).copied().unwrap_or(0)
    }

    /// Adds what a line says.
    fn add(&mut self, entry: Entry) -> Result<(), AllocError> {
        match entry {
            Entry::Concept(concept) => self.concepts.push(concept)?,
            Entry::Role => {
                let itself = bit(self.above.len());
                self.above.push(itself)?
            }
            Entry::Order(lower, upper) => {
                let more = self.above(upper);
                if let Some(row) = self.above.get_mut(lower) {
                    *row |= more;
                }
            }
            Entry::Transitive(role) => self.transitive |= bit(role),
            Entry::Inclusion(inclusion) => self.inclusions.push(inclusion)?,
        }
        Ok(())
    }

    /// Makes all that lies above the role lie above whatever the role lies above.
    fn close_through(&mut self, role: usize) {
        let more = self.above(role);
        for row in self.above.iter_mut() {
            if has(*row, role) {
                *row |= more;
            }
        }
    }
}

/// The vocabulary that the text says, for a reader with the room.
pub fn read(heap: Global, text: &[u8], room: Room) -> Result<Vocabulary, Unread> {
    check(text, room)?;
    let mut vocabulary = Vocabulary {
        concepts: Vec::new(heap),
        inclusions: Vec::new(heap),
        above: Vec::new(heap),
        transitive: 0,
    };
    let (lines, _) = text.as_chunks::<WIDTH>();
    for (place, columns) in lines.iter().enumerate() {
        let number = place + 1;
        vocabulary.add(NumberedLine { columns, number }.entry()?)?;
    }
    for role in 0..vocabulary.above.len() {
        vocabulary.close_through(role);
    }
    Ok(vocabulary)
}
