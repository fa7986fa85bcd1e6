//! Making a vocabulary over lent lists, and filling it.
ghost use Rattle.std.specs.Prelude.{◌≡◌, ◌<◌};
ghost use Rattle.terms.specs.declared.entry.Entry.{Entry as Stated};
ghost use Rattle.terms.specs.Contents.{nothing};
ghost use Rattle.terms.specs.Counting.{Allowed};
ghost use Rattle.terms.specs.Entries.{climbed};
ghost use Rattle.terms.specs.Lent.{tally_of, WrittenOver, Added};
ghost use Rattle.terms.specs.Views.{contents_of};

use super::Terms;
use crate::entry::Entry;
use crate::records::{Concept, Inclusion};
use crate::tally::{Room, Tally};
use crate::words::has_bit;

impl<'a> Terms<'a> {
    /// The empty vocabulary over two lists, whose entries stay as they are.
    pub fn empty(concepts: &'a mut [Concept], inclusions: &'a mut [Inclusion]) -> Terms<'a>
        ensures contents { contents_of result ≡ nothing }
        ensures concepts { (result.concepts.now ≡ concepts.old)
            × (result.concepts.ghost_name ≡ concepts.entry.ghost_name) }
        ensures inclusions { (result.inclusions.now ≡ inclusions.old)
            × (result.inclusions.ghost_name ≡ inclusions.entry.ghost_name) }
    {
        Terms {
            concepts,
            concept_count: 0,
            inclusions,
            inclusion_count: 0,
            role_count: 0,
            order: [0; 32],
            transitive: 0,
        }
    }

    /// Makes the vocabulary empty again. The lists stay as they are.
    pub fn clear(&mut self)
        ensures contents { contents_of self.new ≡ nothing }
        ensures lists { WrittenOver self.old self.new }
    {
        self.concept_count = 0;
        self.inclusion_count = 0;
        self.role_count = 0;
        self.order = [0; 32];
        self.transitive = 0;
    }

    /// How many entries there are, and how many the lists and the limits allow.
    pub fn tally(&self) -> Tally
        ensures { result ≡ tally_of self.now }
    {
        Tally {
            concepts: self.concept_count,
            roles: self.role_count,
            inclusions: self.inclusion_count,
            room: Room::within(self.concepts.len(), self.inclusions.len()),
        }
    }

    // Adds an entry that may come next.
    pub(crate) fn put(&mut self, entry: Entry)
        requires { Allowed (tally_of self.old) entry }
        ensures { Added entry self.old self.new }
    {
        match entry {
            Entry::Concept(c) => {
                self.concepts[self.concept_count] = c;
                self.concept_count += 1;
            }
            Entry::Role => {
                self.order[self.role_count] = 1 << self.role_count;
                self.role_count += 1;
            }
            Entry::Order(r, s) => self.put_order(r, s),
            Entry::Transitive(r) => self.transitive |= 1 << r,
            Entry::Inclusion(i) => {
                self.inclusions[self.inclusion_count] = i;
                self.inclusion_count += 1;
            }
        }
    }

    // What is below r is now below what is above s. A loop, since the goals on the new rows stayed open with `map`.
    fn put_order(&mut self, r: u16, s: u16)
        requires { Allowed (tally_of self.old) (Stated.Order r s) }
        ensures { Added (Stated.Order r s) self.old self.new }
    {
        let up = self.order[s as usize];
        for row in self.order.iter_mut() {
            *row = climb(*row, r, up);
        }
    }
}

// A row that has the role r takes the row `up` too.
fn climb(row: u32, r: u16, up: u32) -> u32
    ensures { result ≡ climbed r up row }
{
    if has_bit(row, usize::from(r)) {
        row | up
    } else {
        row
    }
}
