//! Counting entries: how many there are of each sort, and how many there may be.
ghost use Rattle.std.specs.Prelude.{◌≡◌};
ghost use Rattle.terms.specs.Counting.{below, paired, named, verdict_of, room_for, none_of};

use crate::entry::{Blame, Entry};
use crate::records::Concept;

/// How many concepts there may be at most.
pub const MOST_CONCEPTS: usize = 1024;

/// How many roles there may be at most.
pub const MOST_ROLES: usize = 32;

/// How many inclusions there may be at most.
pub const MOST_INCLUSIONS: usize = 4096;

/// How many concepts and inclusions there may be.
#[derive(Clone, Copy, PartialEq, Eq, Debug)]
pub struct Room {
    pub concepts: usize,
    pub inclusions: usize,
}

/// How many concepts, roles and inclusions there are, and how many there may be.
#[derive(Clone, Copy, PartialEq, Eq, Debug)]
pub struct Tally {
    pub concepts: usize,
    pub roles: usize,
    pub inclusions: usize,
    pub room: Room,
}

impl Room {
    /// The room in lists of these lengths, within the limits.
    pub fn within(concepts: usize, inclusions: usize) -> Room
        ensures { result ≡ room_for concepts inclusions }
    {
        Room {
            concepts: concepts.min(MOST_CONCEPTS),
            inclusions: inclusions.min(MOST_INCLUSIONS),
        }
    }
}

impl Tally {
    /// Nothing, with a room for what is to come.
    pub fn none(room: Room) -> Tally
        ensures { result ≡ none_of room }
    {
        Tally {
            concepts: 0,
            roles: 0,
            inclusions: 0,
            room,
        }
    }

    /// Whether an entry may come next.
    pub fn check(self, entry: Entry) -> Result<(), Blame>
        ensures { result ≡ verdict_of self entry }
    {
        match entry {
            Entry::Concept(concept) => {
                self.check_operands(concept)?;
                check_below(self.concepts, self.room.concepts, Blame::Room)
            }
            Entry::Role => check_below(self.roles, MOST_ROLES, Blame::Room),
            Entry::Order(r, s) => check_pair(r, self.roles, s, self.roles),
            Entry::Transitive(r) => check_below(usize::from(r), self.roles, Blame::First),
            Entry::Inclusion(i) => {
                check_pair(i.sub, self.concepts, i.sup, self.concepts)?;
                check_below(self.inclusions, self.room.inclusions, Blame::Room)
            }
        }
    }

    fn check_operands(self, concept: Concept) -> Result<(), Blame>
        ensures { result ≡ named self concept }
    {
        match concept {
            Concept::Atomic | Concept::Top => Ok(()),
            Concept::Conjunction(c, d) => check_pair(c, self.concepts, d, self.concepts),
            Concept::Restriction(r, c) => check_pair(r, self.roles, c, self.concepts),
        }
    }
}

// A number has to be below a limit.
fn check_below(n: usize, limit: usize, blame: Blame) -> Result<(), Blame>
    ensures { result ≡ below n limit blame }
{
    if n < limit { Ok(()) } else { Err(blame) }
}

// Two operands have to be below their counts, the first one first.
fn check_pair(a: u16, first: usize, b: u16, second: usize) -> Result<(), Blame>
    ensures { result ≡ paired a first b second }
{
    check_below(usize::from(a), first, Blame::First)?;
    check_below(usize::from(b), second, Blame::Second)
}
