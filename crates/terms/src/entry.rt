//! What one line of a vocabulary states, and what can keep it from being added.
use crate::records::{Concept, Inclusion};

/// What one line states.
#[derive(Clone, Copy, PartialEq, Eq, Debug)]
pub enum Entry {
    /// A concept, which takes the next number.
    Concept(Concept),
    /// A role, which takes the next number.
    Role,
    /// The first role is included in the second.
    Order(u16, u16),
    /// The role is transitive.
    Transitive(u16),
    /// One concept lies inside another.
    Inclusion(Inclusion),
}

/// What keeps an entry from being added: the first operand or the second names nothing earlier, or there is no room.
#[derive(Clone, Copy, PartialEq, Eq, Debug)]
pub enum Blame {
    First,
    Second,
    Room,
}
