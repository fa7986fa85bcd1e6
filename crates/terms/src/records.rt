//! The plain records that a vocabulary is made of.

/// A concept, by the way in which it is made. Concepts and roles go by their numbers, from 0.
#[derive(Clone, Copy, PartialEq, Eq, Debug, Default)]
pub enum Concept {
    /// A concept that has only a name.
    #[default]
    Atomic,
    /// The concept of everything.
    Top,
    /// What lies in both of two earlier concepts.
    Conjunction(u16, u16),
    /// What a role (first) relates to something in an earlier concept (second).
    Restriction(u16, u16),
}

/// The statement that one concept lies inside another, at the points of a code.
#[derive(Clone, Copy, PartialEq, Eq, Debug, Default)]
pub struct Inclusion {
    pub sub: u16,
    pub sup: u16,
    pub code: u16,
}
