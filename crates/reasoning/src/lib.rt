//! What follows from a vocabulary: finite models, the rules of derivation, and the theorems that join the two; and the
//! parts of a job. All functions but those of a job do nothing: each carries a theorem in its contract.
#![tactic(auto)]

ghost use Rattle.reasoning.specs.Truth.{Sound, Complete, Exact, Least};

/// What a classification finds. Concepts and roles go by their numbers.
#[derive(Clone, Copy)]
pub enum Fact {
    /// The first concept lies inside the second.
    Under(u16, u16),
    /// Whatever the role relates to something in the first concept lies inside the second.
    Implies(u16, u16, u16),
}

/// A fact at a concept where the rules use it as a premise.
#[derive(Clone, Copy)]
pub enum Job {
    /// "First under second", at the first concept.
    Own(u16, u16),
    /// "First under second", where the second restricts a role to a filler, at that filler.
    Link(u16, u16),
    /// "Second concept implied through the role by the first", at the first concept.
    Imply(u16, u16, u16),
}

/// The sort of a job.
#[derive(Clone, Copy, PartialEq, Eq, Debug)]
pub enum Sort {
    /// A fact at its left concept.
    Own,
    /// A fact at the filler of its right concept.
    Link,
    /// An implication at its left concept.
    Imply,
}

/// What a job is made of: its sort, its role (0 outside implication jobs), its left and its right concept.
#[derive(Clone, Copy, PartialEq, Eq, Debug)]
pub struct Parts {
    pub sort: Sort,
    pub role: u16,
    pub left: u16,
    pub right: u16,
}

impl Job {
    ghost use Rattle.std.specs.Prelude.{◌≡◌};
    ghost use Rattle.reasoning.specs.Parts.{parts_of};

    /// What it is made of.
    pub fn parts(self) -> Parts
        ensures { result ≡ parts_of self }
    {
        let (sort, role, left, right) = match self {
            Job::Own(left, right) => (Sort::Own, 0, left, right),
            Job::Link(left, right) => (Sort::Link, 0, left, right),
            Job::Imply(role, left, right) => (Sort::Imply, role, left, right),
        };
        Parts {
            sort,
            role,
            left,
            right,
        }
    }
}

/// What is derivable holds in every finite model.
pub fn derivations_are_sound()
    ensures { Sound }
{}

/// What holds of a named concept in every finite model stands in every closed table.
pub fn closed_tables_are_complete()
    ensures { Complete }
{}

/// A closed table of derivable facts has a named concept under another just where every finite model says so.
pub fn closed_tables_are_exact()
    ensures { Exact }
{}

/// What is derivable stands in every closed table.
pub fn derivations_are_least()
    ensures { Least }
{}
