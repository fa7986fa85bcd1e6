//! Terms: one vocabulary over lent lists, with the rule that all terms keep.
ghost use Rattle.std.specs.Prelude.{◌≤◌, length};
ghost use Rattle.terms.specs.Rule.{AllEarlier, AllNamed, Reflexive, Transitive, OnRoles, FlaggedRoles};

use crate::records::{Concept, Inclusion};

pub mod fill;
pub mod look;

/// A vocabulary. The fronts of the two lists hold its concepts and inclusions; row r of `order` has bit s where r ≤ s, and
/// `transitive` has a bit for each role.
#[derive(Drop)]
pub struct Terms<'a> {
    // Each list is lent and has its count beside it: the library asks for no heap. Tried as one struct for both: a caller then no
    // longer learns what its lists hold at the end (`c.concepts.given` in the goal), which `Terms::empty` promises.
    concepts: &'a mut [Concept],
    concept_count: usize,
    inclusions: &'a mut [Inclusion],
    inclusion_count: usize,
    role_count: usize,
    // A row for each of the most roles there may be, 0 beyond the count: the library asks for no heap.
    order: [u32; 32],
    transitive: u32,
    ghost fits: { (concept_count ≤ length concepts.now) × (concept_count ≤ 1024) × (inclusion_count ≤ length inclusions.now) × (inclusion_count ≤ 4096) × (role_count ≤ 32) },
    ghost earlier: { AllEarlier role_count concept_count concepts.now },
    ghost named: { AllNamed concept_count inclusion_count inclusions.now },
    ghost reflexive: { Reflexive role_count order },
    ghost chains: { Transitive order },
    ghost on_roles: { OnRoles role_count order },
    ghost flagged: { FlaggedRoles role_count transitive },
}
