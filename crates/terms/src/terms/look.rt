//! Looking a vocabulary up.
ghost use Rattle.std.specs.Prelude.{◌≡◌};
ghost use Rattle.terms.specs.Views.{terms_of};
ghost use Rattle.terms.specs.Vocabularies.{is_named};

use super::Terms;
use crate::records::{Concept, Inclusion};
use crate::words::has_bit;

impl<'a> Terms<'a> {
    /// The concepts, by their numbers.
    pub fn concepts(&self) -> &[Concept]
        ensures { result.now ≡ (terms_of self.now).concepts }
    {
        let all = &*self.concepts;
        &all[0..self.concept_count]
    }

    /// The inclusions, in the order of their statement.
    pub fn inclusions(&self) -> &[Inclusion]
        ensures { result.now ≡ (terms_of self.now).inclusions }
    {
        let all = &*self.inclusions;
        &all[0..self.inclusion_count]
    }

    /// How many roles there are.
    pub fn roles(&self) -> usize
        ensures { result ≡ (terms_of self.now).roles }
    {
        self.role_count
    }

    /// Whether r ≤ s in the order of the roles; false for a number that is no role.
    pub fn is_below(&self, r: usize, s: usize) -> bool
        ensures { result ≡ (terms_of self.now).below r s }
    {
        self.order.get(r).is_some_and(|row| has_bit(*row, s))
    }

    /// Whether the role is transitive; false for a number that is no role.
    pub fn is_transitive(&self, r: usize) -> bool
        ensures { result ≡ (terms_of self.now).transitive r }
    {
        has_bit(self.transitive, r)
    }

    /// Whether the number is that of a named concept: one that counts in start facts, listings and questions.
    pub fn is_named(&self, c: u16) -> bool
        ensures { result ≡ is_named (terms_of self.now) c }
    {
        matches!(self.concepts().get(c as usize), Some(Concept::Atomic))
    }
}
