//! Mates and parents, as they are defined, from the table.
use crate::rounds::Table;
use crate::vocabularies::{Vocabulary, has};
use std::alloc::{AllocError, Global};

/// The table of a vocabulary at one point.
#[derive(Clone, Copy)]
pub struct AtPoint<'a> {
    pub table: &'a Table,
    pub vocabulary: &'a Vocabulary,
    pub point: usize,
}

impl AtPoint<'_> {
    /// Whether both are atomic and the first lies under the second.
    fn below(&self, left: usize, right: usize) -> bool {
        self.vocabulary.is_atomic(left)
            && self.vocabulary.is_atomic(right)
            && has(self.table.under(left, right), self.point)
    }

    /// Whether each lies under the other.
    fn same(&self, left: usize, right: usize) -> bool {
        self.below(left, right) && self.below(right, left)
    }

    /// Whether the first lies under the second and not the second under the first.
    fn strictly_below(&self, left: usize, right: usize) -> bool {
        self.below(left, right) && !self.below(right, left)
    }

    /// Whether b is a mate of a: another, and each lies under the other.
    fn is_mate(&self, a: usize, b: usize) -> bool {
        a != b && self.same(a, b)
    }

    /// Whether b is a parent of a: a lies strictly below it, with nothing between, and no mate of b has a lower number.
    fn is_parent(&self, a: usize, b: usize) -> bool {
        self.strictly_below(a, b)
            && !(0..self.table.concepts).any(|c| self.strictly_below(a, c)
                && self.strictly_below(c, b)
                || c < b && self.same(c, b))
    }

    /// The concepts that the test holds of, ascending.
    fn chosen<F: FnMut(usize) -> bool>(
        &self,
        heap: Global,
        mut test: F,
    ) -> Result<Vec<u16>, AllocError>
        requires { (state : F) (b : _) → F.pre state b }
    {
        // All of them, since a sheet has at most 1024. `take` on a range of all numbers: the check finds no proof that `test` may be called.
        let concepts = u16::try_from(self.table.concepts).unwrap_or(u16::MAX);
        (0..concepts)
            .filter(|b| test(usize::from(*b)))
            .collect(heap)
    }

    /// The mates of an atomic concept, ascending.
    pub fn mates(&self, heap: Global, a: usize) -> Result<Vec<u16>, AllocError> {
        self.chosen(heap, |b| self.is_mate(a, b))
    }

    /// The parents of an atomic concept, ascending.
    pub fn parents(&self, heap: Global, a: usize) -> Result<Vec<u16>, AllocError> {
        self.chosen(heap, |b| self.is_parent(a, b))
    }
}
