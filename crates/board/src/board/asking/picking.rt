//! Which concepts are mates or parents of the one that is asked about.
ghost use Rattle.std.specs.Prelude.{◌≡◌, ◌<◌, ◌≤◌, length};
ghost use Rattle.terms.specs.Lent.{onto};
ghost use Rattle.saturation.specs.Deciding.{mate_test, between_test, lowest_test, nothing_between_test, parent_test};
ghost use Rattle.board.specs.Views.{view};
ghost use Rattle.board.specs.Asking.{asked_of, under_test, wanted, answer_of};

use super::{Asked, Question};
use grades::kind::GradeKind;
use reasoning::Fact;

impl<'b, 'w, 't, K: GradeKind> Asked<'b, 'w, 't, K> {
    /// Whether `c` is found under `d` at the point.
    // That a number is below the count stays a clause, here and below: a type for such a number would have to name its board.
    fn lies_under(&self, c: u16, d: u16) -> bool
        requires { (c < (view self.now.board.now).concepts) ×
            (d < (view self.now.board.now).concepts) }
        ensures { result ≡ under_test K.kind (view self.now.board.now) self.now.point c d }
    {
        K::holds(self.board.found(Fact::Under(c, d)), self.point)
    }

    /// Whether `c` is a mate of `b`.
    fn are_mates(&self, b: u16, c: u16) -> bool
        requires { b < (view self.now.board.now).concepts }
        ensures { result ≡ asked_of mate_test K.kind self.now b c }
    {
        self.terms.is_named(c) && c != b && self.lies_under(b, c) && self.lies_under(c, b)
    }

    /// Whether `c` lies strictly between the concept and `b`.
    fn is_between(&self, b: u16, c: u16) -> bool
        requires { b < (view self.now.board.now).concepts }
        ensures { result ≡ asked_of between_test K.kind self.now self.now.concept b c }
    {
        self.terms.is_named(c)
            && self.lies_under(self.concept, c)
            && self.lies_under(c, b)
            && !self.lies_under(c, self.concept)
            && !self.lies_under(b, c)
    }

    /// Whether no mate of `b` has a lower number.
    fn is_lowest(&self, b: u16) -> bool
        requires { b < (view self.now.board.now).concepts }
        ensures { result ≡ asked_of lowest_test K.kind self.now b }
    {
        (0..b).all(|c| !self.are_mates(b, c))
    }

    /// Whether no concept lies strictly between the concept and `b`.
    fn nothing_between(&self, b: u16) -> bool
        requires { b < (view self.now.board.now).concepts }
        ensures { result ≡ asked_of nothing_between_test K.kind self.now self.now.concept b }
    {
        (0..self.board.counts.concepts as u16).all(|c| !self.is_between(b, c))
    }

    /// Whether `b` is a parent of the concept.
    fn is_parent(&self, b: u16) -> bool
        ensures { result ≡ asked_of parent_test K.kind self.now self.now.concept b }
    {
        self.terms.is_named(b)
            && self.lies_under(self.concept, b)
            && !self.lies_under(b, self.concept)
            && self.is_lowest(b)
            && self.nothing_between(b)
    }

    /// Whether `b` belongs to the answer.
    fn is_wanted(&self, b: u16) -> bool
        ensures { result ≡ wanted K.kind self.now b }
    {
        match self.question {
            Question::Mates => self.are_mates(self.concept, b),
            Question::Parents => self.is_parent(b),
        }
    }

    /// How many concepts belong to the answer.
    pub(crate) fn count_wanted(&self) -> usize
        ensures { result ≡ length (answer_of K.kind self.now) }
    {
        (0..self.board.counts.concepts as u16)
            .filter(|b| self.is_wanted(*b))
            .count()
    }

    /// Writes the answer, ascending, to the front of the list.
    pub(crate) fn write_wanted(&self, list: &mut [u16])
        requires { length (answer_of K.kind self.now) ≤ length list.old }
        ensures { list.new ≡ onto (answer_of K.kind self.now) list.old }
    {
        // Tried: over a filtered range with `enumerate` the check refuses the loop's own goals (`iterator-loop-place`: expected `RattleType`).
        let mut filled = 0;
        for b in 0..self.board.counts.concepts as u16 {
            if self.is_wanted(b) {
                list[filled] = b;
                filled += 1;
            }
        }
    }
}
