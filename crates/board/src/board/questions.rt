//! Questions to a closed board. Each tests what it asks for upwards, by the numbers of the rejections, and alters nothing but the front of
//! the list that an accepted question fills.
ghost use Rattle.std.specs.Prelude.{take, IfOk};
ghost use Rattle.terms.specs.Views.{terms_of};
ghost use Rattle.board.specs.Views.{view};
ghost use Rattle.board.specs.declared.board.asking.Question.TheVariants as asking;
ghost use Rattle.board.specs.Questions.{SettledOr, Under, Filled, UnderTruth, ListTruth};

use super::ClosedBoard;
use super::asking::{Asked, Question};
use grades::kind::GradeKind;
use reasoning::Fact;
use rejections::Rejection;
use terms::terms::Terms;

impl<'a, K: GradeKind> ClosedBoard<'a, K> {
    /// Tests that the terms have the board's counts, and that no job waits.
    fn settled(&self, terms: &Terms) -> Result<(), Rejection>
        ensures { SettledOr (terms_of terms.now) (view self.now) result }
    {
        if !self.goes_with(terms) {
            return Err(Rejection::OtherTerms);
        }
        if self.any_waits(terms) {
            return Err(Rejection::JobWaits);
        }
        Ok(())
    }

    /// The grade of "a under d", where a is a named concept.
    pub fn under(&self, terms: &Terms, a: u16, d: u16) -> Result<u16, Rejection>
        ensures answer { Under (terms_of terms.now) (view self.now) a d result }
        ensures truth { IfOk result (UnderTruth (terms_of terms.now) K.kind (view self.now) a d) }
    {
        self.settled(terms)?;
        if !terms.is_named(a) || usize::from(d) >= self.counts.concepts {
            return Err(Rejection::NoSuchConcept);
        }
        Ok(self.found(Fact::Under(a, d)))
    }

    /// Fills the list with the mates or the parents of a concept at a point.
    fn fill(
        &self,
        terms: &Terms,
        question: Question,
        a: u16,
        point: u8,
        list: &mut [u16],
    ) -> Result<usize, Rejection>
        ensures answer { Filled question (terms_of terms.now) K.kind (view self.now) a point
            list.old list.new result }
        ensures truth { IfOk result (λ n. ListTruth question (terms_of terms.now) K.kind
            (view self.now) a point (take n list.new)) }
    {
        self.settled(terms)?;
        if !terms.is_named(a) {
            return Err(Rejection::NoSuchConcept);
        }
        if point >= K::points() {
            return Err(Rejection::NoSuchPoint);
        }
        let asked = Asked {
            board: self,
            terms,
            question,
            concept: a,
            point,
        };
        let count = asked.count_wanted();
        if count > list.len() {
            return Err(Rejection::ShortList);
        }
        asked.write_wanted(list);
        Ok(count)
    }

    /// The mates of a named concept at a point, ascending, written to the front of the list; their count is answered.
    pub fn mates(
        &self,
        terms: &Terms,
        a: u16,
        point: u8,
        list: &mut [u16],
    ) -> Result<usize, Rejection>
        ensures answer { Filled asking.Mates (terms_of terms.now) K.kind (view self.now) a point
            list.old list.new result }
        ensures truth { IfOk result (λ n. ListTruth asking.Mates (terms_of terms.now) K.kind
            (view self.now) a point (take n list.new)) }
    {
        self.fill(terms, Question::Mates, a, point, list)
    }

    /// The parents of a named concept at a point, ascending, written to the front of the list; their count is answered.
    pub fn parents(
        &self,
        terms: &Terms,
        a: u16,
        point: u8,
        list: &mut [u16],
    ) -> Result<usize, Rejection>
        ensures answer { Filled asking.Parents (terms_of terms.now) K.kind (view self.now) a point
            list.old list.new result }
        ensures truth { IfOk result (λ n. ListTruth asking.Parents (terms_of terms.now) K.kind
            (view self.now) a point (take n list.new)) }
    {
        self.fill(terms, Question::Parents, a, point, list)
    }
}
