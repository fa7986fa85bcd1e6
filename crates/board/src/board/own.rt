//! What an own job draws: the rules that have one premise, and the rule of conjunctions.
ghost use Rattle.std.specs.Prelude.{◌<◌, length};
ghost use Rattle.board.specs.Views.{view};
ghost use Rattle.board.specs.Sessions.{SessionDrawn};
ghost use Rattle.board.specs.OwnDraws.{AnyBelow, ByStated, ByBoth, ByConcept, ByOperands, ByOwn};

use super::session::Session;
use crate::lookup::concept_at;
use grades::kind::GradeKind;
use piles::pile::Pile;
use reasoning::{Fact, Job};
use terms::records::Concept;

/// What an own job brings: its left concept is under its right one, at the points of a grade.
// That `left` is below the count stays a clause: a ghost field here cannot name the board's count.
#[derive(Clone, Copy)]
pub(crate) struct Known {
    pub(crate) left: u16,
    pub(crate) right: u16,
    pub(crate) grade: u16,
}

impl<'w, 'a, 't, K: GradeKind, P: Pile> Session<'w, 'a, 't, K, P> {
    /// Draws by the stated inclusions: the rule stated.
    fn draw_stated(&mut self, known: Known)
        requires { known.left < (view self.old.board.now).concepts }
        ensures { SessionDrawn (AnyBelow (λ v. length v.inclusions) (ByStated known)) self.old
            self.new }
    {
        let terms = self.terms;
        for inclusion in terms.inclusions() {
            if inclusion.sub == known.right {
                let grade = K::meet(known.grade, inclusion.code);
                self.raise(Fact::Under(known.left, inclusion.sup), grade);
            }
        }
    }

    /// Draws by `x`, a conjunction of `near` and `far`, where `near` is the right concept: the rule both.
    fn draw_both(&mut self, known: Known, x: u16, near: u16, far: u16)
        requires left { known.left < (view self.old.board.now).concepts }
        requires right { x < (view self.old.board.now).concepts }
        requires far { far < (view self.old.board.now).concepts }
        ensures { SessionDrawn (ByBoth known x near far) self.old self.new }
    {
        if near == known.right {
            let h = self.board.done(Job::Own(known.left, far));
            self.raise(Fact::Under(known.left, x), K::meet(known.grade, h));
        }
    }

    /// Draws by the concept `x`: the rules top, both and some.
    fn draw_concept(&mut self, known: Known, x: u16)
        requires left { known.left < (view self.old.board.now).concepts }
        requires right { x < (view self.old.board.now).concepts }
        ensures { SessionDrawn (ByConcept known x) self.old self.new }
    {
        match concept_at(self.terms, x) {
            Concept::Atomic => {}
            Concept::Top => {
                if known.left == known.right {
                    self.raise(Fact::Under(known.left, x), known.grade);
                }
            }
            Concept::Conjunction(d, e) => {
                self.draw_both(known, x, d, e);
                self.draw_both(known, x, e, d);
            }
            Concept::Restriction(s, d) => {
                if d == known.right {
                    self.raise(Fact::Implies(s, known.left, x), known.grade);
                }
            }
        }
    }

    /// Draws by the concepts, each by what it is made of.
    fn draw_concepts(&mut self, known: Known)
        requires { known.left < (view self.old.board.now).concepts }
        ensures { SessionDrawn (AnyBelow (λ v. length v.concepts) (ByConcept known)) self.old
            self.new }
    {
        // By number: the concept beside it would be one more parameter, with a clause that it is the concept of that number.
        for x in 0..self.terms.concepts().len() {
            self.draw_concept(known, x as u16);
        }
    }

    /// Draws by what the right concept is made of: the rules left, right and filler.
    fn draw_operands(&mut self, known: Known)
        requires left { known.left < (view self.old.board.now).concepts }
        requires right { known.right < (view self.old.board.now).concepts }
        ensures { SessionDrawn (ByOperands known) self.old self.new }
    {
        match concept_at(self.terms, known.right) {
            Concept::Atomic | Concept::Top => {}
            Concept::Conjunction(d, e) => {
                self.raise(Fact::Under(known.left, d), known.grade);
                self.raise(Fact::Under(known.left, e), known.grade);
            }
            Concept::Restriction(_, d) => self.raise(Fact::Under(d, d), known.grade),
        }
    }

    /// Draws all that an own job draws.
    pub(super) fn draw_own(&mut self, known: Known)
        requires left { known.left < (view self.old.board.now).concepts }
        requires right { known.right < (view self.old.board.now).concepts }
        ensures { SessionDrawn (ByOwn known) self.old self.new }
    {
        self.draw_stated(known);
        self.draw_operands(known);
        self.draw_concepts(known);
    }
}
