//! Raising the found grade of a fact.
ghost use Rattle.terms.specs.Views.{terms_of};
ghost use Rattle.saturation.specs.Boards.{On};
ghost use Rattle.board.specs.Views.{view};
ghost use Rattle.board.specs.Raises.{Woken, Raises, Gains};
ghost use Rattle.board.specs.Sessions.{SameSession, at};

use super::session::Session;
use super::states::Change;
use crate::lookup::concept_at;
use grades::kind::GradeKind;
use piles::pile::Pile;
use reasoning::Fact;
use terms::records::Concept;

impl<'w, 'a, 't, K: GradeKind, P: Pile> Session<'w, 'a, 't, K, P> {
    /// Queues the idle concepts at which a job of the fact stands.
    fn wake(&mut self, fact: Fact)
        requires { On (view self.old.board.now) fact }
        ensures same { SameSession self.old self.new }
        ensures woken { Woken (terms_of self.old.terms.now) P.shape fact (at self.old)
            (at self.new) }
    {
        match fact {
            Fact::Under(c, d) => {
                self.board.queue(self.pile, c, Change::Raise);
                if let Concept::Restriction(_, b) = concept_at(self.terms, d) {
                    self.board.queue(self.pile, b, Change::Raise);
                }
            }
            Fact::Implies(_, c, _) => self.board.queue(self.pile, c, Change::Raise),
        }
    }

    /// Joins `g` to the found grade of the fact and, where that changes it, queues the concepts that this gives work.
    pub(super) fn raise(&mut self, fact: Fact, g: u16)
        requires { On (view self.old.board.now) fact }
        ensures same { SameSession self.old self.new }
        ensures raised { Raises (terms_of self.old.terms.now) K.kind P.shape (Gains K.kind fact g)
            (at self.old) (at self.new) }
    {
        let old = self.board.found(fact);
        let new = K::join(old, g);
        if new != old {
            self.board.write_found(fact, new);
            self.wake(fact);
        }
    }
}
