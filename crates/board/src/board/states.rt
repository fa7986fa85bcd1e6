//! The states of concepts, and what a call and a state together lead to.
ghost use Rattle.std.specs.Prelude.{◌≡◌, ◌<◌, true};
ghost use Rattle.std.specs.Bool.{OnFalse};
ghost use Rattle.saturation.specs.declared.State.{State as StateOfConcept};
ghost use Rattle.board.specs.declared.board.states.Change.TheVariants.{Raise as raising};
ghost use Rattle.saturation.specs.Boards.{Wide};
ghost use Rattle.board.specs.Views.{view, moment, SameList};
ghost use Rattle.board.specs.Moves.{after, Shifted, Nudged};

use super::OpenBoard;
use grades::kind::GradeKind;
use piles::pile::Pile;
use saturation::State;

/// What a call does to the state of a concept.
// An enum and no closure, since the contracts name it.
#[derive(Clone, Copy)]
pub(crate) enum Change {
    /// Its number is drawn from the pile.
    Take,
    /// The found grade of a fact that has a job there grows.
    Raise,
    /// Its lease is given back.
    Lower,
    /// It was lowered, and a job waits there.
    Recheck,
}

impl<'a, K: GradeKind> OpenBoard<'a, K> {
    /// Changes the state of `c` as the change asks, and says whether it asks for anything.
    pub(crate) fn shift(&mut self, c: u16, change: Change) -> bool
        requires { c < (view self.old).concepts }
        ensures list { SameList self.old self.new }
        ensures shifted { Shifted c (after change ((view self.old).state c)) (view self.old)
            (view self.new) result }
        ensures unmoved { OnFalse result (self.new ≡ self.old) }
    {
        let next = match (self.state(c), change) {
            (State::Queued, Change::Take) => State::Held,
            (State::Idle, Change::Raise) => State::Queued,
            (State::Held, Change::Lower) => State::Idle,
            (State::Idle, Change::Recheck) => State::Queued,
            _ => return false,
        };
        self.words[c as usize] = next as u16;
        true
    }

    /// Queues `c` where it is idle, and puts its number into the pile.
    pub(crate) fn queue<P: Pile>(&mut self, pile: &mut P, c: u16, change: Change)
        requires within { c < (view self.old).concepts }
        requires wide { Wide P.shape (moment self.old pile.old) }
        requires waking { (s : StateOfConcept) → after change s ≡ after raising s }
        ensures list { SameList self.old self.new }
        ensures nudged { Nudged P.shape c (moment self.old pile.old) (moment self.new pile.new) }
    {
        if self.shift(c, change) {
            let _ = pile.put(c);
        }
    }
}
