//! Running: taking, stepping, lowering and rechecking until no job waits or a budget of steps is used.
ghost use Rattle.std.specs.Prelude.{◌≡◌, OnErr};
ghost use Rattle.terms.specs.Views.{terms_of};
ghost use Rattle.board.specs.Views.{view, moment, SameList};
ghost use Rattle.board.specs.Rejections.{IsHeld, Ready};
ghost use Rattle.board.specs.Calls.{RanBy};
ghost use Rattle.board.specs.Sessions.{at, SameSession};
ghost use Rattle.board.specs.Running.{Exhausted, Turned};

use super::OpenBoard;
use super::session::Session;
use crate::tokens::Lease;
use grades::kind::GradeKind;
use piles::pile::Pile;
use rejections::Rejection;
use saturation::Outcome;
use terms::terms::Terms;

/// How a run ended, and the steps that it did.
#[derive(Clone, Copy)]
pub struct Ran {
    pub outcome: Outcome,
    pub steps: u64,
}

impl<'w, 'a, 't, K: GradeKind, P: Pile> Session<'w, 'a, 't, K, P> {
    /// Steps at `c`, which is held, until no job waits there or the budget is used, and says how often.
    fn exhaust(&mut self, c: u16, budget: u64) -> u64
        requires { IsHeld (view self.old.board.now) c }
        ensures same { SameSession self.old self.new }
        ensures exhausted { Exhausted (terms_of self.old.terms.now) K.kind P.shape c budget result
            (at self.old) (at self.new) }
    {
        for steps in 0..budget {
            if self.work(c).is_none() {
                return steps;
            }
        }
        budget
    }

    /// Steps at the lease's concept, lowers the lease and rechecks, and says how many steps that took.
    fn turn(&mut self, lease: Lease, budget: u64) -> u64
        requires { IsHeld (view self.old.board.now) lease.concept }
        ensures same { SameSession self.old self.new }
        ensures turned { Turned (terms_of self.old.terms.now) K.kind P.shape lease.concept budget
            result (at self.old) (at self.new) }
    {
        let steps = self.exhaust(lease.concept, budget);
        let lowered = self.board.lower(lease).unwrap();
        self.board.recheck(self.terms, self.pile, lowered).unwrap();
        steps
    }
}

impl<'a, K: GradeKind> OpenBoard<'a, K> {
    /// Steps at the lease's concept, lowers the lease and rechecks, and says how many steps that took.
    // A door into a session: see `Session`.
    fn turn<'w, P: Pile>(
        &'w mut self,
        terms: &'w Terms,
        pile: &'w mut P,
        lease: Lease,
        budget: u64,
    ) -> u64
        requires ready { Ready (terms_of terms.now) P.shape (moment self.old pile.old) }
        requires held { IsHeld (view self.old) lease.concept }
        ensures list { SameList self.old self.new }
        ensures turned { Turned (terms_of terms.now) K.kind P.shape lease.concept budget result
            (moment self.old pile.old) (moment self.new pile.new) }
    {
        let mut session = Session {
            board: self,
            terms,
            pile,
        };
        session.turn(lease, budget)
    }

    /// Takes, steps, lowers and rechecks until no job waits, the budget of steps is used, or there is nothing to take.
    pub fn run<P: Pile>(
        &mut self,
        terms: &Terms,
        pile: &mut P,
        budget: u64,
    ) -> Result<Ran, Rejection>
        ensures list { SameList self.old self.new }
        ensures ran { RanBy (terms_of terms.now) K.kind P.shape budget (moment self.old pile.old)
            (moment self.new pile.new) result }
        ensures rejected { OnErr result (self.new ≡ self.old) }
    {
        self.admit(terms, pile)?;
        let mut steps = 0;
        while self.any_waits(terms) {
            if steps == budget {
                return Ok(Ran {
                    outcome: Outcome::Spent,
                    steps,
                });
            }
            let Ok(lease) = self.take(pile) else {
                return Ok(Ran {
                    outcome: Outcome::Left,
                    steps,
                });
            };
            steps += self.turn(&*terms, pile, lease, budget - steps);
        }
        Ok(Ran {
            outcome: Outcome::Finished,
            steps,
        })
    }
}
