//! Taking, stepping, lowering and rechecking: how workers share a board.
ghost use Rattle.std.specs.Prelude.{◌≡◌, ◌<◌, MatchResult, MatchBool, OnErr};
ghost use Rattle.terms.specs.Views.{terms_of};
ghost use Rattle.saturation.specs.Effects.{Rechecked};
ghost use Rattle.board.specs.Views.{view, moment, SameList};
ghost use Rattle.board.specs.Rejections.{IsHeld, Ready, Unready};
ghost use Rattle.board.specs.Calls.{Taken, Stepped, LoweredBy, RecheckedBy};

use super::OpenBoard;
use super::states::Change;
use crate::tokens::{Lease, LoweredLease, Refused};
use grades::kind::GradeKind;
use piles::pile::Pile;
use reasoning::Job;
use rejections::Rejection;
use saturation::State;
use terms::terms::Terms;

impl<'a, K: GradeKind> OpenBoard<'a, K> {
    /// Whether the terms and the pile go with the board.
    pub(crate) fn admit<P: Pile>(&self, terms: &Terms, pile: &P) -> Result<(), Rejection>
        ensures { let a = moment self.now pile.now in
            MatchResult result (λ _. Ready (terms_of terms.now) P.shape a)
            (Unready (terms_of terms.now) P.shape a) }
    {
        if !self.goes_with(terms) {
            return Err(Rejection::OtherTerms);
        }
        if pile.size() < self.counts.concepts {
            return Err(Rejection::SmallPile);
        }
        Ok(())
    }

    /// Whether `c` is a concept of the board that is held.
    fn is_held(&self, c: u16) -> bool
        ensures { MatchBool result (IsHeld (view self.now) c) (¬ IsHeld (view self.now) c) }
    {
        usize::from(c) < self.counts.concepts && matches!(self.state(c), State::Held)
    }

    /// Draws a queued concept from the pile and makes it held. The lease names it.
    // By `let .. else`, which is as plain as `ok_or(..)?`.
    pub fn take<P: Pile>(&mut self, pile: &mut P) -> Result<Lease, Rejection>
        ensures list { SameList self.old self.new }
        ensures taken { Taken P.shape (moment self.old pile.old) (moment self.new pile.new) result }
        ensures rejected { OnErr result (self.new ≡ self.old) }
    {
        if P::size(pile) < self.counts.concepts {
            return Err(Rejection::SmallPile);
        }
        let Some(concept) = pile.draw() else {
            return Err(Rejection::EmptyPile);
        };
        if usize::from(concept) < self.counts.concepts && self.shift(concept, Change::Take) {
            return Ok(Lease { concept });
        }
        let _ = pile.put(concept);
        Err(Rejection::NotQueued)
    }

    /// Does the first job that waits at the lease's concept, and answers it.
    pub fn step<P: Pile>(
        &mut self,
        terms: &Terms,
        pile: &mut P,
        lease: &Lease,
    ) -> Result<Job, Rejection>
        ensures list { SameList self.old self.new }
        ensures stepped { Stepped (terms_of terms.now) K.kind P.shape lease.now
            (moment self.old pile.old) (moment self.new pile.new) result }
        ensures rejected { OnErr result (self.new ≡ self.old) }
    {
        self.admit(terms, pile)?;
        if !self.is_held(lease.concept) {
            return Err(Rejection::UnfitLease);
        }
        self.work(terms, pile, lease.concept)
            .ok_or(Rejection::NothingWaits)
    }

    /// Gives a lease back and makes its concept idle. The lowered lease asks for a recheck.
    pub fn lower(&mut self, lease: Lease) -> Result<LoweredLease, Refused<Lease>>
        ensures list { SameList self.old self.new }
        ensures lowered { LoweredBy lease (view self.old) (view self.new) result }
        ensures rejected { OnErr result (self.new ≡ self.old) }
    {
        if usize::from(lease.concept) < self.counts.concepts
            && self.shift(lease.concept, Change::Lower)
        {
            let Lease { concept } = lease;
            Ok(LoweredLease { concept })
        } else {
            Err(Refused {
                rejection: Rejection::UnfitLease,
                token: lease,
            })
        }
    }

    /// Queues `c` if it is idle and a job waits there.
    // Outside a session, since `recheck` hands over parts of other lifetimes.
    fn review<P: Pile>(&mut self, terms: &Terms, pile: &mut P, c: u16)
        requires ready { Ready (terms_of terms.now) P.shape (moment self.old pile.old) }
        requires within { c < (view self.old).concepts }
        ensures list { SameList self.old self.new }
        ensures rechecked { Rechecked (terms_of terms.now) P.shape c (moment self.old pile.old)
            (moment self.new pile.new) }
    {
        if self.first(terms, c).is_some() {
            self.queue(pile, c, Change::Recheck);
        }
    }

    /// Looks once more at a concept that was lowered, and queues it if it is idle and a job waits there.
    pub fn recheck<P: Pile>(
        &mut self,
        terms: &Terms,
        pile: &mut P,
        lowered: LoweredLease,
    ) -> Result<(), Refused<LoweredLease>>
        ensures list { SameList self.old self.new }
        ensures rechecked { RecheckedBy (terms_of terms.now) P.shape lowered
            (moment self.old pile.old) (moment self.new pile.new) result }
        ensures rejected { OnErr result (self.new ≡ self.old) }
    {
        // Not by `?`, since the token goes back with the rejection.
        if let Err(rejection) = self.admit(terms, pile) {
            return Err(Refused {
                rejection,
                token: lowered,
            });
        }
        if usize::from(lowered.concept) >= self.counts.concepts {
            return Err(Refused {
                rejection: Rejection::UnfitLease,
                token: lowered,
            });
        }
        let LoweredLease { concept } = lowered;
        self.review(terms, pile, concept);
        Ok(())
    }
}
