//! A worker's hand, and a board to which it is shown.
ghost use Rattle.std.specs.Prelude.{◌≡◌, true, IsOk};
ghost use Rattle.terms.specs.Views.{terms_of};
ghost use Rattle.board.specs.Views.{moment};
ghost use Rattle.staging.specs.Hands.{is_empty, is_holding, is_owing, Dealt, RanOut};

use board::board::OpenBoard;
use board::tokens::{Lease, LoweredLease, Refused};
use grades::kind::GradeKind;
use piles::pile::Pile;
use rejections::Rejection;
use saturation::Outcome;
use terms::terms::Terms;

/// What a worker has in hand. It is not `Drop`, since tokens may be in it.
pub enum Hand {
    Empty,
    Holding(Lease),
    Owing(LoweredLease),
}

/// Why a deed came to nothing.
#[derive(Clone, Copy, PartialEq, Eq, Debug)]
pub enum Refusal {
    /// The board rejected the call.
    Rejected(Rejection),
    /// The hand was not one for the call.
    OtherHand,
    /// The board handed back another token.
    OtherToken,
    /// A run did not come to its end.
    Unfinished,
}

/// What came of a hand that was shown: the hand after it, and the answer.
pub struct Shown {
    pub hand: Hand,
    pub answer: Result<(), Refusal>,
}

/// A board on which work goes on, with its pile and with terms.
#[derive(Drop)]
pub struct Session<'b, 'w, 'p, 't, K: GradeKind, P> {
    pub board: &'b mut OpenBoard<'w, K>,
    pub pile: &'p mut P,
    pub terms: &'t Terms<'t>,
}

impl From<Rejection> for Refusal {
    fn from(rejection: Rejection) -> Refusal {
        Refusal::Rejected(rejection)
    }
}

impl Refusal {
    /// The rejection, where the token that was handed back is the same.
    fn of(rejection: Rejection, same: bool) -> Refusal {
        if same {
            Refusal::Rejected(rejection)
        } else {
            Refusal::OtherToken
        }
    }
}

impl Hand {
    /// The hand after a deed, and its answer.
    fn shown(self, answer: Result<(), Refusal>) -> Shown
        ensures { result ≡ record { hand = self; answer = answer } }
    {
        Shown { hand: self, answer }
    }
}

impl<'b, 'w, 'p, 't, K: GradeKind, P> Session<'b, 'w, 'p, 't, K, P> {
    /// The board with its pile and the terms.
    pub fn new(board: &'b mut OpenBoard<'w, K>, pile: &'p mut P, terms: &'t Terms<'t>) -> Self
        ensures { (result.board.now ≡ board.old) × (result.pile.now ≡ pile.old) ×
            (result.terms.now ≡ terms.now) }
    {
        Session { board, pile, terms }
    }
}

impl<'b, 'w, 'p, 't, K: GradeKind, P: Pile> Session<'b, 'w, 'p, 't, K, P> {
    /// Takes a concept into an empty hand.
    pub fn take(&mut self, hand: Hand) -> Shown
        ensures { Dealt is_empty is_holding hand result }
    {
        let Hand::Empty = hand else {
            return hand.shown(Err(Refusal::OtherHand));
        };
        match self.board.take(self.pile) {
            Ok(lease) => Hand::Holding(lease).shown(Ok(())),
            Err(rejection) => Hand::Empty.shown(Err(Refusal::Rejected(rejection))),
        }
    }

    /// Shows the lease in hand for a step.
    pub fn step(&mut self, hand: &Hand) -> Result<(), Refusal>
        ensures { IsOk result → is_holding hand.now ≡ true }
    {
        let Hand::Holding(lease) = hand else {
            return Err(Refusal::OtherHand);
        };
        self.board.step(self.terms, self.pile, lease)?;
        Ok(())
    }

    /// Shows the lease in hand for a lowering.
    pub fn lower(&mut self, hand: Hand) -> Shown
        ensures { Dealt is_holding is_owing hand result }
    {
        let Hand::Holding(lease) = hand else {
            return hand.shown(Err(Refusal::OtherHand));
        };
        let concept = lease.concept();
        match self.board.lower(lease) {
            Ok(lowered) => Hand::Owing(lowered).shown(Ok(())),
            Err(Refused { rejection, token }) => {
                let same = token.concept() == concept;
                Hand::Holding(token).shown(Err(Refusal::of(rejection, same)))
            }
        }
    }

    /// Shows the lowered lease in hand for a recheck.
    pub fn recheck(&mut self, hand: Hand) -> Shown
        ensures { Dealt is_owing is_empty hand result }
    {
        let Hand::Owing(lowered) = hand else {
            return hand.shown(Err(Refusal::OtherHand));
        };
        let concept = lowered.concept();
        match self.board.recheck(self.terms, self.pile, lowered) {
            Ok(()) => Hand::Empty.shown(Ok(())),
            Err(Refused { rejection, token }) => {
                let same = token.concept() == concept;
                Hand::Owing(token).shown(Err(Refusal::of(rejection, same)))
            }
        }
    }

    /// Runs to the end.
    pub fn run(&mut self) -> Result<(), Refusal>
        ensures { IsOk result → RanOut (terms_of self.old.terms.now) K.kind P.shape
            (moment self.old.board.now self.old.pile.now)
            (moment self.new.board.now self.new.pile.now) }
    {
        match self.board.run(self.terms, self.pile, u64::MAX)?.outcome {
            Outcome::Finished => Ok(()),
            Outcome::Spent | Outcome::Left => Err(Refusal::Unfinished),
        }
    }
}
