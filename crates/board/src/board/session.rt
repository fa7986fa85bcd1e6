//! A board at work, with the terms and the pile that go with it.
//!
//! The borrow checker lets a session be lent only where its three parts have one lifetime with a name. The parameters of the public calls
//! have lifetimes of their own, so these go through `OpenBoard::work` and `OpenBoard::turn`, which make a session and use it once.
ghost use Rattle.terms.specs.Views.{terms_of};
ghost use Rattle.board.specs.Views.{moment};
ghost use Rattle.board.specs.Rejections.{Ready};

use super::OpenBoard;
use grades::kind::GradeKind;
use piles::pile::Pile;
use terms::terms::Terms;

/// What drawing conclusions needs: the board that it writes to, the terms that the rules read, and the pile of what it queues.
#[derive(Drop)]
pub(crate) struct Session<'w, 'a, 't, K, P>
where
    K: GradeKind,
    P: Pile,
{
    pub(super) board: &'w mut OpenBoard<'a, K>,
    pub(super) terms: &'w Terms<'t>,
    pub(super) pile: &'w mut P,
    ghost ready: { Ready (terms_of terms.now) P.shape (moment board.now pile.now) },
}
