//! The board: the shared state of one saturation, over lent words. It is open, for work, or closed, for questions.
ghost use Rattle.std.specs.Prelude.{◌≤◌, length};
ghost use Rattle.saturation.specs.Boards.{Sane};
ghost use Rattle.board.specs.Layout.{words_needed, StateWords};
ghost use Rattle.board.specs.Words.{view_of};

use crate::counts::Counts;
use grades::kind::GradeKind;
use std::marker::PhantomData;

pub(crate) mod asking;
mod calls;
mod closing;
pub(crate) mod finding;
mod joins;
mod making;
mod own;
mod questions;
mod raising;
pub mod running;
mod session;
mod states;
mod view;
mod working;
mod writes;

/// The stage of a board on which work goes on.
pub struct Open;

/// The stage of a board that answers questions.
pub struct Closed;

/// A board at the stage `S`. It keeps the found grade of each fact, the done grade of each job and the state of each concept in
/// `words`, which the caller lends.
#[derive(Drop)]
pub struct Board<'a, K: GradeKind, S> {
    // One lent list, and `Counts` says where each grade lies: the library asks for no heap.
    words: &'a mut [u16],
    counts: Counts,
    steps: u64,
    kind: PhantomData<K>,
    stage: PhantomData<S>,
    ghost fits: { words_needed counts.concepts counts.roles ≤ length words.now },
    ghost states: { StateWords counts.concepts words.now },
    // The grades are codes, and no job is done where its fact is not found.
    ghost sane: { Sane K.kind (view_of words.now counts.concepts counts.roles steps) },
}

/// A board on which work goes on.
pub type OpenBoard<'a, K> = Board<'a, K, Open>;

/// A board to ask.
pub type ClosedBoard<'a, K> = Board<'a, K, Closed>;
