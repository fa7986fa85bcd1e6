//! What can be asked of a concept at a point.
ghost use Rattle.std.specs.Prelude.{◌<◌};
ghost use Rattle.terms.specs.Views.{terms_of};
ghost use Rattle.saturation.specs.Boards.{GoesWith};
ghost use Rattle.board.specs.Views.{view};

mod picking;

use super::ClosedBoard;
use grades::kind::GradeKind;
use terms::terms::Terms;

/// What is asked of a concept.
// An enum and no closure: the public contracts name what was asked, and a closure would stand in each of them with the test that it runs.
#[derive(Clone, Copy)]
pub(crate) enum Question {
    /// Its mates: the other named concepts, each under the other.
    Mates,
    /// Its parents: the nearest named concepts above, one for each group of mates.
    Parents,
}

/// A question about a concept of a board at a point.
#[derive(Drop)]
pub(crate) struct Asked<'b, 'w, 't, K: GradeKind> {
    pub(crate) board: &'b ClosedBoard<'w, K>,
    pub(crate) terms: &'b Terms<'t>,
    pub(crate) question: Question,
    pub(crate) concept: u16,
    pub(crate) point: u8,
    ghost goes: { GoesWith (terms_of terms.now) (view board.now) },
    ghost within: { concept < (view board.now).concepts },
}
