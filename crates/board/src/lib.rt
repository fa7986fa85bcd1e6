//! The board: the shared state of one saturation, and every call on it.
#![tactic(auto)]

pub mod board;
pub mod checking;
mod counts;
mod lookup;
pub mod tokens;

/// The closed board, also by a path of its own.
pub mod closed {
    pub use crate::board::ClosedBoard;
}
