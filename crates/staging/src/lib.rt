//! What the trials of the board share: terms that are read from a sheet, hands with a board to which they are shown, and why a trial stopped.
//! It is test equipment: what is proved of it is that each function is safe and ends, and of a session what sort of hand it leaves and what a run
//! that ends well has done.
#![tactic(auto)]

pub mod hands;
pub mod sheets;
pub mod trouble;
