//! Random sheets for trials: sheets without a fault, in which the rules of derivation have much to do, and sheets with one thing changed. It
//! is test equipment: what is proved of it is that each function is safe and ends, and that a random number is
//! below its bound, and what is picked from a list is in the list.
#![tactic(auto)]

mod damage;
mod generator;

pub use damage::damaged;
pub use generator::{Random, Size, random_sheet};
