//! Term sheets: the text form of a vocabulary, read into terms.
#![tactic(auto)]

pub mod columns;
pub mod fault;
pub mod field;
mod kind;
pub mod line;
mod parts;
mod reading;

pub use reading::read;
