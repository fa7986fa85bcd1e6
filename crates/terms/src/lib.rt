//! Vocabularies: concepts, inclusions, and the order and transitivity of the roles, held in lists that the caller lends.
#![tactic(auto)]

pub mod collector;
pub mod entry;
pub mod records;
pub mod tally;
pub mod terms;
mod words;
