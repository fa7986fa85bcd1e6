//! From the text of a sheet to the listing of its classification.
#![tactic(auto)]

pub mod classification;
pub mod page;
mod rows;
pub mod trouble;
