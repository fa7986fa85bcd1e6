//! Kinds of grade. A grade is a code of 16 bits that says at which points (releases, views) something holds; a kind says which
//! points there are, and which of them each code holds.
#![tactic(auto)]

pub mod kind;
pub mod plain;
pub mod releases;
pub mod views;
