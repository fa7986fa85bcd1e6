//! What is written for an input that comes in pieces, is too long, or is no sheet.
#![tactic(auto)]

#[cfg(test)]
mod tests;
