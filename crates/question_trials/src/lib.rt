//! Every rejection of a question at its edge: the last value that is accepted, the first that is rejected, and the first of two faults.
#![tactic(auto)]

#[cfg(test)]
mod tests;
