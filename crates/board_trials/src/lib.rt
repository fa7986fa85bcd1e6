//! Every rejection of putting, checking and running at its edge: the last value that is accepted, the first that is rejected, and the first
//! of two faults; and what a making, which rejects nothing, leaves where a check would reject.
#![tactic(auto)]

#[cfg(test)]
mod making;
#[cfg(test)]
mod running;

/// How many concepts and inclusions the lists of the tests have room for.
#[cfg(test)]
const MOST: usize = 4;
