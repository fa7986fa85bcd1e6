//! Every rejection of taking, stepping, lowering and rechecking at its edge: the last value that is accepted, the first that is rejected,
//! the first of two faults, and that nothing was altered.
#![tactic(auto)]

#[cfg(test)]
mod lines;
#[cfg(test)]
mod playing;
#[cfg(test)]
mod score;
#[cfg(test)]
mod scripts;
#[cfg(test)]
mod tests;
