//! A board that any number of workers share: it ends the same, and the empty sheet's board needs no words and no steps. And what calls note in a
//! log.
#![tactic(auto)]

#[cfg(test)]
mod logs;
#[cfg(test)]
mod tests;
