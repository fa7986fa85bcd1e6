//! Small facts that several crates use: tests over all numbers below a bound. There is no code here; the facts stand in `specs/` and
//! `proofs/`.
#![tactic(auto)]
