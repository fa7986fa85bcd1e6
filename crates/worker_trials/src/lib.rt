//! Random histories of workers on two boards over the same terms, compared with one single run and with the other classifier.
#![tactic(auto)]

#[cfg(test)]
mod comparing;
#[cfg(test)]
mod history;
#[cfg(test)]
mod slots;
#[cfg(test)]
mod tests;
#[cfg(test)]
mod trial;
