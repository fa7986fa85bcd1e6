//! Another classifier, for trials: the real library is compared with it on random sheets. It shares no code with the library, and it works
//! in another way: facts as sets of points in 64 bits, and every rule over every fact, round after round, until a round adds nothing.
//! It is test equipment. What is proved of it is that each function is safe and ends; that it is right is for its own tests to show.
#![tactic(auto)]

mod answers;
mod columns;
mod faults;
mod kinds;
mod lines;
mod listing;
mod rounds;
mod sheets;
mod vocabularies;

pub use answers::AtPoint;
pub use columns::{padded, push_line, six_columns};
pub use faults::{Fault, Layer, Reason};
pub use kinds::Kind;
pub use lines::{Concept, Inclusion, WIDTH};
pub use listing::expected_output;
pub use rounds::{Table, saturate};
pub use sheets::{Room, first_fault};
pub use vocabularies::{Unread, Vocabulary, read};
