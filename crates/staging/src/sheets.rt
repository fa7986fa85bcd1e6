//! Terms that are read from a sheet.
use reference::padded;
use sheet::fault::Fault;
use sheet::read;
use std::alloc::{AllocError, Global};
use terms::records::{Concept, Inclusion};
use terms::terms::Terms;

/// Reads a sheet, whose lines may be short, into terms with room for so many concepts and inclusions, and goes on with them.
pub fn with_terms<T, E, F>(heap: Global, room: usize, sheet: &[u8], then: F) -> Result<T, E>
where
    E: From<AllocError> + From<Fault>,
    F: FnOnce(&Terms) -> Result<T, E> + Drop,
    requires { F.IsAlwaysCallable then }
{
    let text = padded(heap, sheet)?;
    let mut concepts = vec![in heap; Concept::Atomic; room]?;
    let mut inclusions = vec![in heap; Inclusion::default(); room]?;
    let mut terms = Terms::empty(&mut concepts, &mut inclusions);
    read(&text, &mut terms)?;
    then(&terms)
}
