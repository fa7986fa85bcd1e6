//! Boundary cases of reading a sheet, as tests that run, and a caller that learns from the contracts what its lent lists hold.
#![tactic(auto)]

ghost use Rattle.std.specs.Prelude.{◌≡◌, length, MatchResult};
ghost use Rattle.terms.specs.Counting.{room_for};
ghost use Rattle.terms.specs.Lent.{onto};
ghost use Rattle.sheet.specs.Sheet.{sheet_of, contents_in};

use sheet::fault::Fault;
use sheet::read;
use terms::records::{Concept, Inclusion};
use terms::terms::Terms;

#[cfg(test)]
mod tests;

/// Reads a sheet into two lists, whose fronts then hold its concepts and inclusions. A sheet with a fault leaves them.
pub fn load(
    concepts: &mut [Concept],
    inclusions: &mut [Inclusion],
    text: &[u8],
) -> Result<usize, Fault>
    ensures result { result ≡ sheet_of (room_for (length concepts.old) (length inclusions.old))
        text.now }
    ensures lists { MatchResult result
        (λ _. (concepts.new ≡ onto (contents_in text.now).concepts concepts.old)
        × (inclusions.new ≡ onto (contents_in text.now).inclusions inclusions.old))
        (λ _. (concepts.new ≡ concepts.old) × (inclusions.new ≡ inclusions.old)) }
{
    let mut terms = Terms::empty(concepts, inclusions);
    read(text, &mut terms)
}
