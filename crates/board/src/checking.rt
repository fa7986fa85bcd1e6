//! Checking what is handed over for a board.
ghost use Rattle.std.specs.Prelude.{ℕ, length, MatchResult};
ghost use Rattle.piles.specs.Sets.{Numbers};
ghost use Rattle.terms.specs.Views.{terms_of};
ghost use Rattle.board.specs.Rejections.{Coded, CheckRejected};
ghost use Rattle.board.specs.Calls.{CheckedBy};

use crate::counts::Counts;
use grades::kind::GradeKind;
use piles::pile::Pile;
use rejections::Rejection;
use terms::terms::Terms;

/// Whether every inclusion's code is one of the kind.
fn check_codes<K: GradeKind>(terms: &Terms, _kind: K) -> Result<(), Rejection>
    ensures { let v = terms_of terms.now in
        MatchResult result (λ _. Coded v K.kind)
        (λ e. (words : ℕ) (s : Numbers) → CheckRejected v K.kind words s e) }
{
    if terms
        .inclusions()
        .iter()
        .any(|inclusion| u32::from(inclusion.code) >= K::count())
    {
        return Err(Rejection::ForeignCode);
    }
    Ok(())
}

/// Whether a board can be made for the terms, over the words and the pile.
pub fn check<K: GradeKind, P: Pile>(
    terms: &Terms,
    words: &[u16],
    pile: &P,
    kind: K,
) -> Result<(), Rejection>
    ensures { CheckedBy (terms_of terms.now) K.kind (length words.now) (P.shape.numbers pile.now)
        result }
{
    check_codes(terms, kind)?;
    let counts = Counts::of(terms);
    if words.len() < counts.words() {
        return Err(Rejection::TooFewWords);
    }
    if pile.size() < counts.concepts || pile.count() > 0 {
        return Err(Rejection::UnfitPile);
    }
    Ok(())
}
