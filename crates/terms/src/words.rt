//! Bits of words.
ghost use Rattle.std.specs.Prelude.{◌≡◌};
ghost use Rattle.terms.specs.Contents.{bit};

/// Whether bit k of the word is set; a word has no bit beyond its width.
pub(crate) fn has_bit(word: u32, k: usize) -> bool
    ensures { result ≡ bit word k }
{
    k < 32 && (word >> k) % 2 == 1
}
