//! So many words and no more, and known words.
ghost use Rattle.std.specs.Prelude.{◌≡◌, ◌∷◌, [], List, ℕ, IfSome, IsNone};
ghost use Rattle.at_words.specs.Words.{words_of};

use at_words::Words;

pub(crate) fn one<'a>(mut words: Words<'a>) -> Option<&'a [u8]>
    ensures said { IfSome result (λ word. words_of words.entry.rest.now ≡ word.now ∷ []) }
    ensures only { IsNone result → (v : List ℕ) → ¬ (words_of words.entry.rest.now ≡ v ∷ []) }
{
    let word = words.next()?;
    words.end()?;
    Some(word)
}

pub(crate) fn two<'a>(mut words: Words<'a>) -> Option<(&'a [u8], &'a [u8])>
    ensures said { IfSome result (λ r. words_of words.entry.rest.now ≡ r.0.now ∷ r.1.now ∷ []) }
    ensures only { IsNone result → (v w : List ℕ) → ¬ (words_of words.entry.rest.now ≡ v ∷ w ∷ []) }
{
    let first = words.next()?;
    let second = words.next()?;
    words.end()?;
    Some((first, second))
}

pub(crate) fn three<'a>(mut words: Words<'a>) -> Option<(&'a [u8], &'a [u8], &'a [u8])>
    ensures said { IfSome result (λ r. words_of words.entry.rest.now ≡ r.0.now ∷ r.1.now ∷ r.2.now ∷ []) }
    ensures only { IsNone result → (u v w : List ℕ) → ¬ (words_of words.entry.rest.now ≡ u ∷ v ∷ w ∷ []) }
{
    let first = words.next()?;
    let second = words.next()?;
    let third = words.next()?;
    words.end()?;
    Some((first, second, third))
}
