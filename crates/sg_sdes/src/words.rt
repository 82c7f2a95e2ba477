//! Words with one or more spaces between them.

ghost use Rattle.std.specs.Prelude.{◌≡◌, ◌<◌, ◌≤◌, ◌∷◌, ℕ, List, [], drop, length, Option, option_map, IfSome};
ghost use Rattle.sg_sdes.specs.Words.{without_spaces, word_at, words_behind, words_of};

use sg_base::cut;

fn behind_spaces(text: &[u8]) -> &[u8]
    ensures value { result.now ≡ without_spaces text.now }
    ensures most { length result.now ≤ length text.now }
{
    let mut rest = text;
    while let [first, others @ ..] = rest {
        if *first != b' ' {
            return rest;
        }
        rest = others;
    }
    rest
}

/// The first word of a text, and what stands behind the spaces after it; no rest where no space follows.
pub(crate) fn first_word(text: &[u8]) -> (&[u8], Option<&[u8]>)
    ensures words { words_of text.now ≡ result.0.now ∷ words_behind (option_map (λ rest. rest.now) result.1) }
    ensures shorter { IfSome result.1 (λ rest. length rest.now < length text.now) }
{
    let Some((word, rest)) = cut(b' ', text) else {
        return (text, None);
    };
    (word, Some(behind_spaces(rest)))
}

/// The first word of the rest of a text, and the rest behind it; an empty word where there is no rest.
pub(crate) fn next_word(text: Option<&[u8]>) -> (&[u8], Option<&[u8]>)
    ensures word { result.0.now ≡ word_at (words_behind (option_map (λ rest. rest.now) text.entry)) 0 }
    ensures rest { words_behind (option_map (λ rest. rest.now) result.1) ≡ drop 1 (words_behind (option_map (λ rest. rest.now) text.entry)) }
{
    let Some(text) = text else {
        return (&[], None);
    };
    first_word(text)
}
