//! Texts without what doesn't tell two names apart: case, accents, punctuation and spaces.
ghost use Rattle.std.specs.Prelude.{◌≡◌, IfOk, chars, encode_utf8_all, filter, string_bytes};
ghost use Rattle.caseless.specs.Caseless.{default_case_fold};
ghost use Rattle.unicode_normalization.specs.Forms.{nfkd};
ghost use Rattle.phone_places.specs.Folds.{fold_text, is_kept};

use caseless::default_case_fold_str;
use phone_chars::chars::{is_letter, is_nd};
use std::alloc::{AllocError, Global};
use unicode_normalization::to_nfkd;

/// Whether a character of a name is kept: a letter or a digit of any script.
fn is_kept(c: char) -> bool
    ensures { result ≡ is_kept c }
{
    is_letter(c) || is_nd(c)
}

/// A text with each character decomposed, as `ß` stays and `é` becomes `e` and an accent. Refused
/// only for memory.
fn decomposed(alloc: Global, text: &str) -> Result<String, AllocError>
    ensures { IfOk result (λ s. chars (string_bytes s) ≡ nfkd (chars text.now)) }
{
    to_nfkd(alloc, text)
}

/// A text with its case folded. Refused only for memory.
fn case_folded(alloc: Global, text: &str) -> Result<String, AllocError>
    ensures { IfOk result (λ s. chars (string_bytes s) ≡ default_case_fold (chars text.now)) }
{
    default_case_fold_str(alloc, text)
}

/// The letters and digits of a text. Refused only for memory.
fn kept(alloc: Global, text: &str) -> Result<String, AllocError>
    ensures { IfOk result
        (λ s. string_bytes s ≡ encode_utf8_all (filter is_kept (chars text.now))) }
{
    text.chars().filter(|c| is_kept(*c)).collect(alloc)
}

/// A text as names are compared: its compatibility decomposition (Unicode's form NFKD), with case
/// folded, decomposed once more, of which letters and digits stay alone. So `Côte d’Ivoire` and
/// `COTE D IVOIRE` are one. Refused only for memory.
pub fn fold(alloc: Global, text: &str) -> Result<String, AllocError>
    ensures { IfOk result (λ s. string_bytes s ≡ fold_text text.now) }
{
    let parts = decomposed(alloc, text)?;
    let small = case_folded(alloc, parts.as_str())?;
    let parts = decomposed(alloc, small.as_str())?;
    kept(alloc, parts.as_str())
}
