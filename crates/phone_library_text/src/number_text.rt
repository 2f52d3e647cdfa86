//! The part of a text that a number is read from.
ghost use Rattle.std.specs.Prelude.{◌≡◌, ◌==◌, ◌++◌, ℕ, List, [], if◌then◌else◌, IfOk, chars};
ghost use Rattle.std.specs.Prelude.{codes, false, option_map, string_bytes, None, Some};
ghost use Rattle.std.specs.Cow.{cow_str_bytes};
ghost use Rattle.std.specs.List.{list_any};
ghost use Rattle.phone_library_text.specs.NumberTexts.{HasNumberText, chars_of, context_in};
ghost use Rattle.phone_library_text.specs.NumberTexts.{context_name, local_part};
ghost use Rattle.phone_library_text.specs.NumberTexts.{without_subaddress};
ghost use Rattle.phone_library_text.specs.Places.{before_first, parted};

use crate::contexts::is_context;
use crate::places::{before_first, is_nothing, split_at_word};
use phone_parts::helper::extract;
use std::alloc::{AllocError, Global};
use std::borrow::CowStr;

/// What names the context of a local number.
const CONTEXT_NAME: &str = ";phone-context=";

/// What begins an ISDN subaddress.
const SUBADDRESS_NAME: &str = ";isub=";

/// What may stand before a local number.
const SCHEME: &str = "tel:";

/// The part of a text that a number is read from, or none. It is lent from the text, but where a
/// global context stands before the local number. Refused only for memory.
pub(crate) fn number_text(alloc: Global, text: &str) -> Result<Option<CowStr<'_>>, AllocError>
    ensures { IfOk result (λ n. HasNumberText (chars text.now)
        (option_map (λ t. chars (cow_str_bytes t)) n)) }
{
    if !text.contains(';') {
        return Ok(lend(plain_text(text)));
    }
    match split_at_word(text, CONTEXT_NAME) {
        Some((front, after)) => with_context(alloc, text, front, before_first(after, ";")),
        None => Ok(lend(free_text(text))),
    }
}

/// A text that is lent, where there is one.
fn lend(text: Option<&str>) -> Option<CowStr<'_>>
    ensures { option_map (λ t. chars (cow_str_bytes t)) result ≡ chars_of text.entry }
{
    match text {
        Some(text) => Some(CowStr::Borrowed(text)),
        None => None,
    }
}

/// What a number is read from in a text without a semicolon: its core.
fn plain_text(text: &str) -> Option<&str>
    ensures { list_any (λ c. c == 59) (chars text.now) ≡ false →
        HasNumberText (chars text.now) (chars_of result) }
{
    extract(text)
}

/// What a number is read from in a text that names no context: its core without a subaddress.
fn free_text(text: &str) -> Option<&str>
    ensures { parted context_name (chars text.now) ≡ None →
        HasNumberText (chars text.now) (chars_of result) }
{
    match extract(text) {
        Some(core) => Some(without_subaddress(core)),
        None => None,
    }
}

/// What a number is read from in a text with a context, which stands behind `front`.
fn with_context<'a>(
    alloc: Global,
    text: &'a str,
    front: &'a str,
    context: &'a str,
) -> Result<Option<CowStr<'a>>, AllocError>
    ensures { IfOk result (λ n. (after : List ℕ) →
        parted context_name (chars text.now) ≡ Some (chars front.now, after) →
        chars context.now ≡ context_in after →
        HasNumberText (chars text.now) (option_map (λ t. chars (cow_str_bytes t)) n)) }
{
    if !is_context(context) {
        return Ok(None);
    }
    let local = local_part(text, front);
    if context.starts_with('+') {
        return Ok(Some(CowStr::Owned(join(alloc, context, local)?)));
    }
    Ok(Some(CowStr::Borrowed(without_subaddress(local))))
}

/// A global context and the local number after it, without a subaddress.
fn join(alloc: Global, context: &str, local: &str) -> Result<String, AllocError>
    ensures { IfOk result (λ s. chars (string_bytes s) ≡
        chars context.now ++ before_first (codes ";isub=") (chars local.now)) }
{
    let mut whole = String::from_str(alloc, context)?;
    whole.push_str(before_first(local, SUBADDRESS_NAME))?;
    Ok(whole)
}

/// The local number of what stands before a context: what follows the text's first `tel:`, or all
/// of it.
fn local_part<'a>(text: &str, front: &'a str) -> &'a str
    ensures { chars result.now ≡ local_part (chars text.now) (chars front.now) }
{
    match split_at_word(front, SCHEME) {
        Some((_, local)) => local,
        None => unless_told(front, split_at_word(text, SCHEME).is_some()),
    }
}

/// A text, or nothing where that is told.
fn unless_told(text: &str, is_told: bool) -> &str
    ensures { chars result.now ≡ (if is_told then [] else chars text.now) }
{
    if is_told { "" } else { text }
}

/// A text without an ISDN subaddress, unless that is at its start.
fn without_subaddress(text: &str) -> &str
    ensures { chars result.now ≡ without_subaddress (chars text.now) }
{
    match split_at_word(text, SUBADDRESS_NAME) {
        Some((front, _)) => unless_empty(front, text),
        None => text,
    }
}

/// A text, or another where it is empty.
fn unless_empty<'a>(text: &'a str, other: &'a str) -> &'a str
    ensures some { ¬ (chars text.now ≡ []) → chars result.now ≡ chars text.now }
    ensures empty { chars text.now ≡ [] → chars result.now ≡ chars other.now }
{
    if is_nothing(text) { other } else { text }
}
