//! Fronts that are cut off a text, and parts that are taken out of it.
ghost use Rattle.std.specs.Prelude.{◌≡◌, ◌==◌, take, drop, length, string_bytes, IsCharBoundary};
ghost use Rattle.std.specs.Prelude.{IfOk, IsOk, IfSome, IsSome, Some, true};
ghost use Rattle.std.specs.Cow.{cow_str_bytes, IsBorrowedStr};
ghost use Rattle.std.specs.Fmt.{decimal};
ghost use Rattle.std.specs.Option.{option_copied};
ghost use Rattle.std.specs.Str.{bytes_eq};
ghost use Rattle.regex.specs.Replace.{bytes_of};
ghost use Rattle.phone_chars.specs.Cuts.{after_front};
ghost use Rattle.phone_territory.specs.First.{IsCut};
ghost use Rattle.phone_parts.specs.Texts.{is_front, without_front};

use std::alloc::{AllocError, Global};
use std::borrow::CowStr;

/// The text from byte `at` on, which must lie between two of its characters, at the front or at the
/// end. A borrowed text stays borrowed, an owned one is cut in place; no memory is taken.
pub fn trim(text: CowStr<'_>, at: usize) -> CowStr<'_>
    requires { IsCharBoundary (cow_str_bytes text) at }
    ensures text { cow_str_bytes result ≡ drop at (cow_str_bytes text.entry) }
    ensures borrowed { IsBorrowedStr text.entry → IsBorrowedStr result }
{
    match text {
        CowStr::Borrowed(s) => CowStr::Borrowed(&s[at..]),
        CowStr::Owned(s) => CowStr::Owned(drop_front(s, at)),
    }
}

/// The text from a place between two of its characters on, in the memory that it has.
fn drop_front(text: String, at: usize) -> String
    requires { IsCharBoundary (string_bytes text) at }
    ensures { string_bytes result ≡ drop at (string_bytes text) }
{
    let mut bytes = text.into_bytes();
    let len = bytes.len();
    bytes.copy_within(at..len, 0);
    bytes.truncate(len - at);
    // SAFETY: what follows a place between two characters is text.
    unsafe { String::from_utf8_unchecked(bytes) }
}

/// Whether the text begins with this front.
pub fn has_front(text: &str, front: &str) -> bool
    ensures { result ≡ is_front front.now text.now }
{
    text.starts_with(front)
}

/// The text without a front, where there is one and the text begins with it; no memory is taken.
pub fn without_front<'a>(front: Option<&str>, text: CowStr<'a>) -> CowStr<'a>
    ensures text { cow_str_bytes result ≡ without_front (option_copied front.entry)
        (cow_str_bytes text.entry) }
    ensures borrowed { IsBorrowedStr text.entry → IsBorrowedStr result }
{
    match front {
        Some(front) => past_front(front, text),
        None => text,
    }
}

/// The text without a front, where it begins with it; no memory is taken.
pub fn past_front<'a>(front: &str, text: CowStr<'a>) -> CowStr<'a>
    ensures text { cow_str_bytes result ≡
        without_front (Some front.now) (cow_str_bytes text.entry) }
    ensures borrowed { IsBorrowedStr text.entry → IsBorrowedStr result }
{
    if has_front(text.as_str(), front) {
        trim(text, front.len())
    } else {
        text
    }
}

/// Whether the text begins with this number in decimal; no memory is taken.
pub fn begins_with_number(text: &str, number: u16) -> bool
    ensures { result ≡ is_front (decimal number) text.now }
{
    let len = decimal_len(number);
    if text.is_char_boundary(len) {
        is_number(&text[..len], number)
    } else {
        false
    }
}

/// Whether a text of as many bytes as this number has in decimal is the number in decimal.
fn is_number(text: &str, number: u16) -> bool
    requires { length text.now ≡ length (decimal number) }
    ensures { result ≡ bytes_eq text.now (decimal number) }
{
    match text.parse::<u16>() {
        Ok(read) => read == number,
        Err(_) => false,
    }
}

/// How many digits the number has in decimal.
fn decimal_len(number: u16) -> usize
    ensures { result ≡ length (decimal number) }
{
    if number < 10 {
        1
    } else if number < 100 {
        2
    } else if number < 1000 {
        3
    } else if number < 10000 {
        4
    } else {
        5
    }
}

/// Where a text goes on behind the number in decimal that it begins with.
pub fn behind_number(text: &str, number: u16) -> usize
    requires { is_front (decimal number) text.now ≡ true }
    ensures place { result ≡ length (decimal number) }
    ensures border { IsCharBoundary text.now result }
{
    decimal_len(number)
}

/// The front of a borrowed text, up to a place between two of its characters; none of an owned
/// text.
pub fn lent_front<'a>(text: &CowStr<'a>, at: usize) -> Option<CowStr<'a>>
    requires { IsCharBoundary (cow_str_bytes text.now) at }
    ensures text { IfSome result (λ front. cow_str_bytes front ≡ take at (cow_str_bytes text.now)) }
    ensures borrowed { IfSome result (λ front. IsBorrowedStr front) }
    ensures some { IsBorrowedStr text.now → IsSome result }
{
    match text {
        CowStr::Borrowed(s) => Some(CowStr::Borrowed(&s[..at])),
        CowStr::Owned(_) => None,
    }
}

/// The text without the zeros at its front.
pub fn without_zeros(text: &str) -> &str
    ensures { result.now ≡ after_front (λ d. d == 48) text.now }
{
    let mut rest = text;
    while let Some(after) = rest.strip_prefix('0') {
        rest = after;
    }
    rest
}

/// The part of a text between two places; of a borrowed text a slice, of an owned one a copy.
pub fn part<'a>(
    alloc: Global,
    text: &CowStr<'a>,
    span: (usize, usize),
) -> Result<CowStr<'a>, AllocError>
    requires { IsCut (cow_str_bytes text.now) span }
    ensures text { IfOk result (λ part. cow_str_bytes part ≡
        bytes_of (cow_str_bytes text.now) (Some span)) }
    ensures borrowed { IfOk result (λ part. IsBorrowedStr text.now → IsBorrowedStr part) }
    ensures no_memory { IsBorrowedStr text.now → IsOk result }
{
    match text {
        CowStr::Borrowed(s) => Ok(CowStr::Borrowed(&s[span.0..span.1])),
        CowStr::Owned(s) => Ok(CowStr::Owned(String::from_str(
            alloc,
            &s.as_str()[span.0..span.1],
        )?)),
    }
}
