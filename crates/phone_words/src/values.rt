//! The values that words are: rules, levels, formats, encodings, counts of lines, bytes between
//! fields.
ghost use Rattle.std.specs.Prelude.{◌≡◌};
ghost use Rattle.phone_words.specs.Values.{count_named, delimiter_named, encoding_named};
ghost use Rattle.phone_words.specs.Values.{form_named, level_named, other_named, rules_named};

use phone_csv::is_delimiter;
use phone_encodings::{Encoding, Order};
use phone_values::{Mode, Rules};

/// The rules of this name: `library` those of libphonenumber, `crate` those of the crate
/// `phonenumber` of Rust.
pub(crate) fn rules_named(name: &str) -> Option<Rules>
    ensures { result ≡ rules_named name.now }
{
    match name {
        "library" => Some(Rules::Library),
        "crate" => Some(Rules::Crate),
        _ => None,
    }
}

/// How strictly libphonenumber's matcher judges the numbers of a text.
#[derive(Clone, Copy, PartialEq, Eq, Debug)]
pub enum Level {
    /// They are possible by the count of their digits.
    Possible,
    /// They are valid.
    Valid,
    /// They are valid, and their digits stand in groups, one behind the other.
    StrictGrouping,
    /// They are valid, and their runs of digits are groups.
    ExactGrouping,
}

/// The level of this name.
pub(crate) fn level_named(name: &str) -> Option<Level>
    ensures { result ≡ level_named name.now }
{
    match name {
        "possible" => Some(Level::Possible),
        "valid" => Some(Level::Valid),
        "strict-grouping" => Some(Level::StrictGrouping),
        "exact-grouping" => Some(Level::ExactGrouping),
        _ => None,
    }
}

/// How the number of a line is written.
#[derive(Clone, Copy, PartialEq, Eq, Debug)]
pub enum Form {
    /// In a mode.
    In(Mode),
    /// In the format in which it was written.
    Original,
    /// As a mobile phone dials it.
    Mobile,
}

/// The format of this name.
pub(crate) fn form_named(name: &str) -> Option<Form>
    ensures { result ≡ form_named name.now }
{
    match name {
        "e164" => Some(Form::In(Mode::E164)),
        "international" => Some(Form::In(Mode::International)),
        "national" => Some(Form::In(Mode::National)),
        "rfc3966" => Some(Form::In(Mode::Rfc3966)),
        "original" => Some(Form::Original),
        "mobile" => Some(Form::Mobile),
        _ => None,
    }
}

/// The encoding of this name, in capital or small letters, where there is one; of UTF-8 none.
pub(crate) fn encoding_named(name: &str) -> Option<Option<Encoding>>
    ensures { result ≡ encoding_named name.now }
{
    if name.eq_ignore_ascii_case("utf-8") {
        return Some(None);
    }
    match other_named(name) {
        Some(encoding) => Some(Some(encoding)),
        None => None,
    }
}

/// The encoding of this name other than UTF-8.
fn other_named(name: &str) -> Option<Encoding>
    ensures { result ≡ other_named name.now }
{
    if name.eq_ignore_ascii_case("utf-16") {
        return Some(Encoding::Utf16);
    }
    if name.eq_ignore_ascii_case("utf-16le") {
        return Some(Encoding::Utf16In(Order::LowFirst));
    }
    if name.eq_ignore_ascii_case("utf-16be") {
        return Some(Encoding::Utf16In(Order::HighFirst));
    }
    if name.eq_ignore_ascii_case("latin-1") {
        return Some(Encoding::Latin1);
    }
    if name.eq_ignore_ascii_case("windows-1252") {
        return Some(Encoding::Windows1252);
    }
    None
}

/// The byte that a word names as one between fields: the word `tab`, or one ASCII character but a
/// quote and a line end.
pub(crate) fn delimiter_named(word: &str) -> Option<u8>
    ensures { result ≡ delimiter_named word.now }
{
    if word == "tab" {
        return Some(b'\t');
    }
    match word.as_bytes() {
        [byte] if byte.is_ascii() && is_delimiter(*byte) => Some(*byte),
        _ => None,
    }
}

/// The count that a word is.
pub(crate) fn count_named(word: &str) -> Option<u64>
    ensures { result ≡ count_named word.now }
{
    match word.parse::<u64>() {
        Ok(count) => Some(count),
        Err(_) => None,
    }
}
