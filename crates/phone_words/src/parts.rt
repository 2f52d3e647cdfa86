//! The words of a call as its parts: options with their values, and operands.
ghost use Rattle.std.specs.Prelude.{◌≡◌, ◌⊎◌, ℕ, List, [], IfErr, IfOk, Err, Ok};
ghost use Rattle.phone_words.specs.Parts.{all_said, before_next, before_said, fault, fault_at};
ghost use Rattle.phone_words.specs.Parts.{is_dashed, kind, kind_after, kind_joined, kind_named};
ghost use Rattle.phone_words.specs.Parts.{kind_other, kind_said, parts_from, parts_in, with_kind};
ghost use Rattle.phone_words.specs.Rows.{entry, texts_of};
ghost use Rattle.phone_words.specs.declared.parts.Why.TheVariants as why;

use crate::rows::{Row, is_mark, joined, named};
use std::alloc::{AllocError, Global};

/// A part of a call.
#[derive(Clone, Copy)]
pub enum Part<'w> {
    /// An option, and its value, which is empty where it takes none.
    Given(Row, &'w str),
    /// A word that is no option.
    Operand(&'w str),
}

/// Why words are no call.
#[derive(Clone, Copy, PartialEq, Eq, Debug)]
pub enum Why {
    /// There is no option of the word's name.
    Unknown,
    /// The word is an option that takes a value, and no word follows it, or an empty one.
    NoValue,
    /// The word's option doesn't go with the other.
    Together,
    /// The word's option goes with the other alone.
    Without,
    /// The word is no byte that may stand between fields.
    Delimiter,
    /// The word is no count of lines.
    Skipped,
    /// There are no rules of the word's name.
    Rules,
    /// There is no encoding of the word's name.
    Encoding,
    /// There is no level of the word's name.
    Leniency,
    /// There is no format of the word's name.
    Format,
    /// The word's option knows libphonenumber's rules alone.
    LibraryAlone,
    /// There was no memory for the words.
    Memory,
}

/// Why words are no call, and by which of them.
#[derive(Clone, Copy)]
pub struct WordError<'w> {
    /// The reason.
    pub why: Why,
    /// The word, or the name of the option; empty for `Memory`.
    pub word: &'w str,
    /// The name of the other option; empty where the reason names none.
    pub other: &'static str,
}

/// An error of one word.
pub(crate) fn error_at<'w>(why: Why, word: &'w str) -> WordError<'w>
    ensures why { result.why ≡ why }
    ensures fault { fault result ≡ fault_at why word.now }
{
    WordError {
        why,
        word,
        other: "",
    }
}

impl<'w> From<AllocError> for WordError<'w> {
    ghost use Rattle.phone_words.specs.declared.parts.Why.TheVariants as why;

    ghost from_gives = { λ _ e. e.why ≡ why.Memory };

    fn from(_refusal: AllocError) -> WordError<'w> {
        WordError {
            why: Why::Memory,
            word: "",
            other: "",
        }
    }
}

/// Whether a word is to be an option: it begins with a hyphen, and has more.
fn is_dashed(word: &str) -> bool
    ensures { result ≡ is_dashed word.now }
{
    match word.as_bytes() {
        [first, _, ..] => *first == b'-',
        _ => false,
    }
}

/// What a word is.
#[derive(Clone, Copy)]
pub(crate) enum Kind<'w> {
    /// A part.
    Whole(Part<'w>),
    /// An option whose value is the next word.
    Wants(Row),
    /// The word `--`.
    Mark,
    /// None that there is.
    Refused(WordError<'w>),
}

/// What came before a word.
#[derive(Clone, Copy)]
pub(crate) enum Before<'w> {
    /// Nothing that matters.
    Free,
    /// An option that wants it as its value, and the word that named it.
    Wanting(Row, &'w str),
    /// The word `--`.
    Marked,
}

/// An option that is named by the whole word.
fn kind_named<'w>(row: Row) -> Kind<'w>
    ensures { kind_said result ≡ kind_named (entry row) }
{
    if row.value.is_empty() {
        return Kind::Whole(Part::Given(row, ""));
    }
    Kind::Wants(row)
}

/// An option with its value in one word.
fn kind_joined<'w>(word: &'w str, row: Row, value: &'w str) -> Kind<'w>
    ensures { kind_said result ≡ kind_joined word.now (entry row, value.now) }
{
    if value.is_empty() {
        return Kind::Refused(error_at(Why::NoValue, word));
    }
    Kind::Whole(Part::Given(row, value))
}

/// A word that has no option's name.
fn kind_other<'w>(word: &'w str) -> Kind<'w>
    ensures { kind_said result ≡ kind_other word.now }
{
    if is_mark(word) {
        return Kind::Mark;
    }
    if is_dashed(word) {
        return Kind::Refused(error_at(Why::Unknown, word));
    }
    Kind::Whole(Part::Operand(word))
}

/// What a word is by itself, among all words.
fn kind_of<'w>(words: &[&str], word: &'w str) -> Kind<'w>
    ensures { kind_said result ≡ kind (texts_of words.now) word.now }
{
    if let Some(row) = named(words, word) {
        return kind_named(row);
    }
    match joined(words, word) {
        Some((row, value)) => kind_joined(word, row, value),
        None => kind_other(word),
    }
}

/// What a word is after what came before it.
fn kind_after<'w>(words: &[&str], before: Before<'w>, word: &'w str) -> Kind<'w>
    ensures { kind_said result ≡
        kind_after (texts_of words.now) (before_said before.entry) word.now }
{
    match before {
        Before::Free => kind_of(words, word),
        Before::Wanting(_, name) if word.is_empty() || is_mark(word) => {
            Kind::Refused(error_at(Why::NoValue, name))
        }
        Before::Wanting(row, _) => Kind::Whole(Part::Given(row, word)),
        Before::Marked => Kind::Whole(Part::Operand(word)),
    }
}

/// What came before the next word.
fn before_next<'w>(before: Before<'w>, word: &'w str, kind: Kind<'w>) -> Before<'w>
    ensures { before_said result ≡
        before_next (before_said before.entry) word.now (kind_said kind.entry) }
{
    match (before, kind) {
        (Before::Marked, _) | (_, Kind::Mark) => Before::Marked,
        (_, Kind::Wants(row)) => Before::Wanting(row, word),
        _ => Before::Free,
    }
}

/// Puts the part that a word is at the end of parts. Refused by the word's fault, and by `Memory`.
fn push_kind<'w>(parts: &mut Vec<Part<'w>>, kind: Kind<'w>) -> Result<(), WordError<'w>>
    ensures pushed { IfOk result (λ _.
        with_kind (all_said parts.old.items) (kind_said kind.entry) ≡
        Ok (all_said parts.new.items)) }
    ensures refused { IfErr result (λ e. (e.why ≡ why.Memory) ⊎
        (with_kind (all_said parts.old.items) (kind_said kind.entry) ≡ Err (fault e))) }
{
    match kind {
        Kind::Whole(part) => match parts.push(part) {
            Ok(()) => Ok(()),
            Err(_) => Err(error_at(Why::Memory, "")),
        },
        Kind::Refused(error) => Err(error),
        _ => Ok(()),
    }
}

/// Parts, unless an option lacks its value.
fn ended<'w>(parts: Vec<Part<'w>>, before: Before<'w>) -> Result<Vec<Part<'w>>, WordError<'w>>
    ensures ended { IfOk result (λ ps. (words : List (List ℕ)) →
        parts_from words [] (all_said parts.entry.items) (before_said before.entry) ≡
        Ok (all_said ps.items)) }
    ensures refused { IfErr result (λ e. (words : List (List ℕ)) →
        parts_from words [] (all_said parts.entry.items) (before_said before.entry) ≡
        Err (fault e)) }
{
    match before {
        Before::Wanting(_, name) => Err(error_at(Why::NoValue, name)),
        _ => Ok(parts),
    }
}

/// The parts that words are. Refused by `Unknown` and `NoValue` at the first word that is no part,
/// and by `Memory`.
pub(crate) fn parts_of<'w>(alloc: Global, words: &[&'w str]) -> Result<Vec<Part<'w>>, WordError<'w>>
    ensures parts { IfOk result (λ ps. parts_in (texts_of words.now) ≡ Ok (all_said ps.items)) }
    ensures refused { IfErr result (λ e. (e.why ≡ why.Memory) ⊎
        (parts_in (texts_of words.now) ≡ Err (fault e))) }
{
    let mut parts = Vec::new(alloc);
    let mut before = Before::Free;
    for word in words {
        let kind = kind_after(words, before, *word);
        match push_kind(&mut parts, kind) {
            Ok(()) => {}
            Err(error) => return Err(error),
        }
        before = before_next(before, *word, kind);
    }
    ended(parts, before)
}
