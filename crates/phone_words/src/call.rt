//! Words as a call: what is asked for, with what it needs.
ghost use Rattle.std.specs.Prelude.{◌≡◌, ◌⊎◌, IfErr, IfOk, Err, option_map};
ghost use Rattle.phone_words.specs.Calls.{IsCall, IsCallIn, IsNoCall, delimiter_of, encoding_of};
ghost use Rattle.phone_words.specs.Calls.{findless, formless, known, level_in, level_of};
ghost use Rattle.phone_words.specs.Calls.{meaning_in, misnamed, rules_of, skipped_of};
ghost use Rattle.phone_words.specs.Calls.{unless_form};
ghost use Rattle.phone_words.specs.Parts.{all_said, fault, told};
ghost use Rattle.phone_words.specs.Rows.{texts_of};
ghost use Rattle.phone_words.specs.declared.parts.Why.TheVariants as why;

use crate::command::{Command, command_of};
use crate::options::{has, is_run, misfit, operands_in, value};
use crate::parts::{Part, Why, WordError, error_at, parts_of};
use crate::table::{Table, table_of};
use crate::values::{
    Level, count_named, delimiter_named, encoding_named, form_named, level_named, rules_named,
};
use phone_encodings::Encoding;
use phone_values::Rules;
use std::alloc::Global;

/// A call of the program.
#[derive(Drop)]
pub struct Call<'w> {
    /// What is asked for.
    pub command: Command,
    /// By whose rules numbers are read and described.
    pub rules: Rules,
    /// The encoding of the inputs, where that isn't UTF-8.
    pub encoding: Option<Encoding>,
    /// The level by which libphonenumber's matcher finds numbers, where that does.
    pub level: Option<Level>,
    /// Whether what isn't UTF-8 leaves the status 0.
    pub lenient: bool,
    /// How many lines were left out before those that are read.
    pub skipped: u64,
    /// What is asked of a table.
    pub table: Table<'w>,
    /// The file of the database.
    pub database: Option<&'w str>,
    /// The file of the database of short numbers.
    pub short_database: Option<&'w str>,
    /// The file of the database of other formats.
    pub alternates: Option<&'w str>,
    /// The file to write.
    pub output: Option<&'w str>,
    /// The words that are no options, in their order: a region, and files.
    pub operands: Vec<&'w str>,
}

/// The call that words are, which come after the program's own name.
///
/// An option is a word of its name, or of its name, an equals sign and its value (`--csv=phone`),
/// or of its name of one letter and its value (`-d;`); else its value is the next word, which isn't
/// empty. Where one of the words is `--find`, the word `--csv` takes no value. Options and operands
/// may stand in any order; a later value of an option counts before an earlier one; after the word
/// `--` all words are operands, and so is the word `-`. Numbers are read by libphonenumber's rules,
/// unless others are named. Refused by the first word that is no option though it begins with a
/// hyphen, or an option without its value; then by options that don't go together, or a value that
/// is none; and by `Memory`.
pub fn call_of<'w>(alloc: Global, words: &[&'w str]) -> Result<Call<'w>, WordError<'w>>
    ensures call { IfOk result (λ c. IsCall (texts_of words.now) c) }
    ensures refused { IfErr result (λ e. (e.why ≡ why.Memory) ⊎
        IsNoCall (texts_of words.now) e) }
{
    match parts_of(alloc, words) {
        Ok(parts) => call_in(alloc, parts.as_slice()),
        Err(error) => Err(error),
    }
}

/// The call that parts are.
fn call_in<'w>(alloc: Global, parts: &[Part<'w>]) -> Result<Call<'w>, WordError<'w>>
    ensures call { IfOk result (λ c. IsCallIn (all_said parts.now) c) }
    ensures refused { IfErr result (λ e. (e.why ≡ why.Memory) ⊎
        (meaning_in (all_said parts.now) ≡ Err (fault e))) }
{
    if let Some(error) = misfit(parts) {
        return Err(error);
    }
    let rules = match rules_of(parts) {
        Ok(rules) => rules,
        Err(error) => return Err(error),
    };
    let skipped = match skipped_of(parts) {
        Ok(count) => count,
        Err(error) => return Err(error),
    };
    let delimiter = match delimiter_of(parts) {
        Ok(byte) => byte,
        Err(error) => return Err(error),
    };
    let encoding = match encoding_of(parts) {
        Ok(encoding) => encoding,
        Err(error) => return Err(error),
    };
    let level = match level_of(parts) {
        Ok(level) => level,
        Err(error) => return Err(error),
    };
    let operands = operands_in(alloc, parts)?;
    Ok(Call {
        command: command_of(parts),
        rules,
        encoding,
        level,
        lenient: has(parts, "--lenient"),
        skipped,
        table: table_of(parts, delimiter),
        database: value(parts, "--database"),
        short_database: value(parts, "--short-database"),
        alternates: value(parts, "--alternates"),
        output: value(parts, "--output"),
        operands,
    })
}

/// The rules, unless a mode is there that knows others alone.
fn known<'w>(parts: &[Part<'w>], rules: Rules) -> Result<Rules, WordError<'w>>
    ensures { told result ≡ known (all_said parts.now) rules }
{
    match rules {
        Rules::Library => Ok(rules),
        Rules::Crate if has(parts, "--typed") => Err(error_at(Why::LibraryAlone, "--typed")),
        Rules::Crate if has(parts, "--short") => Err(error_at(Why::LibraryAlone, "--short")),
        Rules::Crate if has(parts, "--leniency") => Err(error_at(Why::LibraryAlone, "--leniency")),
        Rules::Crate if has(parts, "--format") => Err(error_at(Why::LibraryAlone, "--format")),
        Rules::Crate => Ok(rules),
    }
}

/// By whose rules numbers are read: by libphonenumber's, unless others are named.
fn rules_of<'w>(parts: &[Part<'w>]) -> Result<Rules, WordError<'w>>
    ensures { told result ≡ rules_of (all_said parts.now) }
{
    let Some(word) = value(parts, "--rules") else {
        return known(parts, Rules::Library);
    };
    match rules_named(word) {
        Some(rules) => known(parts, rules),
        None => Err(error_at(Why::Rules, word)),
    }
}

/// How many lines were left out before: none, unless a count is named.
fn skipped_of<'w>(parts: &[Part<'w>]) -> Result<u64, WordError<'w>>
    ensures { told result ≡ skipped_of (all_said parts.now) }
{
    let Some(word) = value(parts, "--skipped") else {
        return Ok(0);
    };
    match count_named(word) {
        Some(count) => Ok(count),
        None => Err(error_at(Why::Skipped, word)),
    }
}

/// The byte between fields, where numbers are to be read: a comma, unless another one is named.
fn delimiter_of<'w>(parts: &[Part<'w>]) -> Result<u8, WordError<'w>>
    ensures { told result ≡ delimiter_of (all_said parts.now) }
{
    if !is_run(parts) {
        return Ok(b',');
    }
    let Some(word) = value(parts, "--delimiter") else {
        return Ok(b',');
    };
    match delimiter_named(word) {
        Some(byte) => Ok(byte),
        None => Err(error_at(Why::Delimiter, word)),
    }
}

/// The encoding of the inputs, where that isn't UTF-8: it is, unless another one is named.
fn encoding_of<'w>(parts: &[Part<'w>]) -> Result<Option<Encoding>, WordError<'w>>
    ensures { told result ≡ encoding_of (all_said parts.now) }
{
    let Some(word) = value(parts, "--encoding") else {
        return Ok(None);
    };
    match encoding_named(word) {
        Some(encoding) => Ok(encoding),
        None => Err(error_at(Why::Encoding, word)),
    }
}

/// Why a level is named, though no numbers are to be found in a text; none where that isn't so.
fn findless<'w>(parts: &[Part<'w>]) -> Option<WordError<'w>>
    ensures { option_map fault result ≡ findless (all_said parts.now) }
{
    if is_run(parts) && has(parts, "--leniency") && !has(parts, "--find") {
        return Some(WordError {
            why: Why::Without,
            word: "--leniency",
            other: "--find",
        });
    }
    None
}

/// Why a word names no format; none where it names one.
fn unless_form<'w>(name: &'w str) -> Option<WordError<'w>>
    ensures { option_map fault result ≡ unless_form name.now }
{
    match form_named(name) {
        Some(_) => None,
        None => Some(error_at(Why::Format, name)),
    }
}

/// Why a format is named that there isn't; none where that isn't so.
fn formless<'w>(parts: &[Part<'w>]) -> Option<WordError<'w>>
    ensures { option_map fault result ≡ formless (all_said parts.now) }
{
    match value(parts, "--format") {
        Some(name) => unless_form(name),
        None => None,
    }
}

/// Why a level or a format is named wrongly; none where that isn't so.
fn misnamed<'w>(parts: &[Part<'w>]) -> Option<WordError<'w>>
    ensures { option_map fault result ≡ misnamed (all_said parts.now) }
{
    match findless(parts) {
        Some(error) => Some(error),
        None => formless(parts),
    }
}

/// The level that is named, where one is.
fn level_in<'w>(parts: &[Part<'w>]) -> Result<Option<Level>, WordError<'w>>
    ensures { told result ≡ level_in (all_said parts.now) }
{
    let Some(word) = value(parts, "--leniency") else {
        return Ok(None);
    };
    match level_named(word) {
        Some(level) => Ok(Some(level)),
        None => Err(error_at(Why::Leniency, word)),
    }
}

/// The level by which libphonenumber's matcher finds numbers, where one is named; it goes with
/// `--find`. Refused too where a format is named that there isn't.
fn level_of<'w>(parts: &[Part<'w>]) -> Result<Option<Level>, WordError<'w>>
    ensures { told result ≡ level_of (all_said parts.now) }
{
    match misnamed(parts) {
        Some(error) => Err(error),
        None => level_in(parts),
    }
}
