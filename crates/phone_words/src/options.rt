//! The options among parts: their values by name, and whether they go together.
ghost use Rattle.std.specs.Prelude.{◌≡◌, [], IfOk, option_map};
ghost use Rattle.std.specs.List.{find};
ghost use Rattle.phone_words.specs.Calls.{fault_of, has, is_run, lacks, misfit, misfit_of};
ghost use Rattle.phone_words.specs.Calls.{first_fault, operands_in, text, value, with_part};
ghost use Rattle.phone_words.specs.Parts.{all_said, fault, option, said};
ghost use Rattle.phone_words.specs.Rows.{entry, text_in, texts_of};

use crate::parts::{Part, Why, WordError};
use crate::rows::Row;
use std::alloc::{AllocError, Global};

/// The value of the option of this name, after one more part.
fn with_part<'w>(name: &str, before: Option<&'w str>, part: Part<'w>) -> Option<&'w str>
    ensures { text_in result ≡ with_part name.now (text_in before.entry) (said part.entry) }
{
    match part {
        Part::Given(row, value) if row.name == name => Some(value),
        _ => before,
    }
}

/// The last value that the option of this name has, which is empty where it takes none; none where
/// the option isn't there.
pub(crate) fn value<'w>(parts: &[Part<'w>], name: &str) -> Option<&'w str>
    ensures { text_in result ≡ value (all_said parts.now) name.now }
{
    let mut found = None;
    for part in parts {
        found = with_part(name, found, *part);
    }
    found
}

/// Whether the option of this name is there.
pub(crate) fn has(parts: &[Part<'_>], name: &str) -> bool
    ensures { result ≡ has (all_said parts.now) name.now }
{
    value(parts, name).is_some()
}

/// The value of the option of this name; empty where it takes none or isn't there.
pub(crate) fn text<'w>(parts: &[Part<'w>], name: &str) -> &'w str
    ensures { result.now ≡ text (all_said parts.now) name.now }
{
    match value(parts, name) {
        Some(text) => text,
        None => "",
    }
}

/// Whether the option of this name has no value.
pub(crate) fn lacks(parts: &[Part<'_>], name: &str) -> bool
    ensures { result ≡ lacks (all_said parts.now) name.now }
{
    text(parts, name).is_empty()
}

/// The first of these options that is there.
fn first_there(parts: &[Part<'_>], names: &[&'static str]) -> Option<&'static str>
    ensures { text_in result ≡ find (has (all_said parts.now)) (texts_of names.now) }
{
    for name in names {
        if has(parts, *name) {
            return Some(*name);
        }
    }
    None
}

/// The first of these options that has no value.
fn first_lacking(parts: &[Part<'_>], names: &[&'static str]) -> Option<&'static str>
    ensures { text_in result ≡ find (lacks (all_said parts.now)) (texts_of names.now) }
{
    for name in names {
        if lacks(parts, *name) {
            return Some(*name);
        }
    }
    None
}

/// The fault of an option and another.
fn error_of<'w>(row: Row, why: Why, other: &'static str) -> WordError<'w>
    ensures { fault result ≡ fault_of (entry row) why other.now }
{
    WordError {
        why,
        word: row.name,
        other,
    }
}

/// Why an option doesn't go with the others.
fn misfit_of_row<'w>(parts: &[Part<'w>], row: Row) -> Option<WordError<'w>>
    ensures { option_map fault result ≡ misfit_of (all_said parts.now) (option (entry row) []) }
{
    if let Some(other) = first_there(parts, row.excludes) {
        return Some(error_of(row, Why::Together, other));
    }
    match first_lacking(parts, row.needs) {
        Some(other) => Some(error_of(row, Why::Without, other)),
        None => None,
    }
}

/// Why a part doesn't go with the others.
fn misfit_of<'w>(parts: &[Part<'w>], part: Part<'w>) -> Option<WordError<'w>>
    ensures { option_map fault result ≡ misfit_of (all_said parts.now) (said part.entry) }
{
    match part {
        Part::Given(row, _) => misfit_of_row(parts, row),
        Part::Operand(_) => None,
    }
}

/// The first reason why parts don't go together.
fn first_misfit<'w>(parts: &[Part<'w>]) -> Option<WordError<'w>>
    ensures { option_map fault result ≡
        first_fault (misfit_of (all_said parts.now)) (all_said parts.now) }
{
    for part in parts {
        if let Some(error) = misfit_of(parts, *part) {
            return Some(error);
        }
    }
    None
}

/// Whether numbers are to be read: neither help, nor the version, nor the regions are asked for.
pub(crate) fn is_run(parts: &[Part<'_>]) -> bool
    ensures { result ≡ is_run (all_said parts.now) }
{
    !(has(parts, "--help") || has(parts, "--version") || has(parts, "--regions"))
}

/// Why parts don't go together, where numbers are to be read.
pub(crate) fn misfit<'w>(parts: &[Part<'w>]) -> Option<WordError<'w>>
    ensures { option_map fault result ≡ misfit (all_said parts.now) }
{
    if is_run(parts) {
        return first_misfit(parts);
    }
    None
}

/// The operands among parts, in their order. Refused only for memory.
pub(crate) fn operands_in<'w>(alloc: Global, parts: &[Part<'w>]) -> Result<Vec<&'w str>, AllocError>
    ensures { IfOk result (λ v. texts_of v.items ≡ operands_in (all_said parts.now)) }
{
    let mut operands = Vec::new(alloc);
    for part in parts {
        if let Part::Operand(word) = *part {
            operands.push(word)?;
        }
    }
    Ok(operands)
}
