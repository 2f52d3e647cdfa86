//! What a pattern finds in a text: where, which groups, and the text with it replaced. Places are
//! numbers of bytes.
use anyhow::Result;
use phone_pattern::Pattern;
use phone_plain::plain;
use phone_records::loader::Text;
use replay_base::marks::{around, begin};
use replay_base::table::Row;
use replay_base::words::{part_of, said, truth};
use std::alloc::{AllocError, Global};

/// What a search of a line's pattern gives, as the table writes it; none for any other call. An
/// error where the pattern is none, and where memory is refused.
pub fn answer(alloc: Global, row: &Row) -> Result<Option<String>> {
    match row.call() {
        "first-span" | "at-start" | "whole-match" | "captured" | "replaced" => {
            Ok(Some(search(alloc, row)?))
        }
        "plain-pattern" => Ok(Some(plainness(alloc, row.argument(0))?)),
        _ => Ok(None),
    }
}

/// How many groups a plain pattern has, and its size; a hyphen where the text is no plain pattern.
fn plainness(alloc: Global, text: &str) -> Result<String> {
    match plain(alloc, text)? {
        Some(found) => Ok(format!(in alloc; "{} {}", found.groups, found.size)?),
        None => said(alloc, "-"),
    }
}

/// What the search that a line names gives.
fn search(alloc: Global, row: &Row) -> Result<String> {
    let text = Text::from(String::from_str(alloc, row.argument(0))?);
    let pattern = Pattern::new(alloc, text)?;
    search_words(alloc, &pattern, row)
}

/// What the search that a line names gives, of its pattern.
fn search_words(alloc: Global, pattern: &Pattern, row: &Row) -> Result<String> {
    let text = row.argument(1);
    match row.call() {
        "first-span" => first_span(alloc, pattern, text),
        "at-start" => at_start(alloc, pattern, text),
        "whole-match" => whole_match(alloc, pattern, text),
        "captured" => captures(alloc, pattern, text),
        _ => replace(alloc, pattern, row),
    }
}

/// Where the first match begins and ends, or a hyphen.
fn first_span(alloc: Global, pattern: &Pattern, text: &str) -> Result<String> {
    let found = around(alloc, begin(alloc), pattern.first_span(text))?;
    spans(alloc, &[found])
}

/// Whether the first match begins at the first byte.
fn at_start(alloc: Global, pattern: &Pattern, text: &str) -> Result<String> {
    truth(
        alloc,
        around(alloc, begin(alloc), pattern.is_at_start(text))?,
    )
}

/// Whether the first match is the whole text.
fn whole_match(alloc: Global, pattern: &Pattern, text: &str) -> Result<String> {
    truth(
        alloc,
        around(alloc, begin(alloc), pattern.is_whole_match(text))?,
    )
}

/// The first match, its first group and its last group; one hyphen without a match.
fn captures(alloc: Global, pattern: &Pattern, text: &str) -> Result<String> {
    match around(alloc, begin(alloc), pattern.captures(text))? {
        Some(found) => spans(alloc, &[Some(found.span), found.first, found.last]),
        None => spans(alloc, &[None]),
    }
}

/// The text with its first match replaced by a template.
fn replace(alloc: Global, pattern: &Pattern, row: &Row) -> Result<String> {
    let (template, text) = (row.argument(1), row.argument(2));
    let found = around(alloc, begin(alloc), pattern.replace(template, text))?;
    part_of(alloc, found.as_str())
}

/// Where things begin and end, each a hyphen where it is absent, parted by tabs.
fn spans(alloc: Global, found: &[Option<(usize, usize)>]) -> Result<String> {
    let mut out = String::new(alloc);
    for span in found {
        push_span(&mut out, *span)?;
    }
    Ok(out)
}

/// Writes where something begins and ends, or a hyphen, behind a tab where something stands before
/// it.
fn push_span(out: &mut String, span: Option<(usize, usize)>) -> Result<(), AllocError> {
    if !out.is_empty() {
        out.push('\t')?;
    }
    match span {
        Some((start, end)) => write!(out, "{start} {end}"),
        None => out.push('-'),
    }
}
