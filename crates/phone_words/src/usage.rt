//! The text of `--help`, made of the table of options.
ghost use Rattle.std.specs.Prelude.{◌≡◌, ◌++◌, IfOk, map, string_bytes};
ghost use Rattle.phone_words.specs.Help.{between, called, company, help_text, listed, names_text};
ghost use Rattle.phone_words.specs.Help.{row_text, rows_text};
ghost use Rattle.phone_words.specs.Rows.{entry, entry_of, texts_of};

use crate::rows::{Cells, Row, first_rows, more_rows, row_of};
use std::alloc::{AllocError, Global};

/// What stands in front of the options.
pub(crate) const FRONT: &str = "\
Reads phone numbers, one a line, and writes one report line for each; or reads a table of customers,
and writes it back with what is known of each number. Input are the files that are named, one after
the other, where - is standard input; without a file it is standard input. A table of customers is
one file, and so is what --find --json reads.

usage: ./phone [OPTION..] [--] [REGION] [FILE..]
       ./phone --prove

REGION is where the numbers were dialled, by its id in capital or small letters, as NZ. The table of
the world comes with the repository, data/world.json, made from libphonenumber's.

A report line, its fields parted by tabs: ok, the E.164, international, national and RFC 3966 text,
how the calling code was found, the kind of number, its region or -, valid or invalid; or error, a
number and its words.

Options, which may stand anywhere in front of --, each with those that it needs and those that it
doesn't go with. A value is the next word, or follows its option: --csv=phone, -d';'. A later value
counts before an earlier one.

";

/// What stands after them.
pub(crate) const BACK: &str = "
A short number of the region under which it is read has, with --json and with --csv COLUMN, the type
Emergency or ShortNumber, by libphonenumber's rules: an emergency number always, another one where
no valid number is read.
GNU parallel has the lines of a long file read side by side, each part by a run of its own:
parallel --pipepart --block -1 -k -a FILE ./phone REGION
--prove proves and builds, once, the two programs; until then the first run compiles its program
without proof, which takes minutes, and keeps it.

Statuses: 0 all was written, 1 input, output, memory or a record of a table failed, or a line isn't
UTF-8, 2 wrong words, or the input is UTF-16, 3 a database or a table of prefixes was refused.
";

/// Puts a text at the end of another, between these, unless it is empty.
fn push_between(text: &mut String, front: &str, more: &str, back: &str) -> Result<(), AllocError>
    ensures { IfOk result (λ _. string_bytes text.new ≡
        string_bytes text.old ++ between front.now more.now back.now) }
{
    if more.is_empty() {
        return Ok(());
    }
    text.push_str(front)?;
    text.push_str(more)?;
    text.push_str(back)
}

/// Puts names at the end of a text, each after a space.
fn push_names(text: &mut String, names: &[&str]) -> Result<(), AllocError>
    ensures { IfOk result (λ _.
        string_bytes text.new ≡ string_bytes text.old ++ names_text (texts_of names.now)) }
{
    for name in names {
        push_between(text, " ", *name, "")?;
    }
    Ok(())
}

/// Puts names at the end of a text, and what stands before them, unless there are none.
fn push_listed(text: &mut String, front: &str, names: &[&str]) -> Result<(), AllocError>
    ensures { IfOk result (λ _.
        string_bytes text.new ≡ string_bytes text.old ++ listed front.now (texts_of names.now)) }
{
    if names.is_empty() {
        return Ok(());
    }
    text.push_str(front)?;
    push_names(text, names)
}

/// Puts at the end of a text what an option is called.
fn push_called(text: &mut String, row: Row) -> Result<(), AllocError>
    ensures { IfOk result (λ _.
        string_bytes text.new ≡ string_bytes text.old ++ called (entry row)) }
{
    text.push_str("  ")?;
    push_between(text, "", row.short, ", ")?;
    text.push_str(row.name)?;
    push_between(text, " ", row.value, "")
}

/// Puts at the end of a text with which options an option goes, and with which it doesn't.
fn push_company(text: &mut String, row: Row) -> Result<(), AllocError>
    ensures { IfOk result (λ _.
        string_bytes text.new ≡ string_bytes text.old ++ company (entry row)) }
{
    push_between(text, "; with ", row.beside, "")?;
    push_listed(text, "; with", row.needs)?;
    push_listed(text, "; not with", row.excludes)
}

/// Puts at the end of a text what is told of an option.
fn push_row(text: &mut String, row: Row) -> Result<(), AllocError>
    ensures { IfOk result (λ _.
        string_bytes text.new ≡ string_bytes text.old ++ row_text (entry row)) }
{
    push_called(text, row)?;
    push_company(text, row)?;
    text.push_str(row.help)?;
    text.push_str("\n")
}

/// Puts at the end of a text what is told of the options of these cells.
fn push_rows(text: &mut String, cells: &[Cells]) -> Result<(), AllocError>
    ensures { IfOk result (λ _.
        string_bytes text.new ≡ string_bytes text.old ++ rows_text (map entry_of cells.now)) }
{
    for cells in cells {
        push_row(text, row_of(*cells))?;
    }
    Ok(())
}

/// What is told of the options of these cells and of those, between what stands in front and after.
fn help_of(alloc: Global, cells: &[Cells], more: &[Cells]) -> Result<String, AllocError>
    ensures { IfOk result (λ s. string_bytes s ≡ FRONT.now ++
        (rows_text (map entry_of cells.now ++ map entry_of more.now) ++ BACK.now)) }
{
    let mut text = String::new(alloc);
    text.push_str(FRONT)?;
    push_rows(&mut text, cells)?;
    push_rows(&mut text, more)?;
    text.push_str(BACK)?;
    Ok(text)
}

/// How the program is called: the text of `--help`. Refused only for memory.
pub fn help(alloc: Global) -> Result<String, AllocError>
    ensures { IfOk result (λ s. string_bytes s ≡ help_text) }
{
    help_of(alloc, first_rows(), more_rows())
}
