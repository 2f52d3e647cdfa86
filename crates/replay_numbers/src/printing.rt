//! The calls that print a number which a line gives by its parts.
use crate::facts::{push_facts, push_texts};
use crate::given::{number, number_of_row};
use crate::page::Page;
use anyhow::{Result, anyhow};
use phone_base::results::zip;
use phone_meta::{Database, Format, Metadata};
use phone_values::{Carrier, Extension};
use phonenumber::{Facts, FormatError, Formatter, PhoneNumber, format_with};
use replay_base::marks::{around, begin};
use replay_base::table::Row;
use replay_base::words::{mode, part_of, said};
use std::alloc::{AllocError, Global};

/// What is printed of a number, or of a part of one, under no database; none for any other call.
pub fn without_database(alloc: Global, row: &Row) -> Result<Option<String>> {
    let answer = match row.call() {
        "display" => display_number(alloc, row),
        "display-extension" => display_extension(alloc, row.argument(0)),
        "display-carrier" => display_carrier(alloc, row.argument(0)),
        _ => return Ok(None),
    };
    Ok(Some(answer?))
}

/// What a line's number is printed as.
fn display_number(alloc: Global, row: &Row) -> Result<String> {
    let number = number(row, 0, None, None)?;
    Ok(format!(in alloc; "={number}")?)
}

/// What an extension of this text is printed as.
fn display_extension(alloc: Global, text: &str) -> Result<String> {
    let extension = Extension::from(String::from_str(alloc, text)?);
    Ok(format!(in alloc; "={extension}")?)
}

/// What a carrier of this text is printed as.
fn display_carrier(alloc: Global, text: &str) -> Result<String> {
    let carrier = Carrier::from(String::from_str(alloc, text)?);
    Ok(format!(in alloc; "={carrier}")?)
}

/// What the port answers to one of these calls, as the table writes it; none for any other call.
/// `layouts` is the database whose layout the line hands in. An error where a line names a layout
/// or a mode that isn't there or gives a number that is none, and where memory is refused.
pub fn answer(
    alloc: Global,
    row: &Row,
    db: &Database,
    layouts: &Database,
) -> Result<Option<String>> {
    let answer = match row.call() {
        "format" => format(alloc, row, db, layouts),
        "format-with" => format_one(alloc, row, db),
        "display-formatter" => display(alloc, row, db),
        _ => return Ok(None),
    };
    Ok(Some(answer?))
}

/// The name of the database whose layout a line hands in; none where it hands in none.
pub fn layouts_of(row: &Row) -> Option<&str> {
    if row.call() != "format" || row.argument(6) == "-" {
        return None;
    }
    row.argument(6).split('/').next()
}

/// The texts of a line's number, perhaps by a layout that the line hands in, and what the database
/// tells of the number.
fn format(alloc: Global, row: &Row, db: &Database, layouts: &Database) -> Result<String> {
    let number = number_of_row(alloc, row, 1)?;
    let mut out = String::new(alloc);
    push_by_layout(
        alloc,
        &mut out,
        format_with(db, &number),
        layouts,
        row.argument(6),
    )?;
    push_behind_texts(&mut out, number.facts(db)?)?;
    Ok(out)
}

/// Writes a tab and what a database tells of a number.
fn push_behind_texts(out: &mut String, facts: Facts) -> Result<(), AllocError> {
    out.push('\t')?;
    push_facts(out, facts)
}

/// Writes the texts of a printer's number by the layout of this name; by its own for a hyphen.
fn push_by_layout(
    alloc: Global,
    out: &mut String,
    printer: Formatter<'_, '_, '_>,
    layouts: &Database,
    name: &str,
) -> Result<()> {
    if name == "-" {
        return push_texts(alloc, out, printer, "=");
    }
    push_texts(alloc, out, printer.with(layout(layouts, name)?), "=")
}

/// The layout of this name: a database, an id in it, and a place in that territory's national list,
/// parted by slashes.
fn layout<'a>(layouts: &'a Database, name: &str) -> Result<&'a Format> {
    let Some((id, place)) = id_and_place(name) else {
        return Err(anyhow!("a layout is named otherwise"));
    };
    match layouts.by_id(id) {
        Some(territory) => layout_at(territory, place),
        None => Err(anyhow!("the layout's database has no territory of this id")),
    }
}

/// The second and the third word of a layout's name.
fn id_and_place(name: &str) -> Option<(&str, &str)> {
    let mut words = name.split('/').skip(1);
    match (words.next(), words.next()) {
        (Some(id), Some(place)) => Some((id, place)),
        _ => None,
    }
}

/// The layout at this place of a territory's national list.
fn layout_at<'a>(territory: &'a Metadata, place: &str) -> Result<&'a Format> {
    match territory.formats().get(place.parse::<usize>()?) {
        Some(layout) => Ok(layout),
        None => Err(anyhow!("the territory has no layout at this place")),
    }
}

/// The text of a line's number in one mode, by the number's own call; `UnknownCode` where it isn't
/// printed.
fn format_one(alloc: Global, row: &Row, db: &Database) -> Result<String> {
    let (number, mode) = zip(number_of_row(alloc, row, 1), mode(row.argument(6)))?;
    let printer = number.format_with(db).mode(mode);
    text_or_refusal(alloc, around(alloc, begin(alloc), printer.to_text(alloc)))
}

/// A text behind an equals sign, or `UnknownCode`. An error where memory was refused.
pub fn text_or_refusal(alloc: Global, text: Result<String, FormatError>) -> Result<String> {
    match text {
        Ok(text) => part_of(alloc, text.as_str()),
        Err(FormatError::UnknownCode) => said(alloc, "UnknownCode"),
        Err(FormatError::Memory) => Err(anyhow!("out of memory")),
    }
}

/// What a printer of a line's number in one mode writes as it is displayed.
fn display(alloc: Global, row: &Row, db: &Database) -> Result<String> {
    let (number, mode) = zip(number_of_row(alloc, row, 1), mode(row.argument(6)))?;
    let printer = format_with(db, &number).mode(mode);
    display_words(alloc, db, &number, &printer)
}

/// What this printer of a number writes as it is displayed: its text, which comes in one piece, or
/// nothing where the number's code isn't listed, `UnknownCode`. An error where nothing was written
/// of another number: memory was refused.
fn display_words(
    alloc: Global,
    db: &Database,
    number: &PhoneNumber,
    printer: &Formatter<'_, '_, '_>,
) -> Result<String> {
    let mut page = Page::blank(alloc)?;
    let is_written = around(alloc, begin(alloc), page.write(printer));
    let is_listed = db.first_by_code(&number.code().value()).is_some();
    match (is_written, page.pieces(), is_listed) {
        (true, 1, _) => part_of(alloc, page.text()),
        (false, 0, false) => said(alloc, "UnknownCode"),
        (false, 0, true) => Err(anyhow!("out of memory")),
        _ => said(alloc, "a text in pieces"),
    }
}
