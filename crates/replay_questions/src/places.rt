//! Rows of answers on where a number is. A line's call is `place`; behind its database stand a
//! number, a locale, the user's region; then tables of texts, those of the locale's language and
//! of English for areas, the same for carriers, of time zones; and the tables of names, the texts
//! of those files that are there, bars between them. The answer is which file of texts the locale
//! asks for, which files of names; then description, carrier and time zones; the same three of the
//! number as it stands; and the carrier that is safe to show.
use crate::locales::{lent, names, table, user};
use anyhow::{Result, anyhow};
use phone_languages::{Atlas, Locale, Texts};
use phone_meta::Database;
use phone_places::{
    carrier, description, placed_time_zones, safe_carrier, time_zones, valid_carrier,
    valid_description,
};
use phone_prefixes::Prefixes;
use phonenumber::PhoneNumber;
use replay_base::table::Row;
use std::alloc::Global;

/// The answer to a line.
pub fn place(alloc: Global, row: &Row, db: &Database) -> Result<String> {
    let locale = Locale::of(alloc, row.argument(2))?;
    let (areas, english_areas) = (table(alloc, row, 4)?, table(alloc, row, 5)?);
    let (carriers, english_carriers) = (table(alloc, row, 6)?, table(alloc, row, 7)?);
    let tables = names(alloc, row, 9)?;
    let names = lent(alloc, tables.as_slice())?;
    let atlas = Atlas {
        locale: &locale,
        areas: texts(&areas, &english_areas),
        carriers: texts(&carriers, &english_carriers),
        names: names.as_slice(),
    };
    told_in(alloc, row, db, &atlas)
}

/// The tables of a language, and of English.
fn texts<'t>(own: &'t Option<Prefixes>, english: &'t Option<Prefixes>) -> Texts<'t> {
    Texts {
        own: own.as_ref(),
        english: english.as_ref(),
    }
}

/// All that is told in a locale.
fn told_in(alloc: Global, row: &Row, db: &Database, atlas: &Atlas<'_>) -> Result<String> {
    let number = phone_library::parse(db, None, row.argument(1))?;
    let mut out = String::from_str(alloc, atlas.locale.text_file())?;
    push_files(alloc, &mut out, atlas)?;
    push_known(row, db, atlas, &number, &mut out)?;
    push_placed(row, db, atlas, &number, &mut out)?;
    push_part(&mut out, safe_carrier(db, atlas, &number)?)?;
    Ok(out)
}

/// Writes a part, behind a tab.
fn push_part(out: &mut String, part: &str) -> Result<()> {
    out.push('\t')?;
    Ok(out.push_str(part)?)
}

/// Writes which files of names are asked for, with spaces between.
fn push_files(alloc: Global, out: &mut String, atlas: &Atlas<'_>) -> Result<()> {
    let files = atlas.locale.name_files(alloc)?;
    let mut mark = '\t';
    for file in files.as_slice() {
        out.push(mark)?;
        out.push_str(file)?;
        mark = ' ';
    }
    Ok(())
}

/// Writes description, carrier and time zones of a number.
fn push_known(
    row: &Row,
    db: &Database,
    atlas: &Atlas<'_>,
    number: &PhoneNumber,
    out: &mut String,
) -> Result<()> {
    let zones = zones(row, db)?;
    push_part(out, description(db, atlas, number, user(row, 3))?)?;
    push_part(out, carrier(db, atlas, number)?)?;
    push_part(out, time_zones(db, &zones, number)?)
}

/// Writes the same of a number as it stands.
fn push_placed(
    row: &Row,
    db: &Database,
    atlas: &Atlas<'_>,
    number: &PhoneNumber,
    out: &mut String,
) -> Result<()> {
    let zones = zones(row, db)?;
    let alloc = db.allocator();
    push_part(out, valid_description(db, atlas, number, user(row, 3))?)?;
    push_part(out, valid_carrier(alloc, atlas, number)?)?;
    push_part(out, placed_time_zones(alloc, &zones, number)?)
}

/// The table of time zones of a line.
fn zones(row: &Row, db: &Database) -> Result<Prefixes> {
    match table(db.allocator(), row, 8)? {
        Some(zones) => Ok(zones),
        None => Err(anyhow!("a line has a table of time zones")),
    }
}
