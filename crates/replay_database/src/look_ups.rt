//! The look-ups of a database, each on the one that its line names, and answered by both tables.
use crate::named::{code_of, light_territory, territory};
use crate::tables::{Told, agreed, light};
use anyhow::{Result, anyhow};
use phone_meta::{Database, Metadata};
use phone_plans::{Descriptor, Plans, Territory};
use phone_values::Type;
use replay_base::marks::{around, begin};
use replay_base::table::Row;
use replay_base::words::{KINDS, kind, part_of, said, truth};
use std::alloc::{AllocError, Global};

/// What the database answers to a look-up, as the table writes it; none for any other call. An
/// error where a line names a code, a territory or a kind that isn't there, and where memory is
/// refused.
pub fn answer(alloc: Global, row: &Row, db: &Database) -> Result<Option<String>> {
    let answer = match row.call() {
        "shortest" => code(alloc, db.shortest(row.argument(1))),
        "codes-prefix-free" => truth(alloc, db.codes_prefix_free()),
        "region" => region(alloc, db, row),
        "by-code" => by_code(alloc, db, row),
        "first-by-code" => first_by_code(alloc, db, row),
        "by-id" => by_id(alloc, db, row.argument(1)),
        "iter" => iter(alloc, db),
        "descriptors" => descriptors(alloc, db, row),
        "has-benign-prefix" => has_benign_prefix(alloc, db, row),
        "is-match" => is_match(alloc, db, row, row.argument(3)),
        "is-match-repeated" => is_match_repeated(alloc, db, row),
        _ => return Ok(None),
    };
    Ok(Some(answer?))
}

/// A calling code, or a hyphen.
fn code(alloc: Global, code: Option<u16>) -> Result<String> {
    match code {
        Some(code) => Ok(code.to_string(alloc)?),
        None => said(alloc, "-"),
    }
}

/// The ids of the territories of a line's code, parted by spaces, or a hyphen.
fn region(alloc: Global, db: &Database, row: &Row) -> Result<String> {
    let code = code_of(row)?;
    match around(alloc, begin(alloc), db.region(&code))? {
        Some(ids) => part_of(alloc, ids.as_slice().join(alloc, " ")?.as_str()),
        None => said(alloc, "-"),
    }
}

/// The territory of an id, or a hyphen.
fn by_id(alloc: Global, db: &Database, id: &str) -> Result<String> {
    let compiled = record(alloc, db.by_id(id))?;
    agreed(compiled, record(alloc, light(db).by_id(id))?)
}

/// The territories of a line's code, or a hyphen.
fn by_code(alloc: Global, db: &Database, row: &Row) -> Result<String> {
    let code = code_of(row)?;
    let compiled = found(alloc, around(alloc, begin(alloc), db.by_code(&code))?)?;
    agreed(compiled, found(alloc, light(db).by_code(&code)?)?)
}

/// The territories that were found, or a hyphen.
fn found<T: Told>(alloc: Global, found: Option<Vec<&T>>) -> Result<String> {
    match found {
        Some(found) => records(alloc, found.as_slice()),
        None => said(alloc, "-"),
    }
}

/// The first territory of a line's code.
fn first_by_code(alloc: Global, db: &Database, row: &Row) -> Result<String> {
    let code = code_of(row)?;
    let compiled = record(alloc, db.first_by_code(&code))?;
    agreed(compiled, record(alloc, light(db).first_by_code(&code))?)
}

/// What going over a database gives, in the order of the ids.
fn iter(alloc: Global, db: &Database) -> Result<String> {
    let mut found: Vec<&Metadata> = db.iter().collect(alloc)?;
    found.sort_by_key(|record| record.id())?;
    let compiled = records(alloc, found.as_slice())?;
    agreed(compiled, iter_light(alloc, db)?)
}

/// The same of the light table.
fn iter_light(alloc: Global, plans: &Plans) -> Result<String> {
    let mut found: Vec<&Territory> = plans.iter().collect(alloc)?;
    found.sort_by_key(|record| record.id())?;
    records(alloc, found.as_slice())
}

/// A territory, or a hyphen.
pub fn record<T: Told>(alloc: Global, found: Option<&T>) -> Result<String> {
    match found {
        Some(record) => records(alloc, &[record]),
        None => said(alloc, "-"),
    }
}

/// Territories parted by spaces.
fn records<T: Told>(alloc: Global, found: &[&T]) -> Result<String> {
    let mut out = String::new(alloc);
    for record in found {
        push_record(&mut out, *record)?;
    }
    Ok(out)
}

/// Writes a territory, behind an equals sign if it is the first, else behind a space:
/// `id/code/pattern`, with the general pattern's text.
fn push_record<T: Told>(out: &mut String, record: &T) -> Result<(), AllocError> {
    out.push(if out.is_empty() { '=' } else { ' ' })?;
    let (id, code) = record.id_and_code();
    let pattern = record.pattern_of(Type::Unknown).unwrap_or("-");
    write!(out, "{id}/{code}/{pattern}")
}

/// For each kind the text of its descriptor's pattern in a line's territory, or a hyphen, parted by
/// tabs.
fn descriptors(alloc: Global, db: &Database, row: &Row) -> Result<String> {
    let compiled = patterns(alloc, territory(db, row)?)?;
    agreed(compiled, patterns(alloc, light_territory(db, row)?)?)
}

/// For each kind the text of its pattern in a territory, or a hyphen, parted by tabs.
fn patterns<T: Told>(alloc: Global, territory: &T) -> Result<String> {
    let mut out = String::new(alloc);
    for (_, kind) in &KINDS {
        push_descriptor(&mut out, territory.pattern_of(*kind))?;
    }
    Ok(out)
}

/// Writes the text of a descriptor's pattern, or a hyphen, behind a tab where something stands
/// before it.
fn push_descriptor(out: &mut String, pattern: Option<&str>) -> Result<(), AllocError> {
    if !out.is_empty() {
        out.push('\t')?;
    }
    match pattern {
        Some(pattern) => push_pattern(out, pattern),
        None => out.push('-'),
    }
}

/// Writes a pattern's text behind an equals sign.
fn push_pattern(out: &mut String, pattern: &str) -> Result<(), AllocError> {
    out.push('=')?;
    out.push_str(pattern)
}

/// Whether a line's territory has a benign prefix of extensions.
fn has_benign_prefix(alloc: Global, db: &Database, row: &Row) -> Result<String> {
    truth(alloc, territory(db, row)?.has_benign_prefix())
}

/// Whether a text that comes so many times matches.
fn is_match_repeated(alloc: Global, db: &Database, row: &Row) -> Result<String> {
    let times = row.argument(4).parse::<usize>()?;
    let text = row.argument(3).repeat(alloc, times)?;
    is_match(alloc, db, row, text.as_str())
}

/// Whether a text matches the descriptor of the territory and the kind that a line names.
fn is_match(alloc: Global, db: &Database, row: &Row, text: &str) -> Result<String> {
    let kind = kind(row.argument(2))?;
    match (
        territory(db, row)?.descriptors().get(kind),
        light_territory(db, row)?.descriptors().get(kind),
    ) {
        (Some(compiled), Some(light)) => {
            agreed(
                matches(alloc, compiled, text)?,
                matches(alloc, light, text)?,
            )
        }
        _ => Err(anyhow!("the territory has no descriptor of this kind")),
    }
}

/// Whether a text matches a descriptor.
fn matches(alloc: Global, descriptor: &Descriptor, text: &str) -> Result<String> {
    truth(
        alloc,
        around(alloc, begin(alloc), descriptor.is_match(text))?,
    )
}
