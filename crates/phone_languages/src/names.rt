//! A table of the names of regions.
ghost use Rattle.std.specs.Prelude.{◌≡◌, ◌<◌, ◌++◌, ◌∷◌, ℕ, List, [], IfErr, IfOk, OnOk, length};
ghost use Rattle.std.specs.Prelude.{map};
ghost use Rattle.std.specs.Option.{option_copied};
ghost use Rattle.phone_languages.specs.Locales.{Lacks};
ghost use Rattle.phone_languages.specs.NameTables.{IsOneMore, IsTable, Refuses, RefusesNext};
ghost use Rattle.phone_languages.specs.NameTables.{first_name, id_of, name_of, text_of};

use crate::fault::{LineFault, NamesError};
use crate::line::cut_at;
use std::alloc::{AllocError, Global};
use std::marker::Model;

/// The id of a region, and its name.
#[derive(Drop)]
pub struct Name {
    /// The id, as `NZ`.
    pub id: String,
    /// The name, in UTF-8.
    pub text: String,
}

/// A table of the names of regions in a language. Contracts see them, in the order of their lines.
#[derive(Drop)]
pub struct Names {
    entries: Vec<Name>,
}

impl Model for Names {
    ghost use Rattle.std.specs.Prelude.{List};
    ghost use Rattle.phone_languages.specs.declared.names.Name.{Name};

    ghost Value = { List Name };

    ghost view = { λ n. n.entries.items };
}

/// Puts a name at the end of others. Refused only for memory.
fn push_name(alloc: Global, entries: &mut Vec<Name>, id: &str, text: &str) -> Result<(), AllocError>
    ensures { OnOk result ((e : Name) × (id_of e ≡ id.now) × (text_of e ≡ text.now) ×
        (entries.new.items ≡ entries.old.items ++ e ∷ [])) }
{
    let id = id.to_string(alloc)?;
    let text = text.to_string(alloc)?;
    entries.push(Name { id, text })?;
    Ok(())
}

/// Takes a line as the next name.
fn push_line(alloc: Global, entries: &mut Vec<Name>, line: &str) -> Result<(), NamesError>
    requires { Lacks 10 line.now }
    ensures taken { OnOk result (IsOneMore entries.old.items line.now entries.new.items) }
    ensures refused { IfErr result (λ e. (after : List ℕ) →
        RefusesNext entries.old.items (line.now ++ 10 ∷ after) e) }
{
    match cut_at(line, '\t') {
        Some((id, text)) => {
            push_name(alloc, entries, id, text)?;
            Ok(())
        }
        None => Err(NamesError::Line(entries.len() + 1, LineFault::NoTab)),
    }
}

/// Takes the line with which a text begins, as the next name, and gives what stands behind it.
fn take_line<'t>(
    alloc: Global,
    entries: &mut Vec<Name>,
    text: &'t str,
) -> Result<&'t str, NamesError>
    requires { 0 < length text.now }
    ensures taken { IfOk result (λ rest. (line : List ℕ) × (text.now ≡ line ++ 10 ∷ rest.now) ×
        IsOneMore entries.old.items line entries.new.items) }
    ensures shorter { IfOk result (λ rest. length rest.now < length text.now) }
    ensures refused { IfErr result (RefusesNext entries.old.items text.now) }
{
    let Some((line, rest)) = cut_at(text, '\n') else {
        return Err(NamesError::Line(entries.len() + 1, LineFault::NoEnd));
    };
    match push_line(alloc, entries, line) {
        Ok(()) => Ok(rest),
        Err(error) => Err(error),
    }
}

/// The names of the lines of a text.
fn entries_of(alloc: Global, text: &str) -> Result<Vec<Name>, NamesError>
    ensures table { IfOk result (λ v. IsTable text.now v.items) }
    ensures refused { IfErr result (Refuses text.now) }
{
    let mut entries = Vec::new(alloc);
    let mut rest = text;
    while !rest.is_empty() {
        match take_line(alloc, &mut entries, rest) {
            Ok(after) => rest = after,
            Err(error) => return Err(error),
        }
    }
    Ok(entries)
}

impl Names {
    /// The table of these bytes: lines of a region's id, a tab and its name, in UTF-8; a line feed
    /// ends each line. Refused by `NotUtf8`, by `Line` with the first line that has no tab, or no
    /// end, and for memory.
    pub fn of(alloc: Global, bytes: &[u8]) -> Result<Names, NamesError>
        ensures table { IfOk result (IsTable bytes.now) }
        ensures refused { IfErr result (Refuses bytes.now) }
    {
        match std::str::from_utf8(bytes) {
            Ok(text) => {
                let entries = entries_of(alloc, text)?;
                Ok(Names { entries })
            }
            Err(_) => Err(NamesError::NotUtf8),
        }
    }

    /// The names, in the order of their lines.
    pub fn entries(&self) -> &[Name]
        ensures { result.now ≡ self.now }
    {
        self.entries.as_slice()
    }

    /// The name that the table has for a region's id, of several the first. Takes no memory.
    pub fn name(&self, id: &str) -> Option<&str>
        ensures { option_copied result ≡ name_of self.now id.now }
    {
        match self.entries().iter().find(|e| e.id.as_str() == id) {
            Some(entry) => Some(entry.text.as_str()),
            None => None,
        }
    }
}

/// The name of a region by the first of these tables that has one. Takes no memory.
pub fn name_among<'t>(tables: &'t [&'t Names], id: &str) -> Option<&'t str>
    ensures { option_copied result ≡ first_name (map (λ t. t.now) tables.now) id.now }
{
    for table in tables {
        if let Some(name) = table.name(id) {
            return Some(name);
        }
    }
    None
}
