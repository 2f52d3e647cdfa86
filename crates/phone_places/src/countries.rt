//! A table of the names of regions.
ghost use Rattle.std.specs.Prelude.{◌≡◌, ◌<◌, ◌++◌, ◌∷◌, ℕ, List, [], IfErr, IfOk, OnOk};
ghost use Rattle.std.specs.Prelude.{IsTrue, length, ◌↔◌};
ghost use Rattle.phone_places.specs.Folds.{fold_text};
ghost use Rattle.phone_places.specs.Tables.{IsAbove, IsBelow, IsFault, IsLine, IsOneMore};
ghost use Rattle.phone_places.specs.Tables.{IsTable, Lacks, Refuses, RefusesNext, Rises};
ghost use Rattle.phone_places.specs.Tables.{name_of, region_in};
ghost use Rattle.phone_places.specs.declared.fault.LineFault.TheVariants as fault;

use crate::fault::{CountriesError, LineFault};
use crate::folding::fold;
use crate::line::{cut_at, parts_of};
use phone_values::country::Id;
use std::alloc::{AllocError, Global};
use std::cmp::Ordering;
use std::marker::Model;

/// A name, folded, and the region that has it.
#[derive(Drop)]
pub struct Entry {
    /// The name, as `fold` gives it.
    pub name: String,
    /// The region.
    pub id: Id,
}

/// A table of the names of regions, in the order of their bytes. Contracts see its entries.
#[derive(Drop)]
pub struct Countries {
    entries: Vec<Entry>,
}

impl Model for Countries {
    ghost use Rattle.std.specs.Prelude.{List};
    ghost use Rattle.phone_places.specs.Tables.{Rises};
    ghost use Rattle.phone_places.specs.declared.countries.Entry.{Entry};

    ghost Value = { List Entry };

    ghost view = { λ c. c.entries.items };

    ghost invariant = { λ c. Rises c.entries.items };
}

/// Whether the name of an entry is below another, byte by byte.
fn is_below(entry: &Entry, name: &str) -> bool
    ensures { IsTrue result ↔ IsBelow name.now entry.now }
{
    entry.name.as_str().cmp(name).is_lt()
}

/// Whether a name is above that of the last entry, and so above all; where there is none, it is.
fn is_above(entries: &[Entry], name: &str) -> bool
    requires { Rises entries.now }
    ensures { IsTrue result ↔ IsAbove entries.now name.now }
{
    match entries.last() {
        Some(last) => is_below(last, name),
        None => true,
    }
}

/// A name and its region, where the name is above those of these entries.
fn placed<'t>(entries: &[Entry], name: &'t str, id: Id) -> Result<(&'t str, Id), LineFault>
    requires { Rises entries.now }
    ensures same { IfOk result (λ p. (p.0.now ≡ name.now) × (p.1 ≡ id)) }
    ensures above { IfOk result (λ p. IsAbove entries.now p.0.now) }
    ensures refused { IfErr result (λ what. (what ≡ fault.NotAbove) ×
        ¬ (IsAbove entries.now name.now)) }
{
    if is_above(entries, name) {
        Ok((name, id))
    } else {
        Err(LineFault::NotAbove)
    }
}

/// The name and the region of a line, which may come after these entries; or what is wrong with it.
fn next_parts<'t>(entries: &[Entry], line: &'t str) -> Result<(&'t str, Id), LineFault>
    requires rises { Rises entries.now }
    requires unbroken { Lacks 10 line.now }
    ensures line { IfOk result (λ p. IsLine line.now p.0.now p.1) }
    ensures above { IfOk result (λ p. IsAbove entries.now p.0.now) }
    ensures refused { IfErr result (λ what. (after : List ℕ) →
        IsFault entries.now (line.now ++ 10 ∷ after) what) }
{
    match parts_of(line) {
        Ok((name, id)) => placed(entries, name, id),
        Err(fault) => Err(fault),
    }
}

/// Puts an entry at the end of others. Refused only for memory.
fn push_entry(alloc: Global, entries: &mut Vec<Entry>, name: &str, id: Id) -> Result<(), AllocError>
    ensures { OnOk result ((e : Entry) × (name_of e ≡ name.now) × (e.id ≡ id) ×
        (entries.new.items ≡ entries.old.items ++ e ∷ [])) }
{
    let name = name.to_string(alloc)?;
    entries.push(Entry { name, id })?;
    Ok(())
}

/// Takes a line as the next entry.
fn push_line(alloc: Global, entries: &mut Vec<Entry>, line: &str) -> Result<(), CountriesError>
    requires rises { Rises entries.old.items }
    requires unbroken { Lacks 10 line.now }
    ensures taken { OnOk result (IsOneMore entries.old.items line.now entries.new.items) }
    ensures refused { IfErr result (λ e. (after : List ℕ) →
        RefusesNext entries.old.items (line.now ++ 10 ∷ after) e) }
{
    match next_parts(entries.as_slice(), line) {
        Ok((name, id)) => {
            push_entry(alloc, entries, name, id)?;
            Ok(())
        }
        Err(fault) => Err(CountriesError::Line(entries.len() + 1, fault)),
    }
}

/// Takes the line with which a text begins, as the next entry, and gives what stands behind it.
fn take_line<'t>(
    alloc: Global,
    entries: &mut Vec<Entry>,
    text: &'t str,
) -> Result<&'t str, CountriesError>
    requires rises { Rises entries.old.items }
    requires some { 0 < length text.now }
    ensures taken { IfOk result (λ rest. (line : List ℕ) × (text.now ≡ line ++ 10 ∷ rest.now) ×
        IsOneMore entries.old.items line entries.new.items) }
    ensures shorter { IfOk result (λ rest. length rest.now < length text.now) }
    ensures refused { IfErr result (RefusesNext entries.old.items text.now) }
{
    let Some((line, rest)) = cut_at(text, '\n') else {
        return Err(CountriesError::Line(entries.len() + 1, LineFault::NoEnd));
    };
    match push_line(alloc, entries, line) {
        Ok(()) => Ok(rest),
        Err(error) => Err(error),
    }
}

/// The entries of the lines of a text.
fn entries_of(alloc: Global, text: &str) -> Result<Vec<Entry>, CountriesError>
    ensures table { IfOk result (λ v. IsTable text.now v.items) }
    ensures rises { IfOk result (λ v. Rises v.items) }
    ensures refused { IfErr result (Refuses text.now) }
{
    let mut entries = Vec::new(alloc);
    let mut rest = text;
    while !rest.is_empty() {
        match take_line(alloc, &mut entries, rest) {
            Ok(after) => rest = after,
            Err(error) => return Err(error),
        }
    }
    Ok(entries)
}

impl Countries {
    /// The table of these bytes: lines of a folded name, a tab and the id of a region, in the order
    /// of the names' bytes, each name once, in UTF-8; a line feed ends each line. Refused by
    /// `NotUtf8`, by `Line` with the first line that is none, comes twice or out of order, or has
    /// no end, and for memory.
    pub fn of(alloc: Global, bytes: &[u8]) -> Result<Countries, CountriesError>
        ensures table { IfOk result (IsTable bytes.now) }
        ensures refused { IfErr result (Refuses bytes.now) }
    {
        match std::str::from_utf8(bytes) {
            Ok(text) => {
                let entries = entries_of(alloc, text)?;
                Ok(Countries { entries })
            }
            Err(_) => Err(CountriesError::NotUtf8),
        }
    }

    /// The entries, in the order of their names.
    pub fn entries(&self) -> &[Entry]
        ensures { result.now ≡ self.now }
    {
        self.entries.as_slice()
    }

    /// The region that the table has for a folded name. Takes no memory.
    pub fn named(&self, name: &str) -> Option<Id>
        ensures { result ≡ region_in self.now name.now }
    {
        let mut start = 0;
        let mut end = self.entries.len();
        while start < end {
            let middle = start + (end - start) / 2;
            let entry = &self.entries[middle];
            match entry.name.as_str().cmp(name) {
                Ordering::Less => start = middle + 1,
                Ordering::Equal => return Some(entry.id),
                Ordering::Greater => end = middle,
            }
        }
        None
    }

    /// The region that the table has for a text, once that is folded. Refused only for memory.
    pub fn region(&self, alloc: Global, text: &str) -> Result<Option<Id>, AllocError>
        ensures { IfOk result (λ found. found ≡ region_in self.now (fold_text text.now)) }
    {
        let name = fold(alloc, text)?;
        Ok(self.named(name.as_str()))
    }
}
