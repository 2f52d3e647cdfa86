//! A database: its territories in order, from records or from text, by id and by calling code.
ghost use Rattle.std.specs.Prelude.{◌≡◌, ◌⊎◌, ◌<◌, ◌≤◌, ◌+◌, ◌^◌, ◌++◌, ℕ, List, None, Some, Ok};
ghost use Rattle.std.specs.Prelude.{Err, IfOk, IfErr, IfSome, IsUtf8, OnOk, filter, map};
ghost use Rattle.std.specs.Prelude.{option_map, reverse};
ghost use Rattle.std.specs.Borrow.{Bor};
ghost use Rattle.std.specs.List.{AllByRecursion, Contains, IsDistinct, find};
ghost use Rattle.std.specs.Result.{IsOk};
ghost use Rattle.std.specs.Option.{option_copied};
ghost use Rattle.std.specs.Str.{bytes_eq};
ghost use Rattle.serde_json.specs.Read.{read};
ghost use Rattle.phone_device.specs.Passing.{IsAtEnd, PassesSome};
ghost use Rattle.phone_json.specs.Records.{records_of};
ghost use Rattle.phone_plans.specs.CodeLookUps.{first_of, if_any, is_main_of, is_other_of};
ghost use Rattle.phone_plans.specs.CodeLookUps.{territories};
ghost use Rattle.phone_plans.specs.Index.{count_of_ids};
ghost use Rattle.phone_plans.specs.Records.{last_with};
ghost use Rattle.phone_plans.specs.Refusals.{patterns, IsRefusalOf};
ghost use Rattle.phone_plans.specs.Texts.{IsByteRefusal, IsCutShort, IsRefusalOfSome};
ghost use Rattle.phone_plans.specs.Texts.{IsTextRefusal, faults_of};
ghost use Rattle.phone_records.specs.Missing.{first_missing};
ghost use Rattle.phone_records.specs.declared.loader.Metadata as loader;
ghost use Rattle.phone_pattern.specs.Rules.{first_group_pattern};
ghost use Rattle.phone_territory.specs.First.{IsPattern, IsPatternOf};
ghost use Rattle.phone_territory.specs.Records.{id_of};
ghost use Rattle.phone_base.specs.declared.error.LoadMetadata.TheVariants as error;

use crate::iter::Iter;
use crate::metadata::Metadata;
use crate::tree::Tree;
use phone_base::results::zip;
use phone_device::{ByteSource, ReadError, Std, read_all};
use phone_plans::{Plans, Steps};
use phone_territory::LoadMetadata;
use phone_territory::loader::{self, Items};
use regex::Regex;
use std::alloc::{AllocError, Global};
use std::fs::{self, Files};
use std::marker::Model;
use std::ops::Deref;

/// Territories in the order in which their records were handed in, with their patterns compiled,
/// and the light table of the same records. Contracts see these records.
pub struct Database {
    plans: Plans,
    tree: Tree,
}

/// Written out, so that the crates above drop a database by this one function, and don't prove anew
/// the drop of each type that it owns.
impl Drop for Database {
    fn drop(self) {
        let Database { plans, tree } = self;
        drop(plans);
        drop(tree);
    }
}

impl Model for Database {
    ghost use Rattle.std.specs.Prelude.{◌≡◌, List};
    ghost use Rattle.phone_records.specs.declared.loader.Metadata as loader;

    ghost Value = { List loader.Metadata };

    ghost view = { λ d. d.plans };

    ghost invariant = { λ d. d.tree ≡ d.plans };
}

impl Deref for Database {
    type Target = Plans;

    ghost use Rattle.std.specs.Prelude.{◌≡◌};

    ghost deref_gives = { λ d plans. plans ≡ d };

    fn deref(&self) -> &Plans {
        &self.plans
    }
}

impl Database {
    /// A database of these records, in their order. First every record is looked through for a
    /// value that it must have: refused by `Metadata(MissingValue)` with the first that is missing.
    /// Then each pattern is compiled once, in their order: refused by `Regex` with the first text
    /// that is no pattern, or compiles to more than 10 MiB. Refused by `Memory` where memory is
    /// refused.
    pub fn from(alloc: Global, records: Vec<loader::Metadata>) -> Result<Database, LoadMetadata>
        ensures accepted { IfOk result (λ d. d ≡ records.items) }
        ensures complete { IsOk result → first_missing records.items ≡ None }
        ensures read { IsOk result → AllByRecursion IsPattern (patterns records.items) }
        ensures refused { IfErr result (IsRefusalOf records.items) }
    {
        let records = Items::from(records);
        let copies = records.clone(alloc)?;
        let plans = Plans::from(alloc, copies.into_vec())?;
        let tree = Tree::compile(alloc, records.into_vec())?;
        Ok(Database { plans, tree })
    }

    /// The database that a text is: a JSON array of records, in their order, each an object whose
    /// keys are the record's fields. An absent key and `null` mean none, an empty list, false or an
    /// empty record. Of a repeated key the last value counts.
    ///
    /// Errors, in this order:
    ///
    /// - `Json` exactly where the text is no JSON, or nests more than 127 deep; a text with a
    ///   byte-order mark in front is no JSON.
    /// - The first fault, record by record. `Metadata(UnhandledElement)` for keys that may not
    ///   stand in a record, with the least of them in byte order. `Kind` for a value of the wrong
    ///   kind, with the record's kind and the field, or with `database` and `records` where the
    ///   text isn't an array of objects. A number that isn't whole or is above 65535 is of the
    ///   wrong kind.
    /// - Those of `from` for the records: `Metadata(MissingValue)`, or `Regex`.
    ///
    /// `Memory` where memory is refused; never `Io`.
    pub fn parse(alloc: Global, text: &str) -> Result<Database, LoadMetadata>
        ensures accepted { IfOk result (λ d. records_of text.now ≡ Ok d) }
        ensures complete { IfOk result (λ d. first_missing d ≡ None) }
        ensures read { IfOk result (λ d. AllByRecursion IsPattern (patterns d)) }
        ensures refused { IfErr result (IsTextRefusal text.now) }
        ensures json { result ≡ Err error.Json → read text.now ≡ None }
        ensures no_json { read text.now ≡ None → (result ≡ Err error.Json) ⊎
            (result ≡ Err error.Memory) }
    {
        Database::from(alloc, phone_json::records(alloc, text)?)
    }

    /// The database whose text, in UTF-8, is all bytes that a source has to come, as `parse` makes
    /// it of the text. The source is read to its end.
    ///
    /// Errors: `Io` exactly where a read failed, and then some bytes have passed and are lost;
    /// `Json` where the bytes are no UTF-8; else those of `parse` for the text; `Memory` where
    /// memory is refused, for the bytes or after them.
    pub fn read_from<S: ByteSource>(alloc: Global, source: &mut S) -> Result<Database, LoadMetadata>
        ensures io { S.faults source.new ≡ S.faults source.old + faults_of result }
        ensures accepted { IfOk result (λ d.
            IfSome (S.to_come source.old) (λ bytes. IsUtf8 bytes × (records_of bytes ≡ Ok d))) }
        ensures complete { IfOk result (λ d. first_missing d ≡ None) }
        ensures read { IfOk result (λ d. AllByRecursion IsPattern (patterns d)) }
        ensures refused { IfErr result (λ e. IsCutShort e ⊎
            IfSome (S.to_come source.old) (λ bytes. IsByteRefusal bytes e)) }
        ensures refused_for_some { IfErr result IsRefusalOfSome }

        // All bytes were read, unless a read failed or memory was refused.
        ensures end { OnOk result (IsAtEnd (S.to_come source.new)) }
        ensures refused_at_end { IfErr result (λ e. IsCutShort e ⊎ IsAtEnd (S.to_come source.new)) }
        ensures lost { result ≡ Err error.Io →
            PassesSome (S.to_come source.old) (S.to_come source.new) }
    {
        let bytes = match read_all(alloc, source) {
            Ok(bytes) => bytes,
            Err(ReadError::Fault) => return Err(LoadMetadata::Io),
            Err(ReadError::Memory) => return Err(LoadMetadata::Memory),
        };
        Database::of_bytes(alloc, bytes.as_slice())
    }

    /// The database that these bytes are, as `parse` answers them; `Json` where they are no text.
    fn of_bytes(alloc: Global, bytes: &[u8]) -> Result<Database, LoadMetadata>
        ensures no_io { faults_of result ≡ 0 }
        ensures accepted { IfOk result (λ d. IsUtf8 bytes.now × (records_of bytes.now ≡ Ok d)) }
        ensures complete { IfOk result (λ d. first_missing d ≡ None) }
        ensures read { IfOk result (λ d. AllByRecursion IsPattern (patterns d)) }
        ensures refused { IfErr result (IsByteRefusal bytes.now) }
    {
        match std::str::from_utf8(bytes) {
            Ok(text) => Database::parse(alloc, text),
            Err(_) => Err(LoadMetadata::Json),
        }
    }

    /// The database whose text, in UTF-8, is the file at a path, as `read_from` reads the file.
    ///
    /// Errors: `Io` where the file can't be opened, or a read fails, as a read of a folder does and
    /// a read that is interrupted; else those of `read_from`. No contract says that the bytes that
    /// are read are the file's.
    pub fn load<R: Files + AllocGlobal>(rt: &R, path: &str) -> Result<Database, LoadMetadata>
        ensures complete { IfOk result (λ d. first_missing d ≡ None) }
        ensures read { IfOk result (λ d. AllByRecursion IsPattern (patterns d)) }
        ensures refused { IfErr result IsRefusalOfSome }
    {
        match fs::open(rt, path) {
            Ok(file) => Database::read_from(rt.alloc(), &mut Std::new(file)),
            Err(_) => Err(LoadMetadata::Io),
        }
    }

    /// The light table of the same records. What was compiled is given up.
    pub fn into_plans(self) -> Plans
        ensures { result ≡ self }
    {
        let Database { plans, tree } = self;
        drop(tree);
        plans
    }

    /// The pattern `(\$\d)` of the first group that a template names.
    pub fn first_group(&self) -> &Regex
        ensures { IsPatternOf first_group_pattern result.now }
    {
        self.tree.first_group()
    }

    /// The territories in order of arrival.
    fn territories(&self) -> &[Metadata]
        ensures { result.now ≡ self.now }
    {
        self.tree.territories()
    }

    /// The territory of an id: the last of its records.
    pub fn by_id(&self, id: &str) -> Option<&Metadata>
        ensures { option_copied result ≡ last_with id.now self.now }
    {
        self.by_id_in(id, &mut Steps::new())
    }

    /// The same, with its steps counted: each comparison of ids is one, of which it takes at most
    /// as many as the number of different ids has binary digits.
    pub fn by_id_in(&self, id: &str, steps: &mut Steps) -> Option<&Metadata>
        ensures territory { option_copied result ≡ last_with id.now self.now }
        ensures bound { (k : ℕ) → count_of_ids self.now < 2 ^ k → steps.new ≤ steps.old + k }
    {
        self.tree.by_id_in(id, steps)
    }

    /// The territories of a calling code: the main ones, latest first, then the others in order of
    /// arrival; none where the code has no territory. Refused only for memory.
    pub fn by_code(&self, code: &u16) -> Result<Option<Vec<&Metadata>>, AllocError>
        ensures { IfOk result (λ found.
            option_map (λ v. map (λ (t : Bor loader.Metadata). t.now) v.items) found ≡
            if_any (territories code.now self.now)) }
    {
        let alloc = self.allocator();
        let all = self.territories();
        let (mains, others) = zip(mains(alloc, all, *code), others(alloc, all, *code))?;
        backwards_before(mains, others)
    }

    /// The first territory of a calling code: its latest main one, or else its earliest. Takes no
    /// memory.
    pub fn first_by_code(&self, code: &u16) -> Option<&Metadata>
        ensures { option_copied result ≡ first_of (territories code.now self.now) }
    {
        let all = self.territories();
        match last_main(all, *code) {
            Some(main) => Some(main),
            None => first_other(all, *code),
        }
    }

    /// For each id its last territory, each once, in no order that is promised. Takes no memory.
    pub fn iter(&self) -> Iter<'_>
        ensures last_of_its_id { (m : loader.Metadata) → Contains result m →
            last_with (id_of m) self.now ≡ Some m }
        ensures each_id { (id : List ℕ) (m : loader.Metadata) → last_with id self.now ≡ Some m →
            Contains result m }
        ensures each_once { IsDistinct bytes_eq (map id_of result) }
    {
        Iter {
            rest: self.territories(),
        }
    }
}

/// The main territories of a calling code, in order of arrival. Refused only for memory.
fn mains(alloc: Global, all: &[Metadata], code: u16) -> Result<Vec<&Metadata>, AllocError>
    ensures { IfOk result (λ v. map (λ (t : Bor loader.Metadata). t.now) v.items ≡
        filter (is_main_of code) all.now) }
{
    all.iter().filter(|t| is_main(t, code)).collect(alloc)
}

/// The other territories of a calling code, in order of arrival. Refused only for memory.
fn others(alloc: Global, all: &[Metadata], code: u16) -> Result<Vec<&Metadata>, AllocError>
    ensures { IfOk result (λ v. map (λ (t : Bor loader.Metadata). t.now) v.items ≡
        filter (is_other_of code) all.now) }
{
    all.iter().filter(|t| is_other(t, code)).collect(alloc)
}

/// Whether a territory is a main one of a calling code.
fn is_main(territory: &Metadata, code: u16) -> bool
    ensures { result ≡ is_main_of code territory.now }
{
    territory.country_code() == code && territory.is_main_country_for_code()
}

/// Whether a territory is of a calling code, and isn't a main one.
fn is_other(territory: &Metadata, code: u16) -> bool
    ensures { result ≡ is_other_of code territory.now }
{
    territory.country_code() == code && !territory.is_main_country_for_code()
}

/// The last main one of a calling code's territories.
fn last_main(all: &[Metadata], code: u16) -> Option<&Metadata>
    ensures { option_copied result ≡ find (is_main_of code) (reverse all.now) }
{
    let mut rest = all;
    while let Some((last, others)) = rest.split_last() {
        rest = others;
        if is_main(last, code) {
            return Some(last);
        }
    }
    None
}

/// The first of a calling code's territories that isn't a main one.
fn first_other(all: &[Metadata], code: u16) -> Option<&Metadata>
    ensures { option_copied result ≡ find (is_other_of code) all.now }
{
    all.iter().find(|t| is_other(t, code))
}

/// The first items backwards, and after them the others, where there is any. Refused only for
/// memory.
fn backwards_before<T: Drop>(first: Vec<T>, others: Vec<T>) -> Result<Option<Vec<T>>, AllocError>
    ensures { IfOk result (λ all.
        option_map (λ v. v.items) all ≡ if_any (reverse first.items ++ others.items)) }
{
    let mut all = first;
    let mut others = others;
    all.reverse();
    all.append(&mut others)?;
    if all.is_empty() {
        return Ok(None);
    }
    Ok(Some(all))
}
