//! A database: its territories in order, from records or from text, by id and by calling code.
ghost use Rattle.std.specs.Prelude.{◌≡◌, ◌⊎◌, ◌<◌, ◌≤◌, ◌+◌, ◌^◌, ◌++◌, ℕ, List, None, Some, Ok};
ghost use Rattle.std.specs.Prelude.{Err};
ghost use Rattle.std.specs.Prelude.{IfOk, IfErr, IfSome, IsUtf8, OnOk, filter, map, option_map};
ghost use Rattle.std.specs.Prelude.{reverse};
ghost use Rattle.std.specs.Borrow.{Bor};
ghost use Rattle.std.specs.List.{AllByRecursion, Contains, IsDistinct, find, slice_get};
ghost use Rattle.std.specs.Result.{IsOk};
ghost use Rattle.std.specs.Option.{option_and_then, option_copied, option_flatten};
ghost use Rattle.std.specs.Str.{bytes_eq};
ghost use Rattle.serde_json.specs.Read.{read};
ghost use Rattle.phone_device.specs.Passing.{IsAtEnd, PassesSome};
ghost use Rattle.phone_json.specs.Records.{records_of};
ghost use Rattle.phone_plans.specs.CodeLookUps.{first_of, if_any, is_listed, is_main, is_main_of};
ghost use Rattle.phone_plans.specs.CodeLookUps.{is_other, is_other_of};
ghost use Rattle.phone_plans.specs.CodeLookUps.{is_prefix_free, regions, shortest, territories};
ghost use Rattle.phone_plans.specs.Index.{count_of_ids};
ghost use Rattle.phone_plans.specs.Lasts.{last_of, last_places, seen, with_last};
ghost use Rattle.phone_plans.specs.Records.{has_code, last_with, places_where};
ghost use Rattle.phone_plans.specs.Refusals.{patterns, IsRefusalOf, TellsMissing};
ghost use Rattle.phone_plans.specs.Forms.{AreOf, IsCompactRefusal, IsFormRefusal};
ghost use Rattle.phone_plans.specs.Forms.{IsFormRefusalOfSome};
ghost use Rattle.phone_plans.specs.Texts.{IsByteRefusal, IsCutShort, IsTextRefusal, faults_of};
ghost use Rattle.phone_compact.specs.Records.{written};
ghost use Rattle.phone_records.specs.Missing.{first_missing};
ghost use Rattle.phone_records.specs.declared.loader.Metadata as loader;
ghost use Rattle.phone_territory.specs.First.{IsPattern};
ghost use Rattle.phone_territory.specs.Records.{code_of, id_of};
ghost use Rattle.phone_base.specs.declared.error.LoadMetadata.TheVariants as error;
ghost use Rattle.phone_index.specs.ListedCodes.{is_in};

use crate::index::Index;
use crate::iter::Iter;
use crate::of_code::{Placed, WithLast, WithLasts};
use phone_base::MetadataError;
use phone_base::results::zip;
use phone_compact::NotRead;
use phone_device::{ByteSource, ReadError, Std, read_all};
use phone_index::{Coded, Steps, Trie};
use phone_records::LoadMetadata;
use phone_records::missing::{self, Missing};
use phone_territory::results::zip_read;
use phone_territory::{FirstGroup, Territory, compile_all, loader};
use std::alloc::{AllocError, Global};
use std::fs::{self, Files};
use std::marker::Model;

/// Territories in the order in which their records were handed in. Contracts see these records.
pub struct Plans {
    alloc: Global,
    territories: Vec<Territory>,
    index: Index,
    first_group: FirstGroup,
}

/// Written out, so that the crates above drop a database by this one function, and don't prove anew
/// the drop of each type that it owns.
impl Drop for Plans {
    fn drop(self) {
        let Plans {
            alloc: _,
            territories,
            index,
            first_group,
        } = self;
        drop(territories);
        drop(index);
        drop(first_group);
    }
}

impl Model for Plans {
    ghost use Rattle.std.specs.Prelude.{List};
    ghost use Rattle.phone_plans.specs.Index.{IsIndexOf};
    ghost use Rattle.phone_records.specs.declared.loader.Metadata as loader;

    ghost Value = { List loader.Metadata };

    ghost view = { λ d. d.territories.items };

    ghost invariant = { λ d. IsIndexOf d.index d.territories.items };
}

impl Plans {
    /// A database of these records, in their order. First every record is looked through for a
    /// value that it must have: refused by `Metadata(MissingValue)` with the first that is missing.
    /// Then each pattern is compiled once, in their order: refused by `Regex` with the first text
    /// that is no pattern, or compiles to more than 10 MiB. Refused by `Memory` where memory is
    /// refused.
    pub fn from(alloc: Global, records: Vec<loader::Metadata>) -> Result<Plans, LoadMetadata>
        ensures accepted { IfOk result (λ d. d ≡ records.items) }
        ensures complete { IsOk result → first_missing records.items ≡ None }
        ensures read { IsOk result → AllByRecursion IsPattern (patterns records.items) }
        ensures refused { IfErr result (IsRefusalOf records.items) }
    {
        if let Some(missing) = missing::first_missing(records.as_slice()) {
            return Err(missing_value(alloc, missing));
        }
        let territories = compile_all(alloc, records)?;
        let index = Index::of(alloc, territories.as_slice());
        let others = zip_read(index, FirstGroup::new(alloc));
        let (territories, (index, first_group)) = zip_read(Ok(territories), others)?;
        Ok(Plans {
            alloc,
            territories,
            index,
            first_group,
        })
    }

    /// The database that a text is: a JSON array of records, in their order, each an object whose
    /// keys are the record's fields. An absent key and `null` mean none, an empty list, false or an
    /// empty record. Of a repeated key the last value counts.
    ///
    /// Errors, in this order:
    ///
    /// - `Json` exactly where the text is no JSON, or nests more than 127 deep; a text with a
    ///   byte-order mark in front is no JSON.
    /// - The first fault, record by record. `Metadata(UnhandledElement)` for keys that may not
    ///   stand in a record, with the least of them in byte order. `Kind` for a value of the wrong
    ///   kind, with the record's kind and the field, or with `database` and `records` where the
    ///   text isn't an array of objects. A number that isn't whole or is above 65535 is of the
    ///   wrong kind.
    /// - Those of `from` for the records: `Metadata(MissingValue)`, or `Regex`.
    ///
    /// `Memory` where memory is refused; never `Io`.
    pub fn parse(alloc: Global, text: &str) -> Result<Plans, LoadMetadata>
        ensures accepted { IfOk result (λ d. records_of text.now ≡ Ok d) }
        ensures complete { IfOk result (λ d. first_missing d ≡ None) }
        ensures read { IfOk result (λ d. AllByRecursion IsPattern (patterns d)) }
        ensures refused { IfErr result (IsTextRefusal text.now) }
        ensures json { result ≡ Err error.Json → read text.now ≡ None }
        ensures no_json { read text.now ≡ None → (result ≡ Err error.Json) ⊎
            (result ≡ Err error.Memory) }
    {
        Plans::from(alloc, phone_json::records(alloc, text)?)
    }

    /// The database that these bytes are: the compact form of its records, as `phone_compact`
    /// writes them, where they begin with that form's first line, else a JSON text in UTF-8, as
    /// `parse` reads it.
    ///
    /// Errors: `Json` where the bytes are neither; else those of `from` or of `parse` for the
    /// records; `Memory` where memory is refused; never `Io`.
    pub fn open(alloc: Global, bytes: &[u8]) -> Result<Plans, LoadMetadata>
        ensures no_io { faults_of result ≡ 0 }
        ensures accepted { IfOk result (λ d. AreOf d bytes.now) }
        ensures complete { IfOk result (λ d. first_missing d ≡ None) }
        ensures read { IfOk result (λ d. AllByRecursion IsPattern (patterns d)) }
        ensures refused { IfErr result (IsFormRefusal bytes.now) }
    {
        if phone_compact::is_compact(bytes) {
            Plans::of_compact(alloc, bytes)
        } else {
            Plans::of_json(alloc, bytes)
        }
    }

    /// The database of which these bytes are the compact form; `Json` where they are of none.
    fn of_compact(alloc: Global, bytes: &[u8]) -> Result<Plans, LoadMetadata>
        ensures no_io { faults_of result ≡ 0 }
        ensures accepted { IfOk result (λ d. bytes.now ≡ written d) }
        ensures complete { IfOk result (λ d. first_missing d ≡ None) }
        ensures read { IfOk result (λ d. AllByRecursion IsPattern (patterns d)) }
        ensures refused { IfErr result (IsCompactRefusal bytes.now) }
    {
        match phone_compact::records(alloc, bytes) {
            Ok(records) => Plans::from(alloc, records),
            Err(NotRead::Malformed) => Err(LoadMetadata::Json),
            Err(NotRead::Memory) => Err(LoadMetadata::Memory),
        }
    }

    /// The database that these bytes are, as `parse` answers them; `Json` where they are no text.
    fn of_json(alloc: Global, bytes: &[u8]) -> Result<Plans, LoadMetadata>
        ensures no_io { faults_of result ≡ 0 }
        ensures accepted { IfOk result (λ d. IsUtf8 bytes.now × (records_of bytes.now ≡ Ok d)) }
        ensures complete { IfOk result (λ d. first_missing d ≡ None) }
        ensures read { IfOk result (λ d. AllByRecursion IsPattern (patterns d)) }
        ensures refused { IfErr result (IsByteRefusal bytes.now) }
    {
        match std::str::from_utf8(bytes) {
            Ok(text) => Plans::parse(alloc, text),
            Err(_) => Err(LoadMetadata::Json),
        }
    }

    /// The database that all bytes are which a source has to come, as `open` makes it of them. The
    /// source is read to its end.
    ///
    /// Errors: `Io` exactly where a read failed, and then some bytes have passed and are lost; else
    /// those of `open` for the bytes; `Memory` where memory is refused, for the bytes or after
    /// them.
    pub fn read_from<S: ByteSource>(alloc: Global, source: &mut S) -> Result<Plans, LoadMetadata>
        ensures io { S.faults source.new ≡ S.faults source.old + faults_of result }
        ensures accepted { IfOk result (λ d. IfSome (S.to_come source.old) (AreOf d)) }
        ensures complete { IfOk result (λ d. first_missing d ≡ None) }
        ensures read { IfOk result (λ d. AllByRecursion IsPattern (patterns d)) }
        ensures refused { IfErr result (λ e. IsCutShort e ⊎
            IfSome (S.to_come source.old) (λ bytes. IsFormRefusal bytes e)) }
        ensures refused_for_some { IfErr result IsFormRefusalOfSome }

        // All bytes were read, unless a read failed or memory was refused.
        ensures end { OnOk result (IsAtEnd (S.to_come source.new)) }
        ensures refused_at_end { IfErr result (λ e. IsCutShort e ⊎ IsAtEnd (S.to_come source.new)) }
        ensures lost { result ≡ Err error.Io →
            PassesSome (S.to_come source.old) (S.to_come source.new) }
    {
        let bytes = match read_all(alloc, source) {
            Ok(bytes) => bytes,
            Err(ReadError::Fault) => return Err(LoadMetadata::Io),
            Err(ReadError::Memory) => return Err(LoadMetadata::Memory),
        };
        Plans::open(alloc, bytes.as_slice())
    }

    /// The database that the file at a path is, as `read_from` reads the file.
    ///
    /// Errors: `Io` where the file can't be opened, or a read fails, as a read of a folder does and
    /// a read that is interrupted; else those of `read_from`. No contract says that the bytes that
    /// are read are the file's.
    pub fn load<R: Files + AllocGlobal>(rt: &R, path: &str) -> Result<Plans, LoadMetadata>
        ensures complete { IfOk result (λ d. first_missing d ≡ None) }
        ensures read { IfOk result (λ d. AllByRecursion IsPattern (patterns d)) }
        ensures refused { IfErr result IsFormRefusalOfSome }
    {
        match fs::open(rt, path) {
            Ok(file) => Plans::read_from(rt.alloc(), &mut Std::new(file)),
            Err(_) => Err(LoadMetadata::Io),
        }
    }

    /// The allocator that the database keeps, for calls on it and its parts.
    pub fn allocator(&self) -> Global {
        self.alloc
    }

    /// What finds the first group that a template names.
    pub fn first_group_finder(&self) -> &FirstGroup {
        &self.first_group
    }

    /// The territories in order of arrival. Takes no memory.
    pub fn territories(&self) -> &[Territory]
        ensures { result.now ≡ self.now }
    {
        self.territories.as_slice()
    }

    /// The territory of an id: the last of its records.
    pub fn by_id(&self, id: &str) -> Option<&Territory>
        ensures { option_copied result ≡ last_with id.now self.now }
    {
        self.by_id_in(id, &mut Steps::new())
    }

    /// The same, with its steps counted: each comparison of ids is one, of which it takes at most
    /// as many as the number of different ids has binary digits.
    pub fn by_id_in(&self, id: &str, steps: &mut Steps) -> Option<&Territory>
        ensures territory { option_copied result ≡ last_with id.now self.now }
        ensures bound { (k : ℕ) → count_of_ids self.now < 2 ^ k → steps.new ≤ steps.old + k }
    {
        let place = self.index.by_id.find_in(id, steps)?;
        self.territories.get(place)
    }

    /// The territory at a place, with the last one of its id.
    pub(crate) fn with_last_at(&self, place: usize) -> Option<WithLast<'_>>
        ensures { option_map seen result ≡
            option_map (with_last self.now) (slice_get self.now place) }
    {
        let territory = self.territories.get(place)?;
        let last = self.last_at(place);
        Some(WithLast { territory, last })
    }

    /// The last territory of the id that the one at a place has.
    fn last_at(&self, place: usize) -> Option<&Territory>
        ensures { option_copied result ≡
            option_and_then (last_of self.now) (slice_get self.now place) }
    {
        let last = self.last_place_at(place)?;
        self.territories.get(last)
    }

    /// The place of the last territory of the id that the one at a place has.
    fn last_place_at(&self, place: usize) -> Option<usize>
        ensures { result ≡ option_flatten (slice_get (last_places self.now) place) }
    {
        *self.index.lasts.get(place)?
    }

    /// The places of the territories of a calling code, in order of arrival.
    pub(crate) fn places_of(&self, code: u16) -> &[Coded]
        ensures { map (λ e. e.place) result.now ≡ places_where (has_code code) self.now }
    {
        self.index.by_code.of_code(code)
    }

    /// The listed calling codes, by their digits.
    pub(crate) fn codes(&self) -> &Trie
        ensures { (code : ℕ) → is_in code result.now ≡ is_listed code self.now }
    {
        &self.index.codes
    }

    /// The territories of a calling code, in order of arrival. Takes no memory.
    pub fn of_code(&self, code: u16) -> Placed<'_>
        ensures { result ≡ filter (has_code code) self.now }
    {
        Placed {
            places: self.places_of(code),
            territories: self.territories(),
        }
    }

    /// The territories of a calling code, in order of arrival, each with the last one of its id.
    /// Takes no memory, and looks up no id.
    pub fn of_code_with_lasts(&self, code: u16) -> WithLasts<'_>
        ensures { result ≡ map (with_last self.now) (filter (has_code code) self.now) }
    {
        WithLasts {
            places: self.places_of(code),
            database: self,
        }
    }

    /// The territories of a calling code: the main ones, latest first, then the others in order of
    /// arrival; none where the code has no territory. Refused only for memory.
    pub fn by_code(&self, code: &u16) -> Result<Option<Vec<&Territory>>, AllocError>
        ensures { IfOk result (λ found.
            option_map (λ v. map (λ (t : Bor loader.Metadata). t.now) v.items) found ≡
            if_any (territories code.now self.now)) }
    {
        let (mains, others) = zip(self.mains(*code), self.others(*code))?;
        backwards_before(mains, others)
    }

    /// The ids of the territories of a calling code, in the order of `by_code`. Refused only for
    /// memory.
    pub fn region(&self, code: &u16) -> Result<Option<Vec<&str>>, AllocError>
        ensures { IfOk result (λ found.
            option_map (λ v. map (λ (id : Bor (List ℕ)). id.now) v.items) found ≡
            if_any (regions code.now self.now)) }
    {
        let Some(found) = self.by_code(code)? else {
            return Ok(None);
        };
        Ok(Some(ids(self.allocator(), found.as_slice())?))
    }

    /// The first territory of a calling code: its latest main one, or else its earliest. Takes no
    /// memory.
    pub fn first_by_code(&self, code: &u16) -> Option<&Territory>
        ensures { option_copied result ≡ first_of (territories code.now self.now) }
    {
        let all = self.of_code(*code);
        match last_main(&all) {
            Some(main) => Some(main),
            None => first_other(&all),
        }
    }

    fn mains(&self, code: u16) -> Result<Vec<&Territory>, AllocError>
        ensures { IfOk result (λ v. map (λ (t : Bor loader.Metadata). t.now) v.items ≡
            filter (is_main_of code) self.now) }
    {
        self.of_code(code)
            .filter(|t| t.is_main_country_for_code())
            .collect(self.allocator())
    }

    fn others(&self, code: u16) -> Result<Vec<&Territory>, AllocError>
        ensures { IfOk result (λ v. map (λ (t : Bor loader.Metadata). t.now) v.items ≡
            filter (is_other_of code) self.now) }
    {
        self.of_code(code)
            .filter(|t| !t.is_main_country_for_code())
            .collect(self.allocator())
    }

    /// Whether a calling code has a territory. Takes no memory.
    pub fn is_listed(&self, code: &u16) -> bool
        ensures { result ≡ is_listed code.now self.now }
    {
        !self.places_of(*code).is_empty()
    }

    /// The calling code that stands in front of a text: the least number of digits, one to three,
    /// whose number is listed. None where the text begins with `0`, since no calling code does.
    /// Takes no memory.
    pub fn shortest(&self, text: &str) -> Option<u16>
        ensures { result ≡ shortest self.now text.now }
    {
        self.shortest_in(text, &mut Steps::new())
    }

    /// The same, with its steps counted: each move to a digit's child in the trie of codes is one,
    /// of which it takes at most three.
    pub fn shortest_in(&self, text: &str, steps: &mut Steps) -> Option<u16>
        ensures code { result ≡ shortest self.now text.now }
        ensures bound { steps.new ≤ steps.old + 3 }
    {
        self.codes().shortest_in(text, steps)
    }

    /// Whether no listed calling code's decimal text begins that of another listed one. Takes no
    /// memory.
    pub fn codes_prefix_free(&self) -> bool
        ensures { result ≡ is_prefix_free self.now }
    {
        self.codes().is_prefix_free()
    }

    /// For each id its last territory, each once, in no order that is promised. Takes no memory.
    pub fn iter(&self) -> Iter<'_>
        ensures last_of_its_id { (m : loader.Metadata) → Contains result m →
            last_with (id_of m) self.now ≡ Some m }
        ensures each_id { (id : List ℕ) (m : loader.Metadata) → last_with id self.now ≡ Some m →
            Contains result m }
        ensures each_once { IsDistinct bytes_eq (map id_of result) }
    {
        Iter {
            rest: self.territories(),
        }
    }
}

/// The last main one of territories.
fn last_main<'a>(all: &Placed<'a>) -> Option<&'a Territory>
    ensures { option_copied result ≡ find is_main (reverse all.now) }
{
    let mut rest = all.again();
    while let Some(territory) = rest.take_last() {
        if territory.is_main_country_for_code() {
            return Some(territory);
        }
    }
    None
}

/// The first of territories that isn't a main one.
fn first_other<'a>(all: &Placed<'a>) -> Option<&'a Territory>
    ensures { option_copied result ≡ find is_other all.now }
{
    all.again().find(|t| !t.is_main_country_for_code())
}

/// The refusal that tells of a missing value, or of memory for its text.
fn missing_value(alloc: Global, missing: Missing) -> LoadMetadata
    ensures { TellsMissing missing result ⊎ (result ≡ error.Memory) }
{
    let phase = String::from_str(alloc, missing.phase());
    let name = String::from_str(alloc, missing.name());
    match zip(phase, name) {
        Ok((phase, name)) => {
            LoadMetadata::Metadata(MetadataError::MissingValue { phase, name })
        },
        Err(_) => LoadMetadata::Memory,
    }
}

/// The first items backwards, and after them the others, where there is any. Refused only for
/// memory.
fn backwards_before<T: Drop>(first: Vec<T>, others: Vec<T>) -> Result<Option<Vec<T>>, AllocError>
    ensures { IfOk result (λ all.
        option_map (λ v. v.items) all ≡ if_any (reverse first.items ++ others.items)) }
{
    let mut all = first;
    let mut others = others;
    all.reverse();
    all.append(&mut others)?;
    if all.is_empty() {
        return Ok(None);
    }
    Ok(Some(all))
}

fn ids<'a>(alloc: Global, found: &[&'a Territory]) -> Result<Vec<&'a str>, AllocError>
    ensures { IfOk result (λ v. map (λ (id : Bor (List ℕ)). id.now) v.items ≡
        map (λ (t : Bor loader.Metadata). id_of t.now) found.now) }
{
    let mut ids = Vec::new(alloc);
    for territory in found {
        ids.push(territory.id())?;
    }
    Ok(ids)
}
