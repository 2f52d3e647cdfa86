//! The further columns of a table, or texts of objects, and the tables of prefixes by which they
//! tell.
ghost use Rattle.std.specs.Prelude.{◌≡◌, ◌++◌, ◌∷◌, [], IfErr, IfOk, Ok, OnOk, false, is_some};
ghost use Rattle.std.specs.Prelude.{string_bytes, true};
ghost use Rattle.phone_csv.specs.Runs.{OfRead};
ghost use Rattle.phone_commands.specs.Columns.{asked, column_if, columns_for, loaded, part_if};
ghost use Rattle.phone_commands.specs.Columns.{locale_for, number_for, parts_for, split_for};
ghost use Rattle.phone_commands.specs.Columns.{spoken, table_file, tables_for, told_for, wanted};
ghost use Rattle.phone_commands.specs.Files.{OfTabbed, is_of_line, refused};
ghost use Rattle.phone_commands.specs.Pairs.{IsWithTab};
ghost use Rattle.phone_lines.specs.LineReports.{IsReport};
ghost use Rattle.phone_prefixes.specs.Refusals.{Refuses};
ghost use Rattle.phone_prefixes.specs.Tables.{IsTable};

use crate::pairs::Tabs;
use phone_device::{ByteSource, MemorySink, Std};
use phone_languages::Locale;
use phone_lines::{RunError, take_lines};
use phone_places::CountriesError;
use phone_prefixes::{Prefixes, PrefixesError};
use phone_table::{Extra, Owner, Part, Shown, Told, Which};
use phone_words::Further;
use std::alloc::{AllocError, AllocGlobal, Global};
use std::fs::{self, Files};

/// A column that is asked for.
#[derive(Clone, Copy)]
struct Wanted<'w> {
    /// Its name.
    heading: &'w str,
    /// What it tells.
    told: Told,
    /// The file of its table, where a table tells it.
    file: Option<&'w str>,
}

/// Puts a column at the end of others, where a file is named for it. Refused only for memory.
fn push_wanted<'w>(
    columns: &mut Vec<Wanted<'w>>,
    heading: &'w str,
    told: Told,
    file: Option<&'w str>,
) -> Result<(), AllocError>
    ensures { OnOk result (wanted columns.new.items ≡
        wanted columns.old.items ++ column_if heading.entry.now told file.entry) }
{
    if file.is_some() {
        columns.push(Wanted {
            heading,
            told,
            file,
        })?;
    }
    Ok(())
}

/// Puts a column without a table at the end of others, where it is asked for. Refused only for
/// memory.
fn push_part<'w>(
    columns: &mut Vec<Wanted<'w>>,
    heading: &'w str,
    told: Told,
    is_asked: bool,
) -> Result<(), AllocError>
    ensures { OnOk result (wanted columns.new.items ≡
        wanted columns.old.items ++ part_if heading.entry.now told is_asked) }
{
    if is_asked {
        columns.push(Wanted {
            heading,
            told,
            file: None,
        })?;
    }
    Ok(())
}

/// Puts the columns by tables that are asked for at the end of others, in their order: that of
/// one's own, `time_zone`, `carrier`, `first_carrier`, `area`. Refused only for memory.
fn push_tables<'w>(columns: &mut Vec<Wanted<'w>>, further: Further<'w>) -> Result<(), AllocError>
    ensures { OnOk result (wanted columns.new.items ≡
        wanted columns.old.items ++ tables_for further.entry) }
{
    push_wanted(columns, further.name, Told::Prefix, further.prefixes)?;
    let (today, first) = (Told::Carrier(Owner::Today), Told::Carrier(Owner::First));
    push_wanted(columns, "time_zone", Told::TimeZones, further.time_zones)?;
    push_wanted(columns, "carrier", today, further.carriers)?;
    push_wanted(columns, "first_carrier", first, further.first_carriers)?;
    push_wanted(columns, "area", Told::Area, further.areas)
}

/// Puts those of parts of the number at the end of others, in their order: `extension`,
/// `calling_code`, `national_number`, `possibility`, `area_code`; then `suspicion`. Refused only
/// for memory.
fn push_parts<'w>(columns: &mut Vec<Wanted<'w>>, further: Further<'w>) -> Result<(), AllocError>
    ensures { OnOk result (wanted columns.new.items ≡
        wanted columns.old.items ++ parts_for further.entry) }
{
    let (part, is_asked) = (Told::Part(Part::Extension), further.extension);
    push_part(columns, "extension", part, is_asked)?;
    let (part, is_asked) = (Told::Part(Part::CallingCode), further.calling_code);
    push_part(columns, "calling_code", part, is_asked)?;
    let (part, is_asked) = (Told::Part(Part::NationalNumber), further.national_number);
    push_part(columns, "national_number", part, is_asked)?;
    let (part, is_asked) = (Told::Part(Part::Possibility), further.possibility);
    push_part(columns, "possibility", part, is_asked)?;
    let (part, is_asked) = (Told::Part(Part::AreaCode), further.area_code);
    push_part(columns, "area_code", part, is_asked)?;
    push_part(columns, "suspicion", Told::Doubts, further.suspicion)
}

/// Puts those of one of the two numbers in a field that has two at the end of others, where they
/// are asked for: its E.164 text, type and region, under these names. Refused only for memory.
fn push_number<'w>(
    columns: &mut Vec<Wanted<'w>>,
    which: Which,
    e164: &'w str,
    kind: &'w str,
    region: &'w str,
    is_asked: bool,
) -> Result<(), AllocError>
    ensures { OnOk result (wanted columns.new.items ≡ wanted columns.old.items ++
        number_for which e164.entry.now kind.entry.now region.entry.now is_asked) }
{
    push_part(columns, e164, Told::Split(which, Shown::E164), is_asked)?;
    push_part(columns, kind, Told::Split(which, Shown::Kind), is_asked)?;
    push_part(columns, region, Told::Split(which, Shown::Region), is_asked)
}

/// Puts those of the first number at the end of others, and then those of the second: `e164_1`,
/// `type_1`, `region_1`, `e164_2`, `type_2`, `region_2`. Refused only for memory.
fn push_split<'w>(columns: &mut Vec<Wanted<'w>>, further: Further<'w>) -> Result<(), AllocError>
    ensures { OnOk result (wanted columns.new.items ≡
        wanted columns.old.items ++ split_for further.entry) }
{
    let (split, first) = (further.split, Which::First);
    push_number(columns, first, "e164_1", "type_1", "region_1", split)?;
    push_number(
        columns,
        Which::Second,
        "e164_2",
        "type_2",
        "region_2",
        split,
    )
}

/// The columns that are asked for. Refused only for memory.
fn columns_wanted<'w>(alloc: Global, further: Further<'w>) -> Result<Vec<Wanted<'w>>, AllocError>
    ensures { IfOk result (λ v. wanted v.items ≡ columns_for further.entry) }
{
    let mut columns = Vec::new(alloc);
    push_tables(&mut columns, further)?;
    push_parts(&mut columns, further)?;
    push_split(&mut columns, further)?;
    Ok(columns)
}

/// Why further columns, or the names of regions, are not there, and by which file.
#[derive(Clone, Copy)]
pub enum NoColumns<'w> {
    /// The file can't be read.
    Unopened(&'w str),
    /// What it holds is no table of prefixes.
    Refused(&'w str, PrefixesError),
    /// What it holds is no table of the names of regions.
    NoNames(&'w str, CountriesError),
    /// There was no memory.
    Memory,
}

/// The bytes of a source, each of its lines with a tab.
fn bytes_with_tabs<S: ByteSource>(alloc: Global, source: &mut S) -> Result<Vec<u8>, PrefixesError>
    ensures tabs { IfOk result (λ v. OfRead (S.to_come source.old) (S.to_come source.new)
        (λ bytes. IsReport IsWithTab bytes v.items)) }
    ensures refused { IfErr result (λ e. is_of_line e ≡ false) }
{
    let mut text = MemorySink::new(alloc);
    let end = take_lines(alloc, &mut Tabs {}, source, &mut text);
    copy_after(alloc, end, text.bytes())
}

/// A copy of bytes that a run over lines wrote, where it came to its end.
fn copy_after(
    alloc: Global,
    end: Result<(), RunError>,
    bytes: &[u8],
) -> Result<Vec<u8>, PrefixesError>
    ensures copied { IfOk result (λ v. (end ≡ Ok tt) × (v.items ≡ bytes.now)) }
    ensures refused { IfErr result (λ e. is_of_line e ≡ false) }
{
    match end {
        Ok(()) => Ok(bytes.to_vec(alloc)?),
        Err(RunError::Input) => Err(PrefixesError::Source),
        Err(_) => Err(PrefixesError::Memory),
    }
}

/// The table of prefixes that a source holds, whose lines are a prefix, a tab and a text, or both
/// as CSV. Refused by the first line that can't be taken, and by `Source` and `Memory`.
fn table_read<S: ByteSource>(alloc: Global, source: &mut S) -> Result<Prefixes, PrefixesError>
    ensures table { IfOk result (λ t. OfTabbed (S.to_come source.old) (S.to_come source.new)
        (λ text. IsTable text t)) }
    ensures refused { IfErr result (λ e. is_of_line e ≡ true →
        OfTabbed (S.to_come source.old) (S.to_come source.new) (λ text. Refuses text e)) }
{
    let bytes = match bytes_with_tabs(alloc, source) {
        Ok(bytes) => bytes,
        Err(error) => return Err(error),
    };
    Prefixes::of(alloc, bytes)
}

/// The table of prefixes in a file.
fn table_in<'w, R: Files + AllocGlobal>(rt: &R, name: &'w str) -> Result<Prefixes, NoColumns<'w>> {
    let Ok(file) = fs::open(rt, name) else {
        return Err(NoColumns::Unopened(name));
    };
    match table_read(rt.alloc(), &mut Std::new(file)) {
        Ok(table) => Ok(table),
        Err(error) => Err(refused(name, error)),
    }
}

/// Why a file gives no table, by its refusal.
fn refused<'w>(name: &'w str, error: PrefixesError) -> NoColumns<'w>
    ensures { result ≡ refused name.entry error }
{
    match error {
        PrefixesError::Source => NoColumns::Unopened(name),
        PrefixesError::Memory => NoColumns::Memory,
        PrefixesError::Line(line, what) => {
            NoColumns::Refused(name, PrefixesError::Line(line, what))
        }
    }
}

/// A further column of a table, loaded.
#[derive(Drop)]
pub struct LoadedColumn<'w> {
    /// Its name.
    pub heading: &'w str,
    /// What it tells.
    pub told: Told,
    /// The table by which it tells that, where a table does.
    pub table: Option<Prefixes>,
    /// That of a language, where there is one.
    pub own: Option<Prefixes>,
}

/// A locale that is named, and the folder of the tables by language.
#[derive(Clone, Copy)]
struct Spoken<'l, 'w> {
    locale: &'l Locale,
    folder: &'w str,
}

/// The part of that folder in which what a column tells stands by language; none where it doesn't.
fn part_of(told: Told) -> Option<&'static str> {
    match told {
        Told::Area => Some("areas"),
        Told::Carrier(_) => Some("carriers"),
        _ => None,
    }
}

/// The name of the file of a locale's table, in a part of a folder. Refused only for memory.
fn table_file(
    alloc: Global,
    folder: &str,
    part: &str,
    locale: &Locale,
) -> Result<String, AllocError>
    ensures { IfOk result (λ s. string_bytes s ≡ table_file folder.now part.now locale.now) }
{
    let file = locale.text_file();
    format!(in alloc; "{folder}/{part}/{file}.tsv")
}

/// The table of prefixes in a file, where there is one. Of a refusal the folder is told.
fn table_there<'w, R: Files + AllocGlobal>(
    rt: &R,
    folder: &'w str,
    name: &str,
) -> Result<Option<Prefixes>, NoColumns<'w>> {
    let Ok(file) = fs::open(rt, name) else {
        return Ok(None);
    };
    match table_read(rt.alloc(), &mut Std::new(file)) {
        Ok(table) => Ok(Some(table)),
        Err(error) => Err(refused(folder, error)),
    }
}

/// The table of a language by which a column tells areas or carriers, where there is one.
fn own_table<'w, R: Files + AllocGlobal>(
    rt: &R,
    spoken: Option<Spoken<'_, 'w>>,
    told: Told,
) -> Result<Option<Prefixes>, NoColumns<'w>> {
    let (Some(spoken), Some(part)) = (spoken, part_of(told)) else {
        return Ok(None);
    };
    match table_file(rt.alloc(), spoken.folder, part, spoken.locale) {
        Ok(name) => table_there(rt, spoken.folder, name.as_str()),
        Err(_) => Err(NoColumns::Memory),
    }
}

/// The table of prefixes in a file, where one is named.
fn table_if<'w, R: Files + AllocGlobal>(
    rt: &R,
    file: Option<&'w str>,
) -> Result<Option<Prefixes>, NoColumns<'w>>
    ensures { IfOk result (λ t. is_some t ≡ is_some file.entry) }
{
    match file {
        Some(file) => Ok(Some(table_in(rt, file)?)),
        None => Ok(None),
    }
}

/// Loads the tables of a column, and puts this at the end of others.
fn push_loaded<'w, R: Files + AllocGlobal>(
    rt: &R,
    spoken: Option<Spoken<'_, 'w>>,
    column: Wanted<'w>,
    columns: &mut Vec<LoadedColumn<'w>>,
) -> Result<(), NoColumns<'w>>
    ensures { OnOk result (loaded columns.new.items ≡
        loaded columns.old.items ++ wanted (column.entry ∷ [])) }
{
    let Wanted {
        heading,
        told,
        file,
    } = column;
    let table = table_if(rt, file)?;
    let own = own_table(rt, spoken, told)?;
    match columns.push(LoadedColumn {
        heading,
        told,
        table,
        own,
    }) {
        Ok(()) => Ok(()),
        Err(_) => Err(NoColumns::Memory),
    }
}

/// Loads the tables of columns, and puts these at the end of others, in their order.
fn push_all_loaded<'w, R: Files + AllocGlobal>(
    rt: &R,
    spoken: Option<Spoken<'_, 'w>>,
    all: &[Wanted<'w>],
    columns: &mut Vec<LoadedColumn<'w>>,
) -> Result<(), NoColumns<'w>>
    ensures { OnOk result (loaded columns.new.items ≡
        loaded columns.old.items ++ wanted all.now) }
{
    for column in all {
        push_loaded(rt, spoken, *column, columns)?;
    }
    Ok(())
}

/// The locale in which columns are told: that of a language that is named, else English. Refused
/// only for memory.
fn locale_of(alloc: Global, further: Further<'_>) -> Result<Locale, AllocError>
    ensures { IfOk result (λ l. l ≡ locale_for further.entry) }
{
    match further.language {
        Some(language) => Locale::of(alloc, language),
        None => Locale::of(alloc, "en"),
    }
}

/// A locale that is named, and the folder of the tables by language, where both are.
fn spoken_by<'l, 'w>(locale: &'l Locale, further: Further<'w>) -> Option<Spoken<'l, 'w>> {
    match (further.language, further.places) {
        (Some(_), Some(folder)) => Some(Spoken { locale, folder }),
        _ => None,
    }
}

/// Loads the tables of columns, in their order.
fn all_loaded<'w, R: Files + AllocGlobal>(
    rt: &R,
    locale: &Locale,
    further: Further<'w>,
) -> Result<Vec<LoadedColumn<'w>>, NoColumns<'w>>
    ensures { IfOk result (λ v. loaded v.items ≡ columns_for further.entry) }
{
    let Ok(all) = columns_wanted(rt.alloc(), further) else {
        return Err(NoColumns::Memory);
    };
    let mut columns = Vec::new(rt.alloc());
    let spoken = spoken_by(locale, further);
    push_all_loaded(rt, spoken, all.as_slice(), &mut columns)?;
    Ok(columns)
}

/// The further columns of a table, loaded.
#[derive(Drop)]
pub struct Loaded<'w> {
    /// Each, in their order.
    pub columns: Vec<LoadedColumn<'w>>,
    /// The locale in which they are told.
    pub locale: Locale,
}

impl<'w> Loaded<'w> {
    /// Loads the tables of the columns that are asked for.
    pub fn new<R: Files + AllocGlobal>(
        rt: &R,
        further: Further<'w>,
    ) -> Result<Loaded<'w>, NoColumns<'w>>
        ensures { IfOk result (λ l. spoken l.locale (loaded l.columns.items) ≡
            told_for further.entry) }
    {
        let Ok(locale) = locale_of(rt.alloc(), further) else {
            return Err(NoColumns::Memory);
        };
        let columns = all_loaded(rt, &locale, further)?;
        Ok(Loaded { columns, locale })
    }

    /// The columns with their tables. Refused only for memory.
    pub fn extra<'s>(&'s self, alloc: Global) -> Result<Vec<Extra<'s>>, AllocError>
        ensures { IfOk result (λ v. asked v.items ≡
            spoken self.now.locale (loaded self.now.columns.items)) }
    {
        let mut extra = Vec::new(alloc);
        self.push_extra(&mut extra)?;
        Ok(extra)
    }

    /// Puts the columns with their tables at the end of others. Refused only for memory.
    fn push_extra<'s>(&'s self, extra: &mut Vec<Extra<'s>>) -> Result<(), AllocError>
        ensures { OnOk result (asked extra.new.items ≡
            asked extra.old.items ++ spoken self.now.locale (loaded self.now.columns.items)) }
    {
        for column in self.columns.as_slice() {
            let LoadedColumn {
                heading,
                told,
                table,
                own,
            } = column;
            extra.push(Extra {
                heading: *heading,
                told: *told,
                table: table.as_ref(),
                own: own.as_ref(),
                locale: &self.locale,
            })?;
        }
        Ok(())
    }
}
