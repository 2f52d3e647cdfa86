//! The atlas that stands behind a handle, made of tables that stand behind others.
ghost use Rattle.std.specs.Prelude.{◌≡◌, ◌∷◌, ◌++◌, [], IfErr, IfOk};
ghost use Rattle.phone_c_base.specs.PrefixTables.{IsTableKept};
ghost use Rattle.phone_languages.specs.NameTables.{IsTable, Refuses};
ghost use Rattle.phone_c.specs.Atlases.{AreEntriesOf, AreTextsOf, IsAtlasOf};
ghost use Rattle.phone_c.specs.Atlases.{AreNamesRefused, IsAtlasRefused, ended, is_ended};
ghost use Rattle.phone_languages.specs.Locales.{normalized};

use crate::places::owned::{OwnedAtlas, OwnedTexts};
use phone_c_base::shared::Owner;
use phone_c_base::status::{LINE_NO_TAB, MEMORY, NOT_UTF8};
use phone_c_base::table::{PrefixTable, put_table, take_table};
use phone_languages::{LineFault, Locale, Names, NamesError};
use phone_prefixes::Prefixes;
use std::alloc::{AllocError, Global};

/// One owner more of the table that is open behind a handle; none where it is closed.
fn owner_of(alloc: Global, table: &mut PrefixTable) -> Result<Option<Owner<Prefixes>>, AllocError>
    ensures entries { IfOk result (AreEntriesOf table.old) }
    ensures kept { IsTableKept table.old table.new }
{
    let Some(owner) = take_table(alloc, table) else {
        return Ok(None);
    };
    let again = owner.again();
    put_table(alloc, table, owner);
    match again {
        Ok(again) => Ok(Some(again)),
        Err(_) => Err(AllocError),
    }
}

/// Owners of the tables of a language and of English.
fn texts_of(
    alloc: Global,
    own: &mut PrefixTable,
    english: &mut PrefixTable,
) -> Result<OwnedTexts, AllocError>
    ensures texts { IfOk result (AreTextsOf own.old english.old) }
    ensures own { IsTableKept own.old own.new }
    ensures english { IsTableKept english.old english.new }
{
    let own = owner_of(alloc, own);
    let english = owner_of(alloc, english);
    match (own, english) {
        (Ok(own), Ok(english)) => Ok(OwnedTexts { own, english }),
        (Ok(_), Err(_)) => Err(AllocError),
        (Err(_), Ok(_)) => Err(AllocError),
        (Err(_), Err(_)) => Err(AllocError),
    }
}

/// Whether there is no byte, or the last one is a line feed.
fn is_ended(bytes: &[u8]) -> bool
    ensures { result ≡ is_ended bytes.now }
{
    match bytes.last() {
        Some(last) => *last == b'\n',
        None => true,
    }
}

/// Bytes with a line feed at their end. Refused only for memory.
fn with_end(alloc: Global, bytes: &[u8]) -> Result<Vec<u8>, AllocError>
    ensures { IfOk result (λ v. v.items ≡ bytes.now ++ 10 ∷ []) }
{
    let mut whole = Vec::from_slice(alloc, bytes)?;
    whole.push(b'\n')?;
    Ok(whole)
}

/// Bytes with a line feed at their end, if there are any. Refused only for memory.
fn ended(alloc: Global, bytes: &[u8]) -> Result<Vec<u8>, AllocError>
    ensures { IfOk result (λ v. v.items ≡ ended bytes.now) }
{
    if is_ended(bytes) {
        Ok(Vec::from_slice(alloc, bytes)?)
    } else {
        Ok(with_end(alloc, bytes)?)
    }
}

/// The names that bytes have, whose last line may lack its end.
fn names_of(alloc: Global, bytes: &[u8]) -> Result<Names, NamesError>
    ensures table { IfOk result (IsTable (ended bytes.now)) }
    ensures refused { IfErr result (Refuses (ended bytes.now)) }
{
    let whole = ended(alloc, bytes)?;
    match Names::of(alloc, whole.as_slice()) {
        Ok(names) => Ok(names),
        Err(error) => Err(error),
    }
}

/// The status of what is wrong with a line of names. Each line is ended, so the tab is missing.
fn status_of(what: LineFault) -> u32
    ensures { result ≡ LINE_NO_TAB }
{
    match what {
        LineFault::NoEnd => LINE_NO_TAB,
        LineFault::NoTab => LINE_NO_TAB,
    }
}

/// The same; else the status of the refusal, and the number of the line, 0 where none is refused.
fn names_told(alloc: Global, bytes: &[u8]) -> Result<Names, (u32, usize)>
    ensures table { IfOk result (IsTable (ended bytes.now)) }
    ensures refused { IfErr result (λ e. AreNamesRefused bytes.now e.1 e.0) }
{
    match names_of(alloc, bytes) {
        Ok(names) => Ok(names),
        Err(NamesError::Line(line, what)) => Err((status_of(what), line)),
        Err(NamesError::NotUtf8) => Err((NOT_UTF8, 0)),
        Err(NamesError::Memory) => Err((MEMORY, 0)),
    }
}

/// An atlas in a box. Refused only for memory.
fn boxed(alloc: Global, atlas: OwnedAtlas) -> Result<Box<OwnedAtlas>, AllocError>
    ensures { IfOk result (λ b. b.value ≡ atlas) }
{
    match Box::new(alloc, atlas) {
        Ok(atlas) => Ok(atlas),
        Err(_) => Err(AllocError),
    }
}

/// The atlas of a locale, with these texts and names.
fn atlas_of(
    alloc: Global,
    locale: &str,
    areas: OwnedTexts,
    carriers: OwnedTexts,
    names: Names,
) -> Result<Box<OwnedAtlas>, AllocError>
    ensures locale { IfOk result (λ b. b.value.locale ≡ normalized locale.now) }
    ensures areas { IfOk result (λ b. b.value.areas ≡ areas) }
    ensures carriers { IfOk result (λ b. b.value.carriers ≡ carriers) }
    ensures names { IfOk result (λ b. b.value.names ≡ names) }
{
    let locale = Locale::of(alloc, locale)?;
    let atlas = OwnedAtlas {
        locale,
        areas,
        carriers,
        names,
    };
    Ok(boxed(alloc, atlas)?)
}

/// The atlas of a locale with these texts, and the names that bytes have; else the status of the
/// refusal, and the number of the line of the names, 0 where none is refused.
fn atlas_with(
    alloc: Global,
    locale: &[u8],
    areas: OwnedTexts,
    carriers: OwnedTexts,
    names: &[u8],
) -> Result<Box<OwnedAtlas>, (u32, usize)>
    ensures atlas { IfOk result (λ b. IsAtlasOf locale.now names.now b.value) }
    ensures areas { IfOk result (λ b. b.value.areas ≡ areas) }
    ensures carriers { IfOk result (λ b. b.value.carriers ≡ carriers) }
    ensures refused { IfErr result (λ e. IsAtlasRefused locale.now names.now e.1 e.0) }
{
    let Ok(locale) = std::str::from_utf8(locale) else {
        return Err((NOT_UTF8, 0));
    };
    let names = match names_told(alloc, names) {
        Ok(names) => names,
        Err(refusal) => return Err(refusal),
    };
    match atlas_of(alloc, locale, areas, carriers, names) {
        Ok(atlas) => Ok(atlas),
        Err(_) => Err((MEMORY, 0)),
    }
}

/// The atlas of a locale, of tables that are open behind handles, and the names that bytes have;
/// else the status of the refusal, and the number of the line of the names, 0 where none is
/// refused. The handles stay as they were.
pub fn open_atlas(
    alloc: Global,
    locale: &[u8],
    areas: &mut PrefixTable,
    english_areas: &mut PrefixTable,
    carriers: &mut PrefixTable,
    english_carriers: &mut PrefixTable,
    names: &[u8],
) -> Result<Box<OwnedAtlas>, (u32, usize)>
    ensures atlas { IfOk result (λ b. IsAtlasOf locale.now names.now b.value) }
    ensures areas { IfOk result (λ b. AreTextsOf areas.old english_areas.old b.value.areas) }
    ensures carriers { IfOk result (λ b.
        AreTextsOf carriers.old english_carriers.old b.value.carriers) }
    ensures refused { IfErr result (λ e. IsAtlasRefused locale.now names.now e.1 e.0) }
    ensures areas_kept { IsTableKept areas.old areas.new }
    ensures english_areas_kept { IsTableKept english_areas.old english_areas.new }
    ensures carriers_kept { IsTableKept carriers.old carriers.new }
    ensures english_carriers_kept { IsTableKept english_carriers.old english_carriers.new }
{
    let areas = texts_of(alloc, areas, english_areas);
    let carriers = texts_of(alloc, carriers, english_carriers);
    match (areas, carriers) {
        (Ok(areas), Ok(carriers)) => match atlas_with(alloc, locale, areas, carriers, names) {
            Ok(atlas) => Ok(atlas),
            Err(refusal) => Err(refusal),
        },
        (Ok(_), Err(_)) => Err((MEMORY, 0)),
        (Err(_), Ok(_)) => Err((MEMORY, 0)),
        (Err(_), Err(_)) => Err((MEMORY, 0)),
    }
}
