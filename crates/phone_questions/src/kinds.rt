//! Which kinds of number a territory has, and which of them are of a place.
ghost use Rattle.std.specs.Prelude.{◌≡◌, IfOk, filter};
ghost use Rattle.phone_questions.specs.Kinds.{has_kind, has_mobile_areas, is_geographical_kind};
ghost use Rattle.phone_questions.specs.Kinds.{kinds_if_worldwide, kinds_in, kinds_of_code};
ghost use Rattle.phone_questions.specs.Kinds.{kinds_of_region, mobile_token};

use crate::regions::{is_worldwide, territory_of};
use phone_plans::{Plans, Territory};
use phone_values::Type;
use phone_values::country::Id;
use std::alloc::{AllocError, Global};

/// The kinds that are listed, in the order in which they are.
const LISTED_KINDS: [Type; 10] = [
    Type::FixedLine,
    Type::Mobile,
    Type::TollFree,
    Type::PremiumRate,
    Type::SharedCost,
    Type::Voip,
    Type::PersonalNumber,
    Type::Pager,
    Type::Uan,
    Type::Voicemail,
];

/// The calling code of Argentina.
const ARGENTINA: u16 = 54;

/// The kinds of number that a region has, in the order fixed line, mobile, toll free, premium rate,
/// shared cost, voip, personal number, pager, uan, voicemail; none where the database has no
/// territory of the region. Refused only for memory.
pub fn kinds_of_region(database: &Plans, region: Id) -> Result<Vec<Type>, AllocError>
    ensures { IfOk result (λ kinds. kinds.items ≡ kinds_of_region database.now region) }
{
    match territory_of(database, region) {
        Some(territory) => kinds_in(territory),
        None => Ok(Vec::new(database.allocator())),
    }
}

/// The kinds of number that a calling code has which serves no region, in the same order; none for
/// the code of a region, and where it isn't listed. Refused only for memory.
pub fn kinds_of_code(database: &Plans, code: u16) -> Result<Vec<Type>, AllocError>
    ensures { IfOk result (λ kinds. kinds.items ≡ kinds_of_code database.now code) }
{
    match database.first_by_code(&code) {
        Some(territory) => kinds_if_worldwide(territory),
        None => Ok(Vec::new(database.allocator())),
    }
}

/// The kinds of a territory that is no region's. Refused only for memory.
fn kinds_if_worldwide(m: &Territory) -> Result<Vec<Type>, AllocError>
    ensures { IfOk result (λ kinds. kinds.items ≡ kinds_if_worldwide m.now) }
{
    if is_worldwide(m) {
        kinds_in(m)
    } else {
        Ok(Vec::new(m.allocator()))
    }
}

/// The kinds that a territory has numbers of. Refused only for memory.
fn kinds_in(m: &Territory) -> Result<Vec<Type>, AllocError>
    ensures { IfOk result (λ kinds. kinds.items ≡ kinds_in m.now) }
{
    kinds_among(m, &LISTED_KINDS)
}

/// Of these kinds those that a territory has numbers of. Refused only for memory.
fn kinds_among(m: &Territory, kinds: &[Type]) -> Result<Vec<Type>, AllocError>
    ensures { IfOk result (λ found. found.items ≡ filter (has_kind m.now) kinds.now) }
{
    let mut found = Vec::new(m.allocator());
    for kind in kinds {
        if has_kind(m, *kind) {
            found.push(*kind)?;
        }
    }
    Ok(found)
}

/// Whether a territory has numbers of a kind.
fn has_kind(m: &Territory, kind: Type) -> bool
    ensures { result ≡ has_kind m.now kind }
{
    m.descriptors().get(kind).is_some()
}

/// Whether numbers of a kind are of a place under a calling code: fixed lines, those that may be
/// mobiles too, and mobiles of the five codes that give them areas. Takes no memory.
pub fn is_geographical_kind(kind: Type, code: u16) -> bool
    ensures { result ≡ is_geographical_kind kind code }
{
    match kind {
        Type::FixedLine | Type::FixedLineOrMobile => true,
        Type::Mobile => has_mobile_areas(code),
        _ => false,
    }
}

/// Whether the mobile numbers of a code have an area.
fn has_mobile_areas(code: u16) -> bool
    ensures { result ≡ has_mobile_areas code }
{
    matches!(code, 52 | 54 | 55 | 62 | 86)
}

/// What stands before the area code of a mobile number of a calling code: `9` in Argentina,
/// elsewhere the empty text. Takes no memory.
pub fn mobile_token(code: u16) -> &'static str
    ensures { result.now ≡ mobile_token code }
{
    if code == ARGENTINA { "9" } else { "" }
}
