//! What the length of a number says of it, what kind it is of, and which region it belongs to.
ghost use Rattle.std.specs.Prelude.{◌≡◌, ◌&&◌, ℕ, List, None, Some, IfOk, IfSome, if◌then◌else◌};
ghost use Rattle.std.specs.Prelude.{codes, option_map};
ghost use Rattle.std.specs.Option.{option_and_then, option_copied};
ghost use Rattle.std.specs.Str.{bytes_eq};
ghost use Rattle.either.specs.declared.Either.TheVariants as either;
ghost use Rattle.phone_read.specs.Kinds.{type_of};
ghost use Rattle.phone_plans.specs.Lasts.{seen};
ghost use Rattle.phone_territory.specs.Records.{id_of};
ghost use Rattle.phone_read.specs.Belonging.{IsOfKind, is_member};
ghost use Rattle.phone_read.specs.Origins.{FoundKind, TellsKind, by_name, first_given};
ghost use Rattle.phone_read.specs.Origins.{first_other, latest_main, shown, told};
ghost use Rattle.phone_read.specs.Regions.{home, is_of_last, region_named, region_of};
ghost use Rattle.phone_read.specs.Regions.{with_territory};

use crate::belonging::{Belonging, membership};
pub use crate::kinds::{is_general, length, length_of, number_type};
use either::{Either, Left, Right};
use phone_plans::{Plans, Territory, WithLast, WithLasts};
use phone_territory::Subject;
use phone_values::Type;
use phone_values::consts::REGION_CODE_FOR_NON_GEO_ENTITY;
use phone_values::country::Id;
use std::alloc::AllocError;

/// The region of a number with this calling code and these digits: of the ids of the code the first
/// whose territory it belongs to, by the territory's leading digits where it has some, else by
/// being of a known kind there. A sole id is the region whatever the digits are, and the sole id
/// `001` stands for the code itself. None where the code isn't listed, where it has several ids and
/// the number belongs to none of them, and where the id that was found is no region's. Refused only
/// for memory.
pub fn source_for(db: &Plans, code: u16, text: &str) -> Result<Option<Either<Id, u16>>, AllocError>
    ensures { IfOk result (λ r. r ≡ region_of db.now code text.now) }
{
    match origin_of(db, code, text)? {
        Some(origin) => Ok(Some(origin.region)),
        None => Ok(None),
    }
}

/// The region of a number, or its code itself, the territory of that, and the kind of the digits
/// there, where it was told on the way.
#[derive(Drop)]
struct Origin<'a> {
    region: Either<Id, u16>,
    territory: Option<&'a Territory>,
    kind: Option<Type>,
}

/// The region of a number with this calling code and these digits, as [`source_for`] tells it, and
/// its territory, as [`territory_of`] does.
fn origin_of<'a>(db: &'a Plans, code: u16, text: &str) -> Result<Option<Origin<'a>>, AllocError>
    ensures origin { IfOk result (λ r. option_map told r ≡
        option_map (with_territory db.entry.now) (region_of db.entry.now code text.now)) }
    ensures kind { IfOk result (λ r. IfSome r (TellsKind text.now)) }
{
    let all = db.of_code_with_lasts(code);
    let mut rest = all.again();
    let Some(first) = rest.next() else {
        return Ok(None);
    };
    match rest.next() {
        Some(_) => origin_of_several(&all, &Subject::of(text)),
        None => Ok(sole(code, first.territory, first.last)),
    }
}

/// The same by several territories of a code, which are these.
fn origin_of_several<'a>(
    all: &WithLasts<'a>,
    text: &Subject<'_>,
) -> Result<Option<Origin<'a>>, AllocError>
    ensures origin { IfOk result (λ r. option_map told r ≡
        option_and_then by_name (first_given (is_of_last text.now) all.now)) }
    ensures kind { IfOk result (λ r. IfSome r (TellsKind text.now)) }
{
    match first_region(all, text)? {
        Some(found) => Ok(origin_named(found.territory, found.last, found.kind)),
        None => Ok(None),
    }
}

/// The same by the sole territory of a code, given with the last one of its id.
fn sole<'a>(code: u16, territory: &'a Territory, last: Option<&'a Territory>) -> Option<Origin<'a>>
    ensures origin { option_map told result ≡
        (if bytes_eq (id_of territory.entry.now) (codes "001")
        then Some (either.Right code, Some territory.entry.now)
        else option_map (λ r. (r, option_copied last.entry))
        (region_named (id_of territory.entry.now))) }
    ensures kind { IfSome result (λ o. o.kind ≡ None) }
{
    if territory.id() == REGION_CODE_FOR_NON_GEO_ENTITY {
        Some(Origin {
            region: Right(code),
            territory: Some(territory),
            kind: None,
        })
    } else {
        origin_named(territory, last, None)
    }
}

/// The region of a territory's id, with the last territory of the id; none where it is no region's.
fn origin_named<'a>(
    territory: &Territory,
    last: Option<&'a Territory>,
    kind: Option<Type>,
) -> Option<Origin<'a>>
    ensures origin { option_map told result ≡
        option_map (λ r. (r, option_copied last.entry)) (region_named (id_of territory.now)) }
    ensures kind { IfSome result (λ o. (o.kind ≡ kind) × (o.territory ≡ last.entry)) }
{
    match territory.region() {
        Some(id) => Some(Origin {
            region: Left(id),
            territory: last,
            kind,
        }),
        None => None,
    }
}

/// A territory with the last one of its id, to which a number belongs, and the kind of the number
/// there, where it was told on the way.
#[derive(Clone, Copy, Drop)]
struct Found<'a> {
    territory: &'a Territory,
    last: Option<&'a Territory>,
    kind: Option<Type>,
}

/// Of territories of a code the first to whose id's last one the number belongs: the latest main
/// one, or else the earliest of the others.
fn first_region<'a>(
    all: &WithLasts<'a>,
    text: &Subject<'_>,
) -> Result<Option<Found<'a>>, AllocError>
    ensures region { IfOk result (λ r.
        option_map shown r ≡ first_given (is_of_last text.now) all.now) }
    ensures kind { IfOk result (λ r. IfSome r (FoundKind text.now)) }
{
    match last_main_region(all.again(), text)? {
        Some(found) => Ok(Some(found)),
        None => first_other_region(all.again(), text),
    }
}

/// Of the main ones of territories the last to whose id's last one the number belongs.
fn last_main_region<'a>(
    all: WithLasts<'a>,
    text: &Subject<'_>,
) -> Result<Option<Found<'a>>, AllocError>
    ensures region { IfOk result (λ r.
        option_map shown r ≡ latest_main (is_of_last text.now) all.entry) }
    ensures kind { IfOk result (λ r. IfSome r (FoundKind text.now)) }
{
    let mut rest = all;
    while let Some(pair) = rest.take_last() {
        if let Some(found) = found_if(pair.territory.is_main_country_for_code(), pair, text)? {
            return Ok(Some(found));
        }
    }
    Ok(None)
}

/// Of the other ones of territories the first to whose id's last one the number belongs.
fn first_other_region<'a>(
    all: WithLasts<'a>,
    text: &Subject<'_>,
) -> Result<Option<Found<'a>>, AllocError>
    ensures region { IfOk result (λ r.
        option_map shown r ≡ first_other (is_of_last text.now) all.entry) }
    ensures kind { IfOk result (λ r. IfSome r (FoundKind text.now)) }
{
    for pair in all {
        if let Some(found) = found_if(!pair.territory.is_main_country_for_code(), pair, text)? {
            return Ok(Some(found));
        }
    }
    Ok(None)
}

/// A territory, if it is asked and the number belongs to the last one of its id.
fn found_if<'a>(
    is_asked: bool,
    pair: WithLast<'a>,
    text: &Subject<'_>,
) -> Result<Option<Found<'a>>, AllocError>
    ensures region { IfOk result (λ r. option_map shown r ≡
        (if is_asked && is_of_last text.now (seen pair.entry)
        then Some (seen pair.entry) else None)) }
    ensures kind { IfOk result (λ r. IfSome r (FoundKind text.now)) }
{
    if is_asked {
        found_in(pair, text)
    } else {
        Ok(None)
    }
}

/// A territory, if the number belongs to the last one of its id.
fn found_in<'a>(pair: WithLast<'a>, text: &Subject<'_>) -> Result<Option<Found<'a>>, AllocError>
    ensures region { IfOk result (λ r. option_map shown r ≡
        (if is_of_last text.now (seen pair.entry) then Some (seen pair.entry) else None)) }
    ensures kind { IfOk result (λ r. IfSome r (FoundKind text.now)) }
{
    match pair.last {
        Some(last) => Ok(found_by(pair.territory, last, membership(text, last)?)),
        None => Ok(None),
    }
}

/// A territory, given with the last one of its id, to which a number belongs so.
fn found_by<'a>(
    territory: &'a Territory,
    last: &'a Territory,
    belonging: Belonging,
) -> Option<Found<'a>>
    ensures region { option_map shown result ≡
        (if is_member belonging then Some (territory.entry.now, Some last.entry.now) else None) }
    ensures kind { (digits : List ℕ) → IsOfKind last.entry.now digits belonging →
        IfSome result (FoundKind digits) }
{
    match belonging {
        Belonging::No => None,
        Belonging::ByDigits => Some(Found {
            territory,
            last: Some(last),
            kind: None,
        }),
        Belonging::ByKind(kind) => Some(Found {
            territory,
            last: Some(last),
            kind: Some(kind),
        }),
    }
}

/// The territory that a number of a calling code belongs to: the last record of its region, or the
/// first territory of the code where `001` is its sole id; none where it belongs to none. Refused
/// only for memory.
pub fn territory_of<'a>(
    db: &'a Plans,
    code: u16,
    text: &str,
) -> Result<Option<&'a Territory>, AllocError>
    ensures { IfOk result (λ m. option_copied m ≡ home db.entry.now code text.now) }
{
    match origin_of(db, code, text)? {
        Some(origin) => Ok(origin.territory),
        None => Ok(None),
    }
}

/// Where a number is at home: its territory, and the kind of the number there.
#[derive(Clone, Copy, Drop)]
pub struct Home<'a> {
    /// The territory.
    pub territory: &'a Territory,
    /// The kind of the digits in it.
    pub kind: Type,
}

/// The territory that a number of a calling code belongs to, as [`territory_of`] tells it, and the
/// kind of the number there, as [`number_type`] does; each of its patterns is asked once. None
/// where the number belongs to none. Refused only for memory.
pub fn home_of<'a>(db: &'a Plans, code: u16, text: &str) -> Result<Option<Home<'a>>, AllocError>
    ensures territory { IfOk result (λ h. option_map (λ h. h.territory.now) h ≡
        home db.entry.now code text.now) }
    ensures kind { IfOk result (λ h.
        IfSome h (λ h. h.kind ≡ type_of h.territory.now text.now)) }
{
    let Some(origin) = origin_of(db, code, text)? else {
        return Ok(None);
    };
    match origin.territory {
        Some(territory) => Ok(Some(home_in(territory, origin.kind, text)?)),
        None => Ok(None),
    }
}

/// A territory and the kind of digits there, which may have been told on the way.
fn home_in<'a>(
    territory: &'a Territory,
    told: Option<Type>,
    text: &str,
) -> Result<Home<'a>, AllocError>
    requires { IfSome told (λ kind. kind ≡ type_of territory.now text.now) }
    ensures territory { IfOk result (λ h. h.territory ≡ territory.entry) }
    ensures kind { IfOk result (λ h. h.kind ≡ type_of territory.entry.now text.now) }
{
    match told {
        Some(kind) => Ok(Home { territory, kind }),
        None => Ok(Home {
            territory,
            kind: number_type(territory, text)?,
        }),
    }
}
