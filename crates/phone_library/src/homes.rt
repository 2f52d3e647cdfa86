//! The territory of a calling code that has digits.
ghost use Rattle.std.specs.Prelude.{◌≡◌, ◌&&◌, not, if◌then◌else◌, IfOk, IfSome, Some, None};
ghost use Rattle.std.specs.Prelude.{filter, option_map, reverse};
ghost use Rattle.std.specs.List.{find};
ghost use Rattle.phone_read.specs.Kinds.{is_known};
ghost use Rattle.phone_library.specs.Homes.{TellsKind, territory_of};
ghost use Rattle.phone_library.specs.Kinds.{has_digits, territory_in};
ghost use Rattle.phone_plans.specs.CodeLookUps.{is_main_of, is_other_of, territories};

use crate::kinds::{is_known, kind_of_digits};
use phone_plans::{Plans, Territory};
use phone_territory::Subject;
use phone_values::Type;
use std::alloc::AllocError;

/// A territory that has digits, and their kind there, where that was told on the way.
#[derive(Clone, Copy, Drop)]
pub(crate) struct Home<'d> {
    /// The territory.
    pub(crate) territory: &'d Territory,
    /// The kind of the digits there.
    pub(crate) kind: Option<Type>,
}

/// The territory of a calling code that has the digits: a sole one has all; of several it is the
/// first whose leading digits match at their front, or that has no leading digits and knows their
/// kind. The main ones are asked first, the latest of them before the others. None where no
/// territory has them. Refused only for memory.
pub(crate) fn home_in<'d>(
    db: &'d Plans,
    code: u16,
    digits: &str,
) -> Result<Option<Home<'d>>, AllocError>
    ensures territory { IfOk result (λ home. option_map territory_of home ≡
        territory_in db.entry.now code digits.now) }
    ensures kind { IfOk result (λ home. IfSome home (TellsKind digits.now)) }
{
    let mut all = db.of_code(code);
    let Some(first) = all.next() else {
        return Ok(None);
    };
    match all.next() {
        Some(_) => home_of_several(db, code, &Subject::of(digits)),
        None => Ok(Some(Home {
            territory: first,
            kind: None,
        })),
    }
}

/// The first of all territories of a code that has the digits, as if they were several.
fn home_of_several<'d>(
    db: &'d Plans,
    code: u16,
    digits: &Subject<'_>,
) -> Result<Option<Home<'d>>, AllocError>
    ensures territory { IfOk result (λ home. option_map territory_of home ≡
        find (has_digits digits.now) (territories code db.entry.now)) }
    ensures kind { IfOk result (λ home. IfSome home (TellsKind digits.now)) }
{
    match last_main(db, code, digits)? {
        Some(home) => Ok(Some(home)),
        None => first_other(db, code, digits),
    }
}

/// Of the main territories of a code the last that has the digits.
fn last_main<'d>(
    db: &'d Plans,
    code: u16,
    digits: &Subject<'_>,
) -> Result<Option<Home<'d>>, AllocError>
    ensures territory { IfOk result (λ home. option_map territory_of home ≡
        find (has_digits digits.now) (reverse (filter (is_main_of code) db.entry.now))) }
    ensures kind { IfOk result (λ home. IfSome home (TellsKind digits.now)) }
{
    let mut found = None;
    for territory in db.of_code(code) {
        if let Some(home) = home_if(territory.is_main_country_for_code(), territory, digits)? {
            found = Some(home);
        }
    }
    Ok(found)
}

/// Of the other territories of a code the first that has the digits.
fn first_other<'d>(
    db: &'d Plans,
    code: u16,
    digits: &Subject<'_>,
) -> Result<Option<Home<'d>>, AllocError>
    ensures territory { IfOk result (λ home. option_map territory_of home ≡
        find (has_digits digits.now) (filter (is_other_of code) db.entry.now)) }
    ensures kind { IfOk result (λ home. IfSome home (TellsKind digits.now)) }
{
    for territory in db.of_code(code) {
        if let Some(home) = home_if(!territory.is_main_country_for_code(), territory, digits)? {
            return Ok(Some(home));
        }
    }
    Ok(None)
}

/// A territory, if it is asked and has the digits.
fn home_if<'d>(
    is_asked: bool,
    m: &'d Territory,
    digits: &Subject<'_>,
) -> Result<Option<Home<'d>>, AllocError>
    ensures territory { IfOk result (λ home. option_map territory_of home ≡
        (if is_asked && has_digits digits.now m.entry.now then Some m.entry.now else None)) }
    ensures kind { IfOk result (λ home. IfSome home (TellsKind digits.now)) }
{
    if is_asked {
        home_of(m, digits)
    } else {
        Ok(None)
    }
}

/// A territory, if it has the digits.
fn home_of<'d>(m: &'d Territory, digits: &Subject<'_>) -> Result<Option<Home<'d>>, AllocError>
    ensures territory { IfOk result (λ home. option_map territory_of home ≡
        (if has_digits digits.now m.entry.now then Some m.entry.now else None)) }
    ensures kind { IfOk result (λ home. IfSome home (TellsKind digits.now)) }
{
    match m.leading_digits_pattern() {
        Some(pattern) => {
            if pattern.is_at_start_in(digits)? {
                Ok(Some(Home {
                    territory: m,
                    kind: None,
                }))
            } else {
                Ok(None)
            }
        }
        None => Ok(if_known(m, kind_of_digits(m, digits)?)),
    }
}

/// A territory and the kind of digits there, if that is known.
fn if_known(m: &Territory, kind: Type) -> Option<Home<'_>>
    ensures territory { option_map territory_of result ≡
        (if is_known kind then Some m.entry.now else None) }
    ensures kind { IfSome result (λ home. home.kind ≡ Some kind) }
{
    if is_known(kind) {
        Some(Home {
            territory: m,
            kind: Some(kind),
        })
    } else {
        None
    }
}
