//! What tables of prefixes tell of a number.
ghost use Rattle.std.specs.Prelude.{◌≡◌, ◌&&◌, ◌||◌, ◌≢◌, false, IfOk, true, not, None};
ghost use Rattle.std.specs.Fmt.{decimal};
ghost use Rattle.phone_places.specs.Maps.{code_digits, digits_of, has_carrier, is_first};
ghost use Rattle.phone_places.specs.Maps.{is_geographical, IsTextOf};
ghost use Rattle.phone_values.specs.declared.kind.«Type».TheVariants.{Unknown};

use crate::digits::digits_of;
use crate::kinds::{has_carrier, is_geographical};
use itoa::Buffer;
use phone_prefixes::Prefixes;
use phone_values::Type;
use phonenumber::PhoneNumber;
use std::alloc::{AllocError, Global};

/// Which carrier is asked for.
#[derive(Clone, Copy, PartialEq, Eq, Debug)]
pub enum Owner {
    /// The one that the number was first assigned to.
    First,

    /// The one that has the number today: none is told where a mobile number can be kept when the
    /// carrier changes.
    Today,
}

/// The text of a number's time zones, of which several are parted by `&`. A number that belongs to
/// no place in its country has those of its calling code, and one of unknown kind none. Refused
/// only for memory.
pub fn time_zones_of<'a>(
    alloc: Global,
    zones: &'a Prefixes,
    number: &PhoneNumber,
    kind: Type,
) -> Result<Option<&'a str>, AllocError>
    ensures unknown { kind ≡ Unknown → IfOk result (λ text. text ≡ None) }
    ensures at_place { is_geographical kind number.now.code.value ≡ true →
        IfOk result (IsTextOf zones.now (digits_of number.now)) }
    ensures elsewhere { kind ≢ Unknown → is_geographical kind number.now.code.value ≡ false →
        IfOk result (IsTextOf zones.now (code_digits number.now)) }
{
    let code = number.code().value();
    if kind == Type::Unknown {
        return Ok(None);
    }
    if is_geographical(kind, code) {
        text_of_number(alloc, zones, number)
    } else {
        Ok(text_of_code(zones, code))
    }
}

/// The text of a number's carrier; none where its kind has no mobile carrier, and none for
/// `Owner::Today` where the number's territory lets a mobile number be kept when the carrier
/// changes (`Metadata::is_mobile_number_portable`). Refused only for memory.
pub fn carrier_of<'a>(
    alloc: Global,
    carriers: &'a Prefixes,
    number: &PhoneNumber,
    kind: Type,
    is_portable: bool,
    owner: Owner,
) -> Result<Option<&'a str>, AllocError>
    ensures told { (has_carrier kind && (is_first owner || not is_portable)) ≡ true →
        IfOk result (IsTextOf carriers.now (digits_of number.now)) }
    ensures none { (has_carrier kind && (is_first owner || not is_portable)) ≡ false →
        IfOk result (λ text. text ≡ None) }
{
    if has_carrier(kind) && (owner == Owner::First || !is_portable) {
        text_of_number(alloc, carriers, number)
    } else {
        Ok(None)
    }
}

/// The text of a number's area; none where it belongs to no place in its country. Refused only for
/// memory.
pub fn area_of<'a>(
    alloc: Global,
    areas: &'a Prefixes,
    number: &PhoneNumber,
    kind: Type,
) -> Result<Option<&'a str>, AllocError>
    ensures at_place { is_geographical kind number.now.code.value ≡ true →
        IfOk result (IsTextOf areas.now (digits_of number.now)) }
    ensures none { is_geographical kind number.now.code.value ≡ false →
        IfOk result (λ text. text ≡ None) }
{
    if is_geographical(kind, number.code().value()) {
        text_of_number(alloc, areas, number)
    } else {
        Ok(None)
    }
}

/// The text of the longest prefix that begins a number's digits. Refused only for memory.
fn text_of_number<'a>(
    alloc: Global,
    table: &'a Prefixes,
    number: &PhoneNumber,
) -> Result<Option<&'a str>, AllocError>
    ensures { IfOk result (IsTextOf table.now (digits_of number.now)) }
{
    let digits = digits_of(alloc, number)?;
    Ok(text_of(table, digits.as_str()))
}

/// The text of the longest prefix that begins a calling code.
fn text_of_code(table: &Prefixes, code: u16) -> Option<&str>
    ensures { IsTextOf table.now (decimal code) result }
{
    let mut buffer = Buffer::new();
    let digits = buffer.format(code);
    text_of(table, digits)
}

/// The text of the longest prefix that begins these digits.
fn text_of<'a>(table: &'a Prefixes, digits: &str) -> Option<&'a str>
    ensures { IsTextOf table.now digits.now result }
{
    match table.longest(digits) {
        Some((_, text)) => Some(text),
        None => None,
    }
}
