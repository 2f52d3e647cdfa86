//! The digits by which a number is looked up.
ghost use Rattle.std.specs.Prelude.{◌≡◌, IfOk, MatchOption, string_bytes};
ghost use Rattle.phone_places.specs.Maps.{digits_of};
ghost use Rattle.phone_prefixes.specs.Tables.{IsLongest, NoneBegins};

use phone_prefixes::Prefixes;
use phone_print::written::text_of_value;
use phonenumber::PhoneNumber;
use std::alloc::{AllocError, Global};

/// The digits of a number's E.164 text: its calling code, and its national number with the leading
/// zeros. Refused only for memory.
pub fn digits_of(alloc: Global, number: &PhoneNumber) -> Result<String, AllocError>
    ensures { IfOk result (λ text. string_bytes text ≡ digits_of number.now) }
{
    let code = number.code().value();
    let national = number.national();
    text_of_value(alloc, format_args!("{code}{national}"))
}

/// The prefix and the text of the entry whose prefix is the longest that begins a number's digits;
/// none exactly where no prefix begins them. Refused only for memory.
pub fn of_number<'a>(
    alloc: Global,
    table: &'a Prefixes,
    number: &PhoneNumber,
) -> Result<Option<(&'a str, &'a str)>, AllocError>
    ensures { IfOk result (λ found. MatchOption found
        (NoneBegins table.now (digits_of number.now)) (λ e. IsLongest table.now
        (digits_of number.now) (record { prefix = e.0.now; text = e.1.now }))) }
{
    let digits = digits_of(alloc, number)?;
    Ok(table.longest(digits.as_str()))
}
