//! A number's printed texts, with and without the carrier that was dialled with it.
ghost use Rattle.std.specs.Prelude.{◌≡◌, ◌↔◌, IfOk, None, Some, Err, string_bytes};
ghost use Rattle.phone_values.specs.declared.mode.Mode.TheVariants as mode;
ghost use Rattle.phone_plans.specs.CodeLookUps.{first_of, territories};
ghost use Rattle.phone_engine.specs.Facts.{printed_as};
ghost use Rattle.phone_library.specs.Printed.{printed_by};

use phone_library::{printed_texts, without_carrier};
use phone_plans::Plans;
use phone_values::Rules;
use phonenumber::{FormatError, PhoneNumber, Texts, format_with};

/// The texts of a number without its carrier, as libphonenumber prints it.
pub(crate) fn texts_without_carrier(
    database: &Plans,
    number: &PhoneNumber,
) -> Result<Texts, FormatError>
    ensures e164 { IfOk result (λ t.
        printed_by Rules.Library database.now mode.E164 (printed_as Rules.Library number.now) ≡
        Some (string_bytes t.e164)) }
    ensures international { IfOk result (λ t.
        printed_by Rules.Library database.now mode.International
        (printed_as Rules.Library number.now) ≡ Some (string_bytes t.international)) }
    ensures national { IfOk result (λ t.
        printed_by Rules.Library database.now mode.National (printed_as Rules.Library number.now) ≡
        Some (string_bytes t.national)) }
    ensures rfc3966 { IfOk result (λ t.
        printed_by Rules.Library database.now mode.Rfc3966 (printed_as Rules.Library number.now) ≡
        Some (string_bytes t.rfc3966)) }
    ensures unknown { (result ≡ Err FormatError.UnknownCode) ↔
        (first_of (territories number.now.code.value database.now) ≡ None) }
{
    if database.first_by_code(&number.code().value()).is_none() {
        return Err(FormatError::UnknownCode);
    }
    let Ok(number) = without_carrier(number) else {
        return Err(FormatError::Memory);
    };
    printed_texts(database, &number)
}

/// The texts of a number as it is, as the crate prints it.
pub(crate) fn texts_of(database: &Plans, number: &PhoneNumber) -> Result<Texts, FormatError>
    ensures e164 { IfOk result (λ t.
        printed_by Rules.Crate database.now mode.E164 number.now ≡ Some (string_bytes t.e164)) }
    ensures international { IfOk result (λ t.
        printed_by Rules.Crate database.now mode.International number.now ≡
        Some (string_bytes t.international)) }
    ensures national { IfOk result (λ t.
        printed_by Rules.Crate database.now mode.National number.now ≡
        Some (string_bytes t.national)) }
    ensures rfc3966 { IfOk result (λ t.
        printed_by Rules.Crate database.now mode.Rfc3966 number.now ≡
        Some (string_bytes t.rfc3966)) }
    ensures unknown { (result ≡ Err FormatError.UnknownCode) ↔
        (first_of (territories number.now.code.value database.now) ≡ None) }
{
    format_with(database, number).to_texts(database.allocator())
}
