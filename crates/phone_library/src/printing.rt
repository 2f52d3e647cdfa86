//! A number as libphonenumber prints it.
ghost use Rattle.std.specs.Prelude.{◌≡◌, ◌↔◌, ◌∷◌, ◌++◌, IfOk, OnErr, OnOk, Err, None, Some};
ghost use Rattle.std.specs.Prelude.{string_bytes};
ghost use Rattle.phone_library.specs.Printed.{printed_by};
ghost use Rattle.phone_plans.specs.CodeLookUps.{first_of, territories};
ghost use Rattle.phone_print.specs.Tabbed.{texts_by_rules};
ghost use Rattle.phone_records.specs.declared.loader.Metadata.{Metadata};
ghost use Rattle.phone_values.specs.declared.mode.Mode.TheVariants as mode;

use phone_plans::Plans;
use phone_print::{Texts, printing};
use phone_values::{Mode, Rules};
use phonenumber::{FormatError, PhoneNumber};
use std::alloc::AllocError;

/// The number without its carrier, as libphonenumber prints the number: it writes the code of a
/// carrier in national text only where a caller asks for it. Refused only for memory.
pub fn without_carrier(number: &PhoneNumber) -> Result<PhoneNumber, AllocError>
    ensures { IfOk result (λ n. n ≡ record number.now { carrier = None }) }
{
    let extension = match number.extension() {
        Some(extension) => Some(extension.clone()?),
        None => None,
    };
    Ok(PhoneNumber::from_parts(*number.code(), *number.national(), extension, None))
}

/// The text of a number in a mode, its carrier's code included, by libphonenumber's rules: laid out
/// by the first layout of its calling code's first territory whose leading digits begin the number
/// and whose pattern is the whole of it, else its digits as they are. `UnknownCode` exactly where
/// the database lists no territory of the code; `Memory` where memory was refused.
pub fn printed(database: &Plans, mode: Mode, number: &PhoneNumber) -> Result<String, FormatError>
    ensures text { IfOk result (λ t.
        printed_by Rules.Library database.now mode number.now ≡ Some (string_bytes t)) }
    ensures unknown { (result ≡ Err FormatError.UnknownCode) ↔
        (printed_by Rules.Library database.now mode number.now ≡ None) }
{
    let code = number.code().value();
    let Some(m) = database.first_by_code(&code) else {
        return Err(FormatError::UnknownCode);
    };
    let alloc = database.allocator();
    let finder = database.first_group_finder();
    match printing::text_by(
        alloc,
        finder,
        m,
        mode,
        Rules::Library,
        None,
        &number.printable(),
    ) {
        Ok(text) => Ok(text),
        Err(_) => Err(FormatError::Memory),
    }
}

/// The texts of a number in the four modes, each as `printed` gives it. Each layout is looked for
/// once.
pub fn printed_texts(database: &Plans, number: &PhoneNumber) -> Result<Texts, FormatError>
    ensures e164 { IfOk result (λ t. printed_by Rules.Library database.now mode.E164 number.now ≡
        Some (string_bytes t.e164)) }
    ensures international { IfOk result (λ t.
        printed_by Rules.Library database.now mode.International number.now ≡
        Some (string_bytes t.international)) }
    ensures national { IfOk result (λ t.
        printed_by Rules.Library database.now mode.National number.now ≡
        Some (string_bytes t.national)) }
    ensures rfc3966 { IfOk result (λ t.
        printed_by Rules.Library database.now mode.Rfc3966 number.now ≡
        Some (string_bytes t.rfc3966)) }
    ensures unknown { (result ≡ Err FormatError.UnknownCode) ↔
        (first_of (territories number.now.code.value database.now) ≡ None) }
{
    let code = number.code().value();
    let Some(m) = database.first_by_code(&code) else {
        return Err(FormatError::UnknownCode);
    };
    let alloc = database.allocator();
    let finder = database.first_group_finder();
    match printing::texts_by(alloc, finder, m, Rules::Library, None, &number.printable()) {
        Ok(texts) => Ok(texts),
        Err(_) => Err(FormatError::Memory),
    }
}

/// Appends the texts of a number in the four modes to a line, each after one tab: E.164,
/// international, national, RFC 3966, each as `printed` gives it. Where the line doesn't grow, the
/// call takes memory, of the database's allocator, only for a national number that is laid out or
/// has leading zeros. After an error the line is as it was.
pub fn push_printed_texts(
    line: &mut String,
    database: &Plans,
    number: &PhoneNumber,
) -> Result<(), FormatError>
    ensures texts { OnOk result ((m : Metadata) ×
        (first_of (territories number.now.code.value database.now) ≡ Some m) ×
        (string_bytes line.new ≡ string_bytes line.old ++
        9 ∷ texts_by_rules Rules.Library m None number.now)) }
    ensures unknown { (result ≡ Err FormatError.UnknownCode) ↔
        (first_of (territories number.now.code.value database.now) ≡ None) }
    ensures kept { OnErr result (string_bytes line.new ≡ string_bytes line.old) }
{
    let code = number.code().value();
    let Some(m) = database.first_by_code(&code) else {
        return Err(FormatError::UnknownCode);
    };
    let alloc = database.allocator();
    let finder = database.first_group_finder();
    let number = number.printable();
    match printing::push_texts(line, alloc, finder, m, Rules::Library, None, &number) {
        Ok(()) => Ok(()),
        Err(_) => Err(FormatError::Memory),
    }
}
