//! Our own answers.
ghost use Rattle.std.specs.Prelude.{◌≡◌, IfOk, is_some, string_bytes};
ghost use Rattle.phone_further.specs.Answers.{home_id, mobile_text_in, own_layouts_text};
ghost use Rattle.phone_further.specs.Answers.{reaches_from_abroad};
ghost use Rattle.std.specs.Option.{option_copied};
ghost use Rattle.phone_questions.specs.Belonging.{territory_with};

use crate::own_layouts::text_by_layouts;
use phone_dialling::{mobile_text, text_in};
use phone_library::is_valid;
use phone_plans::{Format, Plans, Territory};
use phone_questions::{is_dialled_from_abroad, main_region};
use phone_values::Mode;
use phonenumber::PhoneNumber;
use std::alloc::AllocError;

/// What a mobile phone dials to reach a number where the region's id is this, `001` standing for
/// the whole world: as `mobile_text` of `phone_dialling`, but each region of the number's calling
/// code is at home for it, as `CA` for `+1 911`, which libphonenumber says can't be dialled there.
/// Empty where the number can't be dialled from there, and where its code isn't listed. Refused
/// only for memory.
pub fn mobile_text_in(
    database: &Plans,
    id: &str,
    symbols: bool,
    number: &PhoneNumber,
) -> Result<String, AllocError>
    ensures { IfOk result (λ t. string_bytes t ≡
        mobile_text_in database.now id.now symbols number.now) }
{
    let home = home_id(database, id, number.code().value());
    mobile_text(database, home, symbols, None, number)
}

/// The id of the main region of a calling code, where the region of this id is one of the code's;
/// else this id.
fn home_id<'a>(database: &'a Plans, id: &'a str, code: u16) -> &'a str
    ensures { result.now ≡ home_id database.entry.now id.entry.now code }
{
    if !is_of_code(database, id, code) {
        return id;
    }
    match main_region(database, code) {
        Some(main) => main,
        None => id,
    }
}

/// Whether a calling code has a territory of this id.
fn is_of_code(database: &Plans, id: &str, code: u16) -> bool
    ensures { result ≡ is_some (territory_with database.now id.now code) }
{
    territory_with(database, id, code).is_some()
}

/// The territory with an id among those of a calling code.
fn territory_with<'d>(database: &'d Plans, id: &str, code: u16) -> Option<&'d Territory>
    ensures { option_copied result ≡ territory_with database.entry.now id.now code }
{
    database.of_code(code).find(|t| t.id() == id)
}

/// The text of a number in a mode by layouts that are handed in: as `text_by_layouts` of
/// this crate, but the E.164 text is that of the number, plus sign, code and digits alone,
/// where libphonenumber lays it out. Refused only for memory.
pub fn own_layouts_text(
    database: &Plans,
    mode: Mode,
    layouts: &[Format],
    number: &PhoneNumber,
) -> Result<String, AllocError>
    ensures { IfOk result (λ t. string_bytes t ≡
        own_layouts_text database.now mode layouts.now number.now) }
{
    match mode {
        Mode::E164 => text_in(database, Mode::E164, None, number),
        _ => text_by_layouts(database, mode, layouts, number),
    }
}

/// Whether a number can be dialled from abroad: it is valid, and the territory of its region
/// doesn't say that it is dialled at home alone. libphonenumber says so of numbers that aren't
/// valid, too. Refused only for memory.
pub fn reaches_from_abroad(database: &Plans, number: &PhoneNumber) -> Result<bool, AllocError>
    ensures { IfOk result (λ b. b ≡ reaches_from_abroad database.now number.now) }
{
    Ok(is_valid(database, number)? && is_dialled_from_abroad(database, number)?)
}
