//! How a number is dialled on a mobile phone.
ghost use Rattle.std.specs.Prelude.{◌≡◌, IfOk, [], if◌then◌else◌, string_bytes};
ghost use Rattle.std.specs.Option.{option_copied};
ghost use Rattle.phone_dialling.specs.Mobile.{carried, carried_by, if_far, is_international_home};
ghost use Rattle.phone_dialling.specs.Mobile.{is_telephone, main_text, mobile_text, mobile_way};
ghost use Rattle.phone_dialling.specs.Mobile.{text_by_way, way_at_home, way_elsewhere};
ghost use Rattle.phone_dialling.specs.Mobile.{with_symbols};
ghost use Rattle.phone_library.specs.Lengths.{length_in};
ghost use Rattle.phone_questions.specs.Carriers.{preferred_carrier};
ghost use Rattle.phone_questions.specs.Truncation.{is_too_short};
ghost use Rattle.phone_read.specs.Kinds.{is_known};
ghost use Rattle.phone_values.specs.Numbers.{text_of};

use crate::texts::{text_in, without_extension};
use phone_library::{facts, length_in};
use phone_plans::{Plans, Territory};
use phone_questions::{diallable_only, is_dialled_by_region, national_with_carrier};
use phone_values::{Mode, Type, Validation};
use phonenumber::PhoneNumber;
use std::alloc::{AllocError, Global};

/// The calling code of the North American Numbering Plan.
const NANPA_CODE: u16 = 1;

/// The id of a territory of a code that serves no region.
const WORLDWIDE: &str = "001";

/// The id of Brazil, where a carrier is dialled with each number.
const BRAZIL: &str = "BR";

/// How a number is dialled on a mobile phone.
#[derive(Clone, Copy, PartialEq, Eq, Debug)]
pub enum MobileWay {
    /// As its national text.
    National,
    /// At home, but as from abroad: as its international text.
    International,
    /// As its national text with the carrier that was dialled; not at all without one.
    WithCarrier,
    /// From another region: as its international text, without symbols as its E.164 text.
    Abroad,
    /// Not at all.
    Nowhere,
}

/// What a mobile phone dials to reach a number where the region's id is this, `001` standing for
/// the whole world; empty where the number can't be dialled from there. The text that the number
/// was read from stands for one whose value is 0, and for one whose calling code isn't listed.
/// Without symbols only digits from `0` to `9`, plus signs, stars and number signs stay. The
/// extension isn't dialled. Refused only for memory.
pub fn mobile_text(
    database: &Plans,
    id: &str,
    symbols: bool,
    raw: Option<&str>,
    number: &PhoneNumber,
) -> Result<String, AllocError>
    ensures { IfOk result (λ t. string_bytes t ≡ mobile_text database.now id.now symbols
        (option_copied raw.entry) number.now) }
{
    let Some(territory) = database.first_by_code(&number.code().value()) else {
        return String::from_str(database.allocator(), raw.unwrap_or(""));
    };
    let way = mobile_way(database, id, number, territory)?;
    text_by_way(database, symbols, raw, number, way)
}

/// How a number is dialled where the region's id is this. Refused only for memory.
fn mobile_way(
    database: &Plans,
    id: &str,
    number: &PhoneNumber,
    m: &Territory,
) -> Result<MobileWay, AllocError>
    ensures { IfOk result (λ way. way ≡ mobile_way database.now id.now number.now m.now) }
{
    let told = facts(database, number)?;
    let far = is_dialled_by_region(database, told.region, number)?;
    if m.id() == id {
        way_at_home(m, told.kind, far, number)
    } else {
        Ok(way_elsewhere(told.kind, far))
    }
}

/// How a number of a kind is dialled in the main region of its code. Refused only for memory.
fn way_at_home(
    m: &Territory,
    kind: Type,
    far: bool,
    number: &PhoneNumber,
) -> Result<MobileWay, AllocError>
    ensures { IfOk result (λ way. way ≡ way_at_home m.now kind far number.now) }
{
    if m.id() == BRAZIL && is_telephone(kind) {
        return Ok(MobileWay::WithCarrier);
    }
    if number.code().value() == NANPA_CODE {
        let digits = number.national().to_string(m.allocator())?;
        return Ok(if_far(!is_too_short(length_in(m, digits.len())), far));
    }
    Ok(if_far(is_international_home(m.id(), kind), far))
}

/// As from abroad, where that is right and the number can be dialled so.
fn if_far(right: bool, far: bool) -> MobileWay
    ensures { result ≡ if_far right far }
{
    if right && far {
        MobileWay::International
    } else {
        MobileWay::National
    }
}

/// How a number of a kind is dialled outside the main region of its code.
fn way_elsewhere(kind: Type, far: bool) -> MobileWay
    ensures { result ≡ way_elsewhere kind far }
{
    if is_known(kind) && far {
        MobileWay::Abroad
    } else {
        MobileWay::Nowhere
    }
}

/// Whether a kind is known.
fn is_known(kind: Type) -> bool
    ensures { result ≡ is_known kind }
{
    !matches!(kind, Type::Unknown)
}

/// Whether a verdict says that digits are missing.
fn is_too_short(verdict: Validation) -> bool
    ensures { result ≡ is_too_short verdict }
{
    matches!(verdict, Validation::TooShort)
}

/// Whether a number is that of a telephone, fixed or mobile.
fn is_telephone(kind: Type) -> bool
    ensures { result ≡ is_telephone kind }
{
    matches!(
        kind,
        Type::FixedLine | Type::Mobile | Type::FixedLineOrMobile
    )
}

/// Whether numbers of a kind are dialled as from abroad in the region of an id.
fn is_international_home(id: &str, kind: Type) -> bool
    ensures { result ≡ is_international_home id.now kind }
{
    id == WORLDWIDE || is_telephone(kind) && (id == "MX" || id == "CL" || id == "UZ")
}

/// The text of a number that is dialled so. Refused only for memory.
fn text_by_way(
    database: &Plans,
    symbols: bool,
    raw: Option<&str>,
    number: &PhoneNumber,
    way: MobileWay,
) -> Result<String, AllocError>
    ensures { IfOk result (λ t. string_bytes t ≡ text_by_way database.now symbols
        (option_copied raw.entry) number.now way) }
{
    match way {
        MobileWay::National => {
            let text = main_text(database, Mode::National, raw, number)?;
            with_symbols(database.allocator(), symbols, text)
        }
        MobileWay::International => {
            let text = main_text(database, Mode::International, raw, number)?;
            with_symbols(database.allocator(), symbols, text)
        }
        MobileWay::WithCarrier => {
            let text = carried(database, number)?;
            with_symbols(database.allocator(), symbols, text)
        }
        MobileWay::Abroad => main_text(database, mode_abroad(symbols), raw, number),
        MobileWay::Nowhere => Ok(String::new(database.allocator())),
    }
}

/// The mode of the text that is dialled from abroad.
fn mode_abroad(symbols: bool) -> Mode
    ensures { result ≡ (if symbols then Mode.International else Mode.E164) }
{
    if symbols {
        Mode::International
    } else {
        Mode::E164
    }
}

/// A text, without symbols what of it a telephone can dial. Refused only for memory.
fn with_symbols(alloc: Global, symbols: bool, text: String) -> Result<String, AllocError>
    ensures { IfOk result (λ t. string_bytes t ≡ with_symbols symbols (string_bytes text)) }
{
    if symbols {
        Ok(text)
    } else {
        diallable_only(alloc, text.as_str())
    }
}

/// The text of a number without its extension. Refused only for memory.
fn main_text(
    database: &Plans,
    mode: Mode,
    raw: Option<&str>,
    number: &PhoneNumber,
) -> Result<String, AllocError>
    ensures { IfOk result (λ t. string_bytes t ≡
        main_text database.now mode (option_copied raw.entry) number.now) }
{
    text_in(database, mode, raw, &without_extension(number))
}

/// The national text of a number with the carrier that was dialled; empty without one. Refused only
/// for memory.
fn carried(database: &Plans, number: &PhoneNumber) -> Result<String, AllocError>
    ensures { IfOk result (λ t. string_bytes t ≡ carried database.now number.now) }
{
    let carrier = carrier_of(number);
    carried_by(database, carrier, &without_extension(number))
}

/// The carrier that was dialled with a number; the empty text without one.
fn carrier_of(number: &PhoneNumber) -> &str
    ensures { result.now ≡ preferred_carrier [] number.entry.now.carrier }
{
    match number.carrier() {
        Some(carrier) => carrier.as_str(),
        None => "",
    }
}

/// The national text of a number with a carrier that isn't empty. Refused only for memory.
fn carried_by(database: &Plans, carrier: &str, number: &PhoneNumber) -> Result<String, AllocError>
    ensures { IfOk result (λ t. string_bytes t ≡
        carried_by database.now carrier.now number.now) }
{
    if carrier.is_empty() {
        Ok(String::new(database.allocator()))
    } else {
        national_with_carrier(database, carrier, number)
    }
}
