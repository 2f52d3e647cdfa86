//! Our own answers of a number that is given as plain numbers.
ghost use Rattle.std.specs.Prelude.{◌≡◌, ◌↔◌, IsUtf8, None};
ghost use Rattle.phone_c_base.specs.Buffers.{IsTooLongA, IsWrittenA};
ghost use Rattle.phone_c_base.specs.Kinds.{kind_of};
ghost use Rattle.phone_c_base.specs.Numbers.{AreNoNumber, AreNone};
ghost use Rattle.phone_c_base.specs.ShortNumbers.{cost_number, flag};
ghost use Rattle.phone_c_questions.specs.Numbers.{validation_number};
ghost use Rattle.phone_c_questions.specs.Own.{IsKnownCost, IsOwnMobileText, IsPossibilityOf};
ghost use Rattle.phone_c_questions.specs.Own.{IsReach};

use crate::numbers::validation_number;
use phone_c_base::asked::kind_of;
use phone_c_base::buffer::give;
use phone_c_base::number::{Number, bare, to_phone_number};
use phone_c_base::short::{cost_number, flag};
use phone_c_base::status::{BAD_NUMBER, MEMORY, NO_KIND, NOT_UTF8, OK, TOO_SMALL};
use phone_further::{known_cost, mobile_text_in, possibility_of, reaches_from_abroad};
use phone_plans::Plans;

/// What a mobile phone dials to reach a number where the region's id is this, in a buffer: each
/// region of the number's calling code is at home for it.
pub fn mobile(
    database: &Plans,
    id: &[u8],
    with_symbols: u8,
    number: &Number,
    bytes: &[u8],
    out: &mut [u8],
    wrote: &mut usize,
) -> u32
    ensures written { result ≡ OK → IsWrittenA
        (IsOwnMobileText database.now id.now with_symbols number.now bytes.now)
        out.old out.new wrote.new }
    ensures too_small { result ≡ TOO_SMALL → IsTooLongA
        (IsOwnMobileText database.now id.now with_symbols number.now bytes.now)
        out.old out.new wrote.new }
    ensures not_utf8 { (result ≡ NOT_UTF8) ↔ ¬ (IsUtf8 id.now) }
    ensures bad { (result ≡ BAD_NUMBER) ↔ (IsUtf8 id.now × AreNoNumber number.now bytes.now) }
    ensures other { ¬ (result ≡ OK) → ¬ (result ≡ TOO_SMALL) → ¬ (result ≡ NOT_UTF8) →
        ¬ (result ≡ BAD_NUMBER) → result ≡ MEMORY }
    ensures untouched { ¬ (result ≡ OK) → out.new ≡ out.old }
    ensures no_length { ¬ (result ≡ OK) → ¬ (result ≡ TOO_SMALL) → wrote.new ≡ 0 }
{
    *wrote = 0;
    let Ok(id) = std::str::from_utf8(id) else {
        return NOT_UTF8;
    };
    let number = match to_phone_number(database.allocator(), number, bytes) {
        Ok(number) => number,
        Err(status) => return status,
    };
    match mobile_text_in(database, id, with_symbols != 0, &number) {
        Ok(text) => give(text.as_bytes(), out, wrote),
        Err(_) => MEMORY,
    }
}

/// Whether a number can be dialled from abroad, a valid one alone: 1, else 0. Its texts are not
/// looked at.
pub fn reach(database: &Plans, number: &Number, told: &mut u8) -> u32
    ensures told { result ≡ OK → IsReach database.now number.now told.new }
    ensures bad { (result ≡ BAD_NUMBER) ↔ AreNone number.now }
    ensures other { ¬ (result ≡ OK) → ¬ (result ≡ BAD_NUMBER) → result ≡ MEMORY }
    ensures untouched { ¬ (result ≡ OK) → told.new ≡ told.old }
{
    let Some(number) = bare(number) else {
        return BAD_NUMBER;
    };
    match reaches_from_abroad(database, &number) {
        Ok(reaches) => {
            *told = flag(reaches);
            OK
        }
        Err(_) => MEMORY,
    }
}

/// What a short number costs whose region isn't told, by its number: in the regions that know it.
/// The number's texts are not looked at.
pub fn cost(database: &Plans, short: &Plans, number: &Number, told: &mut u32) -> u32
    ensures told { result ≡ OK → IsKnownCost database.now short.now number.now told.new }
    ensures bad { (result ≡ BAD_NUMBER) ↔ AreNone number.now }
    ensures other { ¬ (result ≡ OK) → ¬ (result ≡ BAD_NUMBER) → result ≡ MEMORY }
    ensures untouched { ¬ (result ≡ OK) → told.new ≡ told.old }
{
    let Some(number) = bare(number) else {
        return BAD_NUMBER;
    };
    match known_cost(database, short, &number) {
        Ok(cost) => {
            *told = cost_number(cost);
            OK
        }
        Err(_) => MEMORY,
    }
}

/// What the count of a number's digits says of it as a number of a kind: of a valid one by the
/// lengths of its own region.
pub fn possibility(database: &Plans, kind: u32, number: &Number, told: &mut u32) -> u32
    ensures told { result ≡ OK → IsPossibilityOf database.now kind number.now told.new }
    ensures no_kind { (result ≡ NO_KIND) ↔ (kind_of kind ≡ None) }
    ensures bad { (result ≡ BAD_NUMBER) ↔ (¬ (kind_of kind ≡ None) × AreNone number.now) }
    ensures other { ¬ (result ≡ OK) → ¬ (result ≡ NO_KIND) → ¬ (result ≡ BAD_NUMBER) →
        result ≡ MEMORY }
    ensures untouched { ¬ (result ≡ OK) → told.new ≡ told.old }
{
    let Some(kind) = kind_of(kind) else {
        return NO_KIND;
    };
    let Some(number) = bare(number) else {
        return BAD_NUMBER;
    };
    match possibility_of(database, kind, &number) {
        Ok(verdict) => {
            *told = validation_number(verdict);
            OK
        }
        Err(_) => MEMORY,
    }
}
