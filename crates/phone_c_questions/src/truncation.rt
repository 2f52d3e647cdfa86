//! What is left of a number that has too many digits.
ghost use Rattle.std.specs.Prelude.{◌≡◌, ◌↔◌};
ghost use Rattle.phone_c_base.specs.Numbers.{AreNone};
ghost use Rattle.phone_c_questions.specs.Truncation.{IsTruncated};

use phone_c_base::number::{Number, bare, number_of};
use phone_c_base::status::{BAD_NUMBER, MEMORY, OK};
use phone_plans::Plans;
use phone_questions::truncated;

/// Cuts digits off the end of a number until it is valid: 1; the number as it was where that can't
/// be: 0.
pub fn truncate(database: &Plans, number: &mut Number, told: &mut u8) -> u32
    ensures told { result ≡ OK →
        IsTruncated database.now number.old number.new told.new }
    ensures bad { (result ≡ BAD_NUMBER) ↔ AreNone number.old }
    ensures other { ¬ (result ≡ OK) → ¬ (result ≡ BAD_NUMBER) → result ≡ MEMORY }
    ensures untouched { ¬ (result ≡ OK) →
        (number.new ≡ number.old) × (told.new ≡ told.old) }
{
    let Some(whole) = bare(number) else {
        return BAD_NUMBER;
    };
    match truncated(database, &whole) {
        Ok(Some(left)) => {
            *number = number_of(&left, number.extension, number.carrier);
            *told = 1;
            OK
        }
        Ok(None) => {
            *told = 0;
            OK
        }
        Err(_) => MEMORY,
    }
}
