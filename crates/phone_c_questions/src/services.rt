//! Whether a number that is given as plain numbers is an SMS service of a region.
ghost use Rattle.std.specs.Prelude.{◌≡◌, ◌↔◌, None};
ghost use Rattle.phone_values.specs.Ids.{id_of};
ghost use Rattle.phone_c_base.specs.Numbers.{AreNone};
ghost use Rattle.phone_c_questions.specs.Services.{IsServiceOf};

use phone_c_base::hint::id_of;
use phone_c_base::number::{Number, bare};
use phone_c_base::status::{BAD_NUMBER, MEMORY, NO_REGION, OK};
use phone_further::is_sms_service;
use phone_plans::Plans;

/// Whether a number is an SMS service of a region, by the table of these services: 1, else 0. Its
/// texts are not looked at.
pub fn sms_service(
    database: &Plans,
    services: &Plans,
    region: &[u8],
    number: &Number,
    told: &mut u8,
) -> u32
    ensures told { result ≡ OK →
        IsServiceOf database.now services.now region.now number.now told.new }
    ensures no_region { (result ≡ NO_REGION) ↔ (id_of region.now ≡ None) }
    ensures bad { (result ≡ BAD_NUMBER) ↔ (¬ (id_of region.now ≡ None) × AreNone number.now) }
    ensures other { ¬ (result ≡ OK) → ¬ (result ≡ NO_REGION) → ¬ (result ≡ BAD_NUMBER) →
        result ≡ MEMORY }
    ensures untouched { ¬ (result ≡ OK) → told.new ≡ told.old }
{
    let Some(region) = id_of(region) else {
        return NO_REGION;
    };
    let Some(number) = bare(number) else {
        return BAD_NUMBER;
    };
    match is_sms_service(database, services, region, &number) {
        Ok(is_service) => {
            *told = if is_service { 1 } else { 0 };
            OK
        }
        Err(_) => MEMORY,
    }
}
