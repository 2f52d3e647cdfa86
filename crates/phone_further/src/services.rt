//! SMS services.
ghost use Rattle.std.specs.Prelude.{◌≡◌, IfOk};
ghost use Rattle.phone_further.specs.Services.{has_service, is_of_code, is_sms_service};
ghost use Rattle.phone_further.specs.Services.{territory_with};
ghost use Rattle.std.specs.Option.{option_copied};

use phone_pattern::Subject;
use phone_plans::{Plans, Territory};
use phone_short::has_number;
use phone_values::country::Id;
use phonenumber::PhoneNumber;
use std::alloc::AllocError;

/// Whether a number is an SMS service of a region: one of the short numbers to which messages are
/// sent there. The region has to be one of the number's calling code. `sms` is the table of these
/// services, `data/sms.json`, which stands beside that of the short numbers: its record of a region
/// has them as the general descriptor, and regions without services have none. Refused only for
/// memory.
pub fn is_sms_service(
    database: &Plans,
    sms: &Plans,
    region: Id,
    number: &PhoneNumber,
) -> Result<bool, AllocError>
    ensures { IfOk result (λ b. b ≡ is_sms_service database.now sms.now region number.now) }
{
    if !is_of_code(database, region, number.code().value()) {
        return Ok(false);
    }
    let digits = number.national().to_string(database.allocator())?;
    has_service(sms, region, digits.as_str())
}

/// Whether a region has a territory of a calling code.
fn is_of_code(database: &Plans, region: Id, code: u16) -> bool
    ensures { result ≡ is_of_code database.now region code }
{
    territory_with(database, region.as_str(), code).is_some()
}

/// The territory with an id among those of a calling code.
fn territory_with<'d>(database: &'d Plans, id: &str, code: u16) -> Option<&'d Territory>
    ensures { option_copied result ≡ territory_with database.entry.now id.now code }
{
    database.of_code(code).find(|t| t.id() == id)
}

/// Whether digits are one of a region's services. Refused only for memory.
fn has_service(sms: &Plans, region: Id, digits: &str) -> Result<bool, AllocError>
    ensures { IfOk result (λ b. b ≡ has_service sms.now region digits.now) }
{
    match sms.by_id(region.as_str()) {
        Some(record) => has_number(Some(record.descriptors().general()), &Subject::of(digits)),
        None => Ok(false),
    }
}
