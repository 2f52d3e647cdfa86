//! Examples of numbers, as plain numbers, whose texts go into a buffer: of a calling code that
//! serves no region, and of a number that isn't valid.
ghost use Rattle.std.specs.Prelude.{◌≡◌, ◌⊎◌, ◌↔◌, None};
ghost use Rattle.phone_values.specs.Ids.{id_of};
ghost use Rattle.phone_c_questions.specs.Examples.{HasNoInvalid, IsNumberTooLong, IsNumberWritten};
ghost use Rattle.phone_c_questions.specs.Examples.{IsOfCode, IsOfCodeRefused, IsInvalidOf};
ghost use Rattle.phone_c_questions.specs.Examples.{code_text};

use phone_c_base::hint::id_of;
use phone_c_base::number::Number;
use phone_c_base::parse::write_number;
use phone_c_base::status::{MEMORY, NO_EXAMPLE, NO_REGION, OK, TOO_SMALL};
use phone_further::{example_of_code, invalid_example};
use phone_plans::Plans;

/// Reads the example of a calling code that serves no region into plain numbers and a buffer.
pub fn of_code(
    database: &Plans,
    code: u16,
    number: &mut Number,
    out: &mut [u8],
    wrote: &mut usize,
) -> u32
    ensures read { result ≡ OK →
        IsNumberWritten (IsOfCode database.now code) number.new out.old out.new wrote.new }
    ensures too_small { result ≡ TOO_SMALL →
        IsNumberTooLong (IsOfCode database.now code) out.old out.new wrote.new }
    ensures no_example { result ≡ NO_EXAMPLE → code_text database.now code ≡ None }
    ensures refused { ¬ (result ≡ OK) → ¬ (result ≡ TOO_SMALL) → ¬ (result ≡ NO_EXAMPLE) →
        (result ≡ MEMORY) ⊎ IsOfCodeRefused database.now code result }
    ensures untouched { ¬ (result ≡ OK) → out.new ≡ out.old }
    ensures kept { ¬ (result ≡ OK) → number.new ≡ number.old }
    ensures no_length { ¬ (result ≡ OK) → ¬ (result ≡ TOO_SMALL) → wrote.new ≡ 0 }
{
    *wrote = 0;
    match example_of_code(database, code) {
        Ok(Some(read)) => write_number(&read, number, out, wrote),
        Ok(None) => NO_EXAMPLE,
        Err(error) => u32::from(error.number()),
    }
}

/// Makes a number of a region that isn't valid, as plain numbers and a buffer.
pub fn invalid_of(
    database: &Plans,
    region: &[u8],
    number: &mut Number,
    out: &mut [u8],
    wrote: &mut usize,
) -> u32
    ensures read { result ≡ OK → IsNumberWritten
        (IsInvalidOf database.now region.now) number.new out.old out.new wrote.new }
    ensures too_small { result ≡ TOO_SMALL →
        IsNumberTooLong (IsInvalidOf database.now region.now) out.old out.new wrote.new }
    ensures no_region { (result ≡ NO_REGION) ↔ (id_of region.now ≡ None) }
    ensures no_example { result ≡ NO_EXAMPLE → HasNoInvalid database.now region.now }
    ensures other { ¬ (result ≡ OK) → ¬ (result ≡ TOO_SMALL) → ¬ (result ≡ NO_REGION) →
        ¬ (result ≡ NO_EXAMPLE) → result ≡ MEMORY }
    ensures untouched { ¬ (result ≡ OK) → out.new ≡ out.old }
    ensures kept { ¬ (result ≡ OK) → number.new ≡ number.old }
    ensures no_length { ¬ (result ≡ OK) → ¬ (result ≡ TOO_SMALL) → wrote.new ≡ 0 }
{
    *wrote = 0;
    let Some(region) = id_of(region) else {
        return NO_REGION;
    };
    match invalid_example(database, region) {
        Ok(Some(read)) => write_number(&read, number, out, wrote),
        Ok(None) => NO_EXAMPLE,
        Err(_) => MEMORY,
    }
}
