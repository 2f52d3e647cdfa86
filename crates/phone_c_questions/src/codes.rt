//! What a database tells of a calling code.
ghost use Rattle.std.specs.Prelude.{◌≡◌, ◌⊎◌, ◌↔◌, None, Some, map};
ghost use Rattle.phone_questions.specs.Kinds.{kinds_of_code, mobile_token};
ghost use Rattle.phone_questions.specs.Regions.{main_region};
ghost use Rattle.phone_c_base.specs.Answers.{kind_number};
ghost use Rattle.phone_c_base.specs.Buffers.{IsTooLong, IsTooLongA, IsWritten, IsWrittenA};

use crate::plain::give_kinds;
use phone_c_base::buffer::give;
use phone_c_base::status::{MEMORY, OK, TOO_SMALL, UNKNOWN_CODE};
use phone_plans::Plans;
use phone_questions::kinds_of_code;

/// The id of a calling code's main region, in a buffer.
pub fn main_region(database: &Plans, code: u16, out: &mut [u8], wrote: &mut usize) -> u32
    ensures written { result ≡ OK →
        IsWrittenA (λ id. main_region database.now code ≡ Some id) out.old out.new wrote.new }
    ensures too_small { result ≡ TOO_SMALL →
        IsTooLongA (λ id. main_region database.now code ≡ Some id) out.old out.new wrote.new }
    ensures unknown { (result ≡ UNKNOWN_CODE) ↔ (main_region database.now code ≡ None) }
    ensures status { (result ≡ OK) ⊎ (result ≡ TOO_SMALL) ⊎ (result ≡ UNKNOWN_CODE) }
    ensures untouched { ¬ (result ≡ OK) → out.new ≡ out.old }
    ensures no_length { result ≡ UNKNOWN_CODE → wrote.new ≡ 0 }
{
    *wrote = 0;
    match phone_questions::main_region(database, code) {
        Some(id) => give(id.as_bytes(), out, wrote),
        None => UNKNOWN_CODE,
    }
}

/// The kinds of number of a calling code that serves no region, by their numbers, in a buffer.
pub fn code_kinds(database: &Plans, code: u16, out: &mut [u32], wrote: &mut usize) -> u32
    ensures written { result ≡ OK →
        IsWritten (map kind_number (kinds_of_code database.now code))
        out.old out.new wrote.new }
    ensures too_small { result ≡ TOO_SMALL →
        IsTooLong (map kind_number (kinds_of_code database.now code))
        out.old out.new wrote.new }
    ensures other { ¬ (result ≡ OK) → ¬ (result ≡ TOO_SMALL) → result ≡ MEMORY }
    ensures untouched { ¬ (result ≡ OK) → out.new ≡ out.old }
    ensures no_length { ¬ (result ≡ OK) → ¬ (result ≡ TOO_SMALL) → wrote.new ≡ 0 }
{
    *wrote = 0;
    match kinds_of_code(database, code) {
        Ok(kinds) => give_kinds(database.allocator(), kinds.as_slice(), out, wrote),
        Err(_) => MEMORY,
    }
}

/// What stands before the area code of a mobile number of a calling code, in a buffer.
pub fn mobile_token(code: u16, out: &mut [u8], wrote: &mut usize) -> u32
    ensures written { result ≡ OK →
        IsWritten (mobile_token code) out.old out.new wrote.new }
    ensures too_small { result ≡ TOO_SMALL →
        IsTooLong (mobile_token code) out.old out.new wrote.new }
    ensures status { (result ≡ OK) ⊎ (result ≡ TOO_SMALL) }
{
    give(phone_questions::mobile_token(code).as_bytes(), out, wrote)
}
