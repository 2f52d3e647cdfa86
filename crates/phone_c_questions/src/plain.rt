//! Kinds by their numbers in a buffer.
ghost use Rattle.std.specs.Prelude.{◌≡◌, IfOk, map};
ghost use Rattle.phone_c_base.specs.Answers.{kind_number};
ghost use Rattle.phone_c_base.specs.Buffers.{IsTooLong, IsWritten};

use phone_c_base::asked::kind_number;
use phone_c_base::buffer::give;
use phone_c_base::status::{MEMORY, OK, TOO_SMALL};
use phone_values::Type;
use std::alloc::{AllocError, Global};

/// The numbers of kinds. Refused only for memory.
fn kind_numbers(alloc: Global, kinds: &[Type]) -> Result<Vec<u32>, AllocError>
    ensures { IfOk result (λ v. v.items ≡ map kind_number kinds.now) }
{
    kinds.iter().map(|kind| kind_number(*kind)).collect(alloc)
}

/// The numbers of kinds, in a buffer.
pub(crate) fn give_kinds(alloc: Global, kinds: &[Type], out: &mut [u32], wrote: &mut usize) -> u32
    ensures written { result ≡ OK →
        IsWritten (map kind_number kinds.now) out.old out.new wrote.new }
    ensures too_small { result ≡ TOO_SMALL →
        IsTooLong (map kind_number kinds.now) out.old out.new wrote.new }
    ensures other { ¬ (result ≡ OK) → ¬ (result ≡ TOO_SMALL) → result ≡ MEMORY }
    ensures untouched { ¬ (result ≡ OK) → out.new ≡ out.old }
    ensures no_length { ¬ (result ≡ OK) → ¬ (result ≡ TOO_SMALL) → wrote.new ≡ 0 }
{
    *wrote = 0;
    match kind_numbers(alloc, kinds) {
        Ok(numbers) => give(numbers.as_slice(), out, wrote),
        Err(_) => MEMORY,
    }
}
