//! An example of a kind, of whatever region, as plain numbers, whose texts go into a buffer.
ghost use Rattle.std.specs.Prelude.{◌≡◌, ◌⊎◌, ◌↔◌, None};
ghost use Rattle.phone_c_base.specs.Kinds.{kind_of};
ghost use Rattle.phone_c_questions.specs.Examples.{IsNumberTooLong, IsNumberWritten};
ghost use Rattle.phone_c_questions.specs.KindExamples.{HasNoneOfKind, IsKindRefused, IsOfKind};

use phone_c_base::asked::kind_of;
use phone_c_base::number::Number;
use phone_c_base::parse::write_number;
use phone_c_base::status::{MEMORY, NO_EXAMPLE, NO_KIND, OK, TOO_SMALL};
use phone_further::example_of_kind;
use phone_plans::Plans;

/// Reads the example of a kind, of whatever region or calling code, into plain numbers and a
/// buffer.
pub fn of_kind(
    database: &Plans,
    kind: u32,
    number: &mut Number,
    out: &mut [u8],
    wrote: &mut usize,
) -> u32
    ensures read { result ≡ OK → IsNumberWritten
        (IsOfKind database.now kind) number.new out.old out.new wrote.new }
    ensures too_small { result ≡ TOO_SMALL → IsNumberTooLong
        (IsOfKind database.now kind) out.old out.new wrote.new }
    ensures no_kind { (result ≡ NO_KIND) ↔ (kind_of kind ≡ None) }
    ensures no_example { result ≡ NO_EXAMPLE → HasNoneOfKind database.now kind }
    ensures refused { ¬ (result ≡ OK) → ¬ (result ≡ TOO_SMALL) → ¬ (result ≡ NO_KIND) →
        ¬ (result ≡ NO_EXAMPLE) →
        (result ≡ MEMORY) ⊎ IsKindRefused database.now kind result }
    ensures untouched { ¬ (result ≡ OK) → out.new ≡ out.old }
    ensures kept { ¬ (result ≡ OK) → number.new ≡ number.old }
    ensures no_length { ¬ (result ≡ OK) → ¬ (result ≡ TOO_SMALL) → wrote.new ≡ 0 }
{
    *wrote = 0;
    let Some(kind) = kind_of(kind) else {
        return NO_KIND;
    };
    match example_of_kind(database, kind) {
        Ok(Some(read)) => write_number(&read, number, out, wrote),
        Ok(None) => NO_EXAMPLE,
        Err(error) => u32::from(error.number()),
    }
}
