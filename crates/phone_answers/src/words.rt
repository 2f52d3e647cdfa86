//! The words of a refusal.
ghost use Rattle.std.specs.Prelude.{◌≡◌, IfOk, IsErr};
ghost use Rattle.phone_values.specs.declared.error.ParseError.TheVariants as refusal;
ghost use Rattle.phone_values.specs.Refusals.{report_words};

use phonenumber::ParseError;
use std::alloc::AllocError;

/// The words of a refusal, as a report has them. Refused where that is want of memory.
pub(crate) fn refusal_words(error: ParseError) -> Result<&'static str, AllocError>
    ensures words { IfOk result (λ words. words.now ≡ report_words error) }
    ensures memory { error ≡ refusal.Memory → IsErr result }
{
    match error {
        ParseError::Memory => Err(AllocError),
        other => Ok(other.report_words()),
    }
}
