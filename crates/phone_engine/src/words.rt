//! The words of a report's fields.
ghost use Rattle.std.specs.Prelude.{◌≡◌, IfOk, IsErr, string_bytes};
ghost use Rattle.phone_values.specs.declared.error.ParseError.TheVariants as refusal;
ghost use Rattle.phone_engine.specs.Words.{kind_word, refusal_line, region_word, source_word};
ghost use Rattle.phone_engine.specs.Words.{validity_word};

use phone_print::written::text_of_value;
use phone_values::country::{Id, Source};
use phone_values::{ParseError, Type};
use std::alloc::{AllocError, Global};

/// How a calling code was found, in a word.
pub fn source_word(source: Source) -> &'static str
    ensures { result.now ≡ source_word source }
{
    match source {
        Source::Plus => "plus",
        Source::Idd => "idd",
        Source::Number => "number",
        Source::Default => "default",
    }
}

/// A kind's name.
pub fn kind_word(kind: Type) -> &'static str
    ensures { result.now ≡ kind_word kind }
{
    kind.name()
}

/// A region by its id, or a hyphen.
pub fn region_word(region: Option<Id>) -> &'static str
    ensures { result.now ≡ region_word region }
{
    match region {
        Some(id) => id.as_str(),
        None => "-",
    }
}

/// Valid or not, in a word.
pub fn validity_word(is_valid: bool) -> &'static str
    ensures { result.now ≡ validity_word is_valid }
{
    if is_valid { "valid" } else { "invalid" }
}

/// The report line of a refusal. Refused only for memory, and where that is the refusal.
pub fn refusal_line(alloc: Global, error: ParseError) -> Result<String, AllocError>
    ensures line { IfOk result (λ line. string_bytes line ≡ refusal_line error) }
    ensures memory { error ≡ refusal.Memory → IsErr result }
{
    if let ParseError::Memory = error {
        return Err(AllocError);
    }
    let number = error.number();
    let words = error.report_words();
    text_of_value(alloc, format_args!("error\t{number}\t{words}"))
}
