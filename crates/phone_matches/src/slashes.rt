//! How many slashes may stand in the text of a number.
ghost use Rattle.std.specs.Prelude.{◌≡◌, IfOk, chars, count_by};
ghost use Rattle.phone_matches.specs.Slashes.{allowed_slashes, has_many_slashes, is_slash};
ghost use Rattle.phone_matches.specs.Slashes.{is_written, parts_code};

use phone_chars::cuts::{CharSet, split_run};
use phone_library_text::digit_values;
use phone_values::country::{Code, Source};
use std::alloc::{AllocError, Global};

/// Whether a character is a slash.
fn is_slash(c: char) -> bool
    ensures { result ≡ is_slash c }
{
    c == '/'
}

/// All characters but slashes.
#[derive(Drop)]
struct NoSlash;

impl CharSet for NoSlash {
    ghost use Rattle.phone_matches.specs.Slashes.{is_no_slash};

    ghost members = { λ _. is_no_slash };

    fn has(&self, c: char) -> bool {
        !is_slash(c)
    }
}

/// How many slashes stand in a text.
fn count_slashes(text: &str) -> usize
    ensures { result ≡ count_by is_slash (chars text.now) }
{
    text.chars().filter(|c| is_slash(*c)).count()
}

/// Whether a calling code that was found so is written in the text, behind a plus sign or as digits
/// alone.
fn is_written(source: Source) -> bool
    ensures { result ≡ is_written source }
{
    matches!(source, Source::Plus | Source::Number)
}

/// Whether the digits before the first slash of a text are those of the calling code, which
/// is written there. Refused only for memory.
fn parts_code(alloc: Global, code: &Code, text: &str) -> Result<bool, AllocError>
    ensures { IfOk result (λ b. b ≡ parts_code code.now (chars text.now)) }
{
    if !is_written(code.source()) {
        return Ok(false);
    }
    let (front, _) = split_run(text, &NoSlash);
    let digits = digit_values(alloc, front)?;
    let value = code.value().to_string(alloc)?;
    Ok(digits.as_str() == value.as_str())
}

/// How many slashes may stand in a text. Refused only for memory.
fn allowed_slashes(alloc: Global, code: &Code, text: &str) -> Result<usize, AllocError>
    ensures { IfOk result (λ n. n ≡ allowed_slashes code.now (chars text.now)) }
{
    Ok(if parts_code(alloc, code, text)? { 2 } else { 1 })
}

/// Whether more slashes stand in the text of a number than one, or two where the first of them
/// parts the calling code from the rest. Refused only for memory.
pub fn has_many_slashes(alloc: Global, code: &Code, text: &str) -> Result<bool, AllocError>
    ensures { IfOk result (λ b. b ≡ has_many_slashes code.now (chars text.now)) }
{
    Ok(count_slashes(text) > allowed_slashes(alloc, code, text)?)
}
