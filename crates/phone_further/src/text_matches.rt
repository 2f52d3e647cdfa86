//! How like a number and a text are, and two texts, by what two numbers are.
ghost use Rattle.std.specs.Prelude.{◌≡◌, ◌⊎◌, ℕ, Err, IfOk, List, None, Ok, OnOk, Result};
ghost use Rattle.std.specs.Prelude.{chars};
ghost use Rattle.phone_library.specs.Readings.{ReadsByLibrary};
ghost use Rattle.phone_library_text.specs.Written.{IsWritten};
ghost use Rattle.phone_values.specs.declared.error.ParseError.{ParseError as Refusal};
ghost use Rattle.phone_values.specs.declared.reading.Reading.{Reading};
ghost use Rattle.phone_further.specs.TextMatches.{AreBareMatch, AreTextsMatch, IsBare, IsBeside};
ghost use Rattle.phone_further.specs.TextMatches.{IsTextMatch, bare_number, match_read};

use crate::likeness::Likeness;
use phone_library::{national_number, parse, parse_written};
use phone_library_text::{WrittenNumber, read_written};
use phone_plans::Plans;
use phone_questions::NumberMatch;
use phone_read::hint_territory;
use phone_values::ParseError;
use phone_values::country::{Code, Source};
use phonenumber::PhoneNumber;
use std::alloc::AllocError;

/// How like a number and a text are, by what two numbers are. The text is read without a hint;
/// where it tells no calling code, beside the number: under the main region of the number's code,
/// and as it stands where that isn't listed. `NotANumber` where the text is refused for another
/// reason, or refused again. Refused only for memory.
pub fn match_text<L: Likeness>(
    likeness: &L,
    database: &Plans,
    number: &PhoneNumber,
    text: &str,
) -> Result<NumberMatch, AllocError>
    ensures { IfOk result (λ m. IsTextMatch (L.like likeness.now)
        (L.guessed likeness.now) database.now number.now (chars text.now) m) }
{
    match read_written(database.allocator(), text) {
        Ok(written) => match_written(likeness, database, number, text, written),
        Err(error) => not_a_number(error),
    }
}

/// How like a number is to one that is written in a text.
fn match_written<L: Likeness>(
    likeness: &L,
    database: &Plans,
    number: &PhoneNumber,
    text: &str,
    written: WrittenNumber,
) -> Result<NumberMatch, AllocError>
    ensures { IsWritten (chars text.now) (Ok written) → IfOk result (λ m.
        IsTextMatch (L.like likeness.now) (L.guessed likeness.now) database.now number.now
        (chars text.now) m) }
{
    if !written.has_plus {
        return match_beside(likeness, database, number, written);
    }
    match parse_written(database, hint_territory(database, None), written) {
        Ok(read) => likeness.match_numbers(database.allocator(), number, &read),
        Err(error) => {
            if error == ParseError::InvalidCountryCode {
                match_again(likeness, database, number, text)
            } else {
                not_a_number(error)
            }
        }
    }
}

/// How like a number and a text without a calling code are, the text read once more.
fn match_again<L: Likeness>(
    likeness: &L,
    database: &Plans,
    number: &PhoneNumber,
    text: &str,
) -> Result<NumberMatch, AllocError>
    ensures { IfOk result (λ m. (r : Result Reading Refusal) ×
        IsBeside database.now number.now.code.value (chars text.now) r ×
        (m ≡ match_read (L.guessed likeness.now) number.now r)) }
{
    match read_written(database.allocator(), text) {
        Ok(written) => match_beside(likeness, database, number, written),
        Err(error) => not_a_number(error),
    }
}

/// How like two texts are. Both are read without a hint, and the first one that tells a calling
/// code is matched with the other as [`match_text`] has it; where neither tells one, they are
/// matched as they stand. `NotANumber` where a text is refused for another reason, or refused
/// again. Refused only for memory.
pub fn match_texts<L: Likeness>(
    likeness: &L,
    database: &Plans,
    a: &str,
    b: &str,
) -> Result<NumberMatch, AllocError>
    ensures { IfOk result (λ m. AreTextsMatch (L.like likeness.now) (L.guessed likeness.now)
        database.now (chars a.now) (chars b.now) m) }
{
    match read_written(database.allocator(), a) {
        Ok(first) => match_first(likeness, database, a, first, b),
        Err(error) => not_a_number(error),
    }
}

/// How like a number that is written in a text and another text are.
fn match_first<L: Likeness>(
    likeness: &L,
    database: &Plans,
    a: &str,
    first: WrittenNumber,
    b: &str,
) -> Result<NumberMatch, AllocError>
    ensures { IsWritten (chars a.now) (Ok first) → IfOk result (λ m.
        AreTextsMatch (L.like likeness.now) (L.guessed likeness.now) database.now (chars a.now)
        (chars b.now) m) }
{
    if !first.has_plus {
        return match_uncoded(likeness, database, first, b);
    }
    match parse_written(database, hint_territory(database, None), first) {
        Ok(number) => match_text(likeness, database, &number, b),
        Err(error) => {
            if error == ParseError::InvalidCountryCode {
                match_unlisted(likeness, database, a, b)
            } else {
                not_a_number(error)
            }
        }
    }
}

/// How like two texts are of which the first tells no listed calling code, read once more.
fn match_unlisted<L: Likeness>(
    likeness: &L,
    database: &Plans,
    a: &str,
    b: &str,
) -> Result<NumberMatch, AllocError>
    ensures { IfOk result (λ m.
        ReadsByLibrary database.now None (chars a.now) (Err ParseError.InvalidCountryCode) →
        AreTextsMatch (L.like likeness.now) (L.guessed likeness.now) database.now (chars a.now)
        (chars b.now) m) }
{
    match read_written(database.allocator(), a) {
        Ok(first) => match_uncoded(likeness, database, first, b),
        Err(error) => not_a_number(error),
    }
}

/// How like a number that is written without a calling code and a text are.
fn match_uncoded<L: Likeness>(
    likeness: &L,
    database: &Plans,
    first: WrittenNumber,
    b: &str,
) -> Result<NumberMatch, AllocError>
    ensures { IfOk result (λ m. (t : List ℕ) → IsWritten t (Ok first) →
        ReadsByLibrary database.now None t (Err ParseError.InvalidCountryCode) →
        AreTextsMatch (L.like likeness.now) (L.guessed likeness.now) database.now t
        (chars b.now) m) }
{
    match parse(database, None, b) {
        Ok(number) => match_beside(likeness, database, &number, first),
        Err(error) => {
            if error == ParseError::InvalidCountryCode {
                match_bare(likeness, database, first, b)
            } else {
                drop(first);
                not_a_number(error)
            }
        }
    }
}

/// How like two numbers are that are written without a calling code, the second in a text.
fn match_bare<L: Likeness>(
    likeness: &L,
    database: &Plans,
    first: WrittenNumber,
    b: &str,
) -> Result<NumberMatch, AllocError>
    ensures { IfOk result (λ m. (t : List ℕ) → IsWritten t (Ok first) →
        AreBareMatch (L.like likeness.now) t (chars b.now) m) }
{
    match bare_number(first) {
        Ok(number) => match_second(likeness, database, &number, b),
        Err(error) => not_a_number(error),
    }
}

/// How like a number without a calling code and such a text are.
fn match_second<L: Likeness>(
    likeness: &L,
    database: &Plans,
    number: &PhoneNumber,
    text: &str,
) -> Result<NumberMatch, AllocError>
    ensures { IfOk result (λ m. (r : Result Reading Refusal) × IsBare (chars text.now) r ×
        (m ≡ match_read (L.like likeness.now) number.now r)) }
{
    match read_bare(database, text) {
        Ok(read) => likeness.match_numbers(database.allocator(), number, &read),
        Err(error) => not_a_number(error),
    }
}

/// The answer to a text that is refused for another reason than its calling code.
fn not_a_number(error: ParseError) -> Result<NumberMatch, AllocError>
    ensures number { IfOk result (λ m. m ≡ NumberMatch.NotANumber) }
    ensures memory { OnOk result (¬ (error ≡ ParseError.Memory)) }
{
    match error {
        ParseError::Memory => Err(AllocError),
        _ => Ok(NumberMatch::NotANumber),
    }
}

/// How like a number is to one that is written without a calling code.
fn match_beside<L: Likeness>(
    likeness: &L,
    database: &Plans,
    number: &PhoneNumber,
    written: WrittenNumber,
) -> Result<NumberMatch, AllocError>
    ensures { IfOk result (λ m. (t : List ℕ) → IsWritten t (Ok written) →
        (r : Result Reading Refusal) × IsBeside database.now number.now.code.value t r ×
        (m ≡ match_read (L.guessed likeness.now) number.now r)) }
{
    match read_beside(database, number.code().value(), written) {
        Ok(read) => likeness.match_beside(database.allocator(), number, &read),
        Err(error) => not_a_number(error),
    }
}

/// What is written without a calling code is beside a number of this code: as it is read under the
/// main region of the code, where that is listed; else as it stands. Refused as reading refuses it.
fn read_beside(
    database: &Plans,
    code: u16,
    written: WrittenNumber,
) -> Result<PhoneNumber, ParseError>
    ensures { (result ≡ Err ParseError.Memory) ⊎ ((t : List ℕ) → IsWritten t (Ok written) →
        IsBeside database.now code t result) }
{
    match database.first_by_code(&code) {
        Some(main) => parse_written(database, hint_territory(database, main.region()), written),
        None => bare_number(written),
    }
}

/// What a text is without a calling code: its digits under the code 0, which no number has, and its
/// extension. `InvalidCountryCode` behind a plus sign; else refused as reading refuses it.
fn read_bare(database: &Plans, text: &str) -> Result<PhoneNumber, ParseError>
    ensures { (result ≡ Err ParseError.Memory) ⊎ IsBare (chars text.now) result }
{
    match read_written(database.allocator(), text) {
        Ok(number) => bare_number(number),
        Err(error) => Err(error),
    }
}

/// The number of written digits, where no calling code is told.
fn bare_number(number: WrittenNumber) -> Result<PhoneNumber, ParseError>
    ensures { result ≡ bare_number (Ok number) }
{
    let WrittenNumber {
        has_plus,
        digits,
        extension,
    } = number;
    if has_plus {
        return Err(ParseError::InvalidCountryCode);
    }
    match national_number(digits.as_str()) {
        Ok(national) => {
            let code = Code::new(0, Source::Default);
            Ok(PhoneNumber::from_parts(code, national, extension, None))
        }
        Err(error) => Err(error),
    }
}
