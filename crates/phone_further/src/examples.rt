//! Examples of calling codes that serve no region.
ghost use Rattle.std.specs.Prelude.{◌≡◌, IfOk, option_map, string_bytes};
ghost use Rattle.std.specs.Option.{option_copied};
ghost use Rattle.phone_further.specs.Examples.{AnswersExample, code_example, coded, example_in};
ghost use Rattle.phone_further.specs.Examples.{first_example, if_worldwide, worldwide_kinds};
ghost use Rattle.phone_further.specs.Examples.{worldwide_of};

use phone_library::parse;
use phone_plans::{Plans, Territory};
use phone_values::country::Id;
use phone_values::{ParseError, Type};
use phonenumber::PhoneNumber;
use std::alloc::{AllocError, Global};

/// The id of a territory of a code that serves no region.
const WORLDWIDE: &str = "001";

/// An example of a number of a calling code that serves no region, as 800: that of the first kind
/// which has one, of mobiles, free, shared cost, internet, voicemail, company and premium rate
/// numbers, read behind a plus sign and the code. None for a code that serves a region or isn't
/// listed, and where none of these kinds has an example. Refused as the example's text is;
/// `Memory` where memory was refused.
pub fn example_of_code(database: &Plans, code: u16) -> Result<Option<PhoneNumber>, ParseError>
    ensures { AnswersExample database.now None
        (code_example database.now worldwide_kinds code) result }
{
    let kinds = [
        Type::Mobile,
        Type::TollFree,
        Type::SharedCost,
        Type::Voip,
        Type::Voicemail,
        Type::Uan,
        Type::PremiumRate,
    ];
    let text = code_example(database, &kinds, code)?;
    match text {
        Some(text) => read_example(database, None, text.as_str()),
        None => Ok(None),
    }
}

/// An example, as it is read under a hint.
pub(crate) fn read_example(
    database: &Plans,
    hint: Option<Id>,
    text: &str,
) -> Result<Option<PhoneNumber>, ParseError>
    ensures { AnswersExample database.now hint (Some text.now) result }
{
    match parse(database, hint, text) {
        Ok(number) => Ok(Some(number)),
        Err(error) => Err(error),
    }
}

/// The first example of these kinds of a code that serves no region, behind plus sign and code.
/// Refused only for memory.
pub(crate) fn code_example(
    database: &Plans,
    kinds: &[Type],
    code: u16,
) -> Result<Option<String>, AllocError>
    ensures { IfOk result (λ t. option_map string_bytes t ≡
        code_example database.now kinds.now code) }
{
    let Some(m) = worldwide_of(database, code) else {
        return Ok(None);
    };
    match first_example(m, kinds) {
        Some(digits) => Ok(Some(coded(database.allocator(), code, digits)?)),
        None => Ok(None),
    }
}

/// Digits behind a plus sign and a calling code. Refused only for memory.
fn coded(alloc: Global, code: u16, digits: &str) -> Result<String, AllocError>
    ensures { IfOk result (λ t. string_bytes t ≡ coded code digits.now) }
{
    format!(in alloc; "+{code}{digits}")
}

/// The first territory of a code, where that serves no region.
fn worldwide_of(database: &Plans, code: u16) -> Option<&Territory>
    ensures { option_copied result ≡ worldwide_of database.entry.now code }
{
    match database.first_by_code(&code) {
        Some(m) => if_worldwide(m),
        None => None,
    }
}

/// A territory, where it is no region's.
pub(crate) fn if_worldwide(m: &Territory) -> Option<&Territory>
    ensures { option_copied result ≡ if_worldwide m.entry.now }
{
    if m.id() == WORLDWIDE { Some(m) } else { None }
}

/// The first example that a territory gives of these kinds.
fn first_example<'d>(m: &'d Territory, kinds: &[Type]) -> Option<&'d str>
    ensures { option_copied result ≡ first_example m.entry.now kinds.now }
{
    for kind in kinds {
        if let Some(text) = example_in(m, *kind) {
            return Some(text);
        }
    }
    None
}

/// The example that a territory gives of a kind.
pub(crate) fn example_in(m: &Territory, kind: Type) -> Option<&str>
    ensures { option_copied result ≡ example_in m.entry.now kind }
{
    match m.descriptors().get(kind) {
        Some(descriptor) => descriptor.example(),
        None => None,
    }
}
