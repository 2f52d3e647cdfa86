//! A number between its text and its reading: its parts, each a text.
ghost use Rattle.std.specs.Prelude.{◌≡◌, ◌↔◌, None, IsTrue, IfOk, option_map};
ghost use Rattle.std.specs.Cow.{cow_str_bytes, IsBorrowedStr};
ghost use Rattle.phone_values.specs.declared.country.Source.TheVariants.{Default};
ghost use Rattle.phone_parts.specs.Parts.{HasSameParts};

use phone_values::country::Source;
use std::alloc::AllocError;
use std::borrow::CowStr;

/// The parts of a number, still as text: what a reader found, or what a step of reading made of it.
#[derive(PartialEq, Eq, Debug, Drop)]
pub struct Number<'a> {
    /// How the calling code was found; `Default` until it is looked for.
    pub country: Source,

    /// The national part, with whatever stands between its digits; the digits alone, once its
    /// calling code is looked for.
    pub national: CowStr<'a>,

    /// The calling code, where the text says it apart from the national part, or once it is found.
    pub prefix: Option<CowStr<'a>>,

    /// The extension, which may be the empty text.
    pub extension: Option<CowStr<'a>>,

    /// The code of the carrier that the number was dialled through.
    pub carrier: Option<CowStr<'a>>,
}

impl<'a> Number<'a> {
    /// A number that is this national part alone, lent from the text. It takes no memory.
    pub fn of(national: &'a str) -> Number<'a>
        ensures country { result.country ≡ Default }
        ensures national { cow_str_bytes result.national ≡ national.now }
        ensures borrowed { IsBorrowedStr result.national }
        ensures no_prefix { result.prefix ≡ None }
        ensures no_extension { result.extension ≡ None }
        ensures no_carrier { result.carrier ≡ None }
    {
        Number {
            country: Source::Default,
            national: CowStr::Borrowed(national),
            prefix: None,
            extension: None,
            carrier: None,
        }
    }

    /// Whether both have one source and the same texts, whether these are lent or owned; so `==`
    /// has it.
    pub fn is_same(&self, other: &Number<'a>) -> bool
        ensures { IsTrue result ↔ HasSameParts self.now other.now }
    {
        self == other
    }

    /// The same parts again; refused only for memory.
    pub fn clone(&self) -> Result<Number<'a>, AllocError>
        ensures { IfOk result (λ n. HasSameParts n self.now) }
    {
        Ok(Number {
            country: self.country,
            national: self.national.clone()?,
            prefix: clone_part(&self.prefix)?,
            extension: clone_part(&self.extension)?,
            carrier: clone_part(&self.carrier)?,
        })
    }
}

/// The same part again, if there is one.
fn clone_part<'a>(part: &Option<CowStr<'a>>) -> Result<Option<CowStr<'a>>, AllocError>
    ensures { IfOk result (λ p. option_map cow_str_bytes p ≡ option_map cow_str_bytes part.now) }
{
    match part {
        Some(part) => Ok(Some(part.clone()?)),
        None => Ok(None),
    }
}
