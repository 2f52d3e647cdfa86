//! What is compiled of a territory's record besides its descriptors.
ghost use Rattle.std.specs.Prelude.{◌≡◌, [], ◌∷◌, None, IfOk, map};
ghost use Rattle.std.specs.Option.{option_to_list};
ghost use Rattle.phone_records.specs.Missing.{first_given, missing_in_format};
ghost use Rattle.phone_territory.specs.First.{IsLentPattern};
ghost use Rattle.phone_territory.specs.Refusals.{AreRead, patterns_besides};

use crate::format::Format;
use phone_pattern::{Compiled, Pool};
use phone_territory::loader::{self, Text};
use phone_territory::results::zip_read;
use phone_territory::{LoadMetadata, compile_each};
use regex::Regex;

/// The patterns of what is dialled in front and of leading digits, and the layouts.
#[derive(Drop)]
pub(crate) struct Patterns {
    pub(crate) international_prefix: Option<Compiled>,
    pub(crate) national_prefix_for_parsing: Option<Compiled>,
    pub(crate) leading_digits: Option<Compiled>,
    pub(crate) formats: Vec<Format>,
    pub(crate) international_formats: Vec<Format>,
}

/// What is compiled of a text. Refused as `Compiled::new` refuses it.
pub(crate) fn compile(pool: &Pool, text: &str) -> Result<Compiled, LoadMetadata>
    ensures compiled { IfOk result (λ c. c ≡ text.now) }
    ensures read { AreRead (text.now ∷ []) result }
{
    let compiled = Compiled::new(pool, text)?;
    // What it lends is a pattern of the text, so the text is a pattern.
    compiled.regex();
    Ok(compiled)
}

fn compile_text(pool: &Pool, text: Option<Text>) -> Result<Option<Compiled>, LoadMetadata>
    ensures compiled { IfOk result (λ c. c ≡ text) }
    ensures read { AreRead (option_to_list text) result }
{
    match text {
        Some(text) => Ok(Some(compile(pool, text.as_str())?)),
        None => Ok(None),
    }
}

/// What was compiled, lent where it is there.
pub(crate) fn lent(compiled: &Option<Compiled>) -> Option<&Regex>
    ensures { IsLentPattern compiled.now result }
{
    match compiled {
        Some(compiled) => Some(compiled.regex()),
        None => None,
    }
}

impl Patterns {
    /// Compiles what is dialled in front, leading digits and layouts, which lack nothing.
    pub(crate) fn compile(
        pool: &Pool,
        dialled: Option<Text>,
        parsing: Option<Text>,
        leading: Option<Text>,
        national: Vec<loader::Format>,
        international: Vec<loader::Format>,
    ) -> Result<Patterns, LoadMetadata>
        requires national { first_given (map missing_in_format national.items) ≡ None }
        requires international { first_given (map missing_in_format international.items) ≡ None }
        ensures dialled { IfOk result (λ all. all.international_prefix ≡ dialled) }
        ensures parsing { IfOk result (λ all. all.national_prefix_for_parsing ≡ parsing) }
        ensures leading { IfOk result (λ all. all.leading_digits ≡ leading) }
        ensures national { IfOk result (λ all. all.formats.items ≡ national.items) }
        ensures international { IfOk result (λ all.
            all.international_formats.items ≡ international.items) }
        ensures read { AreRead
            (patterns_besides dialled parsing leading national.items international.items)
            result }
    {
        let dialled = compile_text(pool, dialled);
        let parsing = compile_text(pool, parsing);
        let leading = compile_text(pool, leading);
        let national = compile_each(pool, national);
        let layouts = zip_read(national, compile_each(pool, international));
        let texts = zip_read(parsing, zip_read(leading, layouts));
        let (international_prefix, (national_prefix_for_parsing, others)) = zip_read(
            dialled, texts,
        )?;
        let (leading_digits, (formats, international_formats)) = others;
        Ok(Patterns {
            international_prefix,
            national_prefix_for_parsing,
            leading_digits,
            formats,
            international_formats,
        })
    }
}
