//! What is compiled of a territory's record besides its descriptors.
ghost use Rattle.std.specs.Prelude.{◌≡◌, None, IfOk, IsTrue, map};
ghost use Rattle.std.specs.Option.{option_to_list};
ghost use Rattle.phone_territory.specs.Refusals.{AreRead, patterns_besides};
ghost use Rattle.phone_records.specs.Missing.{first_given, missing_in_format};

use crate::alike::are_same;
use crate::each;
use crate::format::Format;
use crate::loader::{self, Text};
use crate::results::zip_read;
use phone_pattern::{Pattern, Pool};
use phone_records::LoadMetadata;

/// The patterns of what is dialled in front and of leading digits, and the layouts.
#[derive(Drop)]
pub struct Patterns {
    pub(crate) international_prefix: Option<Pattern>,
    pub(crate) national_prefix_for_parsing: Option<Pattern>,
    pub(crate) leading_digits: Option<Pattern>,
    pub(crate) formats: Vec<Format>,
    pub(crate) international_formats: Vec<Format>,
    /// Whether it is certain that both lists are of the same records.
    pub(crate) are_alike: bool,
}

fn compile_text(pool: &Pool, text: Option<Text>) -> Result<Option<Pattern>, LoadMetadata>
    ensures compiled { IfOk result (λ pattern. pattern ≡ text) }
    ensures read { AreRead (option_to_list text) result }
{
    match text {
        Some(text) => Ok(Some(pool.pattern(text)?)),
        None => Ok(None),
    }
}

impl Patterns {
    /// Compiles what is dialled in front, leading digits and layouts, which lack nothing.
    pub(crate) fn compile(
        pool: &Pool,
        dialled: Option<Text>,
        parsing: Option<Text>,
        leading: Option<Text>,
        national: Vec<loader::Format>,
        international: Vec<loader::Format>,
    ) -> Result<Patterns, LoadMetadata>
        requires national { first_given (map missing_in_format national.items) ≡ None }
        requires international { first_given (map missing_in_format international.items) ≡ None }
        ensures dialled { IfOk result (λ all. all.international_prefix ≡ dialled) }
        ensures parsing { IfOk result (λ all.
            all.national_prefix_for_parsing ≡ parsing) }
        ensures leading { IfOk result (λ all. all.leading_digits ≡ leading) }
        ensures national { IfOk result (λ all. all.formats.items ≡ national.items) }
        ensures international { IfOk result (λ all.
            all.international_formats.items ≡ international.items) }
        ensures alike { IfOk result (λ all. IsTrue all.are_alike →
            all.international_formats.items ≡ all.formats.items) }
        ensures read { AreRead
            (patterns_besides dialled parsing leading national.items international.items)
            result }
    {
        let are_alike = are_same(international.as_slice(), national.as_slice());
        let dialled = compile_text(pool, dialled);
        let parsing = compile_text(pool, parsing);
        let leading = compile_text(pool, leading);
        let national = each::compile_each(pool, national);
        let layouts = zip_read(national, each::compile_each(pool, international));
        let texts = zip_read(parsing, zip_read(leading, layouts));
        let (international_prefix, (national_prefix_for_parsing, others)) = zip_read(
            dialled, texts,
        )?;
        let (leading_digits, (formats, international_formats)) = others;
        Ok(Patterns {
            international_prefix,
            national_prefix_for_parsing,
            leading_digits,
            formats,
            international_formats,
            are_alike,
        })
    }
}
