//! The text that a language has for digits, with English behind it.
ghost use Rattle.std.specs.Prelude.{◌≡◌};
ghost use Rattle.std.specs.Option.{option_copied};
ghost use Rattle.phone_languages.specs.Told.{IsTextIn, IsTold, told};

use crate::locale::Locale;
use phone_prefixes::Prefixes;

/// The texts that a language has by prefixes of E.164 digits, and those of English. A file that
/// isn't there is none.
#[derive(Clone, Copy)]
pub struct Texts<'t> {
    /// Those of the language: of the file [`Locale::text_file`].
    pub own: Option<&'t Prefixes>,

    /// Those of English: of the file `en`.
    pub english: Option<&'t Prefixes>,
}

/// The text of the entry whose prefix is the longest that begins the digits; none where no prefix
/// begins them, and where there is no table. Takes no memory.
pub fn text_in<'t>(table: Option<&'t Prefixes>, digits: &str) -> Option<&'t str>
    ensures { IsTextIn (option_copied table.entry) digits.now (option_copied result) }
{
    match table {
        Some(table) => text_of(table, digits),
        None => None,
    }
}

/// The same of a table that is there.
fn text_of<'t>(table: &'t Prefixes, digits: &str) -> Option<&'t str>
    ensures { IsTextIn (Some table.entry.now) digits.now (option_copied result) }
{
    match table.longest(digits) {
        Some((_, text)) => Some(text),
        None => None,
    }
}

/// The text for digits in a locale's language; where that has none, or an empty one, the English
/// one, unless the language stands alone ([`Locale::is_alone`]). Empty where nothing is told. Takes
/// no memory.
pub fn text_told<'t>(locale: &Locale, texts: Texts<'t>, digits: &str) -> &'t str
    ensures { IsTold locale.now (option_copied texts.entry.own)
        (option_copied texts.entry.english) digits.now result.now }
{
    let own = text_in(texts.own, digits);
    let english = text_in(texts.english, digits);
    told(locale, own, english)
}

/// The own text, or the English one behind it.
fn told<'t>(locale: &Locale, own: Option<&'t str>, english: Option<&'t str>) -> &'t str
    ensures { result.now ≡ told locale.now (option_copied own.entry) (option_copied english.entry) }
{
    let text = own.unwrap_or("");
    if text.is_empty() && !locale.is_alone() {
        english.unwrap_or("")
    } else {
        text
    }
}
