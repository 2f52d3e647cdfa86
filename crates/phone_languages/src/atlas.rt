//! What is known in a locale.
ghost use Rattle.std.specs.Prelude.{◌≡◌};
ghost use Rattle.phone_languages.specs.Atlases.{IsArea, IsCarrier, name_in};

use crate::locale::Locale;
use crate::names::{Names, name_among};
use crate::texts::{Texts, text_told};

/// The tables of texts that a locale asks: so that no file has to be read for a language that
/// nobody asks for, they are lent.
#[derive(Clone, Copy)]
pub struct Atlas<'t> {
    /// The locale.
    pub locale: &'t Locale,

    /// Areas: of `areas`, by [`Locale::text_file`], and in English.
    pub areas: Texts<'t>,

    /// Carriers: of `carriers`, by [`Locale::text_file`], and in English.
    pub carriers: Texts<'t>,

    /// Names of regions: those of `names` that are there, in the order of [`Locale::name_files`].
    pub names: &'t [&'t Names],
}

impl<'t> Atlas<'t> {
    /// The area of E.164 digits; empty where none is known. Takes no memory.
    pub fn area(&self, digits: &str) -> &'t str
        ensures { IsArea self.now digits.now result.now }
    {
        text_told(self.locale, self.areas, digits)
    }

    /// The carrier of E.164 digits; empty where none is known. Takes no memory.
    pub fn carrier(&self, digits: &str) -> &'t str
        ensures { IsCarrier self.now digits.now result.now }
    {
        text_told(self.locale, self.carriers, digits)
    }

    /// The name of a region by its id; empty where none is known. No English is asked. Takes no
    /// memory.
    pub fn name(&self, id: &str) -> &'t str
        ensures { result.now ≡ name_in self.now id.now }
    {
        name_among(self.names, id).unwrap_or("")
    }
}
