//! What stands behind the handle of an atlas: the tables of texts that a locale asks.
ghost use Rattle.std.specs.Prelude.{◌≡◌, ◌∷◌, [], map};
ghost use Rattle.std.specs.Option.{option_copied};
ghost use Rattle.phone_c.specs.Atlases.{IsLentOf};

use phone_c_base::shared::Owner;
use phone_languages::{Atlas, Locale, Names, Texts};
use phone_prefixes::Prefixes;

/// A language's texts by prefixes, and English's. A table that isn't there is none.
pub struct OwnedTexts {
    /// Those of the language.
    pub own: Option<Owner<Prefixes>>,
    /// Those of English.
    pub english: Option<Owner<Prefixes>>,
}

/// Written out, so that it is proved once.
impl Drop for OwnedTexts {
    fn drop(self) {
        let OwnedTexts { own, english } = self;
        drop(own);
        drop(english);
    }
}

/// The tables of a locale, each an owner of its own: several atlases may stand on one table.
pub struct OwnedAtlas {
    /// The locale.
    pub locale: Locale,
    /// Areas.
    pub areas: OwnedTexts,
    /// Carriers.
    pub carriers: OwnedTexts,
    /// The names of regions.
    pub names: Names,
}

/// Written out, so that it is proved once.
impl Drop for OwnedAtlas {
    fn drop(self) {
        let OwnedAtlas {
            locale,
            areas,
            carriers,
            names,
        } = self;
        drop(locale);
        drop(areas);
        drop(carriers);
        drop(names);
    }
}

/// The table of an owner, if there is one.
fn table_of(owner: &Option<Owner<Prefixes>>) -> Option<&Prefixes>
    ensures { option_copied result ≡ owner.now }
{
    match owner {
        Some(owner) => Some(owner.thing()),
        None => None,
    }
}

/// Texts as they are lent.
fn texts_of(texts: &OwnedTexts) -> Texts<'_>
    ensures own { option_copied result.own ≡ texts.now.own }
    ensures english { option_copied result.english ≡ texts.now.english }
{
    Texts {
        own: table_of(&texts.own),
        english: table_of(&texts.english),
    }
}

impl OwnedAtlas {
    /// The atlas as it is lent, with a list of its only table of names. Takes no memory.
    pub fn lend<'t>(&'t self, names: &'t [&'t Names]) -> Atlas<'t>
        ensures { map (λ t. t.now) names.entry.now ≡ self.entry.now.names ∷ [] →
            IsLentOf self.entry.now result }
    {
        Atlas {
            locale: &self.locale,
            areas: texts_of(&self.areas),
            carriers: texts_of(&self.carriers),
            names,
        }
    }
}
