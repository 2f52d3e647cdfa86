//! What holds of short numbers under every database. These functions do nothing; their contracts
//! are the statements.
ghost use Rattle.std.specs.Prelude.{◌≡◌, ◌↔◌, ℕ, List, [], Some, true};
ghost use Rattle.std.specs.List.{filter_map};
ghost use Rattle.phone_chars.specs.Characters.{is_nd};
ghost use Rattle.phone_library_text.specs.Letters.{value_of};
ghost use Rattle.phone_parts.specs.Cores.{IsCore};
ghost use Rattle.phone_parts.specs.Texts.{begins};
ghost use Rattle.phone_values.specs.declared.country.Id.{Id};
ghost use Rattle.phone_records.specs.declared.loader.Metadata.{Metadata};
ghost use Rattle.phone_short.specs.Regions.{is_emergency, is_possible_short, is_valid_short};
ghost use Rattle.phone_short.specs.Regions.{reaches_emergency, short_kind};
ghost use Rattle.phone_short.specs.Texts.{digits_in, is_dialled_within};
ghost use Rattle.phone_short.specs.declared.kind.ShortKind.TheVariants.{Emergency};

/// The digits of a text are those of its core, from which libphonenumber reads a number; a text
/// without a core has none. It is dialled within a region where its core begins with a digit.
pub fn digits_of_core()
    ensures digits { (text core : List ℕ) → IsCore text core →
        digits_in text ≡ filter_map value_of core }
    ensures within { (text core : List ℕ) → IsCore text core →
        is_dialled_within text ≡ begins is_nd core }
    ensures none { (text : List ℕ) → ((core : List ℕ) → ¬ (IsCore text core)) →
        digits_in text ≡ [] }
{}

/// An emergency number reaches emergency services.
pub fn emergency_reaches()
    ensures { (db : List Metadata) (region : Id) (text : List ℕ) →
        is_emergency db region text ≡ true → reaches_emergency db region text ≡ true }
{}

/// A valid short number is possible.
pub fn valid_is_possible()
    ensures { (db : List Metadata) (region : Id) (text : List ℕ) →
        is_valid_short db region text ≡ true → is_possible_short db region text ≡ true }
{}

/// The kind of a text is `Emergency` exactly where it is an emergency number: so no emergency
/// number is of another kind.
pub fn emergency_kind()
    ensures { (db : List Metadata) (region : Id) (text : List ℕ) →
        (short_kind db region text ≡ Some Emergency) ↔ (is_emergency db region text ≡ true) }
{}
