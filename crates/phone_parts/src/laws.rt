//! What holds of the definitions of the two readers. These functions do nothing; their contracts
//! are the statements.
ghost use Rattle.std.specs.Prelude.{◌≡◌, ℕ, List, Option, Result, true};
ghost use Rattle.phone_parts.specs.Cores.{IsCore};
ghost use Rattle.phone_parts.specs.Naturals.{IsNatural};
ghost use Rattle.phone_parts.specs.Parts.{Parts};
ghost use Rattle.phone_parts.specs.Readers.{HasParts};
ghost use Rattle.phone_parts.specs.Suffixes.{IsSuffix, is_suffix_start};
ghost use Rattle.phone_parts.specs.Tel.{IsTel};
ghost use Rattle.phone_parts.specs.Texts.{begins};
ghost use Rattle.phone_parts.specs.declared.natural.NoReading.{NoReading};
ghost use Rattle.phone_parts.specs.declared.suffix.Form.{Form};

/// A text has at most one core.
pub fn one_core()
    ensures { (text a b : List ℕ) → IsCore text a → IsCore text b → a ≡ b }
{}

/// A text has at most one reading as a `tel:` text.
pub fn one_tel_reading()
    ensures { (text : List ℕ) (a b : Parts) → IsTel text a → IsTel text b → a ≡ b }
{}

/// A text is an extension of at most one form, and with at most one text of digits.
pub fn one_extension()
    ensures { (text : List ℕ) (f g : Form) (d e : List ℕ) → IsSuffix text f d → IsSuffix text g e →
        (f ≡ g) × (d ≡ e) }
{}

/// A text is read in at most one way as free text.
pub fn one_natural_reading()
    ensures { (text : List ℕ) (a b : Result Parts NoReading) → IsNatural text a → IsNatural text b →
        a ≡ b }
{}

/// What an extension may begin with.
pub fn extension_starts()
    ensures { (text : List ℕ) (f : Form) (digits : List ℕ) → IsSuffix text f digits →
        begins is_suffix_start text ≡ true }
{}

/// A text has at most one set of parts.
pub fn one_set_of_parts()
    ensures { (text : List ℕ) (a b : Option Parts) → HasParts text a → HasParts text b → a ≡ b }
{}
