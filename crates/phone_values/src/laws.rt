//! What is true of the values for every text and every number: laws over their definitions alone,
//! and what the constants are. A law is a function without arguments whose contract is the law; all
//! but `default_source` do nothing.
ghost use Rattle.std.specs.Prelude.{◌≡◌, ◌<◌, ◌^◌, ◌↔◌, ℕ, List, [], ◌∷◌, true, not, Some, Ok};
ghost use Rattle.std.specs.Prelude.{codes};
ghost use Rattle.std.specs.Char.{is_ascii_digit};
ghost use Rattle.std.specs.List.{list_all};
ghost use Rattle.std.specs.Str.Parse.{digits_value};
ghost use Rattle.phone_values.specs.Ids.{id_of, name};
ghost use Rattle.phone_values.specs.Validations.{is_possible, is_invalid, is_invalid_length};
ghost use Rattle.phone_values.specs.declared.consts.TheConstants as consts;
ghost use Rattle.phone_values.specs.declared.country.Id.{Id};
ghost use Rattle.phone_values.specs.declared.country.Source.TheVariants as source;
ghost use Rattle.phone_values.specs.declared.validator.Validation.{Validation};
ghost use Rattle.phone_values.specs.Numbers.{National, IsHeld, leading_zeros, national_in, text_of};

use crate::country::Source;

/// Two national numbers have one text exactly if they have one value and one count of zeros before
/// it.
pub fn same_text()
    ensures { (a b : National) → IsHeld a → IsHeld b →
        (text_of a ≡ text_of b) ↔ ((a.value ≡ b.value) × (a.zeros ≡ b.zeros)) }
{}

/// A national number that isn't 0 is printed, and read back from its text as the same number.
pub fn number_read_back()
    ensures { (n : National) → IsHeld n → 0 < n.value → national_in (text_of n) ≡ Ok n }
{}

/// A text of digits with at most 255 zeros at its front and a value of 1 to 2^56 - 1 is read as
/// these zeros and this value, and printed back unchanged.
pub fn text_printed_back()
    ensures read { (t : List ℕ) → list_all is_ascii_digit t ≡
        true → leading_zeros t < 256 → 0 < digits_value 10 t → digits_value 10 t < 2 ^ 56 →
        national_in t ≡ Ok (record { zeros = leading_zeros t; value = digits_value 10 t }) }
    ensures printed { (t : List ℕ) → list_all is_ascii_digit t ≡
        true → leading_zeros t < 256 → 0 < digits_value 10 t → digits_value 10 t < 2 ^ 56 →
        text_of (record { zeros = leading_zeros t; value = digits_value 10 t }) ≡ t }
{}

/// A text is the id of a region exactly if it is the region's name: each of the 245 names is
/// accepted, capitals and small letters told apart, and nothing else.
pub fn ids_by_name()
    ensures { (t : List ℕ) (i : Id) → (id_of t ≡ Some i) ↔ (t ≡ name i) }
{}

/// Exactly one of possible and invalid holds of each verdict, and one that is invalid by its length
/// is invalid.
pub fn verdicts()
    ensures one { (v : Validation) → is_possible v ≡ not (is_invalid v) }
    ensures length { (v : Validation) → is_invalid_length v ≡ true → is_invalid v ≡ true }
{}

/// The source that a number has before anything is found of its calling code: the hint's,
/// `Default`.
pub fn default_source() -> Source
    ensures { result ≡ source.Default }
{
    Source::default()
}

/// The published constants: the least and the largest number of digits, and the signs and marks as
/// they are written.
pub fn published_constants()
    ensures least_digits { consts.MIN_LENGTH_FOR_NSN ≡ 2 }
    ensures most_digits { consts.MAX_LENGTH_FOR_NSN ≡ 17 }
    ensures most_code_digits { consts.MAX_LENGTH_FOR_COUNTRY_CODE ≡ 3 }
    ensures plus_sign { consts.PLUS_SIGN ∷ [] ≡ codes "+" }
    ensures star_sign { consts.STAR_SIGN ∷ [] ≡ codes "*" }
    ensures number_sign { consts.SHARP_SIGN ∷ [] ≡ codes "#" }
    ensures extension_parameter { consts.RFC3966_EXTN_PREFIX.now ≡ codes ";ext=" }
    ensures scheme { consts.RFC3966_PREFIX.now ≡ codes "tel:" }
    ensures context_parameter { consts.RFC3966_PHONE_CONTEXT.now ≡ codes ";phone-context=" }
    ensures subaddress_parameter { consts.RFC3966_ISDN_SUBADDRESS.now ≡ codes ";isub=" }
    ensures no_region { consts.REGION_CODE_FOR_NON_GEO_ENTITY.now ≡ codes "001" }
    ensures extension_mark { consts.DEFAULT_EXTN_PREFIX.now ≡ codes " ext. " }
    ensures national_prefix_mark { consts.NP.now ≡ codes "$NP" }
    ensures first_group_mark { consts.FG.now ≡ codes "$FG" }
    ensures carrier_mark { consts.CC.now ≡ codes "$CC" }
{}
