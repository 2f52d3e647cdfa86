//! The reader of free text.
ghost use Rattle.std.specs.Prelude.{◌≡◌, ℕ, List, None, Some, Err, IfOk, chars};
ghost use Rattle.std.specs.Result.{result_map_both};
ghost use Rattle.phone_values.specs.declared.country.Source.TheVariants.{Default};
ghost use Rattle.phone_parts.specs.Naturals.{IsNatural};
ghost use Rattle.phone_parts.specs.Parts.{AreLent, IsSlice, parts_of};
ghost use Rattle.phone_parts.specs.declared.natural.NoReading.TheVariants.{Failure};

use crate::helper::extract;
use crate::number::Number;
use crate::suffix::find_suffix;
use std::borrow::CowStr;

/// Why free text gives no number.
#[derive(Clone, Copy, PartialEq, Eq, Debug)]
pub enum NoReading {
    /// The text has no core: no digit or plus sign, or nothing is left of it.
    Error,
    /// Never given: an extension is read in each of its forms.
    Failure,
}

/// Reads a number out of free text: the text's core, as `extract` gives it, parted before its
/// longest end that is an extension, whatever its form: an indicator before the digits, as in
/// `650 253 0000 ext. 4567`, `;ext=` before them, as in `650 253 0000;ext=123`, or a number sign
/// behind them, as in `650 253 0000 22#`. A core without an extension is all national part. A text
/// without a core is refused by `Error`, and no other text is refused.
/// National part and extension are slices of the text, and no memory is taken. The time is linear
/// in the text.
pub fn phone_number(text: &str) -> Result<Number<'_>, NoReading>
    ensures read { IsNatural (chars text.now) (result_map_both parts_of (λ e. e) result) }
    ensures lent { IfOk result (λ n. AreLent text.now n) }
    ensures country { IfOk result (λ n. n.country ≡ Default) }
    ensures no_prefix { IfOk result (λ n. n.prefix ≡ None) }
    ensures no_carrier { IfOk result (λ n. n.carrier ≡ None) }
    ensures never_failure { ¬ (result ≡ Err Failure) }
{
    let Some(core) = extract(text) else {
        return Err(NoReading::Error);
    };
    let Some((national, extension)) = find_suffix(core) else {
        return Ok(Number::of(core));
    };
    Ok(with_extension(national, extension))
}

/// A number of these two parts.
fn with_extension<'a>(national: &'a str, extension: &'a str) -> Number<'a>
    ensures parts { parts_of result ≡ record {
      national = chars national.entry.now;
      prefix = None;
      extension = Some (chars extension.entry.now);
    } }
    ensures country { result.country ≡ Default }
    ensures no_prefix { result.prefix ≡ None }
    ensures no_carrier { result.carrier ≡ None }
    ensures lent { (text : List ℕ) → IsSlice text national.entry.now →
        IsSlice text extension.entry.now → AreLent text result }
{
    Number {
        extension: Some(CowStr::Borrowed(extension)),
        ..Number::of(national)
    }
}
