//! The parameters of a number's `tel:` form.
ghost use Rattle.std.specs.Prelude.{◌≡◌, ℕ, List, ◌++◌, MatchOption, IfSome, length, ◌<◌, chars};
ghost use Rattle.std.specs.Prelude.{codes, option_copied, option_map, if◌then◌else◌, Some, ◌⊎◌};
ghost use Rattle.std.specs.Str.{bytes_eq};
ghost use Rattle.phone_parts.specs.Parts.{IsSlice};
ghost use Rattle.phone_parts.specs.Tel.{BeginsWith, HasParameters, Parameter, value_of};

use crate::fronts::strip_char;
use phone_chars::cuts::{CharSet, split_run};

/// The characters of a parameter's name.
struct NameChars;

impl CharSet for NameChars {
    ghost use Rattle.phone_parts.specs.Tel.{is_name_char};

    ghost members = { λ _ c. is_name_char c };

    fn has(&self, c: char) -> bool {
        c.is_ascii_alphanumeric() || c == '-'
    }
}

/// The characters of a parameter's value. A percent sign isn't among them.
struct ValueChars;

impl CharSet for ValueChars {
    ghost use Rattle.phone_parts.specs.Tel.{is_value_char};

    ghost members = { λ _ c. is_value_char c };

    fn has(&self, c: char) -> bool {
        c.is_ascii_alphanumeric()
            || matches!(
                c,
                '-' | '_'
                    | '.'
                    | '!'
                    | '~'
                    | '*'
                    | '\''
                    | '('
                    | ')'
                    | '['
                    | ']'
                    | '/'
                    | ':'
                    | '&'
                    | '+'
                    | '$'
            )
    }
}

/// What the parameters say that a reader asks for.
#[derive(Clone, Copy)]
pub(crate) struct Parameters<'a> {
    /// The value of `phone-context`.
    pub(crate) context: Option<&'a str>,

    /// The value of `ext`.
    pub(crate) extension: Option<&'a str>,
}

/// The values in the longest list of parameters at the front of a text; of parameters with one name
/// the last counts.
pub(crate) fn read_parameters(text: &str) -> Parameters<'_>
    ensures read { (ps : List Parameter) × HasParameters (chars text.now) ps
        × (option_map chars (option_copied result.context) ≡ value_of (codes "phone-context") ps)
        × (option_map chars (option_copied result.extension) ≡ value_of (codes "ext") ps) }
    ensures context { IfSome result.context (λ value. IsSlice text.now value.now) }
    ensures extension { IfSome result.extension (λ value. IsSlice text.now value.now) }
{
    let mut found = Parameters {
        context: None,
        extension: None,
    };
    let mut rest = text;
    while let Some((name, value, after)) = parameter(rest) {
        found = Parameters {
            context: newer(name, "phone-context", value, found.context),
            extension: newer(name, "ext", value, found.extension),
        };
        rest = after;
    }
    found
}

/// The value where the name is the one that is wanted, else what was found before.
fn newer<'a>(name: &str, wanted: &str, value: &'a str, earlier: Option<&'a str>) -> Option<&'a str>
    ensures read { option_map chars (option_copied result)
        ≡ (if bytes_eq (chars name.now) (chars wanted.now) then Some (chars value.entry.now)
        else option_map chars (option_copied earlier.entry)) }
    ensures one_of { (result ≡ Some value.entry) ⊎ (result ≡ earlier.entry) }
{
    if name == wanted { Some(value) } else { earlier }
}

/// The name and value of a parameter at the front of the text, and what follows it.
fn parameter(text: &str) -> Option<(&str, &str, &str)>
    ensures read { MatchOption result
        ((p : Parameter) (rest : List ℕ) → ¬ (BeginsWith p (chars text.now) rest))
        (λ r. BeginsWith (record { name = chars r.0.now; value = chars r.1.now }) (chars text.now)
        (chars r.2.now)) }
    ensures value { IfSome result (λ r. IsSlice text.now r.1.now) }
    ensures end { IfSome result (λ r. (v : List ℕ) × (text.now ≡ v ++ r.2.now)) }
    ensures shorter { IfSome result (λ r. length r.2.now < length text.now) }
{
    let named = strip_char(text, ';')?;
    let (name, after) = split_run(named, &NameChars);
    let valued = strip_char(after, '=')?;
    let (value, rest) = split_run(valued, &ValueChars);
    Some((name, value, rest))
}
