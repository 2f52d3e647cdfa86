//! One line of a table of names.
ghost use Rattle.std.specs.Prelude.{◌≡◌, ◌++◌, ◌∷◌, ◌<◌, IfErr, IfOk, MatchOption, None, Some};
ghost use Rattle.phone_values.specs.Ids.{id_of, name};
ghost use Rattle.phone_places.specs.Tables.{IsNoLine, Lacks};
ghost use Rattle.phone_places.specs.declared.fault.LineFault.TheVariants as fault;

use crate::fault::LineFault;
use phone_values::country::Id;

/// What stands before and after the first of this ASCII character in a text; none where the text
/// lacks it.
pub(crate) fn cut_at(text: &str, at: char) -> Option<(&str, &str)>
    requires { at < 128 }
    ensures { MatchOption result (Lacks at text.now)
        (λ p. (text.now ≡ p.0.now ++ at ∷ p.1.now) × Lacks at p.0.now) }
{
    text.split_once(at)
}

/// The id that is written so, in capital letters.
fn id_named(text: &str) -> Option<Id>
    ensures { result ≡ id_of text.now }
{
    text.parse::<Id>().ok()
}

/// A name with the id that is written so.
fn with_id<'l>(name: &'l str, text: &str) -> Result<(&'l str, Id), LineFault>
    ensures id { IfOk result (λ p. (p.0.now ≡ name.now) × (id_of text.now ≡ Some p.1)) }
    ensures none { IfErr result (λ what. (what ≡ fault.NoId) × (id_of text.now ≡ None)) }
{
    match id_named(text) {
        Some(id) => Ok((name, id)),
        None => Err(LineFault::NoId),
    }
}

/// The name and the id that a line has, or why it has none.
pub(crate) fn parts_of(line: &str) -> Result<(&str, Id), LineFault>
    ensures whole { IfOk result (λ p. line.now ≡ p.0.now ++ 9 ∷ name p.1) }
    ensures first { IfOk result (λ p. Lacks 9 p.0.now) }
    ensures none { IfErr result (IsNoLine line.now) }
{
    match cut_at(line, '\t') {
        Some((name, text)) => with_id(name, text),
        None => Err(LineFault::NoTab),
    }
}
