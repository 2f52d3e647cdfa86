//! What printed texts are made of, put behind a text that is there already, so that a line of many
//! of them is made in one piece. Each takes what was done before, and does nothing where that was
//! refused, so that no early exit stands between them. Each is refused only for memory; then a part
//! of it may stand there, behind the text.
ghost use Rattle.std.specs.Prelude.{◌≡◌, ◌∷◌, ◌++◌, IsOk, OnOk, chars, codes, encode_utf8_all};
ghost use Rattle.std.specs.Prelude.{string_bytes};
ghost use Rattle.phone_print.specs.Behind.{IsBehind};
ghost use Rattle.phone_print.specs.Texts.{extension_parameter, extension_part, hyphenated};

use crate::Printable;
use crate::hyphens::push_hyphenated;
use phone_territory::Territory;
use phone_values::consts::{DEFAULT_EXTN_PREFIX, RFC3966_EXTN_PREFIX, RFC3966_PREFIX};
use std::alloc::AllocError;

/// A text as it is.
pub(crate) fn push_text(
    done: Result<(), AllocError>,
    out: &mut String,
    text: &str,
) -> Result<(), AllocError>
    ensures text { OnOk result (IsOk done ×
        (string_bytes out.new ≡ string_bytes out.old ++ text.now)) }
    ensures behind { IsBehind (string_bytes out.old) (string_bytes out.new) }
{
    done?;
    out.push_str(text)
}

/// The E.164 text of a code and digits.
pub(crate) fn push_e164(
    done: Result<(), AllocError>,
    out: &mut String,
    code: &str,
    digits: &str,
) -> Result<(), AllocError>
    ensures text { OnOk result (IsOk done × (string_bytes out.new ≡ string_bytes out.old ++
        43 ∷ (code.now ++ digits.now))) }
    ensures behind { IsBehind (string_bytes out.old) (string_bytes out.new) }
{
    let done = push_text(done, out, "+");
    let done = push_text(done, out, code);
    push_text(done, out, digits)
}

/// The international text of a number of this code that is laid out so.
pub(crate) fn push_international(
    done: Result<(), AllocError>,
    out: &mut String,
    code: &str,
    laid: &str,
    m: &Territory,
    number: &Printable<'_>,
) -> Result<(), AllocError>
    ensures text { OnOk result (IsOk done × (string_bytes out.new ≡ string_bytes out.old ++
        43 ∷ (code.now ++ 32 ∷ (laid.now ++ extension_part m.now number.now.extension)))) }
    ensures behind { IsBehind (string_bytes out.old) (string_bytes out.new) }
{
    let done = push_text(done, out, "+");
    let done = push_text(done, out, code);
    let done = push_text(done, out, " ");
    push_national(done, out, laid, m, number)
}

/// The national text of a number that is laid out so.
pub(crate) fn push_national(
    done: Result<(), AllocError>,
    out: &mut String,
    laid: &str,
    m: &Territory,
    number: &Printable<'_>,
) -> Result<(), AllocError>
    ensures text { OnOk result (IsOk done × (string_bytes out.new ≡ string_bytes out.old ++
        (laid.now ++ extension_part m.now number.now.extension))) }
    ensures behind { IsBehind (string_bytes out.old) (string_bytes out.new) }
{
    let done = push_text(done, out, laid);
    push_extension(done, out, m, number)
}

/// The text of RFC 3966 of a number of this code that is laid out so.
pub(crate) fn push_rfc3966(
    done: Result<(), AllocError>,
    out: &mut String,
    code: &str,
    laid: &str,
    number: &Printable<'_>,
) -> Result<(), AllocError>
    ensures text { OnOk result (IsOk done × (string_bytes out.new ≡ string_bytes out.old ++
        (codes "tel:+" ++ (code.now ++ 45 ∷ (encode_utf8_all (hyphenated (chars laid.now)) ++
        extension_parameter number.now.extension))))) }
    ensures behind { IsBehind (string_bytes out.old) (string_bytes out.new) }
{
    let done = push_text(done, out, RFC3966_PREFIX);
    let done = push_text(done, out, "+");
    let done = push_text(done, out, code);
    let done = push_text(done, out, "-");
    let done = push_hyphens(done, out, laid);
    push_parameter(done, out, number)
}

/// A text with its separators made hyphens.
fn push_hyphens(
    done: Result<(), AllocError>,
    out: &mut String,
    text: &str,
) -> Result<(), AllocError>
    ensures text { OnOk result (IsOk done × (string_bytes out.new ≡ string_bytes out.old ++
        encode_utf8_all (hyphenated (chars text.now)))) }
    ensures behind { IsBehind (string_bytes out.old) (string_bytes out.new) }
{
    done?;
    push_hyphenated(out, text)
}

/// The extension, announced by the territory's preferred prefix, else by ` ext. `; nothing where
/// there is none.
pub(crate) fn push_extension(
    done: Result<(), AllocError>,
    out: &mut String,
    m: &Territory,
    number: &Printable<'_>,
) -> Result<(), AllocError>
    ensures text { OnOk result (IsOk done × (string_bytes out.new ≡ string_bytes out.old ++
        extension_part m.now number.now.extension)) }
    ensures behind { IsBehind (string_bytes out.old) (string_bytes out.new) }
{
    let Some(extension) = number.extension() else {
        return done;
    };
    let prefix = m
        .preferred_extension_prefix()
        .unwrap_or(DEFAULT_EXTN_PREFIX);
    push_announced(done, out, prefix, extension.as_str())
}

/// The extension as a parameter; nothing where there is none.
fn push_parameter(
    done: Result<(), AllocError>,
    out: &mut String,
    number: &Printable<'_>,
) -> Result<(), AllocError>
    ensures text { OnOk result (IsOk done × (string_bytes out.new ≡ string_bytes out.old ++
        extension_parameter number.now.extension)) }
    ensures behind { IsBehind (string_bytes out.old) (string_bytes out.new) }
{
    match number.extension() {
        Some(extension) => push_announced(done, out, RFC3966_EXTN_PREFIX, extension.as_str()),
        None => done,
    }
}

/// An extension that a prefix announces.
fn push_announced(
    done: Result<(), AllocError>,
    out: &mut String,
    prefix: &str,
    extension: &str,
) -> Result<(), AllocError>
    ensures text { OnOk result (IsOk done × (string_bytes out.new ≡ string_bytes out.old ++
        (prefix.now ++ extension.now))) }
    ensures behind { IsBehind (string_bytes out.old) (string_bytes out.new) }
{
    let done = push_text(done, out, prefix);
    push_text(done, out, extension)
}
