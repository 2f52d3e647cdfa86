//! What layouts print of a number that is typed, whole or its beginning.
ghost use Rattle.std.specs.Prelude.{◌≡◌, ◌≤◌, ◌++◌, None, IfOk, IsUtf8, drop, length, map};
ghost use Rattle.std.specs.Prelude.{option_map, string_bytes};
ghost use Rattle.phone_print.specs.Layouts.{layouts_for, template_for};
ghost use Rattle.phone_records.specs.Missing.{first_given};
ghost use Rattle.phone_territory.specs.First.{is_whole_match};
ghost use Rattle.phone_territory.specs.Layouts.{laid_by};
ghost use Rattle.phone_typed.specs.Keys.{up_to_key};
ghost use Rattle.phone_typed.specs.Typed.{complete_text, first_complete, first_partial, if_shows};
ghost use Rattle.phone_typed.specs.Typed.{lays_out, lays_out_all, partial_text, text_of_keys};
ghost use Rattle.phone_typed.specs.Typed.{is_short};
ghost use Rattle.std.specs.Option.{option_or};

use crate::keys::{end_of_shown, shows};
use phone_plans::Plans;
use phone_print::printing::layouts_for;
use phone_territory::{FirstGroup, Format, Territory};
use phone_values::Mode;
use std::alloc::AllocError;

/// Fewer digits are shown as they are.
const FEWEST_DIGITS: usize = 3;

/// The digits of a longest number, all nines: those that are not typed yet.
const NINES: [u8; 15] = [b'9'; 15];

/// Puts digits in the front of a row of others.
fn put_in_front(digits: &str, row: &mut [u8])
    requires { length digits.now ≤ length row.old }
    ensures { row.new ≡ digits.now ++ drop (length digits.now) row.old }
{
    row[..digits.len()].copy_from_slice(digits.as_bytes());
}

/// Bytes as the text that they are.
fn as_text(bytes: &[u8]) -> &str
    requires { IsUtf8 bytes.now }
    ensures { result.now ≡ bytes.now }
{
    std::str::from_utf8(bytes).unwrap_or("")
}

/// Whether a layout lays out all of these digits: it is meant for them, and its pattern matches
/// them whole. Mostly their length tells that it doesn't. Refused only for memory.
fn lays_out_all(layout: &Format, digits: &str) -> Result<bool, AllocError>
    ensures { IfOk result (λ b. b ≡ lays_out_all digits.now layout.now) }
{
    if !layout.whole_pattern().is_whole_match(digits)? {
        return Ok(false);
    }
    layout.is_led(digits)
}

/// Whether a layout lays out the first n of these digits: it is meant for them, and its pattern's
/// first match begins at the first and has at least n. Refused only for memory.
fn lays_out(layout: &Format, n: usize, digits: &str) -> Result<bool, AllocError>
    ensures { IfOk result (λ b. b ≡ lays_out n digits.now layout.now) }
{
    if !layout.is_led(digits)? {
        return Ok(false);
    }
    match layout.whole_pattern().front_end(digits)? {
        Some(end) => Ok(end >= n),
        None => Ok(false),
    }
}

/// The digits laid out by a layout in a mode. Refused only for memory.
fn lay_out(
    finder: &FirstGroup,
    m: &Territory,
    mode: Mode,
    layout: &Format,
    digits: &str,
) -> Result<String, AllocError>
    ensures { IfOk result (λ t. string_bytes t ≡
        laid_by layout.now (template_for layout.now m.now mode None) digits.now) }
{
    match mode {
        Mode::National => layout.lay_out_nationally(finder, m.national_prefix(), None, digits),
        _ => layout.lay_out(digits),
    }
}

/// The text, if it shows the keys.
fn if_shows(keys: &str, text: String) -> Option<String>
    ensures { option_map string_bytes result ≡ if_shows keys.now (string_bytes text) }
{
    if shows(keys, text.as_str()) {
        Some(text)
    } else {
        None
    }
}

/// By a layout, of a complete number: what it prints of the national digits, if that shows the
/// keys. Refused only for memory.
fn complete_text(
    finder: &FirstGroup,
    m: &Territory,
    mode: Mode,
    national: &str,
    keys: &str,
    layout: &Format,
) -> Result<Option<String>, AllocError>
    ensures { IfOk result (λ t. option_map string_bytes t ≡
        complete_text m.now mode national.now keys.now layout.now) }
{
    if !lays_out_all(layout, national)? {
        return Ok(None);
    }
    let text = lay_out(finder, m, mode, layout, national)?;
    Ok(if_shows(keys, text))
}

/// By a layout, of the beginning of a number: that of what it prints of n national digits that have
/// others after them, if that shows the keys. Refused only for memory.
fn partial_text(
    finder: &FirstGroup,
    m: &Territory,
    mode: Mode,
    n: usize,
    digits: &str,
    keys: &str,
    layout: &Format,
) -> Result<Option<String>, AllocError>
    ensures { IfOk result (λ t. option_map string_bytes t ≡
        partial_text m.now mode n digits.now keys.now layout.now) }
{
    if !lays_out(layout, n, digits)? {
        return Ok(None);
    }
    let text = lay_out(finder, m, mode, layout, digits)?;
    Ok(beginning(keys, text))
}

/// The beginning of a text up to as many keys as these, if it shows them.
fn beginning(keys: &str, text: String) -> Option<String>
    ensures { option_map string_bytes result ≡
        if_shows keys.now (up_to_key (length keys.now) (string_bytes text)) }
{
    let mut text = text;
    let end = end_of_shown(keys, text.as_str())?;
    text.truncate(end);
    Some(text)
}

/// Of a complete number, by the first layout that gives a text that shows the keys. Refused only
/// for memory.
fn first_complete(
    finder: &FirstGroup,
    m: &Territory,
    mode: Mode,
    national: &str,
    keys: &str,
) -> Result<Option<String>, AllocError>
    ensures { IfOk result (λ t. option_map string_bytes t ≡
        first_complete m.now mode national.now keys.now) }
{
    let layouts = layouts_for(m, mode);
    for layout in layouts {
        if let Some(text) = complete_text(finder, m, mode, national, keys, layout)? {
            return Ok(Some(text));
        }
    }
    Ok(None)
}

/// Of the beginning of a number, by the first layout that gives a text that shows the keys. Refused
/// only for memory.
fn first_partial(
    finder: &FirstGroup,
    m: &Territory,
    mode: Mode,
    national: &str,
    keys: &str,
) -> Result<Option<String>, AllocError>
    ensures { IfOk result (λ t. option_map string_bytes t ≡
        first_partial m.now mode national.now keys.now) }
{
    let n = national.len();
    if n >= NINES.len() {
        return first_of_nines(finder, m, mode, n, national, keys);
    }
    let mut row = NINES;
    put_in_front(national, &mut row);
    first_of_nines(finder, m, mode, n, as_text(&row), keys)
}

/// The same of n digits with others after them.
fn first_of_nines(
    finder: &FirstGroup,
    m: &Territory,
    mode: Mode,
    n: usize,
    digits: &str,
    keys: &str,
) -> Result<Option<String>, AllocError>
    ensures { IfOk result (λ t. option_map string_bytes t ≡ first_given
        (map (partial_text m.now mode n digits.now keys.now) (layouts_for m.now mode))) }
{
    let layouts = layouts_for(m, mode);
    for layout in layouts {
        if let Some(text) = partial_text(finder, m, mode, n, digits, keys, layout)? {
            return Ok(Some(text));
        }
    }
    Ok(None)
}

/// Whether digits are so few that they are shown as they are.
pub(crate) fn is_short(digits: &str) -> bool
    ensures { result ≡ is_short digits.now }
{
    digits.len() < FEWEST_DIGITS
}

/// What is shown of keys that give these national digits: as of a complete number, else as of a
/// beginning; the keys as they are where they are too short, and where no layout's text shows them.
/// Refused only for memory.
pub(crate) fn text_of_keys(
    db: &Plans,
    m: &Territory,
    mode: Mode,
    national: &str,
    keys: &str,
) -> Result<String, AllocError>
    ensures { IfOk result (λ t. string_bytes t ≡
        text_of_keys m.now mode national.now keys.now) }
{
    if is_short(national) || is_short(keys) {
        return String::from_str(db.allocator(), keys);
    }
    match by_layouts(db.first_group_finder(), m, mode, national, keys)? {
        Some(text) => Ok(text),
        None => String::from_str(db.allocator(), keys),
    }
}

/// As of a complete number, else as of a beginning, where the text of a layout shows the keys.
/// Refused only for memory.
fn by_layouts(
    finder: &FirstGroup,
    m: &Territory,
    mode: Mode,
    national: &str,
    keys: &str,
) -> Result<Option<String>, AllocError>
    ensures { IfOk result (λ t. option_map string_bytes t ≡ option_or
        (first_complete m.now mode national.now keys.now)
        (first_partial m.now mode national.now keys.now)) }
{
    match first_complete(finder, m, mode, national, keys)? {
        Some(text) => Ok(Some(text)),
        None => first_partial(finder, m, mode, national, keys),
    }
}
