//! One line of a table.
ghost use Rattle.std.specs.Prelude.{◌≡◌, ◌==◌, ◌≤◌, ◌<◌, false, drop, length, slice_index};
ghost use Rattle.std.specs.Prelude.{IfNone, IfOk, IfSome, MatchOption, MatchResult, slice_range};
ghost use Rattle.std.specs.Prelude.{take};
ghost use Rattle.std.specs.Char.{is_ascii_digit};
ghost use Rattle.std.specs.List.{list_all, list_any};
ghost use Rattle.phone_lines.specs.Lines.{IsUnbroken};
ghost use Rattle.phone_prefixes.specs.Tables.{is_prefix, IsEntry};
ghost use Rattle.phone_prefixes.specs.Refusals.{IsNoEntry};
ghost use Rattle.phone_prefixes.specs.Spans.{parted_at};

use crate::fault::LineFault;

/// The most digits that a prefix has: E.164 numbers have no more.
pub(crate) const MOST_DIGITS: usize = 15;

/// Whether these bytes are 1 to 15 ASCII digits.
pub(crate) fn is_prefix(bytes: &[u8]) -> bool
    ensures { result ≡ is_prefix bytes.now }
{
    !bytes.is_empty() && bytes.len() <= MOST_DIGITS && are_digits(bytes)
}

/// Whether each of these bytes is an ASCII digit.
fn are_digits(bytes: &[u8]) -> bool
    ensures { result ≡ list_all is_ascii_digit bytes.now }
{
    bytes.iter().all(|b| b.is_ascii_digit())
}

/// Where the tab stands in a line that is an entry's, or why the line isn't one.
pub(crate) fn tab_of(line: &[u8]) -> Result<usize, LineFault>
    ensures parted { MatchResult result (λ tab. IsEntry line.now (parted_at line.now tab))
        (IsNoEntry line.now) }
    ensures inside { IfOk result (λ tab. tab < length line.now) }
{
    if line.is_empty() {
        return Err(LineFault::Empty);
    }
    let Some(tab) = place_of(line, b'\t') else {
        return Err(LineFault::NoTab);
    };
    if !is_prefix(&line[..tab]) {
        return Err(LineFault::NoPrefix);
    }
    match std::str::from_utf8(&line[tab + 1..]) {
        Ok(_) => Ok(tab),
        Err(_) => Err(LineFault::NotUtf8),
    }
}

/// The place of the first of some bytes that is this one.
fn place_of(bytes: &[u8], byte: u8) -> Option<usize>
    ensures none { IfNone result (list_any (λ c. c == byte) bytes.now ≡ false) }
    ensures inside { IfSome result (λ at. at < length bytes.now) }
    ensures found { IfSome result (λ at. slice_index bytes.now at ≡ byte) }
    ensures first { IfSome result (λ at. list_any (λ c. c == byte) (take at bytes.now) ≡ false) }
{
    for (at, b) in bytes.iter().enumerate() {
        if *b == byte {
            return Some(at);
        }
    }
    None
}

/// The place of the first line feed at or after a place; none where none stands there.
pub(crate) fn feed_after(bytes: &[u8], at: usize) -> Option<usize>
    requires { at ≤ length bytes.now }
    ensures unbroken { MatchOption result (IsUnbroken (drop at bytes.now))
        (λ end. IsUnbroken (slice_range bytes.now at end)) }
    ensures within { IfSome result (λ end. (at ≤ end) × (end < length bytes.now)) }
    ensures feed { IfSome result (λ end. slice_index bytes.now end ≡ 10) }
{
    match place_of(&bytes[at..], b'\n') {
        Some(n) => Some(at + n),
        None => None,
    }
}
