//! Writing a template in the place of a match. Served are the templates in which each `$` is
//! followed by a `$`, which then stands for itself, or by the one digit that names a group, in
//! braces or not; any other is left to a library.
ghost use Rattle.std.specs.Prelude.{◌≡◌, ◌+◌, ◌*◌, ◌≤◌, ◌<◌, ◌++◌, ◌^◌, length, drop, take};
ghost use Rattle.std.specs.Prelude.{slice_index, string_bytes, IfOk, IfSome, IsTrue, MatchOption};
ghost use Rattle.std.specs.List.{prefix_len};
ghost use Rattle.std.specs.Str.{IsAscii, IsUtf8};
ghost use Rattle.phone_automaton.specs.Digits.{AreDigits};
ghost use Rattle.phone_automaton.specs.Finds.{group_at};
ghost use Rattle.phone_automaton.specs.Templates.{IsNamedBy, IsWritten, put_in};
ghost use Rattle.regex.specs.Replace.{bytes_of};
ghost use Rattle.regex.specs.Templates.{is_name_byte};

use std::alloc::{AllocError, Global};

/// What follows so many bytes.
fn after(bytes: &[u8], count: usize) -> &[u8]
    requires { count ≤ length bytes.now }
    ensures { result.now ≡ drop count bytes.now }
{
    &bytes[count..]
}

/// Appends bytes, where there are any: mostly nothing stands before and behind a match.
fn push_all(out: &mut Vec<u8>, bytes: &[u8]) -> Result<(), AllocError>
    ensures { IfOk result (λ done. out.new.items ≡ out.old.items ++ bytes.now) }
{
    if bytes.is_empty() {
        return Ok(());
    }
    out.extend_from_slice(bytes)
}

/// Whether a `$` stands before these bytes twice.
fn is_doubled(rest: &[u8]) -> bool
    ensures { IsTrue result → (0 < length rest.now) × (slice_index rest.now 0 ≡ 36) }
{
    !rest.is_empty() && rest[0] == b'$'
}

/// The group that one digit names before these bytes, where neither a letter, a digit nor `_`
/// follows it.
fn digit_alone(rest: &[u8]) -> Option<usize>
    ensures digit { IfSome result (λ n. (n < 10) × (0 < length rest.now) ×
        (slice_index rest.now 0 ≡ 48 + n)) }
    ensures alone { IfSome result (λ n. prefix_len is_name_byte rest.now ≡ 1) }
{
    if rest.is_empty() || !rest[0].is_ascii_digit() {
        return None;
    }
    if rest.len() > 1 && (rest[1].is_ascii_alphanumeric() || rest[1] == b'_') {
        return None;
    }
    Some((rest[0] - b'0') as usize)
}

/// The group that one digit in braces names before these bytes.
fn digit_in_braces(rest: &[u8]) -> Option<usize>
    ensures { IfSome result (λ n. (n < 10) × (2 < length rest.now) ×
        (slice_index rest.now 0 ≡ 123) × (slice_index rest.now 1 ≡ 48 + n) ×
        (slice_index rest.now 2 ≡ 125)) }
{
    if rest.len() < 3 || rest[0] != b'{' || rest[2] != b'}' {
        return None;
    }
    if !rest[1].is_ascii_digit() {
        return None;
    }
    Some((rest[1] - b'0') as usize)
}

/// The group that a `$` names before these bytes, and how many of them name it: one digit that
/// neither a letter, a digit nor `_` follows, or one in braces.
fn group_named(rest: &[u8]) -> Option<(usize, usize)>
    ensures { IfSome result (λ r. IsNamedBy rest.now r.0 r.1) }
{
    match digit_alone(rest) {
        Some(n) => Some((n, 1)),
        None => named_in_braces(rest),
    }
}

/// The same where it is a digit in braces.
fn named_in_braces(rest: &[u8]) -> Option<(usize, usize)>
    ensures { IfSome result (λ r. IsNamedBy rest.now r.0 r.1) }
{
    match digit_in_braces(rest) {
        Some(n) => Some((n, 3)),
        None => None,
    }
}

/// Appends what a group spans, or nothing where it took no part in the match. False where the span
/// is none of the text.
fn push_group(
    out: &mut Vec<u8>,
    hay: &[u8],
    group: Option<(usize, usize)>,
) -> Result<bool, AllocError>
    ensures { IfOk result (λ done. IsTrue done →
        out.new.items ≡ out.old.items ++ bytes_of hay.now group) }
{
    let Some((start, end)) = group else {
        return Ok(true);
    };
    if start > end || end > hay.len() {
        return Ok(false);
    }
    out.extend_from_slice(&hay[start..end])?;
    Ok(true)
}

/// A cell of a match, by cells of which one place stands for the end of the match.
#[inline]
fn cell_in(cells: &[usize], place: usize, end: usize, k: usize) -> usize
    requires cell { k < length cells.now }
    requires end { end < 2 ^ 63 }
    ensures { result ≡ slice_index (put_in cells.now place end) k }
{
    if k == place { end + 1 } else { cells[k] }
}

/// What a group spans, by such cells.
#[inline]
fn group_in(span: (usize, usize), cells: &[usize], place: usize, n: usize) -> Option<(usize, usize)>
    requires room { 2 * n ≤ length cells.now }
    requires end { span.1 < 2 ^ 63 }
    ensures { result ≡ group_at span (put_in cells.now place span.1) n }
{
    if n == 0 {
        return Some(span);
    }
    let first = cell_in(cells, place, span.1, 2 * n - 2);
    let last = cell_in(cells, place, span.1, 2 * n - 1);
    if first == 0 || last == 0 {
        return None;
    }
    Some((first - 1, last - 1))
}

/// Appends what a template writes where a match stands. False where the template names a group in
/// another way than by one digit, in braces or not, or one that the cells have no room for.
fn push_written(
    out: &mut Vec<u8>,
    template: &[u8],
    hay: &[u8],
    span: (usize, usize),
    cells: &[usize],
    place: usize,
) -> Result<bool, AllocError>
    requires { span.1 < 2 ^ 63 }
    ensures written { IfOk result (λ done. IsTrue done → (bytes : _) ×
        (out.new.items ≡ out.old.items ++ bytes) ×
        IsWritten template.now hay.now span (put_in cells.now place span.1) bytes) }
    ensures utf8 { IfOk result (λ done. IsTrue done → IsAscii hay.now →
        IsUtf8 (out.old.items ++ template.now) → IsUtf8 out.new.items) }
{
    let mut at = 0;
    while at < template.len() {
        if template[at] != b'$' {
            out.push(template[at])?;
            at += 1;
            continue;
        }
        let rest = after(template, at + 1);
        if is_doubled(rest) {
            out.push(b'$')?;
            at += 2;
            continue;
        }
        let Some((n, count)) = group_named(rest) else {
            return Ok(false);
        };
        if 2 * n > cells.len() {
            return Ok(false);
        }
        if !push_group(out, hay, group_in(span, cells, place, n))? {
            return Ok(false);
        }
        at += 1 + count;
    }
    Ok(true)
}

/// The text with a match replaced by a template, by the match's span and its cells, of which one
/// place stands for the match's end; none does where the place is behind them. None where
/// `push_written` doesn't serve the template.
pub(crate) fn replace(
    alloc: Global,
    template: &str,
    hay: &str,
    span: (usize, usize),
    cells: &[usize],
    place: usize,
) -> Result<Option<String>, AllocError>
    ensures { IfOk result (λ found. IfSome found (λ out. (bytes : _) ×
        (string_bytes out ≡ (take span.0 hay.now ++ bytes) ++ drop span.1 hay.now) ×
        IsWritten template.now hay.now span (put_in cells.now place span.1) bytes)) }
{
    let bytes = hay.as_bytes();
    let (start, end) = span;
    if start > end || end > bytes.len() {
        return Ok(None);
    }
    let room = bytes.len().saturating_add(template.len());
    let mut out = Vec::with_capacity(alloc, room)?;
    push_all(&mut out, &bytes[..start])?;
    if !push_written(&mut out, template.as_bytes(), bytes, span, cells, place)? {
        return Ok(None);
    }
    push_all(&mut out, after(bytes, end))?;
    match String::from_utf8(out) {
        Ok(text) => Ok(Some(text)),
        Err(_) => Ok(None),
    }
}

/// The same of a match at the front of a text of digits, which ends here; that what is written is
/// a text needs no look at its bytes then.
pub(crate) fn replace_in_digits(
    alloc: Global,
    template: &str,
    hay: &str,
    end: usize,
    cells: &[usize],
    place: usize,
) -> Result<Option<String>, AllocError>
    requires { AreDigits hay.now }
    ensures { IfOk result (λ found. IfSome found (λ out. (bytes : _) ×
        (string_bytes out ≡ (take 0 hay.now ++ bytes) ++ drop end hay.now) ×
        IsWritten template.now hay.now (0, end) (put_in cells.now place end) bytes)) }
{
    let bytes = hay.as_bytes();
    if end > bytes.len() {
        return Ok(None);
    }
    let room = bytes.len().saturating_add(template.len());
    let mut out = Vec::with_capacity(alloc, room)?;
    if !push_written(&mut out, template.as_bytes(), bytes, (0, end), cells, place)? {
        return Ok(None);
    }
    push_all(&mut out, after(bytes, end))?;
    // SAFETY: a template is UTF-8, and what stands in it for groups is ASCII.
    Ok(Some(unsafe { String::from_utf8_unchecked(out) }))
}

/// The same of a match that was found, if any; a text without one as it is.
pub(crate) fn replace_if_any(
    alloc: Global,
    template: &str,
    hay: &str,
    found: Option<(usize, usize)>,
    cells: &[usize],
) -> Result<Option<String>, AllocError>
    ensures { IfOk result (λ made. IfSome made (λ out.
        MatchOption found (string_bytes out ≡ hay.now) (λ span. (bytes : _) ×
        (string_bytes out ≡ (take span.0 hay.now ++ bytes) ++ drop span.1 hay.now) ×
        IsWritten template.now hay.now span cells.now bytes))) }
{
    match found {
        Some(span) => replace(alloc, template, hay, span, cells, cells.len()),
        None => Ok(Some(String::from_str(alloc, hay)?)),
    }
}
