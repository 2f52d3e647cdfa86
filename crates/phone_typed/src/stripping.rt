//! The national digits among keys that are typed in a territory. They are lent from the keys, but
//! where the territory's rule writes them anew.
ghost use Rattle.std.specs.Prelude.{◌≡◌, ◌&&◌, not, if◌then◌else◌, IfOk, None, Some};
ghost use Rattle.std.specs.Cow.{cow_str_bytes};
ghost use Rattle.std.specs.Option.{option_copied};
ghost use Rattle.phone_parts.specs.Texts.{without_front};
ghost use Rattle.phone_records.specs.declared.loader.Metadata as loader;
ghost use Rattle.phone_read.specs.Kinds.{is_of};
ghost use Rattle.phone_read.specs.Strips.{step};
ghost use Rattle.phone_territory.specs.First.{replaced};

use phone_base::results::{in_place_of, zip_value};
use phone_read::kinds::is_general;
use phone_read::trims::has_front;
use phone_territory::{Pattern, Territory};
use std::alloc::AllocError;
use std::borrow::CowStr;

/// What a territory's rules leave of keys as national digits. Refused only for memory.
pub(crate) fn national_digits<'k>(m: &Territory, keys: &'k str) -> Result<CowStr<'k>, AllocError>
    ensures { IfOk result (λ left. cow_str_bytes left ≡
        (step m.now keys.entry.now None).national) }
{
    match m.national_prefix_for_parsing_pattern() {
        Some(pattern) => past_match(m, pattern, keys),
        None => Ok(CowStr::Borrowed(past_prefix(m.national_prefix(), keys))),
    }
}

/// The keys without a prefix, where there is one and they begin with it.
fn past_prefix<'k>(prefix: Option<&str>, keys: &'k str) -> &'k str
    ensures { result.now ≡ without_front (option_copied prefix.entry) keys.entry.now }
{
    match prefix {
        Some(prefix) => past_front(prefix, keys),
        None => keys,
    }
}

/// The keys without a front, where they begin with it.
fn past_front<'k>(front: &str, keys: &'k str) -> &'k str
    ensures { result.now ≡ without_front (Some front.now) keys.entry.now }
{
    if has_front(keys, front) {
        &keys[front.len()..]
    } else {
        keys
    }
}

/// The national digits where the territory has this parsing pattern.
fn past_match<'k>(m: &Territory, pattern: &Pattern, keys: &'k str) -> Result<CowStr<'k>, AllocError>
    requires { m.now.national_prefix_for_parsing ≡ Some pattern.now }
    ensures { IfOk result (λ left. cow_str_bytes left ≡
        (step m.now keys.entry.now None).national) }
{
    match m.national_prefix_transform_rule() {
        Some(rule) => by_rule(m, pattern, rule, keys),
        None => Ok(CowStr::Borrowed(behind_match(pattern, keys)?)),
    }
}

/// The same where the territory has no transform rule: what stands behind a match at the front.
/// That there is none is told without a search for one behind the front.
fn behind_match<'k>(pattern: &Pattern, keys: &'k str) -> Result<&'k str, AllocError>
    ensures { (m : loader.Metadata) → m.national_prefix_for_parsing ≡ Some pattern.now →
        m.national_prefix_transform_rule ≡ None →
        IfOk result (λ left. left.now ≡ (step m keys.entry.now None).national) }
{
    match pattern.front_end(keys)? {
        Some(end) => Ok(&keys[end..]),
        None => Ok(keys),
    }
}

/// The same where the territory has this transform rule: it writes the keys anew where the last
/// group took part in a match at the front; else the match is cut off.
fn by_rule<'k>(
    m: &Territory,
    pattern: &Pattern,
    rule: &str,
    keys: &'k str,
) -> Result<CowStr<'k>, AllocError>
    requires parsing { m.now.national_prefix_for_parsing ≡ Some pattern.now }
    requires rule { m.now.national_prefix_transform_rule ≡ Some rule.now }
    ensures { IfOk result (λ left. cow_str_bytes left ≡
        (step m.now keys.entry.now None).national) }
{
    if !pattern.is_at_start(keys)? {
        return Ok(CowStr::Borrowed(keys));
    }
    let Some(found) = pattern.captures(keys)? else {
        return Ok(CowStr::Borrowed(keys));
    };
    match (found.span, found.last) {
        ((0, end), None) => Ok(CowStr::Borrowed(&keys[end..])),
        ((0, _), Some(_)) => anew(m, pattern, rule, keys),
        _ => Ok(CowStr::Borrowed(keys)),
    }
}

/// The keys as a transform rule writes them anew; as they are where they would leave the
/// territory's general kind.
fn anew<'k>(
    m: &Territory,
    pattern: &Pattern,
    rule: &str,
    keys: &'k str,
) -> Result<CowStr<'k>, AllocError>
    ensures { IfOk result (λ left. cow_str_bytes left ≡ (if is_of m.now.general keys.entry.now &&
        not (is_of m.now.general (replaced pattern.now rule.now keys.entry.now))
        then keys.entry.now else replaced pattern.now rule.now keys.entry.now)) }
{
    let written = pattern.replace(rule, keys)?;
    let leaves = leaves_general(m, keys, written.as_str());
    let (leaves, written) = zip_value(leaves, written)?;
    if leaves {
        Ok(in_place_of(written, CowStr::Borrowed(keys)))
    } else {
        Ok(CowStr::Owned(written))
    }
}

/// Whether keys are of the territory's general kind, and no longer are as they are written anew.
fn leaves_general(m: &Territory, keys: &str, written: &str) -> Result<bool, AllocError>
    ensures { IfOk result (λ b. b ≡
        (is_of m.now.general keys.now && not (is_of m.now.general written.now))) }
{
    if !is_general(m, keys)? {
        return Ok(false);
    }
    Ok(!is_general(m, written)?)
}
