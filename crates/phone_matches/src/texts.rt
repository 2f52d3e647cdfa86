//! Where a part stands in a text. Both are bytes.
ghost use Rattle.std.specs.Prelude.{◌≡◌, drop, option_map};
ghost use Rattle.std.specs.Option.{option_copied};
ghost use Rattle.phone_matches.specs.Runs.{told};
ghost use Rattle.phone_matches.specs.Texts.{behind_all, behind_part, contains, from_part};

/// The text from the first place of a part on; none where the part stands nowhere in it.
pub(crate) fn from_part<'a>(text: &'a [u8], part: &[u8]) -> Option<&'a [u8]>
    ensures { option_copied result ≡ from_part part.now text.now }
{
    let mut rest = text;
    while !rest.starts_with(part) {
        let (_, after) = rest.split_first()?;
        rest = after;
    }
    Some(rest)
}

/// Whether a part stands somewhere in a text.
pub(crate) fn contains(text: &[u8], part: &[u8]) -> bool
    ensures { result ≡ contains part.now text.now }
{
    from_part(text, part).is_some()
}

/// A text without so many bytes at its front; nothing where it has no more.
pub(crate) fn without_first(text: &[u8], count: usize) -> &[u8]
    ensures { result.now ≡ drop count text.now }
{
    text.get(count..).unwrap_or(&[])
}

/// What follows a part's first place in a text; none where the part stands nowhere in it.
pub(crate) fn behind_part<'a>(text: &'a [u8], part: &[u8]) -> Option<&'a [u8]>
    ensures { option_copied result ≡ behind_part part.now text.now }
{
    match from_part(text, part) {
        Some(rest) => Some(without_first(rest, part.len())),
        None => None,
    }
}

/// What follows all of these parts in a text, each at its first place behind the one before it.
pub(crate) fn behind_all<'a>(text: &'a [u8], parts: &[&[u8]]) -> Option<&'a [u8]>
    ensures { option_copied result ≡ behind_all (told parts.now) text.now }
{
    let mut rest = text;
    for part in parts {
        rest = behind_part(rest, part)?;
    }
    Some(rest)
}
