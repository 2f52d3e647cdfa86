//! What an extension is made of, asked of one character.
ghost use Rattle.std.specs.Prelude.{◌≡◌};
ghost use Rattle.phone_parts.specs.Suffixes.{is_dash, is_gap, is_lead, is_mark};
ghost use Rattle.phone_library_text.specs.Announcements.{is_blank};

/// Whether the character may stand before a word or a sign.
pub(crate) fn is_lead(c: char) -> bool
    ensures { result ≡ is_lead c }
{
    matches!(c, ' ' | '\u{A0}' | '\t' | ',')
}

/// Whether the character may stand before a pause.
pub(crate) fn is_blank(c: char) -> bool
    ensures { result ≡ is_blank c }
{
    matches!(c, ' ' | '\u{A0}' | '\t')
}

/// Whether the character may follow a label at once.
pub(crate) fn is_mark(c: char) -> bool
    ensures { result ≡ is_mark c }
{
    matches!(c, ':' | '.' | '\u{FF0E}')
}

/// Whether the character may stand between a label and the digits.
pub(crate) fn is_gap(c: char) -> bool
    ensures { result ≡ is_gap c }
{
    matches!(c, ' ' | '\u{A0}' | '\t' | ',' | '-')
}

/// Whether the character may announce digits that a number sign follows.
pub(crate) fn is_dash(c: char) -> bool
    ensures { result ≡ is_dash c }
{
    c == '-' || c == ' '
}
