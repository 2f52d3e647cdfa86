//! The rules by which our finder tells where a number may begin and end: tables of signs.
ghost use Rattle.std.specs.Prelude.{◌≡◌};
ghost use Rattle.phone_find.specs.Rules.{accounts, areas, cards, codes_before, dates};
ghost use Rattle.phone_find.specs.Rules.{followers, labels, links, neighbours, stamps};
ghost use Rattle.phone_find.specs.Told.{all_told};

/// What makes a link dial: `tel:`, `callto://`, `wa.me/`, `phone=`.
const LINKS: [&str; 4] = [":let^", "//:otllac^", "/em.aw^", "=enohp^"];

/// These rules.
pub(crate) fn links() -> &'static [&'static str]
    ensures { all_told result.now ≡ links }
{
    &LINKS
}

/// A number doesn't begin behind a digit or a plus sign; behind money; at a digit, behind a digit
/// and what joins digits, behind a capital letter, an x that is no word's, a number sign, an equals
/// sign, or where a path goes on behind a slash; behind the first of two coordinates.
const NEIGHBOURS: [&str; 14] = [
    "9^9",
    "9^<",
    "+^9",
    "+^<",
    "$^",
    "_$^",
    "&9^9",
    "%^9",
    "x*^9",
    "#^9",
    "=^9",
    "/@^9",
    "//^9",
    "_,999999.^",
];

/// These rules.
pub(crate) fn neighbours() -> &'static [&'static str]
    ensures { all_told result.now ≡ neighbours }
{
    &NEIGHBOURS
}

/// Nor behind an area code, or another short part of a number, in brackets.
const AREAS: [&str; 10] = [
    ">9<^9",
    "_>9<^9",
    ">99<^9",
    "_>99<^9",
    ">999<^9",
    "_>999<^9",
    ">9999<^9",
    "_>9999<^9",
    ">99999<^9",
    "_>99999<^9",
];

/// These rules.
pub(crate) fn areas() -> &'static [&'static str]
    ensures { all_told result.now ≡ areas }
{
    &AREAS
}

/// Nor behind a calling code that a plus sign or two zeros lead.
const CODES_BEFORE: [&str; 12] = [
    "-9+^",
    "-500!^",
    "--9+^",
    "--500!^",
    "-99+^",
    "-9500!^",
    "--99+^",
    "--9500!^",
    "-999+^",
    "-99500!^",
    "--999+^",
    "--99500!^",
];

/// These rules.
pub(crate) fn codes_before() -> &'static [&'static str]
    ensures { all_told result.now ≡ codes_before }
{
    &CODES_BEFORE
}

/// Nor behind what begins an account number: two capital letters, two digits, groups of four.
const ACCOUNTS: [&str; 6] = [
    "_99%%^",
    "_9999_99%%^",
    "_9999_9999_99%%^",
    "_9999_9999_9999_99%%^",
    "_9999_9999_9999_9999_99%%^",
    "_9999_9999_9999_9999_9999_99%%^",
];

/// These rules.
pub(crate) fn accounts() -> &'static [&'static str]
    ensures { all_told result.now ≡ accounts }
{
    &ACCOUNTS
}

/// Nor inside the four groups of four digits of a card.
const CARDS: [&str; 4] = [
    "!^9999_9999_9999_9999!",
    "_9999!^9999_9999_9999!",
    "_9999_9999!^9999_9999!",
    "_9999_9999_9999!^9999!",
];

/// These rules.
pub(crate) fn cards() -> &'static [&'static str]
    ensures { all_told result.now ≡ cards }
{
    &CARDS
}

/// A number doesn't end before a digit; money, or a currency's letters; what joins digits and a
/// digit; cents; a slash and digits, but where these are a short first group; what announces an
/// extension and a digit; behind the first of two coordinates.
const FOLLOWERS: [&str; 19] = [
    "^9",
    "^$",
    "^_$",
    "^_eur",
    "^_usd",
    "^&9",
    "^&&9",
    "^,99!",
    "^/9?",
    "^/99?",
    "^/999?",
    "^/9999?",
    "^/99999",
    "^x9",
    "^_x9",
    "^#9",
    "^_#9",
    "^_~9",
    "999999.^,_",
];

/// These rules.
pub(crate) fn followers() -> &'static [&'static str]
    ensures { all_told result.now ≡ followers }
{
    &FOLLOWERS
}

/// Nor, where it ends in year, month and day, before a time.
const STAMPS: [&str; 12] = [
    "93939993^t9",
    "93939993^_99:",
    "93939993^__99:",
    "93939993^_9:",
    "93|939993^t9",
    "93|939993^_99:",
    "93|939993^__99:",
    "93|939993^_9:",
    "9393|9993^t9",
    "9393|9993^_99:",
    "9393|9993^__99:",
    "9393|9993^_9:",
];

/// These rules.
pub(crate) fn stamps() -> &'static [&'static str]
    ensures { all_told result.now ≡ stamps }
{
    &STAMPS
}

/// Day, month and year, or month, day and year, with two or four digits of the year; or year, month
/// and day.
const DATES: [&str; 12] = [
    "9|9|99?",
    "9|9|9999?",
    "9|39|99?",
    "9|39|9999?",
    "39|9|99?",
    "39|9|9999?",
    "39|39|99?",
    "39|39|9999?",
    "3999|9|9?",
    "3999|9|39?",
    "3999|39|9?",
    "3999|39|39?",
];

/// These rules.
pub(crate) fn dates() -> &'static [&'static str]
    ensures { all_told result.now ≡ dates }
{
    &DATES
}

/// What announces an extension: words, `x` in full width, signs, and pauses.
const LABELS: [&str; 17] = [
    "ext",
    "extn",
    "extension",
    "xt",
    "int",
    "anexo",
    "\u{434}\u{43E}\u{431}",
    "\u{FF58}",
    "\u{FF45}\u{FF58}\u{FF54}",
    "\u{FF58}\u{FF54}",
    "\u{FF49}\u{FF4E}\u{FF54}",
    "#",
    "\u{FF03}",
    "\u{FF5E}",
    ";ext=",
    ";",
    ",,",
];

/// These rules.
pub(crate) fn labels() -> &'static [&'static str]
    ensures { all_told result.now ≡ labels }
{
    &LABELS
}
