//! Lengths, signs and marks that the reading and printing of numbers know.

/// The least number of digits of a national number that is read.
pub const MIN_LENGTH_FOR_NSN: usize = 2;

/// The largest number of digits of a national number that is read: ITU's 15, and two more for
/// longer numbers that are in use.
pub const MAX_LENGTH_FOR_NSN: usize = 17;

/// The largest number of digits of a calling code that is found in front of digits.
pub const MAX_LENGTH_FOR_COUNTRY_CODE: usize = 3;

/// The sign before a calling code in an international number.
pub const PLUS_SIGN: char = '+';

/// The star of a keypad.
pub const STAR_SIGN: char = '*';

/// The number sign of a keypad.
pub const SHARP_SIGN: char = '#';

/// What stands before the extension in a `tel:` text.
pub const RFC3966_EXTN_PREFIX: &str = ";ext=";

/// The front of a `tel:` text.
pub const RFC3966_PREFIX: &str = "tel:";

/// What stands before the context of a local number in a `tel:` text.
pub const RFC3966_PHONE_CONTEXT: &str = ";phone-context=";

/// What stands before an ISDN subaddress in a `tel:` text.
pub const RFC3966_ISDN_SUBADDRESS: &str = ";isub=";

/// The id of a territory that is no region, such as that of international toll free numbers.
pub const REGION_CODE_FOR_NON_GEO_ENTITY: &str = "001";

/// What is printed before an extension where the territory has no prefix of its own for it.
pub const DEFAULT_EXTN_PREFIX: &str = " ext. ";

/// In a formatting rule: the place of the national prefix.
pub const NP: &str = "$NP";

/// In a formatting rule: the place of the first group of digits.
pub const FG: &str = "$FG";

/// In a formatting rule: the place of the carrier's code.
pub const CC: &str = "$CC";
