//! The statuses: what a call answers, each by a number of its own. Those from 1 to 6 say why a text
//! is no number, those from 8 to 12 why bytes are no database, by the numbers of the refusals.

/// It was done.
pub const OK: u32 = 0;

/// Memory was refused.
pub const MEMORY: u32 = 7;

/// Nothing is open behind the handle.
pub const CLOSED: u32 = 16;

/// The buffer is too short for the answer.
pub const TOO_SMALL: u32 = 17;

/// The text is not UTF-8.
pub const NOT_UTF8: u32 = 18;

/// The hint is no region's id.
pub const NO_REGION: u32 = 19;

/// No territory of the database has the number's calling code.
pub const UNKNOWN_CODE: u32 = 20;

/// The plain numbers and bytes are no phone number.
pub const BAD_NUMBER: u32 = 21;

/// The mode is none of the four.
pub const NO_MODE: u32 = 22;

/// The rules are neither of the two.
pub const NO_RULES: u32 = 24;

/// Of a table of prefixes: the line is empty.
pub const LINE_EMPTY: u32 = 25;

/// No tab stands in the line.
pub const LINE_NO_TAB: u32 = 26;

/// What stands before the line's first tab isn't 1 to 15 digits.
pub const LINE_NO_PREFIX: u32 = 27;

/// What stands after it isn't UTF-8.
pub const LINE_NOT_UTF8: u32 = 28;

/// An earlier line has the prefix.
pub const LINE_TWICE: u32 = 29;

/// No prefix of the table begins the digits.
pub const NO_PREFIX: u32 = 30;

/// The kind is none of the seventeen.
pub const NO_KIND: u32 = 31;

/// The database has no example number of the region and the kind.
pub const NO_EXAMPLE: u32 = 32;

/// No value of the set has the number.
pub const NO_WORD: u32 = 33;

/// The database has no territory of the region.
pub const NO_TERRITORY: u32 = 34;

/// The leniency is neither of the two.
pub const NO_LENIENCY: u32 = 35;

/// No column has one of the numbers.
pub const NO_COLUMN: u32 = 36;

/// Texts or hints are laid out as no column.
pub const BAD_LAYOUT: u32 = 37;
