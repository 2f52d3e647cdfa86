//! The first character of bytes.
ghost use Rattle.std.specs.Prelude.{◌≡◌, ◌<◌, ◌≤◌, ◌++◌, ◌∷◌, ◌&&◌, [], ℕ, List, length};
ghost use Rattle.std.specs.Prelude.{IfSome, IsNone, MatchOption, None, Some, drop, false, true};
ghost use Rattle.std.specs.Prelude.{if◌then◌else◌};
ghost use Rattle.std.specs.Char.Utf16.{is_high_surrogate, is_low_surrogate};
ghost use Rattle.std.specs.Char.Utf16.{surrogate_pair_char};
ghost use Rattle.phone_encodings.specs.Encodings.{IsFirst, characters, unit, windows_1252};
ghost use Rattle.phone_encodings.specs.FirstUnits.{first_of_two, lone};
ghost use Rattle.phone_encodings.specs.Unfinished.{IsUnfinished, IsUnfinishedUnit};
ghost use Rattle.phone_encodings.specs.declared.encoding.Encoding.{Encoding};
ghost use Rattle.phone_encodings.specs.declared.encoding.Encoding.TheVariants as variant;

use crate::encoding::{Encoding, Order};

/// What stands for bytes that are no character.
const REPLACEMENT: char = '\u{FFFD}';

/// The characters of the bytes 128 to 159 in Windows-1252.
const FROM_128: [char; 32] = [
    '\u{20AC}', '\u{81}', '\u{201A}', '\u{192}', '\u{201E}', '\u{2026}', '\u{2020}', '\u{2021}',
    '\u{2C6}', '\u{2030}', '\u{160}', '\u{2039}', '\u{152}', '\u{8D}', '\u{17D}', '\u{8F}',
    '\u{90}', '\u{2018}', '\u{2019}', '\u{201C}', '\u{201D}', '\u{2022}', '\u{2013}', '\u{2014}',
    '\u{2DC}', '\u{2122}', '\u{161}', '\u{203A}', '\u{153}', '\u{9D}', '\u{17E}', '\u{178}',
];

/// The character of a byte in Windows-1252.
fn windows_1252(byte: u8) -> char
    ensures { result ≡ windows_1252 byte }
{
    if 0x80 <= byte && byte < 0xA0 {
        return FROM_128[usize::from(byte - 0x80)];
    }
    char::from(byte)
}

/// The unit of UTF-16 that two bytes are.
fn unit(order: Order, a: u8, b: u8) -> u16
    ensures { result ≡ unit order a b }
{
    match order {
        Order::LowFirst => u16::from(a) + u16::from(b) * 256,
        Order::HighFirst => u16::from(a) * 256 + u16::from(b),
    }
}

/// Whether a unit is the first one of a pair.
fn is_high_surrogate(unit: u16) -> bool
    ensures { result ≡ is_high_surrogate unit }
{
    0xD800 <= unit && unit < 0xDC00
}

/// The character of a unit that is in no pair.
fn lone(unit: u16) -> char
    ensures { result ≡ lone unit }
{
    match char::from_u32(u32::from(unit)) {
        Some(c) => c,
        None => REPLACEMENT,
    }
}

/// The character of two units, where they are a pair.
fn pair(high: u16, low: u16) -> Option<char>
    ensures { result ≡ (if is_high_surrogate high && is_low_surrogate low
        then Some (surrogate_pair_char high low) else None) }
{
    if !is_high_surrogate(high) || low < 0xDC00 || 0xE000 <= low {
        return None;
    }
    let over = (u32::from(high) - 0xD800) * 0x400 + (u32::from(low) - 0xDC00);
    char::from_u32(0x1_0000 + over)
}

/// The first character of bytes, and how many of them it takes, where they tell both.
pub(crate) fn first_char(encoding: Encoding, bytes: &[u8]) -> Option<(char, usize)>
    requires known { encoding ≡ variant.Utf16 → length bytes.now < 2 }
    ensures first { IfSome result (λ p. IsFirst encoding bytes.now p.0 p.1) }
    ensures unfinished { IsNone result → IsUnfinished encoding bytes.now }
{
    match encoding {
        Encoding::Latin1 => bytes.first().map(|byte| (char::from(*byte), 1)),
        Encoding::Windows1252 => bytes.first().map(|byte| (windows_1252(*byte), 1)),
        Encoding::Utf16 => None,
        Encoding::Utf16In(order) => first_of_units(order, bytes),
    }
}

/// The same of bytes in UTF-16 in this order.
fn first_of_units(order: Order, bytes: &[u8]) -> Option<(char, usize)>
    ensures first { IfSome result (λ p. IsFirst (variant.Utf16In order) bytes.now p.0 p.1) }
    ensures unfinished { IsNone result → IsUnfinishedUnit order bytes.now }
{
    match bytes {
        [a, b, c, d, ..] => Some(of_units(unit(order, *a, *b), unit(order, *c, *d))),
        [a, b, ..] => alone(unit(order, *a, *b)),
        _ => None,
    }
}

/// The first character of two units, and how many bytes it takes.
fn of_units(first: u16, second: u16) -> (char, usize)
    ensures { result ≡ first_of_two first second }
{
    match pair(first, second) {
        Some(c) => (c, 4),
        None => (lone(first), 2),
    }
}

/// The character of a unit, where it is in no pair whatever comes after it, and its two bytes.
fn alone(unit: u16) -> Option<(char, usize)>
    ensures { MatchOption result (is_high_surrogate unit ≡ true)
        (λ p. (is_high_surrogate unit ≡ false) × (p ≡ (lone unit, 2))) }
{
    if is_high_surrogate(unit) {
        return None;
    }
    Some((lone(unit), 2))
}

/// The first character of bytes that nothing comes after, where they are unfinished, and how many
/// of them it takes.
pub(crate) fn left_over(bytes: &[u8]) -> Option<(char, usize)>
    ensures some { IfSome result (λ p. (0 < p.1) × (p.1 ≤ length bytes.now) ×
        ((e : Encoding) → IsUnfinished e bytes.now →
        characters e bytes.now ≡ p.0 ∷ characters e (drop p.1 bytes.now))) }
    ensures none { IsNone result → bytes.now ≡ [] }
{
    match bytes {
        [] => None,
        [_] => Some((REPLACEMENT, 1)),
        _ => Some((REPLACEMENT, 2)),
    }
}
