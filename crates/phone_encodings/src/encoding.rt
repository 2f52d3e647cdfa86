//! The encodings.
ghost use Rattle.std.specs.Prelude.{◌≡◌, ◌<◌, ◌++◌, ℕ, List, length};
ghost use Rattle.phone_encodings.specs.Encodings.{characters};
ghost use Rattle.phone_encodings.specs.declared.encoding.Encoding.TheVariants.{Utf16};

/// The order of the two bytes of a unit of UTF-16.
#[derive(Clone, Copy, PartialEq, Eq, Debug)]
pub enum Order {
    /// The lower byte comes first: little-endian.
    LowFirst,
    /// The higher byte comes first: big-endian.
    HighFirst,
}

/// An encoding other than UTF-8.
#[derive(Clone, Copy, PartialEq, Eq, Debug)]
pub enum Encoding {
    /// ISO 8859-1: each byte is the character of its number.
    Latin1,
    /// The same, but that 27 of the bytes 128 to 159 are other characters.
    Windows1252,
    /// UTF-16 in the order that the mark in front tells, where the lower byte is first without one.
    Utf16,
    /// UTF-16 in this order.
    Utf16In(Order),
}

/// The encoding of a text that begins with these bytes, its order being known where they tell it.
pub(crate) fn known(encoding: Encoding, bytes: &[u8]) -> Encoding
    ensures same { (more : List ℕ) →
        characters result (bytes.now ++ more) ≡ characters encoding (bytes.now ++ more) }
    ensures untold { result ≡ Utf16 → length bytes.now < 2 }
{
    match encoding {
        Encoding::Utf16 => in_order(bytes),
        other => other,
    }
}

/// UTF-16 in the order that these bytes in front of a text tell.
fn in_order(bytes: &[u8]) -> Encoding
    ensures same { (more : List ℕ) →
        characters result (bytes.now ++ more) ≡ characters Utf16 (bytes.now ++ more) }
    ensures untold { result ≡ Utf16 → length bytes.now < 2 }
{
    match bytes {
        [0xFE, 0xFF, ..] => Encoding::Utf16In(Order::HighFirst),
        [_, _, ..] => Encoding::Utf16In(Order::LowFirst),
        _ => Encoding::Utf16,
    }
}
