//! The texts and hints of a column, as they are given.
ghost use Rattle.std.specs.Prelude.{◌≡◌, ◌↔◌, ℕ, IfSome, IsSome, [], true, unwrap_or};
ghost use Rattle.std.specs.Option.{option_copied};
ghost use Rattle.phone_columns.specs.Calls.{are_given, are_hints, hint_in, rows_of, seen};
ghost use Rattle.phone_columns.specs.Rows.{hint_at, rows_from};

use phone_arrow::Texts;

/// A column in Arrow's layout, as a call is given it: its texts stand side by side in the bytes,
/// each between two neighbours of the offsets; the bitmap, which may have no byte, says which are
/// there, the first text's flag being at place `first`.
#[repr(C)]
#[derive(Clone, Copy)]
pub struct Layout<'a> {
    /// The offsets, one more than there are texts.
    pub offsets: &'a [u64],
    /// The bytes of the texts.
    pub bytes: &'a [u8],
    /// The bitmap.
    pub bits: &'a [u8],
    /// The place of the first text's flag.
    pub first: usize,
}

/// The same with offsets of 32 bits.
#[repr(C)]
#[derive(Clone, Copy)]
pub struct Narrow<'a> {
    /// The offsets, one more than there are texts.
    pub offsets: &'a [u32],
    /// The bytes of the texts.
    pub bytes: &'a [u8],
    /// The bitmap.
    pub bits: &'a [u8],
    /// The place of the first text's flag.
    pub first: usize,
}

impl<'a> Narrow<'a> {
    /// The same column with these offsets.
    pub(crate) fn with(self, offsets: &'a [u64]) -> Layout<'a>
        ensures offsets { result.offsets.now ≡ offsets.now }
        ensures bytes { result.bytes.now ≡ self.entry.bytes.now }
        ensures bits { result.bits.now ≡ self.entry.bits.now }
        ensures first { result.first ≡ self.entry.first }
    {
        Layout {
            offsets,
            bytes: self.bytes,
            bits: self.bits,
            first: self.first,
        }
    }
}

/// The hints of a column's texts.
#[derive(Drop)]
pub enum Hints<'a> {
    /// One for all: its bytes.
    One(&'a [u8]),
    /// For each text its own; none where it isn't there.
    Each(Texts<'a>),
}

impl<'a> Hints<'a> {
    /// The bytes of the hint of the text at this place; none where there is no hint.
    pub fn at(&self, place: usize) -> &'a [u8]
        ensures { result.now ≡ hint_at self.now place }
    {
        match self {
            Hints::One(hint) => hint,
            Hints::Each(hints) => or_none(hints.get(place)),
        }
    }
}

/// Bytes, or none of them where they aren't there.
fn or_none(bytes: Option<&[u8]>) -> &[u8]
    ensures { result.now ≡ unwrap_or (option_copied bytes.entry) [] }
{
    match bytes {
        Some(bytes) => bytes,
        None => b"",
    }
}

/// A column's texts with their hints.
#[derive(Drop)]
pub struct Given<'a> {
    /// The texts.
    pub texts: Texts<'a>,
    /// Their hints.
    pub hints: Hints<'a>,
}

/// The texts and hints that a call is given. Hints without an offset are one for all texts, whose
/// bytes are those of the hints. None exactly where the texts are no column, or the hints neither
/// that nor a column of as many.
#[tactic(auto, using(crate::proofs::RowLemmas::rows_seen))]
pub fn read_layouts<'a>(texts: Layout<'a>, hints: Layout<'a>) -> Option<Given<'a>>
    ensures rows { IfSome result (λ g. rows_from 0 g.texts (hint_at g.hints) ≡
        rows_of (seen texts.entry) (seen hints.entry)) }
    ensures some { IsSome result ↔ (are_given (seen texts.entry) (seen hints.entry) ≡ true) }
{
    let count = texts.offsets.len();
    let texts = Texts::new(texts.offsets, texts.bytes, texts.bits, texts.first)?;
    let hints = hints_for(hints, count)?;
    Some(Given { texts, hints })
}

/// The hints of so many texts less one.
fn hints_for(hints: Layout<'_>, count: usize) -> Option<Hints<'_>>
    ensures hints { IfSome result (λ h. (place : ℕ) →
        hint_at h place ≡ hint_in (seen hints.entry) place) }
    ensures some { IsSome result ↔ (are_hints (seen hints.entry) count ≡ true) }
{
    if hints.offsets.is_empty() {
        return Some(Hints::One(hints.bytes));
    }
    let of_each = Texts::new(hints.offsets, hints.bytes, hints.bits, hints.first)?;
    if hints.offsets.len() - 1 == count.saturating_sub(1) {
        Some(Hints::Each(of_each))
    } else {
        None
    }
}
