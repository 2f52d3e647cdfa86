//! The numbers of a running text.
ghost use Rattle.std.specs.Prelude.{◌≡◌, ◌<◌, IfOk, MatchOption, None, Some, if◌then◌else◌, true};
ghost use Rattle.std.specs.Prelude.{IsCharBoundary, chars, drop, slice_range, take};
ghost use Rattle.phone_values.specs.declared.reading.Reading.{Reading};
ghost use Rattle.phone_find.specs.Leniencies.{suffices_in};
ghost use Rattle.phone_find.specs.Standing.{is_candidate, is_end};
ghost use Rattle.phone_find.specs.declared.leniency.Leniency.TheVariants as leniency;
ghost use Rattle.phone_find.specs.Numbers.{AreNumbers, IsNumberAt, IsReadWell};

use crate::leniency::{Leniency, suffices_in};
use crate::search::{Found, Judge, all_accepted};
use crate::{from_too_many, is_plain, is_shaped, may_begin, may_end};
use phone_engine::Engine;
use phone_values::ParseError;
use phonenumber::PhoneNumber;
use std::alloc::{AllocError, Global};

/// What accepts the numbers that an engine reads and that suffice.
#[derive(Drop)]
struct Sufficient<'d> {
    engine: Engine<'d>,
    leniency: Leniency,
}

impl<'d> Judge<PhoneNumber> for Sufficient<'d> {
    ghost use Rattle.phone_find.specs.Numbers.{IsNumberAt};

    ghost accepts = { λ s t from to n.
        IsNumberAt s.engine.rules s.engine.database.now s.engine.hint s.leniency t from to n };

    fn may_begin(&self, text: &str, start: usize) -> bool {
        may_begin(&text[..start], &text[start..])
    }

    fn reach(&self, text: &str, start: usize) -> usize {
        let most = text.floor_char_boundary(start.saturating_add(250));
        most.saturating_sub(from_too_many(&text[start..most]).len())
    }

    fn judge(
        &self,
        alloc: Global,
        text: &str,
        start: usize,
        end: usize,
    ) -> Result<Option<PhoneNumber>, AllocError> {
        number_at(self.engine, self.leniency, text, start, end)
    }
}

/// Whether a piece of a text, which may end where it does, may be a number, by its characters.
fn is_candidate(text: &str, start: usize, end: usize) -> bool
    requires from_border { IsCharBoundary text.now start }
    requires to_border { IsCharBoundary text.now end }
    requires some { start < end }
    requires ended { is_end (chars (slice_range text.now start end)) (chars (drop end text.now)) ≡
        true }
    ensures { result ≡ is_candidate (chars (take start text.now))
        (chars (slice_range text.now start end)) (chars (drop end text.now)) }
{
    if !is_shaped(&text[start..end]) {
        return false;
    }
    may_begin(&text[..start], &text[start..])
}

/// The number that a piece of a text is, where it may be one by the characters, and is read as one
/// that suffices. It is read before all of its characters are looked at, since most pieces are no
/// number at once. Refused only for memory.
fn number_at(
    engine: Engine<'_>,
    leniency: Leniency,
    text: &str,
    start: usize,
    end: usize,
) -> Result<Option<PhoneNumber>, AllocError>
    requires from_border { IsCharBoundary text.now start }
    requires to_border { IsCharBoundary text.now end }
    requires some { start < end }
    ensures { IfOk result (λ told. MatchOption told
        ((n : Reading) → ¬ (IsNumberAt engine.entry.rules engine.entry.database.now
        engine.entry.hint leniency text.now start end n))
        (λ n. IsNumberAt engine.entry.rules engine.entry.database.now
        engine.entry.hint leniency text.now start end n)) }
{
    if !may_end(&text[start..end], &text[end..]) {
        return Ok(None);
    }
    if !is_plain(&text[start..end]) {
        return Ok(None);
    }
    match number_in(engine, leniency, &text[start..end])? {
        Some(number) => Ok(where_candidate(text, start, end, number)),
        None => Ok(None),
    }
}

/// The number that a piece of a text, which may end where it does, is read as, where the piece may
/// be one by the characters.
fn where_candidate(text: &str, start: usize, end: usize, number: PhoneNumber) -> Option<PhoneNumber>
    requires from_border { IsCharBoundary text.now start }
    requires to_border { IsCharBoundary text.now end }
    requires some { start < end }
    requires ended { is_end (chars (slice_range text.now start end)) (chars (drop end text.now)) ≡
        true }
    ensures { result ≡ (if is_candidate (chars (take start text.now))
        (chars (slice_range text.now start end)) (chars (drop end text.now))
        then Some number else None) }
{
    if is_candidate(text, start, end) {
        Some(number)
    } else {
        None
    }
}

/// The number that a text is read as, where it is read as one that suffices. Refused only for
/// memory.
fn number_in(
    engine: Engine<'_>,
    leniency: Leniency,
    text: &str,
) -> Result<Option<PhoneNumber>, AllocError>
    ensures { IfOk result (λ told. MatchOption told
        ((n : Reading) → ¬ (IsReadWell
        engine.entry.rules engine.entry.database.now engine.entry.hint leniency text.now n))
        (λ n. IsReadWell
        engine.entry.rules engine.entry.database.now engine.entry.hint leniency text.now n)) }
{
    match engine.parse(text) {
        Ok(number) => where_sufficient(engine, leniency, number, text),
        Err(error) => without_number(error),
    }
}

/// No number, where a text isn't read as one. Refused where memory was.
fn without_number(error: ParseError) -> Result<Option<PhoneNumber>, AllocError>
    ensures { IfOk result (λ told. (told ≡ None) × ¬ (error ≡ ParseError.Memory)) }
{
    match error {
        ParseError::Memory => Err(AllocError),
        _ => Ok(None),
    }
}

/// The number that is read from a text, where it suffices there. Refused only for memory.
fn where_sufficient(
    engine: Engine<'_>,
    leniency: Leniency,
    number: PhoneNumber,
    text: &str,
) -> Result<Option<PhoneNumber>, AllocError>
    ensures { IfOk result (λ told. told ≡ (if suffices_in engine.entry.rules
        engine.entry.database.now leniency (chars text.now) number then Some number else None)) }
{
    if suffices_in(engine, leniency, &number, text)? {
        Ok(Some(number))
    } else {
        Ok(None)
    }
}

/// The numbers that stand in a running text, such as a mail or a page, each with the place of its
/// first byte and that behind its last, both between characters. A number is a piece of at most 250
/// bytes that begins at a plus sign, an opening bracket or a digit, and ends in a digit, or in the
/// number sign of an extension; that is digits, plus signs and what may stand between groups, and
/// behind them perhaps an announced extension, as in ` ext. 12`; that is neither a part of
/// something longer nor taken for something else, such as a date, a price, an account number or a
/// time, by the rules of `standing`; and that the engine reads, by itself, as a number
/// that suffices. Of a valid one libphonenumber's rules ask, too, that it has the national prefix
/// that its layout writes, unless a plus sign, an international prefix or the calling code leads
/// it.
///
/// The numbers come in their order and don't overlap: the piece that begins first counts, and of
/// those that begin there the longest. The time is linear in the text: at each place at most 250
/// pieces are looked at. Refused only for memory.
pub fn find_numbers_with(
    engine: Engine<'_>,
    leniency: Leniency,
    text: &str,
) -> Result<Vec<Found<PhoneNumber>>, AllocError>
    ensures { IfOk result (λ all. AreNumbers
        engine.entry.rules engine.entry.database.now engine.entry.hint
        leniency text.now all.items) }
{
    let judge = Sufficient { engine, leniency };
    all_accepted(engine.database.allocator(), &judge, text)
}

/// The valid numbers that stand in a running text: [`find_numbers_with`], [`Leniency::Valid`].
pub fn find_numbers(engine: Engine<'_>, text: &str) -> Result<Vec<Found<PhoneNumber>>, AllocError>
    ensures { IfOk result (λ all. AreNumbers
        engine.entry.rules engine.entry.database.now engine.entry.hint
        leniency.Valid text.now all.items) }
{
    find_numbers_with(engine, Leniency::Valid, text)
}
