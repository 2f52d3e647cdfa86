//! The numbers of a running text.
ghost use Rattle.std.specs.Prelude.{◌≡◌, ◌↔◌, [], IfOk, IfSome, MatchOption, None, chars};
ghost use Rattle.std.specs.Prelude.{unwrap_or};
ghost use Rattle.std.specs.Option.{option_copied};
ghost use Rattle.phone_library.specs.Readings.{ReadsByLibrary};
ghost use Rattle.phone_matches.specs.Leniencies.{Suffices};
ghost use Rattle.phone_matches.specs.Numbers.{AreNumbers, AreNumbersBy, IsNumberBy};
ghost use Rattle.phone_matches.specs.Numbers.{IsReadWell, may_be_number};
ghost use Rattle.phone_matches.specs.declared.leniency.Leniency.TheVariants as leniency;
ghost use Rattle.phone_matches.specs.Told.{AllMatchThere, told_matches};
ghost use Rattle.phone_values.specs.declared.reading.Reading.{Reading};

use crate::leniency::{Leniency, is_free, suffices};
use crate::{Judge, Match, all_matches};
use phone_library::parse;
use phone_library_laws::readings;
use phone_matches_text::{has_good_brackets, has_pages};
use phone_plans::Plans;
use phone_values::ParseError;
use phone_values::country::Id;
use phonenumber::PhoneNumber;
use std::alloc::{AllocError, Global};

/// What accepts the pieces of a text that are numbers.
#[derive(Drop)]
struct Sufficient<'d> {
    database: &'d Plans,
    alternates: Option<&'d Plans>,
    hint: Option<Id>,
    leniency: Leniency,
}

impl<'d> Judge<PhoneNumber> for Sufficient<'d> {
    ghost use Rattle.std.specs.Prelude.{[], unwrap_or};
    ghost use Rattle.std.specs.Option.{option_copied};
    ghost use Rattle.phone_matches.specs.Numbers.{IsNumberBy};

    ghost accepts = { λ s. IsNumberBy s.database.now
        (unwrap_or (option_copied s.alternates) []) s.hint s.leniency };

    fn judge(
        &self,
        _alloc: Global,
        before: &str,
        piece: &str,
        after: &str,
    ) -> Result<Option<PhoneNumber>, AllocError> {
        number_between(
            self.database,
            self.alternates,
            self.hint,
            self.leniency,
            before,
            piece,
            after,
        )
    }
}

/// Whether a piece of a text may be a number: its brackets are good, it has no page numbers, and
/// what stands beside it may stand there.
fn may_be_number(leniency: Leniency, before: &str, piece: &str, after: &str) -> bool
    ensures { result ≡
        may_be_number leniency (chars before.now) (chars piece.now) (chars after.now) }
{
    has_good_brackets(piece) && !has_pages(piece) && is_free(leniency, before, piece, after)
}

/// The number that a piece of a text is between what stands before it and after it. Refused only
/// for memory.
fn number_between(
    db: &Plans,
    alternates: Option<&Plans>,
    hint: Option<Id>,
    leniency: Leniency,
    before: &str,
    piece: &str,
    after: &str,
) -> Result<Option<PhoneNumber>, AllocError>
    ensures told { IfOk result (λ told. MatchOption told
        ((n : Reading) → ¬ (IsNumberBy db.now
        (unwrap_or (option_copied alternates.entry) []) hint leniency
        (chars before.now) (chars piece.now) (chars after.now) n))
        (λ n. IsNumberBy db.now
        (unwrap_or (option_copied alternates.entry) []) hint leniency
        (chars before.now) (chars piece.now) (chars after.now) n)) }
    ensures some { IfOk result (λ told. IfSome told (λ _. ¬ (piece.now ≡ []))) }
{
    if !may_be_number(leniency, before, piece, after) {
        return Ok(None);
    }
    number_in(db, alternates, hint, leniency, piece)
}

/// The number that a text is read as, where it suffices. Refused only for memory.
fn number_in(
    db: &Plans,
    alternates: Option<&Plans>,
    hint: Option<Id>,
    leniency: Leniency,
    text: &str,
) -> Result<Option<PhoneNumber>, AllocError>
    ensures { IfOk result (λ told. MatchOption told
        ((n : Reading) → ¬ (IsReadWell db.now (unwrap_or (option_copied alternates.entry) []) hint
        leniency (chars text.now) n))
        (λ n. IsReadWell db.now (unwrap_or (option_copied alternates.entry) []) hint
        leniency (chars text.now) n)) }
{
    readings::one_reading();
    match parse(db, hint, text) {
        Ok(number) => where_sufficient(db, alternates, leniency, number, text),
        Err(error) => without_number(error),
    }
}

/// No number, where a text isn't read as one. Refused where memory was.
fn without_number(error: ParseError) -> Result<Option<PhoneNumber>, AllocError>
    ensures { IfOk result (λ told. (told ≡ None) × ¬ (error ≡ ParseError.Memory)) }
{
    match error {
        ParseError::Memory => Err(AllocError),
        _ => Ok(None),
    }
}

/// The number that is read from a text, where it suffices. Refused only for memory.
fn where_sufficient(
    db: &Plans,
    alternates: Option<&Plans>,
    leniency: Leniency,
    number: PhoneNumber,
    text: &str,
) -> Result<Option<PhoneNumber>, AllocError>
    ensures { IfOk result (λ told. MatchOption told
        (¬ (Suffices db.now (unwrap_or (option_copied alternates.entry) []) number
        (chars text.now) leniency))
        (λ n. (n ≡ number) × Suffices db.now (unwrap_or (option_copied alternates.entry) [])
        number (chars text.now) leniency)) }
{
    if suffices(db, alternates, leniency, &number, text)? {
        Ok(Some(number))
    } else {
        Ok(None)
    }
}

/// The numbers of a running text, such as a mail or a page, as libphonenumber finds them, each with
/// its place. The hint is the region that a text without a plus sign is dialled in.
///
/// Candidates are looked for by their characters: digits in groups, perhaps led by a bracket or a
/// plus sign, perhaps with an extension. A date or a time is none. A candidate that is read as a
/// number that suffices is a match as a whole, else the first of its pieces that is; behind a match
/// the search goes on at its end, which may lie inside a candidate. So matches come in their order
/// and don't overlap.
///
/// Where groups are asked for, alternate layouts are those of a database of such, where there is
/// one: its territories' national layouts.
///
/// The tries are how many candidates and pieces without match are looked at. Refused only for
/// memory.
pub fn find_matches_by<'a>(
    database: &Plans,
    alternates: Option<&Plans>,
    hint: Option<Id>,
    leniency: Leniency,
    tries: u64,
    text: &'a str,
) -> Result<Vec<Match<'a, PhoneNumber>>, AllocError>
    ensures numbers { IfOk result (λ all. AreNumbersBy database.now
        (unwrap_or (option_copied alternates.entry) []) hint leniency tries
        (chars text.now) (told_matches all.items)) }
    ensures stand { IfOk result (λ all. AllMatchThere text.now all.items) }
{
    let judge = Sufficient {
        database,
        alternates,
        hint,
        leniency,
    };
    all_matches(database.allocator(), &judge, text, tries)
}

/// The numbers of a running text: [`find_matches_by`], without alternate layouts.
pub fn find_matches_within<'a>(
    database: &Plans,
    hint: Option<Id>,
    leniency: Leniency,
    tries: u64,
    text: &'a str,
) -> Result<Vec<Match<'a, PhoneNumber>>, AllocError>
    ensures numbers { IfOk result (λ all. AreNumbers database.now hint leniency tries
        (chars text.now) (told_matches all.items)) }
    ensures stand { IfOk result (λ all. AllMatchThere text.now all.items) }
{
    find_matches_by(database, None, hint, leniency, tries, text)
}

/// The valid numbers of a running text: [`find_matches_within`], [`Leniency::Valid`], 2^64 - 1
/// tries, which no text that memory holds uses up.
pub fn find_matches<'a>(
    database: &Plans,
    hint: Option<Id>,
    text: &'a str,
) -> Result<Vec<Match<'a, PhoneNumber>>, AllocError>
    ensures numbers { IfOk result (λ all. AreNumbers database.now hint leniency.Valid
        18446744073709551615 (chars text.now) (told_matches all.items)) }
    ensures stand { IfOk result (λ all. AllMatchThere text.now all.items) }
{
    find_matches_within(database, hint, Leniency::Valid, u64::MAX, text)
}
