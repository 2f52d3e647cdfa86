//! Where the numbers of a running text stand, in a buffer.
ghost use Rattle.std.specs.Prelude.{◌≡◌, ◌↔◌, [], IfNone, IfOk, IfSome, IsUtf8, None};
ghost use Rattle.std.specs.Prelude.{unwrap_or};
ghost use Rattle.std.specs.Option.{option_copied};
ghost use Rattle.phone_c_base.specs.Buffers.{IsTooLongA, IsWrittenA};
ghost use Rattle.phone_c_base.specs.Hints.{UnderHint, hint_of};
ghost use Rattle.phone_c_questions.specs.Found.{ArePlaces, ArePlacesBy, IsNoLeniency};
ghost use Rattle.phone_c_questions.specs.Found.{UnderLeniency, leniency_number, place_of};
ghost use Rattle.phone_c_questions.specs.Found.{places_of};

use phone_c_base::buffer::give;
use phone_c_base::found::Place;
use phone_c_base::hint::hint_of;
use phone_c_base::status::{CLOSED, MEMORY, NO_LENIENCY, NO_REGION, NOT_UTF8, OK, TOO_SMALL};
use phone_matches::{Leniency, Match, find_matches_by};
use phone_plans::Plans;
use phone_values::country::Id;
use phonenumber::PhoneNumber;
use std::alloc::{AllocError, Global};

/// The leniency that has this number; none for others than these.
fn leniency_of(number: u32) -> Option<Leniency>
    ensures found { IfSome result (λ l. number ≡ leniency_number l) }
    ensures none { IfNone result (IsNoLeniency number) }
{
    match number {
        0 => Some(Leniency::Possible),
        1 => Some(Leniency::Valid),
        2 => Some(Leniency::StrictGrouping),
        3 => Some(Leniency::ExactGrouping),
        _ => None,
    }
}

/// Where a match stands; none where its end is no `usize`, which no text in memory has.
fn place_of(found: &Match<'_, PhoneNumber>) -> Option<Place>
    ensures { IfSome result (λ p. p ≡ place_of found.now) }
{
    let start = found.place.before.len();
    let end = start.checked_add(found.place.text.len())?;
    Some(Place { start, end })
}

/// Where matches stand. Refused only for memory.
fn places_of(alloc: Global, all: &[Match<'_, PhoneNumber>]) -> Result<Vec<Place>, AllocError>
    ensures { IfOk result (λ v. v.items ≡ places_of all.now) }
{
    let mut places = Vec::new(alloc);
    for found in all {
        let Some(place) = place_of(found) else {
            return Err(AllocError);
        };
        places.push(place)?;
    }
    Ok(places)
}

/// Where the numbers of a text stand. Refused only for memory.
fn places_in(
    database: &Plans,
    alternates: Option<&Plans>,
    hint: Option<Id>,
    leniency: Leniency,
    tries: u64,
    text: &str,
) -> Result<Vec<Place>, AllocError>
    ensures { IfOk result (λ v. ArePlacesBy database.now
        (unwrap_or (option_copied alternates.entry) []) hint leniency tries text.now v.items) }
{
    let all = find_matches_by(database, alternates, hint, leniency, tries, text)?;
    Ok(places_of(database.allocator(), all.as_slice())?)
}

/// Where the numbers of a text stand, in a buffer, under a hint and a leniency.
fn matches_under(
    database: &Plans,
    alternates: Option<&Plans>,
    hint: Option<Id>,
    leniency: Leniency,
    tries: u64,
    text: &[u8],
    out: &mut [Place],
    wrote: &mut usize,
) -> u32
    ensures written { result ≡ OK → IsWrittenA
        (ArePlacesBy database.now (unwrap_or (option_copied alternates.entry) []) hint leniency
        tries text.now) out.old out.new wrote.new }
    ensures too_small { result ≡ TOO_SMALL → IsTooLongA
        (ArePlacesBy database.now (unwrap_or (option_copied alternates.entry) []) hint leniency
        tries text.now) out.old out.new wrote.new }
    ensures not_utf8 { (result ≡ NOT_UTF8) ↔ ¬ (IsUtf8 text.now) }
    ensures other { ¬ (result ≡ OK) → ¬ (result ≡ TOO_SMALL) → ¬ (result ≡ NOT_UTF8) →
        result ≡ MEMORY }
    ensures untouched { ¬ (result ≡ OK) → out.new ≡ out.old }
    ensures no_length { ¬ (result ≡ OK) → ¬ (result ≡ TOO_SMALL) → wrote.new ≡ 0 }
{
    *wrote = 0;
    let Ok(text) = std::str::from_utf8(text) else {
        return NOT_UTF8;
    };
    match places_in(database, alternates, hint, leniency, tries, text) {
        Ok(places) => give(places.as_slice(), out, wrote),
        Err(_) => MEMORY,
    }
}

/// The same by alternate layouts, where there are some.
fn matches_given(
    database: &Plans,
    alternates: Option<&Plans>,
    hint: &[u8],
    leniency: u32,
    tries: u64,
    text: &[u8],
    out: &mut [Place],
    wrote: &mut usize,
) -> u32
    ensures written { result ≡ OK → UnderHint hint.now (λ h.
        UnderLeniency leniency (λ l. IsWrittenA
        (ArePlacesBy database.now (unwrap_or (option_copied alternates.entry) []) h l tries
        text.now) out.old out.new wrote.new)) }
    ensures too_small { result ≡ TOO_SMALL → UnderHint hint.now (λ h.
        UnderLeniency leniency (λ l. IsTooLongA
        (ArePlacesBy database.now (unwrap_or (option_copied alternates.entry) []) h l tries
        text.now) out.old out.new wrote.new)) }
    ensures closed { ¬ (result ≡ CLOSED) }
    ensures no_leniency { (result ≡ NO_LENIENCY) ↔ IsNoLeniency leniency }
    ensures no_region { (result ≡ NO_REGION) ↔
        (¬ (IsNoLeniency leniency) × (hint_of hint.now ≡ None)) }
    ensures not_utf8 { (result ≡ NOT_UTF8) ↔
        (¬ (IsNoLeniency leniency) × ¬ (hint_of hint.now ≡ None) × ¬ (IsUtf8 text.now)) }
    ensures other { ¬ (result ≡ OK) → ¬ (result ≡ TOO_SMALL) → ¬ (result ≡ NO_LENIENCY) →
        ¬ (result ≡ NO_REGION) → ¬ (result ≡ NOT_UTF8) → result ≡ MEMORY }
    ensures untouched { ¬ (result ≡ OK) → out.new ≡ out.old }
    ensures no_length { ¬ (result ≡ OK) → ¬ (result ≡ TOO_SMALL) → wrote.new ≡ 0 }
{
    *wrote = 0;
    let Some(leniency) = leniency_of(leniency) else {
        return NO_LENIENCY;
    };
    let Some(hint) = hint_of(hint) else {
        return NO_REGION;
    };
    matches_under(
        database, alternates, hint, leniency, tries, text, out, wrote,
    )
}

/// Where the numbers of a text stand, in a buffer, without alternate layouts.
///
/// `NO_LENIENCY` exactly where the leniency is above 3, else `NO_REGION` exactly where the hint has
/// a byte and is no region's id, else `NOT_UTF8` exactly where the text isn't UTF-8; `TOO_SMALL`,
/// `MEMORY`. For each but `OK` `out` is as it was.
pub fn matches(
    database: &Plans,
    hint: &[u8],
    leniency: u32,
    tries: u64,
    text: &[u8],
    out: &mut [Place],
    wrote: &mut usize,
) -> u32
    ensures written { result ≡ OK → UnderHint hint.now (λ h.
        UnderLeniency leniency (λ l. IsWrittenA
        (ArePlaces database.now h l tries text.now) out.old out.new wrote.new)) }
    ensures too_small { result ≡ TOO_SMALL → UnderHint hint.now (λ h.
        UnderLeniency leniency (λ l. IsTooLongA
        (ArePlaces database.now h l tries text.now) out.old out.new wrote.new)) }
    ensures closed { ¬ (result ≡ CLOSED) }
    ensures no_leniency { (result ≡ NO_LENIENCY) ↔ IsNoLeniency leniency }
    ensures no_region { (result ≡ NO_REGION) ↔
        (¬ (IsNoLeniency leniency) × (hint_of hint.now ≡ None)) }
    ensures not_utf8 { (result ≡ NOT_UTF8) ↔
        (¬ (IsNoLeniency leniency) × ¬ (hint_of hint.now ≡ None) × ¬ (IsUtf8 text.now)) }
    ensures other { ¬ (result ≡ OK) → ¬ (result ≡ TOO_SMALL) → ¬ (result ≡ NO_LENIENCY) →
        ¬ (result ≡ NO_REGION) → ¬ (result ≡ NOT_UTF8) → result ≡ MEMORY }
    ensures untouched { ¬ (result ≡ OK) → out.new ≡ out.old }
    ensures no_length { ¬ (result ≡ OK) → ¬ (result ≡ TOO_SMALL) → wrote.new ≡ 0 }
{
    matches_given(database, None, hint, leniency, tries, text, out, wrote)
}

/// The same by alternate layouts: where groups are asked for, those of this database count too.
pub fn matches_by(
    database: &Plans,
    alternates: &Plans,
    hint: &[u8],
    leniency: u32,
    tries: u64,
    text: &[u8],
    out: &mut [Place],
    wrote: &mut usize,
) -> u32
    ensures written { result ≡ OK → UnderHint hint.now (λ h.
        UnderLeniency leniency (λ l. IsWrittenA
        (ArePlacesBy database.now alternates.now h l tries text.now) out.old out.new wrote.new)) }
    ensures too_small { result ≡ TOO_SMALL → UnderHint hint.now (λ h.
        UnderLeniency leniency (λ l. IsTooLongA
        (ArePlacesBy database.now alternates.now h l tries text.now) out.old out.new wrote.new)) }
    ensures closed { ¬ (result ≡ CLOSED) }
    ensures no_leniency { (result ≡ NO_LENIENCY) ↔ IsNoLeniency leniency }
    ensures no_region { (result ≡ NO_REGION) ↔
        (¬ (IsNoLeniency leniency) × (hint_of hint.now ≡ None)) }
    ensures not_utf8 { (result ≡ NOT_UTF8) ↔
        (¬ (IsNoLeniency leniency) × ¬ (hint_of hint.now ≡ None) × ¬ (IsUtf8 text.now)) }
    ensures other { ¬ (result ≡ OK) → ¬ (result ≡ TOO_SMALL) → ¬ (result ≡ NO_LENIENCY) →
        ¬ (result ≡ NO_REGION) → ¬ (result ≡ NOT_UTF8) → result ≡ MEMORY }
    ensures untouched { ¬ (result ≡ OK) → out.new ≡ out.old }
    ensures no_length { ¬ (result ≡ OK) → ¬ (result ≡ TOO_SMALL) → wrote.new ≡ 0 }
{
    matches_given(
        database,
        Some(alternates),
        hint,
        leniency,
        tries,
        text,
        out,
        wrote,
    )
}
