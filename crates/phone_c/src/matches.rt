//! The calls that find the numbers of a running text as libphonenumber finds them.
ghost use Rattle.std.specs.Prelude.{◌≡◌, ◌⊎◌, ◌↔◌, None, IsUtf8};
ghost use Rattle.phone_c_base.specs.Buffers.{IsTooLongA, IsWrittenA};
ghost use Rattle.phone_c_base.specs.Handles.{IsClosed, IsKept};
ghost use Rattle.phone_c_base.specs.Hints.{UnderHint, hint_of};
ghost use Rattle.phone_c_questions.specs.Found.{ArePlaces, ArePlacesBy, IsNoLeniency};
ghost use Rattle.phone_c_questions.specs.Found.{UnderLeniency};

use phone_c_base::found::Place;
use phone_c_base::handle::{Handle, put, take};
use phone_c_base::status::{CLOSED, MEMORY, NO_LENIENCY, NO_REGION, NOT_UTF8, OK, TOO_SMALL};
use phone_c_questions::found::{matches, matches_by};
use std::alloc::Global;

/// Writes where the numbers of a running text stand, in their order, under the hint that
/// `phone_report` takes, as libphonenumber finds them: those that are possible, where the leniency
/// is 0; those that are valid, where it is 1; those whose groups of digits are a layout's, in their
/// order, where it is 2, and exactly, where it is 3. Of 2 and 3 libphonenumber looks at alternate
/// layouts, too, which this call has none of: `phone_matches_by` has. Whatever the rules of the
/// handle, they are libphonenumber's: what stands at a place is read by `phone_parse` under the
/// same hint and these rules as the number that was found. The tries are how many candidates and
/// pieces without number are looked at. The room of `out` and `wrote` are counts of places, as of
/// `phone_find`.
///
/// `CLOSED` exactly where the handle is closed, else `NO_LENIENCY` exactly where the leniency is
/// above 3, else `NO_REGION` exactly where the hint has a byte and is no region's id, else
/// `NOT_UTF8` exactly where the text isn't UTF-8. `TOO_SMALL` and `MEMORY` as `phone_report` has
/// them. For each but `OK` `out` is as it was.
#[unsafe(no_mangle)]
pub extern "C" fn phone_matches(
    alloc: Global,
    handle: &mut Handle,
    hint: &[u8],
    leniency: u32,
    tries: u64,
    text: &[u8],
    out: &mut [Place],
    wrote: &mut usize,
) -> u32
    ensures written { result ≡ OK → UnderHint hint.now (λ h.
        UnderLeniency leniency (λ l. IsWrittenA
        (ArePlaces handle.old.records h l tries text.now) out.old out.new wrote.new)) }
    ensures too_small { result ≡ TOO_SMALL → UnderHint hint.now (λ h.
        UnderLeniency leniency (λ l. IsTooLongA
        (ArePlaces handle.old.records h l tries text.now) out.old out.new wrote.new)) }
    ensures closed { (result ≡ CLOSED) ↔ IsClosed handle.old }
    ensures no_leniency { (result ≡ NO_LENIENCY) ↔
        (¬ (IsClosed handle.old) × IsNoLeniency leniency) }
    ensures no_region { (result ≡ NO_REGION) ↔ (¬ (IsClosed handle.old) ×
        ¬ (IsNoLeniency leniency) × (hint_of hint.now ≡ None)) }
    ensures not_utf8 { (result ≡ NOT_UTF8) ↔ (¬ (IsClosed handle.old) ×
        ¬ (IsNoLeniency leniency) × ¬ (hint_of hint.now ≡ None) × ¬ (IsUtf8 text.now)) }
    ensures other { ¬ (result ≡ OK) → ¬ (result ≡ TOO_SMALL) → ¬ (result ≡ CLOSED) →
        ¬ (result ≡ NO_LENIENCY) → ¬ (result ≡ NO_REGION) → ¬ (result ≡ NOT_UTF8) →
        result ≡ MEMORY }
    ensures untouched { ¬ (result ≡ OK) → out.new ≡ out.old }
    ensures no_length { ¬ (result ≡ OK) → ¬ (result ≡ TOO_SMALL) → wrote.new ≡ 0 }
    ensures kept { IsKept handle.old handle.new }
{
    *wrote = 0;
    let Some(opened) = take(alloc, handle) else {
        return CLOSED;
    };
    let status = matches(opened.database(), hint, leniency, tries, text, out, wrote);
    put(alloc, handle, opened);
    status
}

/// The same by alternate layouts, which a second handle has: those of the records of its database,
/// each of a calling code, as `data/alternates.json` has them. A number is grouped well where it is
/// so by one of these or by a layout of the first handle.
///
/// `CLOSED` exactly where one of the handles is closed; else all is as of `phone_matches`.
#[unsafe(no_mangle)]
#[tactic(auto, using(crate::proofs::Kept::kept))]
pub extern "C" fn phone_matches_by(
    alloc: Global,
    handle: &mut Handle,
    alternates: &mut Handle,
    hint: &[u8],
    leniency: u32,
    tries: u64,
    text: &[u8],
    out: &mut [Place],
    wrote: &mut usize,
) -> u32
    ensures written { result ≡ OK → UnderHint hint.now (λ h.
        UnderLeniency leniency (λ l. IsWrittenA
        (ArePlacesBy handle.old.records alternates.old.records h l tries text.now)
        out.old out.new wrote.new)) }
    ensures too_small { result ≡ TOO_SMALL → UnderHint hint.now (λ h.
        UnderLeniency leniency (λ l. IsTooLongA
        (ArePlacesBy handle.old.records alternates.old.records h l tries text.now)
        out.old out.new wrote.new)) }
    ensures closed { (result ≡ CLOSED) ↔ (IsClosed handle.old ⊎ IsClosed alternates.old) }
    ensures no_leniency { (result ≡ NO_LENIENCY) ↔ (¬ (IsClosed handle.old) ×
        ¬ (IsClosed alternates.old) × IsNoLeniency leniency) }
    ensures no_region { (result ≡ NO_REGION) ↔ (¬ (IsClosed handle.old) ×
        ¬ (IsClosed alternates.old) × ¬ (IsNoLeniency leniency) × (hint_of hint.now ≡ None)) }
    ensures not_utf8 { (result ≡ NOT_UTF8) ↔ (¬ (IsClosed handle.old) ×
        ¬ (IsClosed alternates.old) × ¬ (IsNoLeniency leniency) ×
        ¬ (hint_of hint.now ≡ None) × ¬ (IsUtf8 text.now)) }
    ensures other { ¬ (result ≡ OK) → ¬ (result ≡ TOO_SMALL) → ¬ (result ≡ CLOSED) →
        ¬ (result ≡ NO_LENIENCY) → ¬ (result ≡ NO_REGION) → ¬ (result ≡ NOT_UTF8) →
        result ≡ MEMORY }
    ensures untouched { ¬ (result ≡ OK) → out.new ≡ out.old }
    ensures no_length { ¬ (result ≡ OK) → ¬ (result ≡ TOO_SMALL) → wrote.new ≡ 0 }
    ensures kept { IsKept handle.old handle.new }
    ensures alternates_kept { IsKept alternates.old alternates.new }
{
    *wrote = 0;
    let Some(opened) = take(alloc, handle) else {
        return CLOSED;
    };
    let Some(own) = take(alloc, alternates) else {
        put(alloc, handle, opened);
        return CLOSED;
    };
    let (database, layouts) = (opened.database(), own.database());
    let status = matches_by(database, layouts, hint, leniency, tries, text, out, wrote);
    put(alloc, alternates, own);
    put(alloc, handle, opened);
    status
}
