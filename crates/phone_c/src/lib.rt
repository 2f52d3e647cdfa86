//! The reader of phone numbers for C, and for what calls C: databases behind handles, texts in
//! buffers of the caller's.
//!
//! C's variable holds a handle, a struct of one pointer that begins as null; only these calls write
//! it. Behind it stand a database and the rules by which it is asked, which are chosen where it is
//! opened. A handle serves one call at a time: a call that asks takes what is open out of it and
//! puts it back. Several handles may stand on one database, each asked in a thread of its own.
#![tactic(auto)]

ghost use Rattle.std.specs.Prelude.{◌≡◌, ◌⊎◌, ◌↔◌, ◌<◌, None, Some, IsUtf8, chars, codes};
ghost use Rattle.phone_chars.specs.Viable.{IsViable};
ghost use Rattle.phone_engine.specs.ReportLines.{IsReportLine};
ghost use Rattle.phone_c_base.specs.Buffers.{IsTooLong, IsTooLongA, IsWritten, IsWrittenA};
ghost use Rattle.phone_c_base.specs.Handles.{IsClosed, IsKept, IsOpen, IsOpenOf, IsOpenedBy};
ghost use Rattle.phone_c_base.specs.Hints.{UnderHint, hint_of};
ghost use Rattle.phone_c_base.specs.Openings.{HasForm, IsRefusalOf};
ghost use Rattle.phone_c_base.specs.Words.{status_words, word_of};

mod about;
mod alike;
mod calls;
mod columns;
mod dialling;
mod examples;
mod find;
mod keyed;
mod letters;
mod listed;
mod matches;
mod own;
mod places;
mod prefixes;
mod short;
mod typing;
mod util;

use phone_c_base::buffer::give;
use phone_c_base::engines::{engine_of, under};
use phone_c_base::handle::{Handle, close, put, take};
use phone_c_base::opening::open_database;
use phone_c_base::report::report;
use phone_c_base::rules::rules_of;
use phone_c_base::sharing::{share, share_by};
use phone_c_base::status::{CLOSED, MEMORY, NO_REGION, NO_RULES, NO_WORD, NOT_UTF8, OK, TOO_SMALL};
use phone_c_base::words::{word, words};
use phonenumber::is_viable;
use std::alloc::Global;

/// Opens the database that bytes are, as `Plans::open` reads them: the compact form of its records,
/// where they begin with that form's first line, else a JSON text. It is asked by the rules of this
/// number: 0 those of libphonenumber, 1 those of the crate. What the handle had open is closed
/// first, whatever comes of them.
///
/// `OK`: the database is open. `NO_RULES` exactly where the rules are above 1, else `NOT_UTF8`
/// exactly where the bytes don't begin so and aren't UTF-8. 8 to 12: 7 more than the number of the
/// refusal, as `LoadMetadata::number` gives it. `MEMORY`: memory was refused. For each but `OK` the
/// handle is closed.
#[unsafe(no_mangle)]
pub extern "C" fn phone_open(alloc: Global, text: &[u8], rules: u32, handle: &mut Handle) -> u32
    ensures opened { result ≡ OK → IsOpenedBy text.now rules handle.new }
    ensures no_rules { (result ≡ NO_RULES) ↔ (1 < rules) }
    ensures not_utf8 { (result ≡ NOT_UTF8) ↔ (¬ (1 < rules) × ¬ (HasForm text.now)) }
    ensures refused { ¬ (result ≡ OK) → ¬ (result ≡ NO_RULES) → ¬ (result ≡ NOT_UTF8) →
        IsRefusalOf text.now result }
    ensures closed { ¬ (result ≡ OK) → IsClosed handle.new }
{
    close(alloc, handle);
    let Some(rules) = rules_of(rules) else {
        return NO_RULES;
    };
    match open_database(alloc, text, rules) {
        Ok(opened) => {
            put(alloc, handle, opened);
            OK
        }
        Err(status) => status,
    }
}

/// Opens behind `mine` the database that is open behind `world`, asked by the same rules. It takes
/// the memory of a few words, and copies no database. What `mine` had open is closed first,
/// whatever comes.
///
/// `OK`: the database is open behind `mine`. `CLOSED` exactly where `world` is closed. `MEMORY`:
/// memory was refused. For each but `OK` `mine` is closed.
#[unsafe(no_mangle)]
pub extern "C" fn phone_share(alloc: Global, world: &mut Handle, mine: &mut Handle) -> u32
    ensures shared { result ≡ OK → IsOpen mine.new world.old.records world.old.rules }
    ensures closed { (result ≡ CLOSED) ↔ IsClosed world.old }
    ensures status { (result ≡ OK) ⊎ (result ≡ CLOSED) ⊎ (result ≡ MEMORY) }
    ensures refused { ¬ (result ≡ OK) → IsClosed mine.new }
    ensures kept { IsKept world.old world.new }
{
    share(alloc, world, mine)
}

/// The same, asked by the rules of this number, as `phone_open` takes them: two handles on one
/// database may be asked by both. `NO_RULES` exactly where the rules are above 1, before all else.
#[unsafe(no_mangle)]
#[tactic(auto, using(crate::proofs::Kept::kept))]
pub extern "C" fn phone_share_by(
    alloc: Global,
    world: &mut Handle,
    rules: u32,
    mine: &mut Handle,
) -> u32
    ensures shared { result ≡ OK → IsOpenOf mine.new world.old.records rules }
    ensures no_rules { (result ≡ NO_RULES) ↔ (1 < rules) }
    ensures closed { (result ≡ CLOSED) ↔ (¬ (1 < rules) × IsClosed world.old) }
    ensures other { ¬ (result ≡ OK) → ¬ (result ≡ NO_RULES) → ¬ (result ≡ CLOSED) →
        result ≡ MEMORY }
    ensures refused { ¬ (result ≡ OK) → IsClosed mine.new }
    ensures kept { IsKept world.old world.new }
{
    let Some(rules) = rules_of(rules) else {
        close(alloc, mine);
        return NO_RULES;
    };
    share_by(alloc, world, rules, mine)
}

/// Closes a handle; nothing where it is closed already. The database behind it is freed with the
/// last of the handles that stand on it.
#[unsafe(no_mangle)]
pub extern "C" fn phone_close(alloc: Global, handle: &mut Handle)
    ensures { IsClosed handle.new }
{
    close(alloc, handle)
}

/// Writes the report line of a line of bytes, which is without its end, as the program writes it:
/// without a line feed. The hint is a region's id, as `NZ`, or has no byte for none.
///
/// `OK`: the answer stands at the front of `out`, which is else as it was, and `wrote` is its
/// length. `TOO_SMALL` only where `out` is shorter than the answer: then `wrote` is the length that
/// it needs. `CLOSED` exactly where the handle is closed; else `NO_REGION` exactly where the hint
/// has a byte and is no region's id. `MEMORY`: memory was refused. For each but `OK` `out` is as it
/// was, and for each but these two `wrote` is 0.
#[unsafe(no_mangle)]
pub extern "C" fn phone_report(
    alloc: Global,
    handle: &mut Handle,
    hint: &[u8],
    line: &[u8],
    out: &mut [u8],
    wrote: &mut usize,
) -> u32
    ensures written { result ≡ OK → UnderHint hint.now (λ h. IsWrittenA
        (IsReportLine handle.old.rules handle.old.records h line.now) out.old out.new wrote.new) }
    ensures too_small { result ≡ TOO_SMALL → UnderHint hint.now (λ h. IsTooLongA
        (IsReportLine handle.old.rules handle.old.records h line.now) out.old out.new wrote.new) }
    ensures closed { (result ≡ CLOSED) ↔ IsClosed handle.old }
    ensures no_region { (result ≡ NO_REGION) ↔
        (¬ (IsClosed handle.old) × (hint_of hint.now ≡ None)) }
    ensures other { ¬ (result ≡ OK) → ¬ (result ≡ TOO_SMALL) → ¬ (result ≡ CLOSED) →
        ¬ (result ≡ NO_REGION) → result ≡ MEMORY }
    ensures untouched { ¬ (result ≡ OK) → out.new ≡ out.old }
    ensures no_length { ¬ (result ≡ OK) → ¬ (result ≡ TOO_SMALL) → wrote.new ≡ 0 }
    ensures kept { IsKept handle.old handle.new }
{
    *wrote = 0;
    let Some(opened) = take(alloc, handle) else {
        return CLOSED;
    };
    let status = match under(engine_of(&opened), hint) {
        Some(engine) => report(engine, line, out, wrote),
        None => NO_REGION,
    };
    put(alloc, handle, opened);
    status
}

/// Tells whether a text may be a number at all, as `is_viable` does: 1, else 0. It needs no
/// database. `NOT_UTF8` exactly where the text isn't UTF-8; then `told` is as it was; else `OK`.
#[unsafe(no_mangle)]
pub extern "C" fn phone_is_viable(text: &[u8], told: &mut u8) -> u32
    ensures viable { result ≡ OK → (told.new ≡ 1) ↔ IsViable (chars text.now) }
    ensures flag { result ≡ OK → (told.new ≡ 0) ⊎ (told.new ≡ 1) }
    ensures not_utf8 { (result ≡ NOT_UTF8) ↔ ¬ (IsUtf8 text.now) }
    ensures status { (result ≡ OK) ⊎ (result ≡ NOT_UTF8) }
    ensures untouched { ¬ (result ≡ OK) → told.new ≡ told.old }
{
    let Ok(text) = std::str::from_utf8(text) else {
        return NOT_UTF8;
    };
    *told = if is_viable(text) { 1 } else { 0 };
    OK
}

/// Writes the words of a status, whichever call answered it. It needs no database and takes no
/// memory.
///
/// `OK`: the words stand at the front of `out`, which is else as it was, and `wrote` is their
/// length. `TOO_SMALL` where `out` is shorter: then `wrote` is the length of the words. `NO_WORD`
/// exactly where no call answers the number: then `wrote` is 0. For each but `OK` `out` is as it
/// was.
#[unsafe(no_mangle)]
pub extern "C" fn phone_status_words(status: u32, out: &mut [u8], wrote: &mut usize) -> u32
    ensures written { result ≡ OK →
        IsWrittenA (λ text. status_words status ≡ Some text) out.old out.new wrote.new }
    ensures too_small { result ≡ TOO_SMALL →
        IsTooLongA (λ text. status_words status ≡ Some text) out.old out.new wrote.new }
    ensures none { (result ≡ NO_WORD) ↔ (status_words status ≡ None) }
    ensures status { (result ≡ OK) ⊎ (result ≡ TOO_SMALL) ⊎ (result ≡ NO_WORD) }
    ensures untouched { ¬ (result ≡ OK) → out.new ≡ out.old }
    ensures no_length { result ≡ NO_WORD → wrote.new ≡ 0 }
{
    words(status, out, wrote)
}

/// Writes the word of a value that a call tells by its number. The set says of what it is: 0 of
/// kinds, 1 of the ways in which a calling code was found, 2 of what a length says, 3 of how like
/// two numbers are, 4 of costs. It needs no database and takes no memory.
///
/// `OK`: the word stands at the front of `out`, which is else as it was, and `wrote` is its length.
/// `TOO_SMALL` where `out` is shorter: then `wrote` is the length of the word. `NO_WORD` exactly
/// where no value of the set has the number: then `wrote` is 0. For each but `OK` `out` is as it
/// was.
#[unsafe(no_mangle)]
pub extern "C" fn phone_word(set: u32, value: u32, out: &mut [u8], wrote: &mut usize) -> u32
    ensures written { result ≡ OK →
        IsWrittenA (λ text. word_of set value ≡ Some text) out.old out.new wrote.new }
    ensures too_small { result ≡ TOO_SMALL →
        IsTooLongA (λ text. word_of set value ≡ Some text) out.old out.new wrote.new }
    ensures none { (result ≡ NO_WORD) ↔ (word_of set value ≡ None) }
    ensures status { (result ≡ OK) ⊎ (result ≡ TOO_SMALL) ⊎ (result ≡ NO_WORD) }
    ensures untouched { ¬ (result ≡ OK) → out.new ≡ out.old }
    ensures no_length { result ≡ NO_WORD → wrote.new ≡ 0 }
{
    word(set, value, out, wrote)
}

/// The version of these calls. From 3 on a version has the calls of those before it, with what they
/// take and mean: a call that takes or means something else gets another name.
#[unsafe(no_mangle)]
pub extern "C" fn phone_version() -> u32
    ensures { result ≡ VERSION }
{
    VERSION
}

/// The version of these calls.
pub const VERSION: u32 = 3;

/// Writes the version of the table of the world that this library was released with: whose numbers
/// it has, and which release of them. A caller may open another table.
///
/// `OK`: the text stands at the front of `out`, which is else as it was, and `wrote` is its length.
/// `TOO_SMALL` where `out` is shorter: then `out` is as it was, and `wrote` is the length of the
/// text.
#[unsafe(no_mangle)]
pub extern "C" fn phone_table_version(out: &mut [u8], wrote: &mut usize) -> u32
    ensures written { result ≡ OK →
        IsWritten (codes "libphonenumber 9.0.35") out.old out.new wrote.new }
    ensures too_small { result ≡ TOO_SMALL →
        IsTooLong (codes "libphonenumber 9.0.35") out.old out.new wrote.new }
    ensures status { (result ≡ OK) ⊎ (result ≡ TOO_SMALL) }
{
    give(TABLE_VERSION.as_bytes(), out, wrote)
}

/// The version of the table of the world that this library was released with.
const TABLE_VERSION: &str = "libphonenumber 9.0.35";
