//! What an atlas tells of a number that is given as plain numbers, in a buffer.
ghost use Rattle.std.specs.Prelude.{◌≡◌, ◌↔◌, ℕ, IfOk, List};
ghost use Rattle.phone_languages.specs.declared.atlas.Atlas.{Atlas as Lent};
ghost use Rattle.phone_records.specs.declared.loader.Metadata as loader;
ghost use Rattle.phone_values.specs.declared.reading.Reading.{Reading};
ghost use Rattle.phone_c_base.specs.Buffers.{IsTooLongA, IsWrittenA};
ghost use Rattle.phone_c_base.specs.Numbers.{AreNoNumber};
ghost use Rattle.phone_c.specs.Atlases.{IsAtlasClosed, IsAtlasKept};
ghost use Rattle.phone_c.specs.Places.{IsToldBy, IsToldOf};

use crate::places::handle::{AtlasHandle, put_atlas, take_atlas};
use crate::places::owned::OwnedAtlas;
use phone_c_base::buffer::give;
use phone_c_base::number::{Number, to_phone_number};
use phone_c_base::status::{BAD_NUMBER, CLOSED, MEMORY, OK, TOO_SMALL};
use phone_languages::Atlas;
use phone_plans::Plans;
use phonenumber::PhoneNumber;
use std::alloc::{AllocError, Global};

/// A text that an atlas tells of a number. Contracts see which.
pub trait AtlasText {
    // By a database and an atlas this is told of a number.
    ghost tells: { Self → List loader.Metadata → Lent → Reading → List ℕ → Type 0 };

    /// The text. Refused only for memory.
    fn text<'t>(
        &self,
        database: &Plans,
        atlas: &Atlas<'t>,
        number: &PhoneNumber,
    ) -> Result<&'t str, AllocError>
        ensures { IfOk result (λ t. tells self.now database.now atlas.now number.now t.now) };
}

/// The text by the tables of a handle, in a buffer.
fn give_text<T: AtlasText>(
    asked: &T,
    database: &Plans,
    held: &OwnedAtlas,
    number: &PhoneNumber,
    out: &mut [u8],
    wrote: &mut usize,
) -> u32
    ensures written { result ≡ OK → IsWrittenA
        (IsToldBy (T.tells asked.now database.now) held.now number.now) out.old out.new wrote.new }
    ensures too_small { result ≡ TOO_SMALL → IsTooLongA
        (IsToldBy (T.tells asked.now database.now) held.now number.now) out.old out.new wrote.new }
    ensures other { ¬ (result ≡ OK) → ¬ (result ≡ TOO_SMALL) → result ≡ MEMORY }
    ensures untouched { ¬ (result ≡ OK) → out.new ≡ out.old }
    ensures no_length { ¬ (result ≡ OK) → ¬ (result ≡ TOO_SMALL) → wrote.new ≡ wrote.old }
{
    let names = [&held.names];
    let atlas = held.lend(&names);
    match asked.text(database, &atlas, number) {
        Ok(text) => give(text.as_bytes(), out, wrote),
        Err(_) => MEMORY,
    }
}

/// The same of a number that is given as plain numbers.
fn tell_text<T: AtlasText>(
    asked: &T,
    database: &Plans,
    held: &OwnedAtlas,
    number: &Number,
    bytes: &[u8],
    out: &mut [u8],
    wrote: &mut usize,
) -> u32
    ensures written { result ≡ OK → IsWrittenA (IsToldOf (T.tells asked.now database.now) held.now
        number.now bytes.now) out.old out.new wrote.new }
    ensures too_small { result ≡ TOO_SMALL → IsTooLongA (IsToldOf (T.tells asked.now database.now)
        held.now number.now bytes.now) out.old out.new wrote.new }
    ensures bad { (result ≡ BAD_NUMBER) ↔ AreNoNumber number.now bytes.now }
    ensures other { ¬ (result ≡ OK) → ¬ (result ≡ TOO_SMALL) → ¬ (result ≡ BAD_NUMBER) →
        result ≡ MEMORY }
    ensures untouched { ¬ (result ≡ OK) → out.new ≡ out.old }
    ensures no_length { ¬ (result ≡ OK) → ¬ (result ≡ TOO_SMALL) → wrote.new ≡ 0 }
{
    *wrote = 0;
    let number = match to_phone_number(database.allocator(), number, bytes) {
        Ok(number) => number,
        Err(status) => return status,
    };
    give_text(asked, database, held, &number, out, wrote)
}

/// The same by the atlas that is open behind a handle.
pub fn told<T: AtlasText>(
    asked: &T,
    alloc: Global,
    database: &Plans,
    atlas: &mut AtlasHandle,
    number: &Number,
    bytes: &[u8],
    out: &mut [u8],
    wrote: &mut usize,
) -> u32
    ensures written { result ≡ OK → IsWrittenA (IsToldOf (T.tells asked.now database.now)
        atlas.old.held number.now bytes.now) out.old out.new wrote.new }
    ensures too_small { result ≡ TOO_SMALL → IsTooLongA (IsToldOf (T.tells asked.now database.now)
        atlas.old.held number.now bytes.now) out.old out.new wrote.new }
    ensures closed { (result ≡ CLOSED) ↔ IsAtlasClosed atlas.old }
    ensures bad { (result ≡ BAD_NUMBER) ↔
        (¬ (IsAtlasClosed atlas.old) × AreNoNumber number.now bytes.now) }
    ensures other { ¬ (result ≡ OK) → ¬ (result ≡ TOO_SMALL) → ¬ (result ≡ CLOSED) →
        ¬ (result ≡ BAD_NUMBER) → result ≡ MEMORY }
    ensures untouched { ¬ (result ≡ OK) → out.new ≡ out.old }
    ensures no_length { ¬ (result ≡ OK) → ¬ (result ≡ TOO_SMALL) → wrote.new ≡ 0 }
    ensures kept { IsAtlasKept atlas.old atlas.new }
{
    *wrote = 0;
    let Some(held) = take_atlas(alloc, atlas) else {
        return CLOSED;
    };
    let status = tell_text(asked, database, &held, number, bytes, out, wrote);
    put_atlas(alloc, atlas, held);
    status
}
