//! The description of a number that is given as plain numbers.
ghost use Rattle.std.specs.Prelude.{◌≡◌, ◌↔◌, IfOk, IsUtf8};
ghost use Rattle.std.specs.Option.{option_copied};
ghost use Rattle.phone_c_base.specs.Buffers.{IsTooLongA, IsWrittenA};
ghost use Rattle.phone_c_base.specs.Numbers.{AreNoNumber};
ghost use Rattle.phone_places.specs.Descriptions.{IsDescribed};
ghost use Rattle.phone_c.specs.Atlases.{IsAtlasClosed, IsAtlasKept};
ghost use Rattle.phone_c.specs.Places.{IsAsAsked, IsDescription, IsDescriptionOf, user_of};
ghost use Rattle.phone_c.specs.Places.{IsDescriptionBy};

use crate::places::handle::{AtlasHandle, put_atlas, take_atlas};
use crate::places::owned::OwnedAtlas;
use phone_c_base::buffer::give;
use phone_c_base::number::{Number, to_phone_number};
use phone_c_base::status::{BAD_NUMBER, CLOSED, MEMORY, NOT_UTF8, OK, TOO_SMALL};
use phone_languages::Atlas;
use phone_places::valid_description;
use phone_plans::Plans;
use phonenumber::PhoneNumber;
use std::alloc::{AllocError, Global};

/// The user's region; none where there is no byte.
fn user_of(user: &str) -> Option<&str>
    ensures { option_copied result ≡ user_of user.entry.now }
{
    if user.is_empty() { None } else { Some(user) }
}

/// The description of a number by its kind. Refused only for memory.
fn by_kind<'t>(
    database: &Plans,
    atlas: &Atlas<'t>,
    number: &PhoneNumber,
    user: Option<&str>,
) -> Result<&'t str, AllocError>
    ensures { IfOk result (λ t. IsDescription database.now atlas.now (option_copied user.entry)
        number.now t.now) }
{
    let text = phone_places::description(database, atlas, number, user)?;
    Ok(text)
}

/// The description of a number, by its kind or as it stands. Refused only for memory.
fn described<'t>(
    database: &Plans,
    atlas: &Atlas<'t>,
    number: &PhoneNumber,
    user: Option<&str>,
    as_it_stands: u8,
) -> Result<&'t str, AllocError>
    ensures { IfOk result (λ t. IsAsAsked as_it_stands
        (IsDescription database.now atlas.now (option_copied user.entry) number.now t.now)
        (IsDescribed database.now atlas.now (option_copied user.entry) number.now t.now)) }
{
    if as_it_stands == 0 {
        Ok(by_kind(database, atlas, number, user)?)
    } else {
        Ok(valid_description(database, atlas, number, user)?)
    }
}

/// The same by the tables of a handle, in a buffer.
fn give_described(
    database: &Plans,
    held: &OwnedAtlas,
    number: &PhoneNumber,
    user: &str,
    as_it_stands: u8,
    out: &mut [u8],
    wrote: &mut usize,
) -> u32
    ensures written { result ≡ OK → IsWrittenA
        (IsDescriptionBy database.now held.now number.now user.now as_it_stands)
        out.old out.new wrote.new }
    ensures too_small { result ≡ TOO_SMALL → IsTooLongA
        (IsDescriptionBy database.now held.now number.now user.now as_it_stands)
        out.old out.new wrote.new }
    ensures other { ¬ (result ≡ OK) → ¬ (result ≡ TOO_SMALL) → result ≡ MEMORY }
    ensures untouched { ¬ (result ≡ OK) → out.new ≡ out.old }
    ensures no_length { ¬ (result ≡ OK) → ¬ (result ≡ TOO_SMALL) → wrote.new ≡ wrote.old }
{
    let names = [&held.names];
    let atlas = held.lend(&names);
    match described(database, &atlas, number, user_of(user), as_it_stands) {
        Ok(text) => give(text.as_bytes(), out, wrote),
        Err(_) => MEMORY,
    }
}

/// The description of a number that is given as plain numbers, in a buffer.
fn describe(
    database: &Plans,
    held: &OwnedAtlas,
    number: &Number,
    bytes: &[u8],
    user: &[u8],
    as_it_stands: u8,
    out: &mut [u8],
    wrote: &mut usize,
) -> u32
    ensures written { result ≡ OK → IsWrittenA (IsDescriptionOf database.now held.now number.now
        bytes.now user.now as_it_stands) out.old out.new wrote.new }
    ensures too_small { result ≡ TOO_SMALL → IsTooLongA (IsDescriptionOf database.now held.now
        number.now bytes.now user.now as_it_stands) out.old out.new wrote.new }
    ensures not_utf8 { (result ≡ NOT_UTF8) ↔ ¬ (IsUtf8 user.now) }
    ensures bad { (result ≡ BAD_NUMBER) ↔
        (IsUtf8 user.now × AreNoNumber number.now bytes.now) }
    ensures other { ¬ (result ≡ OK) → ¬ (result ≡ TOO_SMALL) → ¬ (result ≡ NOT_UTF8) →
        ¬ (result ≡ BAD_NUMBER) → result ≡ MEMORY }
    ensures untouched { ¬ (result ≡ OK) → out.new ≡ out.old }
    ensures no_length { ¬ (result ≡ OK) → ¬ (result ≡ TOO_SMALL) → wrote.new ≡ 0 }
{
    *wrote = 0;
    let Ok(user) = std::str::from_utf8(user) else {
        return NOT_UTF8;
    };
    let number = match to_phone_number(database.allocator(), number, bytes) {
        Ok(number) => number,
        Err(status) => return status,
    };
    give_described(database, held, &number, user, as_it_stands, out, wrote)
}

/// The same by the atlas that is open behind a handle.
pub fn description(
    alloc: Global,
    database: &Plans,
    atlas: &mut AtlasHandle,
    number: &Number,
    bytes: &[u8],
    user: &[u8],
    as_it_stands: u8,
    out: &mut [u8],
    wrote: &mut usize,
) -> u32
    ensures written { result ≡ OK → IsWrittenA
        (IsDescriptionOf database.now atlas.old.held number.now bytes.now user.now
        as_it_stands) out.old out.new wrote.new }
    ensures too_small { result ≡ TOO_SMALL → IsTooLongA
        (IsDescriptionOf database.now atlas.old.held number.now bytes.now user.now
        as_it_stands) out.old out.new wrote.new }
    ensures closed { (result ≡ CLOSED) ↔ IsAtlasClosed atlas.old }
    ensures not_utf8 { (result ≡ NOT_UTF8) ↔
        (¬ (IsAtlasClosed atlas.old) × ¬ (IsUtf8 user.now)) }
    ensures bad { (result ≡ BAD_NUMBER) ↔ (¬ (IsAtlasClosed atlas.old) × IsUtf8 user.now ×
        AreNoNumber number.now bytes.now) }
    ensures other { ¬ (result ≡ OK) → ¬ (result ≡ TOO_SMALL) → ¬ (result ≡ CLOSED) →
        ¬ (result ≡ NOT_UTF8) → ¬ (result ≡ BAD_NUMBER) → result ≡ MEMORY }
    ensures untouched { ¬ (result ≡ OK) → out.new ≡ out.old }
    ensures no_length { ¬ (result ≡ OK) → ¬ (result ≡ TOO_SMALL) → wrote.new ≡ 0 }
    ensures kept { IsAtlasKept atlas.old atlas.new }
{
    *wrote = 0;
    let Some(held) = take_atlas(alloc, atlas) else {
        return CLOSED;
    };
    let status = describe(
        database,
        &held,
        number,
        bytes,
        user,
        as_it_stands,
        out,
        wrote,
    );
    put_atlas(alloc, atlas, held);
    status
}
