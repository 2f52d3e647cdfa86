//! The database that bytes are, as it stands behind a handle.
ghost use Rattle.std.specs.Prelude.{◌≡◌, ◌⊎◌, IfOk, IfErr, IsTrue, false};
ghost use Rattle.phone_compact.specs.Records.{IsCompact};
ghost use Rattle.phone_base.specs.Errors.{told};
ghost use Rattle.phone_c_base.specs.Openings.{HasForm, IsDatabaseOf, IsRefused, opening_status};

use crate::opened::Opened;
use crate::status::{MEMORY, NOT_UTF8};
use phone_compact::is_compact;
use phone_engine::Rules;
use phone_plans::{LoadMetadata, Plans};
use std::alloc::Global;

/// The database that bytes are, asked by these rules, or the status of the refusal.
pub fn open_database(alloc: Global, text: &[u8], rules: Rules) -> Result<Box<Opened>, u32>
    ensures opened { IfOk result (λ o. IsDatabaseOf text.now o.value.0) }
    ensures rules { IfOk result (λ o. o.value.1 ≡ rules) }
    ensures refused { IfErr result (IsRefused text.now) }
{
    if !has_form(text) {
        return Err(NOT_UTF8);
    }
    match Plans::open(alloc, text) {
        Ok(database) => opened(alloc, database, rules),
        Err(error) => Err(status_of(&error)),
    }
}

/// Whether bytes are meant as the compact form of records, or are UTF-8.
fn has_form(text: &[u8]) -> bool
    ensures form { IsTrue result → HasForm text.now }
    ensures none { result ≡ false → ¬ (HasForm text.now) }
    ensures known { IsCompact text.now ⊎ ¬ (IsCompact text.now) }
{
    if is_compact(text) {
        return true;
    }
    std::str::from_utf8(text).is_ok()
}

/// The status of a refusal.
fn status_of(error: &LoadMetadata) -> u32
    ensures { result ≡ opening_status (told error.now).0 }
{
    let number = u32::from(error.number());
    if number == MEMORY { MEMORY } else { number + 7 }
}

/// A database as it stands behind a handle; `MEMORY` where memory is refused.
fn opened(alloc: Global, database: Plans, rules: Rules) -> Result<Box<Opened>, u32>
    ensures database { IfOk result (λ o. o.value.0 ≡ database) }
    ensures rules { IfOk result (λ o. o.value.1 ≡ rules) }
    ensures refused { IfErr result (λ status. status ≡ MEMORY) }
{
    match Opened::of(alloc, database, rules) {
        Ok(database) => Ok(database),
        Err(_) => Err(MEMORY),
    }
}
