//! A second handle of what is open behind a first.
ghost use Rattle.std.specs.Prelude.{◌≡◌, ◌⊎◌, ◌↔◌, IfOk};
ghost use Rattle.phone_c_base.specs.Handles.{IsClosed, IsKept, IsOpen};
ghost use Rattle.phone_c_base.specs.PrefixTables.{IsTableClosed, IsTableKept, IsTableOpen};

use crate::handle::{Handle, close, put, take};
use crate::opened::Opened;
use crate::shared::Owner;
use crate::status::{CLOSED, MEMORY, OK};
use crate::table::{PrefixTable, close_table, put_table, take_table};
use phone_engine::Rules;
use phone_prefixes::Prefixes;
use std::alloc::{AllocError, Global};

/// Opens behind `mine` the database that is open behind `world`, asked by the same rules; `world`
/// stays as it was. What `mine` had open is closed first, whatever comes.
pub fn share(alloc: Global, world: &mut Handle, mine: &mut Handle) -> u32
    ensures shared { result ≡ OK → IsOpen mine.new world.old.records world.old.rules }
    ensures closed { (result ≡ CLOSED) ↔ IsClosed world.old }
    ensures status { (result ≡ OK) ⊎ (result ≡ CLOSED) ⊎ (result ≡ MEMORY) }
    ensures refused { ¬ (result ≡ OK) → IsClosed mine.new }
    ensures kept { IsKept world.old world.new }
{
    close(alloc, mine);
    let Some(opened) = take(alloc, world) else {
        return CLOSED;
    };
    let rules = opened.rules();
    share_taken(alloc, world, opened, rules, mine)
}

/// The same, asked by these rules.
pub fn share_by(alloc: Global, world: &mut Handle, rules: Rules, mine: &mut Handle) -> u32
    ensures shared { result ≡ OK → IsOpen mine.new world.old.records rules }
    ensures closed { (result ≡ CLOSED) ↔ IsClosed world.old }
    ensures status { (result ≡ OK) ⊎ (result ≡ CLOSED) ⊎ (result ≡ MEMORY) }
    ensures refused { ¬ (result ≡ OK) → IsClosed mine.new }
    ensures kept { IsKept world.old world.new }
{
    close(alloc, mine);
    let Some(opened) = take(alloc, world) else {
        return CLOSED;
    };
    share_taken(alloc, world, opened, rules, mine)
}

/// Puts what was taken out of `world` back, and behind `mine` the same database, asked by these
/// rules.
fn share_taken(
    alloc: Global,
    world: &mut Handle,
    opened: Box<Opened>,
    rules: Rules,
    mine: &mut Handle,
) -> u32
    ensures shared { result ≡ OK → IsOpen mine.new opened.value.0 rules }
    ensures status { (result ≡ OK) ⊎ (result ≡ MEMORY) }
    ensures refused { ¬ (result ≡ OK) → mine.new ≡ mine.old }
    ensures back { IsOpen world.new opened.value.0 opened.value.1 }
{
    let again = opened.again(alloc, rules);
    put(alloc, world, opened);
    match again {
        Ok(again) => {
            put(alloc, mine, again);
            OK
        }
        Err(_) => MEMORY,
    }
}

/// Opens behind `mine` the table of prefixes that is open behind `table`, which stays as it was.
/// What `mine` had open is closed first, whatever comes.
pub fn share_table(alloc: Global, table: &mut PrefixTable, mine: &mut PrefixTable) -> u32
    ensures shared { result ≡ OK → IsTableOpen mine.new table.old.entries }
    ensures closed { (result ≡ CLOSED) ↔ IsTableClosed table.old }
    ensures status { (result ≡ OK) ⊎ (result ≡ CLOSED) ⊎ (result ≡ MEMORY) }
    ensures refused { ¬ (result ≡ OK) → IsTableClosed mine.new }
    ensures kept { IsTableKept table.old table.new }
{
    close_table(alloc, mine);
    let Some(owner) = take_table(alloc, table) else {
        return CLOSED;
    };
    let again = again_boxed(alloc, &owner);
    put_table(alloc, table, owner);
    match again {
        Ok(again) => {
            put_table(alloc, mine, again);
            OK
        }
        Err(_) => MEMORY,
    }
}

/// One owner more of a table, in a box. Refused only for memory.
fn again_boxed(alloc: Global, owner: &Owner<Prefixes>) -> Result<Box<Owner<Prefixes>>, AllocError>
    ensures { IfOk result (λ again. again.value ≡ owner.now) }
{
    owner.again()?.boxed(alloc)
}
