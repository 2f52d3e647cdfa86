//! What a line names: a database, and in it a code and a territory.
use anyhow::{Result, anyhow};
use phone_meta::{Database, Metadata};
use phone_plans::{Plans, Territory};
use replay_base::table::Row;
use std::alloc::AllocGlobal;
use std::fs::Files;

/// A database, and the name of its file.
#[derive(Drop)]
pub struct Named {
    name: String,
    pub database: Database,
}

/// The database of this name: the one that is at hand, or else the one in the file of this name,
/// which is at hand then.
pub fn of_name<'a, R: Files + AllocGlobal>(
    rt: &R,
    at_hand: &'a mut Option<Named>,
    name: &str,
) -> Result<&'a Database> {
    if !is_at_hand(at_hand, name) {
        *at_hand = Some(read(rt, name)?);
    }
    match at_hand {
        Some(named) => Ok(&named.database),
        None => Err(anyhow!("no database is at hand")),
    }
}

/// Whether the database of this name is at hand.
fn is_at_hand(at_hand: &Option<Named>, name: &str) -> bool {
    match at_hand {
        Some(named) => named.name.as_str() == name,
        None => false,
    }
}

/// The database in the file of this name, with its name.
fn read<R: Files + AllocGlobal>(rt: &R, name: &str) -> Result<Named> {
    let own = String::from_str(rt.alloc(), name)?;
    let database = load(rt, name)?;
    Ok(Named {
        name: own,
        database,
    })
}

/// The database in the file of this name.
pub fn load<R: Files + AllocGlobal>(rt: &R, name: &str) -> Result<Database> {
    let path = format!(in rt.alloc(); "databases/{name}.json")?;
    Ok(Database::load(rt, path.as_str())?)
}

/// The calling code that a line names behind its database.
pub fn code_of(row: &Row) -> Result<u16> {
    Ok(row.argument(1).parse::<u16>()?)
}

/// The territory whose id a line names behind its database.
pub fn territory<'a>(database: &'a Database, row: &Row) -> Result<&'a Metadata> {
    match database.by_id(row.argument(1)) {
        Some(territory) => Ok(territory),
        None => Err(anyhow!("the database has no territory of this id")),
    }
}

/// The same of the light table.
pub fn light_territory<'a>(plans: &'a Plans, row: &Row) -> Result<&'a Territory> {
    match plans.by_id(row.argument(1)) {
        Some(territory) => Ok(territory),
        None => Err(anyhow!("the light table has no territory of this id")),
    }
}
