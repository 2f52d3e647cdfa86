//! The two tables of the same records, which have to answer alike: the one that lends compiled
//! patterns, and the light one.
use anyhow::{Result, anyhow};
use phone_meta::{Database, Metadata};
use phone_plans::{Plans, Territory};
use phone_values::Type;

/// What both tables answer. An error where they don't answer alike.
pub fn agreed(compiled: String, light: String) -> Result<String> {
    if compiled.as_str() != light.as_str() {
        return Err(anyhow!("the light table answers `{light}`, the other `{compiled}`"));
    }
    Ok(compiled)
}

/// The light table of a database.
pub fn light(database: &Database) -> &Plans {
    database
}

/// A table, of which its ids can be counted.
pub trait Counted: Drop {
    /// How many different ids it has.
    fn count_of_ids(&self) -> u64;
}

impl Counted for Database {
    fn count_of_ids(&self) -> u64 {
        let mut ids = 0u64;
        for _ in self.iter() {
            ids = ids.saturating_add(1);
        }
        ids
    }
}

impl Counted for Plans {
    fn count_of_ids(&self) -> u64 {
        let mut ids = 0u64;
        for _ in self.iter() {
            ids = ids.saturating_add(1);
        }
        ids
    }
}

/// A territory of either table.
pub trait Told {
    /// Its id and its calling code.
    fn id_and_code(&self) -> (&str, u16);

    /// The text of the pattern that it has for a kind.
    fn pattern_of(&self, kind: Type) -> Option<&str>;
}

impl Told for Metadata {
    fn id_and_code(&self) -> (&str, u16) {
        (self.id(), self.country_code())
    }

    fn pattern_of(&self, kind: Type) -> Option<&str> {
        match self.descriptors().get(kind) {
            Some(descriptor) => Some(descriptor.national_number().as_str()),
            None => None,
        }
    }
}

impl Told for Territory {
    fn id_and_code(&self) -> (&str, u16) {
        (self.id(), self.country_code())
    }

    fn pattern_of(&self, kind: Type) -> Option<&str> {
        match self.descriptors().get(kind) {
            Some(descriptor) => Some(descriptor.pattern_text()),
            None => None,
        }
    }
}
