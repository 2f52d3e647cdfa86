//! The table of the names of regions, loaded.
ghost use Rattle.std.specs.Prelude.{◌≡◌, IfOk};
ghost use Rattle.std.specs.Option.{is_some};

use crate::columns::NoColumns;
use phone_device::{ReadError, Std, read_all};
use phone_places::{Countries, CountriesError};
use std::alloc::AllocGlobal;
use std::fs::{self, Files};

/// The bytes of a file.
fn bytes_in<'w, R: Files + AllocGlobal>(rt: &R, name: &'w str) -> Result<Vec<u8>, NoColumns<'w>> {
    let Ok(file) = fs::open(rt, name) else {
        return Err(NoColumns::Unopened(name));
    };
    match read_all(rt.alloc(), &mut Std::new(file)) {
        Ok(bytes) => Ok(bytes),
        Err(ReadError::Fault) => Err(NoColumns::Unopened(name)),
        Err(ReadError::Memory) => Err(NoColumns::Memory),
    }
}

/// The table of names in a file.
fn names_in<'w, R: Files + AllocGlobal>(rt: &R, name: &'w str) -> Result<Countries, NoColumns<'w>> {
    let bytes = bytes_in(rt, name)?;
    match Countries::of(rt.alloc(), bytes.as_slice()) {
        Ok(countries) => Ok(countries),
        Err(CountriesError::Memory) => Err(NoColumns::Memory),
        Err(error) => Err(NoColumns::NoNames(name, error)),
    }
}

/// The table of the names of regions, where a file of it is named.
pub fn countries_in<'w, R: Files + AllocGlobal>(
    rt: &R,
    file: Option<&'w str>,
) -> Result<Option<Countries>, NoColumns<'w>>
    ensures { IfOk result (λ countries. is_some countries ≡ is_some file.entry) }
{
    match file {
        Some(name) => Ok(Some(names_in(rt, name)?)),
        None => Ok(None),
    }
}
