//! What a text is read as.
use crate::country::Code;
use crate::{Carrier, Extension, NationalNumber};
use serde::{Deserialize, Deserializer, Format};
use std::alloc::Global;

/// The parts of a number that was read.
#[derive(PartialEq, Eq, Debug, Drop)]
pub struct Reading {
    /// The calling code, and how it was found.
    pub code: Code,
    /// The national number, with its leading zeros.
    pub national: NationalNumber,
    /// The extension, where one was written; it may be empty.
    pub extension: Option<Extension>,
    /// The carrier's selection code, where one was dialled.
    pub carrier: Option<Carrier>,
}

/// The parts, of any types: what reads them drops those that it has at each early exit, and of
/// these types that is opaque.
#[derive(Drop, Deserialize)]
struct Fields<C, N, E, D> {
    code: C,
    national: N,
    extension: Option<E>,
    carrier: Option<D>,
}

impl<'de> Deserialize<'de> for Reading {
    /// Reads the parts by their names.
    fn deserialize<F: Format>(
        alloc: Global,
        from: &mut Deserializer<'de, '_, F>,
    ) -> Result<Reading, F::Error> {
        let Fields {
            code,
            national,
            extension,
            carrier,
        } = Fields::deserialize(alloc, from)?;
        Ok(Reading {
            code,
            national,
            extension,
            carrier,
        })
    }
}
