//! The number that a line gives by its parts: calling code, value and zeros, perhaps an extension
//! and a carrier.
use anyhow::Result;
use phone_base::results::{zip, zip_value};
use phone_values::country::{Code, Source};
use phone_values::{Carrier, Extension, NationalNumber};
use phonenumber::PhoneNumber;
use replay_base::table::Row;
use std::alloc::{AllocError, Global};

/// The number of these parts, whose code, value and zeros a line gives from an argument on.
pub fn number(
    row: &Row,
    at: usize,
    extension: Option<Extension>,
    carrier: Option<Carrier>,
) -> Result<PhoneNumber> {
    let ((code, national), (extension, carrier)) = zip_value(
        code_and_national(row, at),
        (extension, carrier),
    )?;
    Ok(PhoneNumber::from_parts(code, national, extension, carrier))
}

/// The code and the national number that a line gives from an argument on, by code, value and
/// zeros.
fn code_and_national(row: &Row, at: usize) -> Result<(Code, NationalNumber)> {
    let code = row.argument(at).parse::<u16>()?;
    let value = row.argument(at.saturating_add(1)).parse::<u64>()?;
    let zeros = row.argument(at.saturating_add(2)).parse::<u8>()?;
    let national = NationalNumber::new(value, zeros)?;
    Ok((Code::new(code, Source::Default), national))
}

/// The number that a line gives behind its database, with an extension.
pub fn with_extension(alloc: Global, row: &Row) -> Result<PhoneNumber> {
    number(row, 1, extension(alloc, row.argument(4))?, None)
}

/// The number that a line gives from an argument on, with an extension and a carrier.
pub fn number_of_row(alloc: Global, row: &Row, at: usize) -> Result<PhoneNumber> {
    let extension = extension(alloc, row.argument(at.saturating_add(3)));
    let carrier = carrier(alloc, row.argument(at.saturating_add(4)));
    let (extension, carrier) = zip(extension, carrier)?;
    number(row, at, extension, carrier)
}

/// An extension behind an equals sign; none for a hyphen.
fn extension(alloc: Global, column: &str) -> Result<Option<Extension>, AllocError> {
    match column.strip_prefix('=') {
        Some(text) => Ok(Some(Extension::from(String::from_str(alloc, text)?))),
        None => Ok(None),
    }
}

/// A carrier behind an equals sign; none for a hyphen.
fn carrier(alloc: Global, column: &str) -> Result<Option<Carrier>, AllocError> {
    match column.strip_prefix('=') {
        Some(text) => Ok(Some(Carrier::from(String::from_str(alloc, text)?))),
        None => Ok(None),
    }
}
