//! What a database tells of a number: its territory, its kind, its region, whether it is valid.
ghost use Rattle.std.specs.Prelude.{◌≡◌, IfOk, false};
ghost use Rattle.std.specs.Option.{option_and_then, option_copied, option_map_or};
ghost use Rattle.phone_values.specs.Ids.{id_of};
ghost use Rattle.phone_values.specs.declared.kind.«Type».TheVariants.{Unknown};
ghost use Rattle.phone_read.specs.Regions.{home};
ghost use Rattle.phone_read.specs.Kinds.{is_known, type_of};
ghost use Rattle.phone_records.specs.declared.loader.Metadata as loader;
ghost use Rattle.phonenumber.specs.Queries.{is_valid, kind_of_number, region_of_number};
ghost use Rattle.phonenumber.specs.Queries.{territory_of_number};

use crate::PhoneNumber;
use either::Either::{Left, Right};
use itoa::Buffer;
use phone_meta::{Database, Metadata};
use phone_plans::{Plans, Territory};
use phone_print::written::text_of_value;
use phone_read::validator;
use phone_values::Type;
use phone_values::country::{Code, Id};
use std::alloc::AllocError;
use std::marker::Model;

/// What a database tells of a number.
#[derive(Clone, Copy, PartialEq, Eq, Debug)]
pub struct Facts {
    /// The kind of number.
    pub kind: Type,
    /// The region's id, where it has one.
    pub region: Option<Id>,
    /// Whether it is valid.
    pub is_valid: bool,
}

/// What a number tells of its country. Contracts see the number.
#[derive(Drop)]
pub struct Country<'a> {
    number: &'a PhoneNumber,
}

impl<'a> Model for Country<'a> {
    ghost use Rattle.phone_values.specs.declared.reading.Reading.{Reading};

    ghost Value = { Reading };

    ghost view = { λ c. c.number.now };
}

impl<'a> Country<'a> {
    /// The calling code, as 64 for New Zealand.
    pub fn code(&self) -> u16
        ensures { result ≡ self.now.code.value }
    {
        self.number.code().value()
    }

    /// The region's id: that of the number's territory, as `territory` has it. None where the
    /// number has no territory, and where the territory's id is no region's. Refused only for
    /// memory.
    pub fn id(&self, database: &Plans) -> Result<Option<Id>, AllocError>
        ensures { IfOk result (λ id. id ≡ region_of_number database.now self.now) }
    {
        match self.number.territory(database)? {
            Some(territory) => Ok(territory.region()),
            None => Ok(None),
        }
    }

    /// The calling code, and how it was found.
    pub fn as_code(&self) -> &'a Code
        ensures { result.now ≡ self.now.code }
    {
        self.number.code()
    }
}

impl PhoneNumber {
    /// What the number tells of its country. Takes no memory.
    pub fn country(&self) -> Country<'_>
        ensures { result ≡ self.now }
    {
        Country { number: self }
    }

    /// The territory that the number belongs to, by its value in decimal without leading zeros;
    /// none where it belongs to none. Refused only for memory.
    pub fn territory<'a>(&self, database: &'a Plans) -> Result<Option<&'a Territory>, AllocError>
        ensures { IfOk result (λ m. option_copied m ≡ territory_of_number database.now self.now) }
    {
        let mut buffer = Buffer::new();
        let value = buffer.format(self.national().value());
        validator::territory_of(database, self.code().value(), value)
    }

    /// The same territory in a database that keeps each pattern compiled, so that it lends them.
    /// Refused only for memory.
    pub fn metadata<'a>(&self, database: &'a Database) -> Result<Option<&'a Metadata>, AllocError>
        ensures { IfOk result (λ m. option_copied m ≡ territory_of_number database.now self.now) }
    {
        let mut buffer = Buffer::new();
        let value = buffer.format(self.national().value());
        match validator::source_for(database, self.code().value(), value)? {
            Some(Left(id)) => Ok(database.by_id(id.as_str())),
            Some(Right(code)) => Ok(database.first_by_code(&code)),
            None => Ok(None),
        }
    }

    /// The kind of number that the value is, without leading zeros, in its territory; `Unknown`
    /// where it belongs to none. Refused only for memory.
    pub fn number_type(&self, database: &Plans) -> Result<Type, AllocError>
        ensures { IfOk result (λ kind. kind ≡ kind_of_number database.now self.now) }
    {
        let (_, kind) = self.region_and_kind(database)?;
        Ok(kind)
    }

    /// The region of the number's territory, and the kind of number that its value is there.
    fn region_and_kind(&self, database: &Plans) -> Result<(Option<Id>, Type), AllocError>
        ensures region { IfOk result (λ told. told.0 ≡ region_of_number database.now self.now) }
        ensures kind { IfOk result (λ told. told.1 ≡ kind_of_number database.now self.now) }
    {
        let mut buffer = Buffer::new();
        let value = buffer.format(self.national().value());
        region_and_kind_of(database, self.code().value(), value)
    }

    /// The number's kind, region and validity at once, as `number_type`, `country` and
    /// `is_valid_with` tell them: its territory and its kind are looked for once where the number
    /// has no leading zeros. Refused only for memory.
    pub fn facts(&self, database: &Plans) -> Result<Facts, AllocError>
        ensures kind { IfOk result (λ q. q.kind ≡ kind_of_number database.now self.now) }
        ensures region { IfOk result (λ q. q.region ≡ region_of_number database.now self.now) }
        ensures is_valid { IfOk result (λ q. q.is_valid ≡ is_valid database.now self.now) }
    {
        let (region, kind) = self.region_and_kind(database)?;
        let is_valid = match self.national().zeros() {
            0 => kind != Type::Unknown,
            _ => self.is_valid_with(database)?,
        };
        Ok(Facts {
            kind,
            region,
            is_valid,
        })
    }

    /// Whether the number is of a known kind in a territory, its leading zeros counted as digits.
    /// Refused only for memory.
    pub fn is_valid_with(&self, database: &Plans) -> Result<bool, AllocError>
        ensures { IfOk result (λ valid. valid ≡ is_valid database.now self.now) }
    {
        let national = self.national();
        let digits = text_of_value(database.allocator(), format_args!("{national}"))?;
        is_known_in(database, self.code().value(), digits.as_str())
    }
}

/// The region of the territory that digits of this calling code belong to, and their kind there.
fn region_and_kind_of(
    database: &Plans,
    code: u16,
    digits: &str,
) -> Result<(Option<Id>, Type), AllocError>
    ensures region { IfOk result (λ told. told.0 ≡
        option_and_then (λ (m : loader.Metadata). option_and_then id_of m.id)
        (home database.now code digits.now)) }
    ensures kind { IfOk result (λ told. told.1 ≡
        option_map_or (λ (m : loader.Metadata). type_of m digits.now)
        (home database.now code digits.now) Unknown) }
{
    match validator::home_of(database, code, digits)? {
        Some(home) => Ok((home.territory.region(), home.kind)),
        None => Ok((None, Type::Unknown)),
    }
}

/// Whether digits of this calling code are of a known kind in a territory.
fn is_known_in(database: &Plans, code: u16, digits: &str) -> Result<bool, AllocError>
    ensures { IfOk result (λ known. known ≡
        option_map_or (λ (m : loader.Metadata). is_known (type_of m digits.now))
        (home database.now code digits.now) false) }
{
    match validator::home_of(database, code, digits)? {
        Some(home) => Ok(home.kind != Type::Unknown),
        None => Ok(false),
    }
}

/// Whether a number is of a known kind in a territory, its leading zeros counted as digits. Refused
/// only for memory.
pub fn is_valid_with(database: &Plans, number: &PhoneNumber) -> Result<bool, AllocError>
    ensures { IfOk result (λ valid. valid ≡ is_valid database.now number.now) }
{
    number.is_valid_with(database)
}
