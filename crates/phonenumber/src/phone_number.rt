//! A phone number.
ghost use Rattle.std.specs.Prelude.{◌≡◌, IfOk};
ghost use Rattle.std.specs.Option.{option_copied};
ghost use Rattle.phonenumber.specs.Bounds.{IsBounded};

use phone_print::Printable;
use phone_values::country::Code;
use phone_values::equality::SameValue;
use phone_values::{Carrier, Extension, NationalNumber, Reading};
use serde::{Deserialize, DeserializeOwned, Deserializer, Format, Serialize};
use std::alloc::{AllocError, Global};
use std::fmt;
use std::marker::Model;

/// A phone number: calling code with its source, national number, extension and carrier. Contracts
/// see these four. Two numbers are equal where all four are, so one number that was written in two
/// ways may be read as two that differ in their source.
#[derive(PartialEq, Eq, Hash, Debug, Drop, Serialize)]
pub struct PhoneNumber {
    code: Code,
    national: NationalNumber,
    extension: Option<Extension>,
    carrier: Option<Carrier>,
}

impl Model for PhoneNumber {
    ghost use Rattle.phone_values.specs.declared.reading.Reading.{Reading};

    ghost Value = { Reading };

    ghost view = { λ n. record {
      code = n.code;
      national = n.national;
      extension = n.extension;
      carrier = n.carrier;
    } };

    ghost inverse = { λ n. record {
      code = n.code;
      national = n.national;
      extension = n.extension;
      carrier = n.carrier;
    } };
}

impl PhoneNumber {
    /// The number of these parts, as they are given.
    pub fn from_parts(
        code: Code,
        national: NationalNumber,
        extension: Option<Extension>,
        carrier: Option<Carrier>,
    ) -> PhoneNumber
        ensures { result ≡ record {
          code = code;
          national = national;
          extension = extension;
          carrier = carrier;
        } }
    {
        PhoneNumber {
            code,
            national,
            extension,
            carrier,
        }
    }

    /// The calling code, and how it was found.
    pub fn code(&self) -> &Code
        ensures { result.now ≡ self.now.code }
    {
        &self.code
    }

    /// The national number, with its leading zeros. Every number has at most 255 of them, a value
    /// below 2^56, and a calling code below 2^16.
    pub fn national(&self) -> &NationalNumber
        ensures national { result.now ≡ self.now.national }
        ensures bounded { IsBounded self.now }
    {
        self.keeps_bounds();
        &self.national
    }

    /// The extension, where the number has one; it may be empty.
    pub fn extension(&self) -> Option<&Extension>
        ensures { option_copied result ≡ self.now.extension }
    {
        self.extension.as_ref()
    }

    /// The carrier that was dialled with the number, where there was one.
    pub fn carrier(&self) -> Option<&Carrier>
        ensures { option_copied result ≡ self.now.carrier }
    {
        self.carrier.as_ref()
    }

    /// The number, lent to be printed by a territory.
    pub fn printable(&self) -> Printable<'_>
        ensures { result ≡ self.now }
    {
        Printable::new(&self.code, &self.national, self.extension(), self.carrier())
    }

    /// A law, which does nothing: the national number of every number has at most 255 zeros and a
    /// value below 2^56, and its calling code is below 2^16.
    pub(crate) fn keeps_bounds(&self)
        ensures { IsBounded self.now }
    {
        let _value = self.national.value();
        let _code = self.code.value();
    }

    /// The same number again; refused only for memory.
    pub fn clone(&self) -> Result<PhoneNumber, AllocError>
        ensures { IfOk result (λ n. n ≡ self.now) }
    {
        let extension = match &self.extension {
            Some(extension) => Some(extension.clone()?),
            None => None,
        };
        let carrier = match &self.carrier {
            Some(carrier) => Some(carrier.clone()?),
            None => None,
        };
        Ok(PhoneNumber {
            code: self.code,
            national: self.national,
            extension,
            carrier,
        })
    }
}

impl<'de> Deserialize<'de> for PhoneNumber {
    fn deserialize<F: Format>(
        alloc: Global,
        from: &mut Deserializer<'de, '_, F>,
    ) -> Result<PhoneNumber, F::Error> {
        let Reading {
            code,
            national,
            extension,
            carrier,
        } = Reading::deserialize(alloc, from)?;
        Ok(PhoneNumber {
            code,
            national,
            extension,
            carrier,
        })
    }
}

impl DeserializeOwned for PhoneNumber {
    fn deserialize_owned<F: Format>(
        alloc: Global,
        from: &mut Deserializer<'_, '_, F>,
    ) -> Result<PhoneNumber, F::Error> {
        PhoneNumber::deserialize(alloc, from)
    }
}

impl SameValue for PhoneNumber {
    fn is_same(&self, other: &PhoneNumber) -> bool {
        let _value = self.national.value();
        let _other = other.national.value();
        self == other
    }
}

impl fmt::Display for PhoneNumber {
    ghost use Rattle.std.specs.Prelude.{Some};
    ghost use Rattle.phone_print.specs.Texts.{e164_text};

    ghost output = { λ n. Some (e164_text n) };

    /// The E.164 text, whatever the code: a plus sign, the calling code, the national number with
    /// its zeros.
    fn fmt<W: fmt::Write>(&self, f: &mut fmt::Formatter<W>) -> fmt::Result {
        let code = self.code.value();
        let national = self.national;
        write!(f, "+{code}{national}")
    }
}
