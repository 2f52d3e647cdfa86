//! A number as it is lent to be printed.
ghost use Rattle.std.specs.Prelude.{◌≡◌};
ghost use Rattle.std.specs.Option.{option_copied};

use phone_values::country::Code;
use phone_values::{Carrier, Extension, NationalNumber};
use std::fmt;
use std::marker::Model;

/// A number that is to be printed. Contracts see its four parts.
#[derive(Drop)]
pub struct Printable<'n> {
    code: &'n Code,
    national: &'n NationalNumber,
    extension: Option<&'n Extension>,
    carrier: Option<&'n Carrier>,
}

impl<'n> Model for Printable<'n> {
    ghost use Rattle.std.specs.Option.{option_copied};
    ghost use Rattle.phone_values.specs.declared.reading.Reading.{Reading};

    ghost Value = { Reading };

    ghost view = { λ n. record {
      code = n.code.now;
      national = n.national.now;
      extension = option_copied n.extension;
      carrier = option_copied n.carrier;
    } };
}

impl<'n> Printable<'n> {
    /// The number of these parts.
    pub fn new(
        code: &'n Code,
        national: &'n NationalNumber,
        extension: Option<&'n Extension>,
        carrier: Option<&'n Carrier>,
    ) -> Printable<'n>
        ensures { result ≡ record {
          code = code.now;
          national = national.now;
          extension = option_copied extension.entry;
          carrier = option_copied carrier.entry;
        } }
    {
        Printable {
            code,
            national,
            extension,
            carrier,
        }
    }

    /// The calling code, and how it was found.
    pub fn code(&self) -> &'n Code
        ensures { result.now ≡ self.now.code }
    {
        self.code
    }

    /// The national number, with its leading zeros.
    pub fn national(&self) -> &'n NationalNumber
        ensures { result.now ≡ self.now.national }
    {
        self.national
    }

    /// The extension, where the number has one.
    pub fn extension(&self) -> Option<&'n Extension>
        ensures { option_copied result ≡ self.now.extension }
    {
        self.extension
    }

    /// The carrier that was dialled with the number, where there was one.
    pub fn carrier(&self) -> Option<&'n Carrier>
        ensures { option_copied result ≡ self.now.carrier }
    {
        self.carrier
    }
}

impl fmt::Display for Printable<'_> {
    ghost use Rattle.std.specs.Prelude.{Some};
    ghost use Rattle.phone_print.specs.Texts.{e164_text};

    ghost output = { λ n. Some (e164_text n) };

    /// The E.164 text, whatever the code: a plus sign, the calling code, the national number with
    /// its zeros.
    fn fmt<W: fmt::Write>(&self, f: &mut fmt::Formatter<W>) -> fmt::Result {
        let code = self.code.value();
        let national = *self.national;
        write!(f, "+{code}{national}")
    }
}
