//! The printing of a number.
ghost use Rattle.std.specs.Prelude.{◌≡◌, ◌↔◌, ◌∷◌, ◌++◌, ℕ, List, None, Some, Err, IfOk, OnOk};
ghost use Rattle.std.specs.Prelude.{IsErr, OnErr, string_bytes};
ghost use Rattle.std.specs.Fmt.{DisplaysOnOk, DisplaysStyledOnOk};
ghost use Rattle.std.specs.Option.{option_copied};
ghost use Rattle.phone_values.specs.declared.mode.Mode.TheVariants as mode;
ghost use Rattle.phonenumber.specs.Printers.{database_of, layout_of, mode_of, number_of, text_of};
ghost use Rattle.phonenumber.specs.Printers.{texts_of};
ghost use Rattle.phonenumber.specs.Printed.{printed};
ghost use Rattle.phonenumber.specs.Sinks.{IsWrittenWhole, puts};

use crate::{PhoneNumber, TextSink};
use phone_plans::{Format, Plans};
use phone_print::{Texts, printing};
use phone_values::{Mode, Rules};
use std::alloc::Global;
use std::fmt;
use thiserror::Error;

/// Why a number was not printed.
#[derive(Clone, Copy, PartialEq, Eq, Debug, Error)]
pub enum FormatError {
    /// The database lists no territory of the number's calling code.
    #[error("unknown calling code")]
    UnknownCode,

    /// Memory was refused.
    #[error("out of memory")]
    Memory,
}

/// A printer of one number, under one database, in one mode, and perhaps with a layout that was
/// handed in.
#[derive(Clone, Copy)]
pub struct Formatter<'n, 'd, 'f> {
    number: &'n PhoneNumber,
    database: &'d Plans,
    mode: Mode,
    format: Option<&'f Format>,
}

/// The printer of a number under a database, in the mode `E164`, with the territory's own layouts.
pub fn format_with<'d, 'n>(
    database: &'d Plans,
    number: &'n PhoneNumber,
) -> Formatter<'n, 'd, 'static>
    ensures database { database_of result ≡ database.now }
    ensures number { number_of result ≡ number.now }
    ensures mode { mode_of result ≡ mode.E164 }
    ensures layout { layout_of result ≡ None }
{
    Formatter {
        number,
        database,
        mode: Mode::E164,
        format: None,
    }
}

impl PhoneNumber {
    /// The printer of this number under a database, as the function `format_with` gives it.
    pub fn format_with<'n, 'd>(&'n self, database: &'d Plans) -> Formatter<'n, 'd, 'static>
        ensures database { database_of result ≡ database.now }
        ensures number { number_of result ≡ self.now }
        ensures mode { mode_of result ≡ mode.E164 }
        ensures layout { layout_of result ≡ None }
    {
        format_with(database, self)
    }
}

impl<'n, 'd, 'f> Formatter<'n, 'd, 'f> {
    /// The same printer under another database.
    pub fn database<'a>(self, database: &'a Plans) -> Formatter<'n, 'a, 'f>
        ensures database { database_of result ≡ database.now }
        ensures number { number_of result ≡ number_of self.entry }
        ensures mode { mode_of result ≡ mode_of self.entry }
        ensures layout { layout_of result ≡ layout_of self.entry }
    {
        Formatter {
            number: self.number,
            database,
            mode: self.mode,
            format: self.format,
        }
    }

    /// The same printer in another mode.
    pub fn mode(self, mode: Mode) -> Formatter<'n, 'd, 'f>
        ensures database { database_of result ≡ database_of self.entry }
        ensures number { number_of result ≡ number_of self.entry }
        ensures mode { mode_of result ≡ mode }
        ensures layout { layout_of result ≡ layout_of self.entry }
    {
        Formatter {
            number: self.number,
            database: self.database,
            mode,
            format: self.format,
        }
    }

    /// The same printer with this layout, of any database, in place of the territory's own.
    pub fn with<'a>(self, format: &'a Format) -> Formatter<'n, 'd, 'a>
        ensures database { database_of result ≡ database_of self.entry }
        ensures number { number_of result ≡ number_of self.entry }
        ensures mode { mode_of result ≡ mode_of self.entry }
        ensures layout { layout_of result ≡ Some format.now }
    {
        Formatter {
            number: self.number,
            database: self.database,
            mode: self.mode,
            format: Some(format),
        }
    }

    /// The printed text, by the first territory of the number's calling code.
    ///
    /// `E164`: a plus sign, the code, the national number with its zeros. `International`: a plus
    /// sign, the code, a space, the number laid out, the extension. `National`: the number laid out
    /// by its rule, the extension. `Rfc3966`: `tel:+`, the code, a hyphen, the number laid out with
    /// each longest run of separators made one hyphen, and the extension after `;ext=`.
    /// `UnknownCode` exactly where the database lists no territory of the code; `Memory` where
    /// memory was refused.
    pub fn to_text(&self, alloc: Global) -> Result<String, FormatError>
        ensures text { IfOk result (λ t. text_of self.now ≡ Some (string_bytes t)) }
        ensures unknown { (result ≡ Err FormatError.UnknownCode) ↔ (text_of self.now ≡ None) }
    {
        let code = self.number.code().value();
        let Some(territory) = self.database.first_by_code(&code) else {
            return Err(FormatError::UnknownCode);
        };
        let finder = self.database.first_group_finder();
        match printing::text_by(
            alloc,
            finder,
            territory,
            self.mode,
            Rules::Crate,
            self.format,
            &self.number.printable(),
        ) {
            Ok(text) => Ok(text),
            Err(_) => Err(FormatError::Memory),
        }
    }
}

impl Formatter<'_, '_, '_> {
    /// The texts in the four modes, whatever the printer's own mode is, each as `to_text` would
    /// give it. The layout that the international text and that of RFC 3966 share is looked for
    /// once.
    pub fn to_texts(&self, alloc: Global) -> Result<Texts, FormatError>
        ensures e164 { IfOk result (λ t.
            printed (database_of self.now) mode.E164 (layout_of self.now) (number_of self.now) ≡
            Some (string_bytes t.e164)) }
        ensures international { IfOk result
            (λ t. printed (database_of self.now) mode.International (layout_of self.now)
            (number_of self.now) ≡ Some (string_bytes t.international)) }
        ensures national { IfOk result (λ t.
            printed (database_of self.now) mode.National (layout_of self.now) (number_of self.now) ≡
            Some (string_bytes t.national)) }
        ensures rfc3966 { IfOk result (λ t.
            printed (database_of self.now) mode.Rfc3966 (layout_of self.now) (number_of self.now) ≡
            Some (string_bytes t.rfc3966)) }
        ensures unknown { (result ≡ Err FormatError.UnknownCode) ↔ (text_of self.now ≡ None) }
    {
        let code = self.number.code().value();
        let Some(m) = self.database.first_by_code(&code) else {
            return Err(FormatError::UnknownCode);
        };
        let finder = self.database.first_group_finder();
        let number = self.number.printable();
        match printing::texts_by(alloc, finder, m, Rules::Crate, self.format, &number) {
            Ok(texts) => Ok(texts),
            Err(_) => Err(FormatError::Memory),
        }
    }
}

impl Formatter<'_, '_, '_> {
    /// Appends the texts in the four modes to a line, each after one tab: E.164, international,
    /// national, RFC 3966, each as `to_text` returns it, whatever the printer's own mode is. Where
    /// the line doesn't grow, the call takes memory, of the database's allocator, only for a
    /// national number that is laid out or has leading zeros. `UnknownCode` exactly where the
    /// database lists no territory of the code, `Memory` where memory was refused; after an error
    /// the line is as it was.
    pub fn push_texts(&self, line: &mut String) -> Result<(), FormatError>
        ensures texts { OnOk result ((texts : List ℕ) × (texts_of self.now ≡ Some texts) ×
            (string_bytes line.new ≡ string_bytes line.old ++ 9 ∷ texts)) }
        ensures unknown { (result ≡ Err FormatError.UnknownCode) ↔ (text_of self.now ≡ None) }
        ensures untouched { result ≡ Err FormatError.UnknownCode → line.new ≡ line.old }
        ensures kept { OnErr result (string_bytes line.new ≡ string_bytes line.old) }
    {
        let code = self.number.code().value();
        let Some(m) = self.database.first_by_code(&code) else {
            return Err(FormatError::UnknownCode);
        };
        let alloc = self.database.allocator();
        let finder = self.database.first_group_finder();
        match printing::push_texts(
            line,
            alloc,
            finder,
            m,
            Rules::Crate,
            self.format,
            &self.number.printable(),
        ) {
            Ok(()) => Ok(()),
            Err(_) => Err(FormatError::Memory),
        }
    }
}

impl Formatter<'_, '_, '_> {
    /// Writes the printed text to a sink. The whole text is made first, with the database's
    /// allocator; then one call hands the text to the sink, and the result of that call is
    /// returned. Where `to_text` would return an error, an error is returned, and the sink is as it
    /// was.
    pub fn write_to<S: TextSink>(&self, sink: &mut S) -> fmt::Result
        ensures { IsWrittenWhole S.gives (text_of self.now) sink.old result sink.new }
    {
        match self.to_text(self.database.allocator()) {
            Ok(text) => sink.put(text.as_str()),
            Err(_) => Err(fmt::Error),
        }
    }
}

impl fmt::Display for Formatter<'_, '_, '_> {
    ghost use Rattle.std.specs.Prelude.{◌≡◌, None};
    ghost use Rattle.phonenumber.specs.Printers.{text_of};

    ghost output = { λ f. text_of f };

    /// Writes the printed text as `write_to` does: in one `write_str`, or not at all and with an
    /// error.
    fn fmt<W: fmt::Write>(&self, f: &mut fmt::Formatter<W>) -> fmt::Result
        ensures writes { DisplaysOnOk W.write_str_gives f.old result (text_of self.now) f.new }
        ensures styled { DisplaysStyledOnOk W.write_str_gives f.old result None f.new }
        ensures refused { text_of self.now ≡ None → IsErr result }
        ensures unchanged { text_of self.now ≡ None → f.new ≡ f.old }
        ensures whole { IsWrittenWhole (puts W.write_str_gives) (text_of self.now) f.old result
            f.new }
    {
        self.write_to(f)
    }
}
