//! A field into which a number is keyed.
ghost use Rattle.std.specs.Prelude.{◌≡◌, IfOk, OnErr, OnOk, chars};
ghost use Rattle.std.specs.Option.{option_copied};
ghost use Rattle.phone_typed.specs.KeyedFields as fields;
ghost use Rattle.phone_typed.specs.Steps.{typed, typed_all};

use phone_base::results::{zip, zip_value};
use phone_chars::cuts::split_first;
use phone_keyed_parts::{Laid, Line};
use phone_plans::{Plans, Territory};
use phone_values::country::Id;
use std::alloc::AllocError;
use std::marker::Model;

/// A number as it is keyed in, shown as libphonenumber's formatter shows it under a database and a
/// hint. Contracts see the record of all that it keeps.
#[derive(Drop)]
pub struct Keyed<'d> {
    pub(crate) database: &'d Plans,
    pub(crate) hint: Option<Id>,
    pub(crate) text: String,
    pub(crate) keys: String,
    pub(crate) has_others: bool,
    pub(crate) line: Line<'d>,
    pub(crate) awaits_code: bool,
    pub(crate) laid: Laid<'d>,
    pub(crate) shown: String,
}

impl<'d> Model for Keyed<'d> {
    ghost use Rattle.std.specs.Prelude.{string_bytes};
    ghost use Rattle.phone_typed.specs.KeyedFields as fields;

    ghost Value = { fields.Field };

    ghost view = { λ k. record {
      database = k.database.now;
      hint = k.hint;
      text = string_bytes k.text;
      keys = string_bytes k.keys;
      has_others = k.has_others;
      line = k.line;
      awaits_code = k.awaits_code;
      laid = k.laid;
      shown = string_bytes k.shown;
    } };
}

impl<'d> Keyed<'d> {
    /// A field in which nothing is typed yet. The hint is the region that digits without a sign are
    /// dialled in. Takes no memory.
    pub fn new(database: &'d Plans, hint: Option<Id>) -> Keyed<'d>
        ensures { result ≡ fields.empty database.now hint }
    {
        let alloc = database.allocator();
        Keyed {
            database,
            hint,
            text: String::new(alloc),
            keys: String::new(alloc),
            has_others: false,
            line: Line::at(alloc, home(database, hint)),
            awaits_code: false,
            laid: Laid::none(alloc),
            shown: String::new(alloc),
        }
    }

    /// A field in which a text is typed, character by character, as `push` does it. Refused only
    /// for memory.
    pub fn typed(database: &'d Plans, hint: Option<Id>, text: &str) -> Result<Keyed<'d>, AllocError>
        ensures { IfOk result (λ k. k ≡
            typed_all (chars text.now) (fields.empty database.entry.now hint)) }
    {
        let mut field = Keyed::new(database, hint);
        let mut rest = text;
        while let Some((c, after)) = split_first(rest) {
            field.change(c)?;
            rest = after;
        }
        Ok(field)
    }

    /// What is shown of all that was typed.
    pub fn shown(&self) -> &str
        ensures { result.now ≡ self.now.shown }
    {
        self.shown.as_str()
    }

    /// Types a character. A digit of any script is the key of its value, and a plus sign is one
    /// before all else; after any other character the text is shown as it was typed. Refused only
    /// for memory; then the field stays as it was.
    pub fn push(&mut self, c: char) -> Result<(), AllocError>
        ensures pushed { OnOk result (self.new ≡ typed c self.old) }
        ensures kept { OnErr result (self.new ≡ self.old) }
    {
        let next = self.with(c)?;
        *self = next;
        Ok(())
    }

    /// The same field once a character is typed. Refused only for memory.
    fn with(&self, c: char) -> Result<Keyed<'d>, AllocError>
        ensures { IfOk result (λ next. next ≡ typed c self.now) }
    {
        let mut next = self.try_copy()?;
        let done = next.change(c);
        let (_, next) = zip_value(done, next)?;
        Ok(next)
    }

    /// Types a character. Refused only for memory; then the field is of no use.
    fn change(&mut self, c: char) -> Result<(), AllocError>
        ensures { OnOk result (self.new ≡ typed c self.old) }
    {
        self.put_down(c)?;
        self.show_anew()
    }

    /// The same field again. Refused only for memory.
    fn try_copy(&self) -> Result<Keyed<'d>, AllocError>
        ensures { IfOk result (λ k. k ≡ self.now) }
    {
        let alloc = self.database.allocator();
        let text = String::from_str(alloc, self.text.as_str());
        let keys = String::from_str(alloc, self.keys.as_str());
        let shown = String::from_str(alloc, self.shown.as_str());
        let parts = zip(self.line.try_copy(alloc), self.laid.try_copy(alloc));
        let ((text, keys), ((line, laid), shown)) = zip(zip(text, keys), zip(parts, shown))?;
        Ok(Keyed {
            database: self.database,
            hint: self.hint,
            text,
            keys,
            has_others: self.has_others,
            line,
            awaits_code: self.awaits_code,
            laid,
            shown,
        })
    }

    /// Takes all that was typed away. Takes no memory.
    pub fn clear(&mut self)
        ensures { self.new ≡ fields.empty self.old.database self.old.hint }
    {
        *self = Keyed::new(self.database, self.hint);
    }
}

/// The first territory of the calling code of the hint.
fn home(db: &Plans, hint: Option<Id>) -> Option<&Territory>
    ensures { option_copied result ≡ fields.home db.entry.now hint }
{
    let m = hinted(db, hint)?;
    db.first_by_code(&m.country_code())
}

/// The territory of the hint: the last record with its id.
fn hinted(db: &Plans, hint: Option<Id>) -> Option<&Territory>
    ensures { option_copied result ≡ fields.hinted db.entry.now hint }
{
    match hint {
        Some(id) => db.by_id(id.as_str()),
        None => None,
    }
}
