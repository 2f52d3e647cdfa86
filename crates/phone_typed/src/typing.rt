//! A field in which a number is typed.
ghost use Rattle.std.specs.Prelude.{◌≡◌, ◌-◌, [], chars, length, OnErr, OnOk, take};
ghost use Rattle.phone_typed.specs.Fields.{shown};
ghost use Rattle.phone_typed.specs.Keys.{up_to_key, with_key};

use crate::keys::{end_of_key, push_key};
use crate::texts::{layout_territory, text_of};
use phone_plans::{Plans, Territory};
use phone_values::country::Id;
use std::alloc::AllocError;
use std::marker::Model;

/// A number as it is typed: the keys so far, and what is shown of them under a database and a hint.
/// Contracts see the records of the database, the hint and the keys.
#[derive(Drop)]
pub struct Typing<'d> {
    database: &'d Plans,
    hint: Option<Id>,
    /// The territory in which digits without a plus sign are typed.
    home: Option<&'d Territory>,
    keys: String,
    shown: String,
}

impl<'d> Model for Typing<'d> {
    ghost use Rattle.std.specs.Prelude.{◌≡◌, string_bytes, true};
    ghost use Rattle.std.specs.List.{list_all};
    ghost use Rattle.phone_typed.specs.Fields.{Field};
    ghost use Rattle.std.specs.Option.{option_copied};
    ghost use Rattle.phone_typed.specs.Keys.{is_key};
    ghost use Rattle.phone_typed.specs.Typed.{layout_territory, typed};

    ghost Value = { Field };

    ghost view = { λ t. record {
      database = t.database.now;
      hint = t.hint;
      keys = string_bytes t.keys;
    } };

    ghost invariant = { λ t. (list_all is_key (string_bytes t.keys) ≡ true) ×
        (string_bytes t.shown ≡ typed t.database.now t.hint (string_bytes t.keys)) ×
        (option_copied t.home ≡ layout_territory t.database.now t.hint) };
}

impl<'d> Typing<'d> {
    /// A field in which nothing is typed yet. The hint is the region that digits without a plus
    /// sign are dialled in. Takes no memory.
    pub fn new(database: &'d Plans, hint: Option<Id>) -> Typing<'d>
        ensures { result ≡ record { database = database.now; hint = hint; keys = [] } }
    {
        let alloc = database.allocator();
        Typing {
            database,
            hint,
            home: layout_territory(database, hint),
            keys: String::new(alloc),
            shown: String::new(alloc),
        }
    }

    /// What is shown: the text that [`typed`](crate::typed) gives for all that was typed.
    pub fn shown(&self) -> &str
        ensures { result.now ≡ shown self.now }
    {
        self.shown.as_str()
    }

    /// The keys so far: digits of ASCII, and perhaps a plus sign before them.
    pub fn keys(&self) -> &str
        ensures { result.now ≡ self.now.keys }
    {
        self.keys.as_str()
    }

    /// Types a character. A digit of any script is the key of its value, and a plus sign is one
    /// before all others; any other character changes nothing. Refused only for memory; then the
    /// field stays as it was.
    pub fn push(&mut self, c: char) -> Result<(), AllocError>
        ensures pushed { OnOk result (self.new ≡
            record self.old { keys = with_key self.old.keys c }) }
        ensures kept { OnErr result (self.new ≡ self.old) }
    {
        let len = self.keys.len();
        push_key(&mut self.keys, c)?;
        match text_of(self.database, self.home, self.keys.as_str()) {
            Ok(shown) => {
                self.shown = shown;
                Ok(())
            }
            Err(error) => {
                self.keys.truncate(len);
                Err(error)
            }
        }
    }

    /// Takes the last key away, where there is one. Refused only for memory; then the field stays
    /// as it was.
    pub fn back(&mut self) -> Result<(), AllocError>
        ensures taken { OnOk result (self.new ≡
            record self.old { keys = take (length self.old.keys - 1) self.old.keys }) }
        ensures kept { OnErr result (self.new ≡ self.old) }
    {
        let len = self.keys.len().saturating_sub(1);
        let shown = text_of(self.database, self.home, &self.keys.as_str()[..len])?;
        self.keys.truncate(len);
        self.shown = shown;
        Ok(())
    }

    /// Takes all keys away. Takes no memory.
    pub fn clear(&mut self)
        ensures { self.new ≡ record self.old { keys = [] } }
    {
        self.keys.truncate(0);
        self.shown.truncate(0);
    }

    /// After how many characters of what is shown the n-th key stands, counted from 1: where the
    /// caret stands after it. 0 for no key; all of them from the last key on.
    pub fn caret(&self, n: usize) -> usize
        ensures { result ≡ length (chars (up_to_key n (shown self.now))) }
    {
        let end = end_of_key(self.shown.as_str(), n);
        count_chars(&self.shown.as_str()[..end])
    }
}

/// How many characters a text has.
fn count_chars(text: &str) -> usize
    ensures { result ≡ length (chars text.now) }
{
    text.chars().count()
}
