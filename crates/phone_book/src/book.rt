//! A contact list without repeated numbers.
ghost use Rattle.std.specs.Prelude.{◌≡◌, ◌↔◌, ◌++◌, [], List, false, true, length, map, slice_get};
ghost use Rattle.std.specs.Prelude.{string_bytes, IfErr, IfOk, IsErr, OnErr};
ghost use Rattle.std.specs.Option.{option_copied};
ghost use Rattle.phone_plans.specs.CodeLookUps.{is_listed, is_prefix_free};
ghost use Rattle.phone_values.specs.declared.reading.Reading.{Reading};
ghost use Rattle.phone_values.specs.declared.rules.Rules.TheVariants as by;
ghost use Rattle.phone_book.specs.Answers.{AreAnswered, HasNumbers, HaveNumbers, IsAnswered};
ghost use Rattle.phone_book.specs.Answers.{IsPlaced, line_of};
ghost use Rattle.phone_book.specs.Firsts.{firsts};
ghost use Rattle.phone_book.specs.Keys.{key_text};
ghost use Rattle.phone_book.specs.declared.answers.BookNewError.TheVariants as new_error;

use crate::answers::{BookError, BookNewError, Place};
use crate::iter::Iter;
use crate::key::key_text;
use indexmap::IndexMap;
use phone_engine::Engine;
use phone_engine::laws::code_is_listed;
use phone_meta::Database;
use phone_plans::Plans;
use phone_values::country::Id;
use phone_values::{ParseError, Rules};
use phonenumber::{PhoneNumber, laws};
use std::alloc::AllocError;
use std::marker::Model;

/// Numbers under one database, in order of arrival, of which no two have one calling code, one
/// national number and one extension: each stays as it was first written. Contracts see the records
/// of the database, the rules by which lines are read, and the numbers.
#[derive(Drop)]
pub struct Book {
    database: Plans,
    rules: Rules,
    entries: IndexMap<String, PhoneNumber>,
}

impl Model for Book {
    ghost use Rattle.std.specs.Prelude.{◌≡◌, true};
    ghost use Rattle.indexmap.specs.IndexMap.{values};
    ghost use Rattle.phone_plans.specs.CodeLookUps.{is_prefix_free};
    ghost use Rattle.phone_book.specs.Books.{AreKept, Contacts};
    ghost use Rattle.phone_book.specs.Firsts.{firsts};

    ghost Value = { Contacts };

    ghost view = { λ b. record {
      database = b.database;
      rules = b.rules;
      entries = values b.entries;
    } };

    ghost invariant = { λ b. (is_prefix_free b.database ≡ true) ×
        (firsts (values b.entries) ≡ values b.entries) × AreKept b.database b.entries.entries };
}

impl Book {
    /// An empty book over a database, whose allocator it uses, which reads lines as `parse_with`
    /// does. Takes no memory: of the database it keeps the light table.
    ///
    /// Refused by `Ambiguous`, with the database given back, exactly where a listed calling code
    /// begins another: two numbers may have one E.164 text then.
    pub fn new(database: Database) -> Result<Book, (BookNewError, Database)>
        ensures accepted { IfOk result
            (λ b. b ≡ record { database = database; rules = by.Crate; entries = [] }) }
        ensures refused { IfErr result (λ e. e ≡ (new_error.Ambiguous, database)) }
        ensures ambiguous { IsErr result ↔ (is_prefix_free database ≡ false) }
    {
        if !database.codes_prefix_free() {
            return Err((BookNewError::Ambiguous, database));
        }
        Ok(Book::empty(database.into_plans(), Rules::Crate))
    }

    /// The same over a light table; lines are read by these rules.
    pub fn over(plans: Plans, rules: Rules) -> Result<Book, (BookNewError, Plans)>
        ensures accepted { IfOk result
            (λ b. b ≡ record { database = plans; rules = rules; entries = [] }) }
        ensures refused { IfErr result (λ e. e ≡ (new_error.Ambiguous, plans)) }
        ensures ambiguous { IsErr result ↔ (is_prefix_free plans ≡ false) }
    {
        if !plans.codes_prefix_free() {
            return Err((BookNewError::Ambiguous, plans));
        }
        Ok(Book::empty(plans, rules))
    }

    /// An empty book over a table, no listed code of which begins another.
    fn empty(database: Plans, rules: Rules) -> Book
        requires { is_prefix_free database ≡ true }
        ensures { result ≡ record { database = database; rules = rules; entries = [] } }
    {
        let alloc = database.allocator();
        Book {
            database,
            rules,
            entries: IndexMap::new(alloc),
        }
    }

    /// How many numbers there are. Takes no memory.
    pub fn len(&self) -> usize
        ensures { result ≡ length self.now.entries }
    {
        self.entries.len()
    }

    /// The number at a place, counted from 0; none from `len` on. Takes no memory.
    pub fn get(&self, n: usize) -> Option<&PhoneNumber>
        ensures { option_copied result ≡ slice_get self.now.entries n }
    {
        let (_, number) = self.entries.get_index(n)?;
        Some(number)
    }

    /// The numbers in order of arrival. Takes no memory.
    pub fn iter(&self) -> Iter<'_>
        ensures { result ≡ self.now.entries }
    {
        Iter::new(self.entries.values())
    }

    /// The key of a number. Refused only for memory.
    fn key_of(&self, number: &PhoneNumber) -> Result<String, AllocError>
        ensures { IfOk result (λ key. string_bytes key ≡ key_text number.now) }
    {
        key_text(self.database.allocator(), number)
    }

    /// The place of a number: that of the same one, or a new one at the end. Refused only for
    /// memory.
    fn place(&mut self, number: PhoneNumber) -> Result<Place, AllocError>
        requires { is_listed number.code.value self.old.database ≡ true }
        ensures placed { IfOk result (λ p. IsPlaced self.old.entries number p self.new.entries) }
        ensures database { self.new.database ≡ self.old.database }
        ensures rules { self.new.rules ≡ self.old.rules }
        ensures kept { OnErr result (self.new ≡ self.old) }
    {
        let _national = number.national();
        laws::key();
        let key = self.key_of(&number)?;
        if let Some(n) = self.entries.get_index_of(&key) {
            return Ok(Place::Present(n));
        }
        let n = self.entries.len();
        match self.entries.insert(key, number) {
            Ok(_) => Ok(Place::Added(n)),
            Err(_) => Err(AllocError),
        }
    }

    /// Reads a line under a hint, as an engine of the book's rules does, and adds its number unless
    /// one of the same calling code, national number and extension is there: source and carrier
    /// don't count, and the first one stays as it was written.
    ///
    /// `Added` with the place of the new number, which is the count of those before it; `Present`
    /// with the place of the one that is there. `Refused` where the line is read as no number, with
    /// the reason, and `Memory` where memory was refused: both leave the book as it was.
    pub fn add(&mut self, hint: Option<Id>, line: &str) -> Result<Place, BookError>
        ensures entries { (ns : List Reading) ×
            (HasNumbers self.old.rules self.old.database (hint, line.now) result ns) ×
            (self.new.entries ≡ firsts (self.old.entries ++ ns)) }
        ensures answer { IsAnswered self.old.rules self.old.database self.old.entries
            (hint, line.now) result self.new.entries }
        ensures database { self.new.database ≡ self.old.database }
        ensures rules { self.new.rules ≡ self.old.rules }
        ensures kept { OnErr result (self.new ≡ self.old) }
    {
        code_is_listed();
        let engine = Engine {
            database: &self.database,
            rules: self.rules,
            hint,
        };
        match engine.parse(line) {
            Ok(number) => match self.place(number) {
                Ok(place) => Ok(place),
                Err(_) => Err(BookError::Memory),
            },
            Err(ParseError::Memory) => Err(BookError::Memory),
            Err(error) => Err(BookError::Refused(error)),
        }
    }

    /// Adds each line in order, as `add` does, whatever the answers to the lines before it were.
    /// One answer a line, in order; an answer of `Memory` is that line's alone.
    ///
    /// Room for the answers is made first: where memory for it is refused, the book stays as it
    /// was.
    pub fn add_all(
        &mut self,
        lines: &[(Option<Id>, &str)],
    ) -> Result<Vec<Result<Place, BookError>>, AllocError>
        ensures entries { IfOk result (λ answers. (ns : List Reading) ×
            (HaveNumbers self.old.rules self.old.database (map line_of lines.now) answers.items
            ns) × (self.new.entries ≡ firsts (self.old.entries ++ ns))) }
        ensures answers { IfOk result (λ answers. AreAnswered self.old.rules self.old.database
            self.old.entries (map line_of lines.now) answers.items self.new.entries) }
        ensures database { self.new.database ≡ self.old.database }
        ensures rules { self.new.rules ≡ self.old.rules }
        ensures kept { OnErr result (self.new ≡ self.old) }
    {
        let mut answers = Vec::with_capacity(self.database.allocator(), lines.len())?;
        for (hint, line) in lines {
            answers.push_reserved(self.add(*hint, line));
        }
        Ok(answers)
    }
}
