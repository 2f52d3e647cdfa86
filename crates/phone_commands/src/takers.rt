//! What lines are answered by commands that count them or keep numbers.
ghost use Rattle.std.specs.Prelude.{◌≡◌, ◌↔◌, ◌++◌, ◌∷◌, [], IfSome, IsNone, List, OnOk, ℕ};
ghost use Rattle.std.specs.Prelude.{Some, false, slice_get};
ghost use Rattle.phone_book.specs.Keys.{key_text};
ghost use Rattle.phone_commands.specs.FirstLines.{IsFirstLine};
ghost use Rattle.phone_commands.specs.ObjectLines.{after_one};
ghost use Rattle.phone_plans.specs.CodeLookUps.{is_prefix_free};
ghost use Rattle.phone_values.specs.declared.reading.Reading.{Reading};

use crate::reader::Reader;
use crate::text::{push_line, push_text};
use phone_book::{Book, BookError, Place, key_text};
use phone_engine::Rules;
use phone_lines::LineTaker;
use phone_plans::Plans;
use phone_table::Extra;
use phone_table::objects::object_line;
use phonenumber::country::Id;
use std::alloc::{AllocError, Global};

/// A JSON object for each line.
#[derive(Drop)]
pub struct Objects<'d> {
    /// What reads the lines.
    pub reader: Reader<'d>,
    /// What is told of each beside, by its heading.
    pub extra: &'d [Extra<'d>],
    /// The number of the next line.
    pub place: u64,
}

impl<'d> LineTaker for Objects<'d> {
    ghost use Rattle.std.specs.Prelude.{◌≡◌, option_map};
    ghost use Rattle.phone_commands.specs.ObjectLines.{IsObjectLine, after_one};
    ghost use Rattle.phone_lines.specs.Taken.{begins_with_nothing};

    ghost begins = { begins_with_nothing };

    // The object of the line, whose number is that of the last one and one more.
    ghost gives = { λ o line answer after. IsObjectLine o.reader.engine.rules
        o.reader.engine.database.now (option_map (λ d. d.now) o.reader.short) o.extra.now
        o.reader.engine.hint o.place line answer ×
        (after ≡ record o { place = after_one o.place }) };

    fn begin(&mut self, _alloc: Global, _answers: &mut Vec<u8>) -> Result<(), AllocError> {
        Ok(())
    }

    fn take(
        &mut self,
        _alloc: Global,
        line: &[u8],
        answers: &mut Vec<u8>,
    ) -> Result<(), AllocError> {
        let Reader { engine, short } = self.reader;
        let object = object_line(engine, short, self.extra, self.place, line)?;
        self.place = self.place.saturating_add(1);
        push_line(answers, object.as_str())
    }
}

/// The first line of each number.
#[derive(Drop)]
pub struct FirstLines {
    /// The numbers so far.
    pub book: Book,
    /// The region under which lines are read.
    pub hint: Option<Id>,
    /// How many lines had a new number.
    pub added: u64,
    /// How many had one that was there.
    pub present: u64,
    /// How many had none.
    pub refused: u64,
}

impl FirstLines {
    /// What keeps the first line of each number, of which there is none yet. None where the
    /// database can't tell numbers apart: a listed calling code begins another.
    pub fn new(database: Plans, rules: Rules, hint: Option<Id>) -> Option<FirstLines>
        ensures none { IsNone result ↔ (is_prefix_free database ≡ false) }
        ensures empty { IfSome result (λ f. f ≡ record {
          book = record { database = database; rules = rules; entries = [] };
          hint = hint;
          added = 0;
          present = 0;
          refused = 0;
        }) }
    {
        let Ok(book) = Book::over(database, rules) else {
            return None;
        };
        Some(FirstLines {
            book,
            hint,
            added: 0,
            present: 0,
            refused: 0,
        })
    }

    /// Counts a new number, which stands at this place of the book, and puts its line at the end of
    /// the answers. Refused only for memory.
    fn push_added(
        &mut self,
        alloc: Global,
        place: usize,
        text: &str,
        answers: &mut Vec<u8>,
    ) -> Result<(), AllocError>
        ensures { OnOk result (((n : Reading) → slice_get self.old.book.entries place ≡ Some n →
            answers.new.items ≡ answers.old.items ++
            (key_text n ++ 9 ∷ (text.now ++ 10 ∷ []))) ×
            (self.new ≡ record self.old { added = after_one self.old.added })) }
    {
        self.added = self.added.saturating_add(1);
        if let Some(number) = self.book.get(place) {
            let key = key_text(alloc, number)?;
            let told = format!(in alloc; "{key}\t{text}\n")?;
            push_text(answers, told.as_str())?;
        }
        Ok(())
    }

    /// Takes a line that is a text.
    fn take_text(
        &mut self,
        alloc: Global,
        text: &str,
        answers: &mut Vec<u8>,
    ) -> Result<(), AllocError>
        ensures { OnOk result ((answer : List ℕ) ×
            IsFirstLine self.old text.now answer self.new ×
            (answers.new.items ≡ answers.old.items ++ answer)) }
    {
        match self.book.add(self.hint, text) {
            Ok(Place::Added(place)) => self.push_added(alloc, place, text, answers),
            Ok(Place::Present(_)) => {
                self.present = self.present.saturating_add(1);
                Ok(())
            }
            Err(BookError::Refused(_)) => {
                self.refused = self.refused.saturating_add(1);
                Ok(())
            }
            Err(BookError::Memory) => Err(AllocError),
        }
    }
}

impl LineTaker for FirstLines {
    ghost use Rattle.phone_commands.specs.FirstLines.{IsFirstLine};
    ghost use Rattle.phone_lines.specs.Taken.{begins_with_nothing};

    ghost begins = { begins_with_nothing };

    ghost gives = { IsFirstLine };

    fn begin(&mut self, _alloc: Global, _answers: &mut Vec<u8>) -> Result<(), AllocError> {
        Ok(())
    }

    fn take(
        &mut self,
        alloc: Global,
        line: &[u8],
        answers: &mut Vec<u8>,
    ) -> Result<(), AllocError> {
        let Ok(text) = std::str::from_utf8(line) else {
            self.refused = self.refused.saturating_add(1);
            return Ok(());
        };
        self.take_text(alloc, text, answers)
    }
}
