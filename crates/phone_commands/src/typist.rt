//! What is shown while numbers are typed.
ghost use Rattle.std.specs.Prelude.{◌≡◌, ◌++◌, ◌∷◌, [], OnOk, chars};
ghost use Rattle.phone_commands.specs.TypedLines.{barred, behind_bars, shown_after_each};
ghost use Rattle.phone_commands.specs.TypedLines.{typed_into};
ghost use Rattle.phone_typed.specs.Fields.{shown};
ghost use Rattle.phone_typed.specs.Keys.{with_keys};

use crate::text::push_text;
use phone_chars::cuts::split_first;
use phone_lines::LineTaker;
use phone_plans::Plans;
use phone_typed::Typing;
use phonenumber::country::Id;
use std::alloc::{AllocError, Global};

/// What is shown after each character of a line, as it is typed into an empty field: the texts of a
/// line, parted by vertical bars.
#[derive(Drop)]
pub struct Typist<'d> {
    /// The field.
    pub field: Typing<'d>,
}

impl<'d> Typist<'d> {
    /// What types into an empty field over a database. The hint is the region that digits without a
    /// plus sign are dialled in.
    pub fn new(database: &'d Plans, hint: Option<Id>) -> Typist<'d>
        ensures { result.field ≡ record { database = database.now; hint = hint; keys = [] } }
    {
        Typist {
            field: Typing::new(database, hint),
        }
    }

    /// Types a character, and puts what is shown then at the end of the answers. Refused only for
    /// memory.
    fn type_key(&mut self, c: char, answers: &mut Vec<u8>) -> Result<(), AllocError>
        ensures shown { OnOk result (answers.new.items ≡
            answers.old.items ++ shown (typed_into self.old.field c)) }
        ensures typed { OnOk result (self.new.field ≡ typed_into self.old.field c) }
    {
        self.field.push(c)?;
        push_text(answers, self.field.shown())
    }

    /// Types the characters of a text, and puts what is shown after each, with a vertical bar in
    /// front, at the end of the answers. Refused only for memory.
    fn type_later_keys(&mut self, text: &str, answers: &mut Vec<u8>) -> Result<(), AllocError>
        ensures shown { OnOk result (answers.new.items ≡ answers.old.items ++
            behind_bars (shown_after_each self.old.field (chars text.now))) }
        ensures typed { OnOk result (self.new.field ≡ record self.old.field {
          keys = with_keys self.old.field.keys (chars text.now);
        }) }
    {
        let mut rest = text;
        while let Some((c, after)) = split_first(rest) {
            push_text(answers, "|")?;
            self.type_key(c, answers)?;
            rest = after;
        }
        Ok(())
    }

    /// Types the characters of a text, and puts what is shown after each, parted by vertical bars,
    /// at the end of the answers. Refused only for memory.
    fn type_keys(&mut self, text: &str, answers: &mut Vec<u8>) -> Result<(), AllocError>
        ensures shown { OnOk result (answers.new.items ≡ answers.old.items ++
            barred (shown_after_each self.old.field (chars text.now))) }
        ensures typed { OnOk result (self.new.field ≡ record self.old.field {
          keys = with_keys self.old.field.keys (chars text.now);
        }) }
    {
        match split_first(text) {
            Some((c, rest)) => {
                self.type_key(c, answers)?;
                self.type_later_keys(rest, answers)
            }
            None => Ok(()),
        }
    }
}

impl<'d> LineTaker for Typist<'d> {
    ghost use Rattle.std.specs.Prelude.{◌≡◌};
    ghost use Rattle.phone_commands.specs.TypedLines.{after_line, typed_line};
    ghost use Rattle.phone_lines.specs.Taken.{begins_with_nothing};

    ghost begins = { begins_with_nothing };

    ghost gives = { λ t line answer after. (answer ≡ typed_line t.field line) ×
        (after.field ≡ after_line t.field line) };

    fn begin(&mut self, _alloc: Global, _answers: &mut Vec<u8>) -> Result<(), AllocError> {
        Ok(())
    }

    fn take(
        &mut self,
        alloc: Global,
        line: &[u8],
        answers: &mut Vec<u8>,
    ) -> Result<(), AllocError> {
        let text = String::from_utf8_lossy(alloc, line)?;
        self.field.clear();
        self.type_keys(text.as_str(), answers)?;
        push_text(answers, "\n")
    }
}
