//! What each key does to a field.
ghost use Rattle.std.specs.Prelude.{◌≡◌, IfOk, IfSome, IsCharBoundary, OnOk, Some};
ghost use Rattle.phone_plans.specs.CodeLookUps.{shortest};
ghost use Rattle.phone_typed.specs.KeyedFields as fields;
ghost use Rattle.phone_typed.specs.Steps as step_rules;
ghost use Rattle.phone_keyed_parts.specs.Lines as line_rules;

use crate::field::Keyed;
use phone_keyed_parts::sign_end;
use phone_library_text::value_of;
use std::alloc::AllocError;

/// Fewer national digits stand as they are, and fewer keys are shown as they were typed.
const FEWEST: usize = 3;

/// The key of a character: the digit of its value, in any script; before all else a plus sign is
/// one as well.
fn key_of(text: &str, c: char) -> Option<char>
    ensures { result ≡ fields.key_of text.now c }
{
    if text.is_empty() && c == '+' {
        Some('+')
    } else {
        value_of(c)
    }
}

impl<'d> Keyed<'d> {
    /// Looks up the layouts that may show the national digits, and are meant for them. Refused only
    /// for memory.
    fn look_up(&mut self) -> Result<(), AllocError>
        ensures { OnOk result (self.new ≡ step_rules.with_layouts self.old) }
    {
        let alloc = self.database.allocator();
        self.laid.look_up(alloc, &self.line)
    }

    /// Leaves the layouts that are meant for the national digits. Refused only for memory.
    fn narrow(&mut self) -> Result<(), AllocError>
        ensures { OnOk result (self.new ≡ step_rules.with_narrowed self.old) }
    {
        let alloc = self.database.allocator();
        self.laid.narrow(alloc, self.line.national())
    }

    /// Chooses layouts. Refused only for memory.
    fn choose(&mut self) -> Result<(), AllocError>
        ensures { OnOk result (self.new ≡ step_rules.choose self.old) }
    {
        if self.line.national().len() < FEWEST {
            return self.national_behind_front();
        }
        self.look_up()?;
        if self.show_complete()? {
            return Ok(());
        }
        if self.retemplate()? {
            return self.by_template();
        }
        self.as_typed()
    }

    /// Chooses layouts as if none had been before. Refused only for memory.
    fn choose_anew(&mut self) -> Result<(), AllocError>
        ensures { OnOk result (self.new ≡ step_rules.choose_anew self.old) }
    {
        self.awaits_code = false;
        self.laid.forget();
        self.choose()
    }

    /// Goes on where layouts are left. Refused only for memory.
    fn go_on(&mut self) -> Result<(), AllocError>
        ensures { OnOk result (self.new ≡ step_rules.go_on self.old) }
    {
        let text = self.enter()?;
        let done = self.go_on_with(text.as_str());
        drop(text);
        done
    }

    /// The same, with a text of what the template showed. Refused only for memory.
    fn go_on_with(&mut self, text: &str) -> Result<(), AllocError>
        ensures { OnOk result (self.new ≡ step_rules.go_on_with text.now self.old) }
    {
        if self.show_complete()? {
            return Ok(());
        }
        self.narrow()?;
        if self.retemplate()? {
            return self.by_template();
        }
        self.if_fits(text)
    }

    /// The calling code that begins the national digits.
    fn code(&self) -> Option<u16>
        ensures { result ≡ shortest self.now.database self.now.line.national }
    {
        self.database.shortest(self.line.national())
    }

    /// Takes a calling code that begins the national digits. Refused only for memory.
    fn take_code(&mut self, code: u16) -> Result<(), AllocError>
        requires { shortest self.old.database self.old.line.national ≡ Some code }
        ensures { OnOk result (self.new ≡ step_rules.with_code code self.old) }
    {
        let line = self.line.after_code(self.database, self.hint, code)?;
        self.line = line;
        self.awaits_code = false;
        Ok(())
    }

    /// Takes the awaited calling code where one begins the digits. Refused only for memory.
    fn await_code(&mut self) -> Result<(), AllocError>
        ensures { OnOk result (self.new ≡ step_rules.await_code self.old) }
    {
        match self.code() {
            Some(code) => {
                self.take_code(code)?;
                self.as_line()
            }
            None => self.as_line(),
        }
    }

    /// Goes on at another key. Refused only for memory.
    fn go_further(&mut self) -> Result<(), AllocError>
        ensures { OnOk result (self.new ≡ step_rules.further self.old) }
    {
        if self.awaits_code {
            return self.await_code();
        }
        if self.laid.has_layouts() {
            self.go_on()
        } else {
            self.choose()
        }
    }

    /// Takes the national prefix off the digits, and keeps it. Refused only for memory.
    fn take_prefix(&mut self) -> Result<(), AllocError>
        ensures { OnOk result (self.new ≡
            record self.old { line = line_rules.with_prefix_off self.old.line }) }
    {
        let alloc = self.database.allocator();
        let line = self.line.with_prefix_off(alloc)?;
        self.line = line;
        Ok(())
    }

    /// Where a calling code may begin among the keys. Refused only for memory.
    fn sign_end(&self) -> Result<Option<usize>, AllocError>
        ensures end { IfOk result (λ end. end ≡
            line_rules.sign_end self.now.line.territory self.now.keys) }
        ensures border { IfOk result (λ end. IfSome end (λ e. IsCharBoundary self.now.keys e)) }
    {
        sign_end(self.line.territory(), self.keys.as_str())
    }

    /// Parts the keys where a calling code may begin. Refused only for memory.
    fn take_sign(&mut self, end: usize) -> Result<(), AllocError>
        requires { IsCharBoundary self.old.keys end }
        ensures { OnOk result (self.new ≡ step_rules.with_sign end self.old) }
    {
        let alloc = self.database.allocator();
        let line = self.line.after_sign(alloc, end, self.keys.as_str())?;
        self.line = line;
        Ok(())
    }

    /// Begins at the third key. Refused only for memory.
    fn begin(&mut self) -> Result<(), AllocError>
        ensures { OnOk result (self.new ≡ step_rules.third self.old) }
    {
        let end = self.sign_end()?;
        match end {
            Some(end) => {
                self.take_sign(end)?;
                self.awaits_code = true;
                self.go_further()
            }
            None => {
                self.take_prefix()?;
                self.choose()
            }
        }
    }

    /// Goes on with a number that fits no layout, behind a sign. Refused only for memory.
    fn unfit_abroad(&mut self) -> Result<(), AllocError>
        ensures { OnOk result (self.new ≡ step_rules.unfit_abroad self.old) }
    {
        match self.code() {
            Some(code) => {
                self.take_code(code)?;
                self.choose_anew()
            }
            None => self.as_typed(),
        }
    }

    /// Puts the national prefix back, takes the one that is in front then off, and tells whether it
    /// is another. Refused only for memory.
    fn take_longer_prefix(&mut self) -> Result<bool, AllocError>
        ensures line { OnOk result (self.new ≡
            record self.old { line = line_rules.with_longer_prefix self.old.line }) }
        ensures other { IfOk result (λ b. b ≡ line_rules.has_longer_prefix self.old.line) }
    {
        let alloc = self.database.allocator();
        let (is_other, line) = self.line.with_longer_prefix(alloc)?;
        self.line = line;
        Ok(is_other)
    }

    /// Puts a space behind what stands in front of the national digits. Refused only for memory.
    fn push_space(&mut self) -> Result<(), AllocError>
        ensures { OnOk result (self.new ≡
            record self.old { line = line_rules.with_space self.old.line }) }
    {
        self.line.push_space()
    }

    /// Goes on with a number that fits no layout, and has no sign. Refused only for memory.
    fn unfit_at_home(&mut self) -> Result<(), AllocError>
        ensures { OnOk result (self.new ≡ step_rules.unfit_at_home self.old) }
    {
        if !self.take_longer_prefix()? {
            return self.as_typed();
        }
        self.push_space()?;
        self.choose_anew()
    }

    /// Goes on with a number that fits no layout. Refused only for memory.
    fn unfit(&mut self) -> Result<(), AllocError>
        ensures { OnOk result (self.new ≡ step_rules.unfit self.old) }
    {
        if self.has_others {
            return self.as_typed();
        }
        let end = self.sign_end()?;
        match end {
            Some(end) => {
                self.take_sign(end)?;
                self.unfit_abroad()
            }
            None => self.unfit_at_home(),
        }
    }

    /// Shows a field whose keys are put down. Refused only for memory.
    pub(crate) fn show_anew(&mut self) -> Result<(), AllocError>
        ensures { OnOk result (self.new ≡ step_rules.shown_anew self.old) }
    {
        if !self.laid.fits() {
            return self.unfit();
        }
        if self.keys.len() < FEWEST {
            return self.as_typed();
        }
        if self.keys.len() == FEWEST {
            self.begin()
        } else {
            self.go_further()
        }
    }

    /// Puts a character down, with its key and its digit, if it has them. Refused only for memory.
    pub(crate) fn put_down(&mut self, c: char) -> Result<(), AllocError>
        ensures { OnOk result (self.new ≡ step_rules.put_down c self.old) }
    {
        match key_of(self.text.as_str(), c) {
            Some(key) => self.put_key(c, key),
            None => self.put_other(c),
        }
    }

    /// Puts a character down with its key. Refused only for memory.
    fn put_key(&mut self, c: char, key: char) -> Result<(), AllocError>
        ensures { OnOk result (self.new ≡ step_rules.put_key c self.old key) }
    {
        self.text.push(c)?;
        self.keys.push(key)?;
        self.line.put_key(key)
    }

    /// Puts a character down that is no key. Refused only for memory.
    fn put_other(&mut self, c: char) -> Result<(), AllocError>
        ensures { OnOk result (self.new ≡ step_rules.put_other c self.old) }
    {
        self.text.push(c)?;
        self.has_others = true;
        self.laid.fit_none();
        Ok(())
    }
}
