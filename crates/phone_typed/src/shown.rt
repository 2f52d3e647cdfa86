//! What a field shows of the number that is keyed in.
ghost use Rattle.std.specs.Prelude.{◌≡◌, IfOk, OnOk, is_some, option_map, string_bytes};
ghost use Rattle.phone_typed.specs.Steps as step_rules;
ghost use Rattle.phone_keyed_parts.specs.Layouts.{is_retemplated, shown_part};

use crate::field::Keyed;
use phone_keyed_parts::{complete, joined};
use std::alloc::AllocError;

impl<'d> Keyed<'d> {
    /// Shows what was typed as it was typed. Refused only for memory.
    pub(crate) fn as_typed(&mut self) -> Result<(), AllocError>
        ensures { OnOk result (self.new ≡ step_rules.as_typed self.old) }
    {
        let alloc = self.database.allocator();
        let shown = String::from_str(alloc, self.text.as_str())?;
        self.shown = shown;
        Ok(())
    }

    /// Shows what stands in front of the national digits, and these as they are. Refused only for
    /// memory.
    pub(crate) fn as_line(&mut self) -> Result<(), AllocError>
        ensures { OnOk result (self.new ≡ step_rules.as_line self.old) }
    {
        let alloc = self.database.allocator();
        let mut shown = String::from_str(alloc, self.line.front())?;
        shown.push_str(self.line.national())?;
        self.shown = shown;
        Ok(())
    }

    /// Shows a text behind what stands in front of the national digits. Refused only for memory.
    fn behind_front(&mut self, text: &str) -> Result<(), AllocError>
        ensures { OnOk result (self.new ≡ step_rules.behind_front text.now self.old) }
    {
        let alloc = self.database.allocator();
        let shown = joined(alloc, self.line.front(), self.laid.is_spaced(), text)?;
        self.shown = shown;
        Ok(())
    }

    /// Shows the national digits behind what stands in front of them. Refused only for memory.
    pub(crate) fn national_behind_front(&mut self) -> Result<(), AllocError>
        ensures { OnOk result (self.new ≡
            step_rules.behind_front self.old.line.national self.old) }
    {
        let alloc = self.database.allocator();
        let (line, laid) = (&self.line, &self.laid);
        let shown = joined(alloc, line.front(), laid.is_spaced(), line.national())?;
        self.shown = shown;
        Ok(())
    }

    /// Shows a text of the national digits where the number fits a layout, else what was typed.
    /// Refused only for memory.
    pub(crate) fn if_fits(&mut self, text: &str) -> Result<(), AllocError>
        ensures { OnOk result (self.new ≡ step_rules.if_fits text.now self.old) }
    {
        if self.laid.fits() {
            self.behind_front(text)
        } else {
            self.as_typed()
        }
    }

    /// What the template shows of the national digits, if it has room. Refused only for memory.
    fn part(&self) -> Result<Option<String>, AllocError>
        ensures { IfOk result (λ t. option_map string_bytes t ≡
            shown_part self.now.line.national self.now.laid) }
    {
        self.laid
            .shown_part(self.database.allocator(), self.line.national())
    }

    /// Asks the template for the national digits: what it shows of them, or what was typed where it
    /// has no room. Refused only for memory.
    pub(crate) fn enter(&mut self) -> Result<String, AllocError>
        ensures text { IfOk result (λ t. string_bytes t ≡ step_rules.part_or_text self.old) }
        ensures entered { OnOk result (self.new ≡ step_rules.with_entered self.old) }
    {
        let part = self.part()?;
        match part {
            Some(text) => Ok(text),
            None => {
                self.laid.overflow();
                String::from_str(self.database.allocator(), self.text.as_str())
            }
        }
    }

    /// Shows the beginning of the number by the template. Refused only for memory.
    pub(crate) fn by_template(&mut self) -> Result<(), AllocError>
        ensures { OnOk result (self.new ≡ step_rules.by_template self.old) }
    {
        let text = self.enter()?;
        let done = self.if_fits(text.as_str());
        drop(text);
        done
    }

    /// Finds the template for the national digits, and tells whether it is a new one. Refused only
    /// for memory.
    pub(crate) fn retemplate(&mut self) -> Result<bool, AllocError>
        ensures found { OnOk result (self.new ≡ step_rules.with_template self.old) }
        ensures new { IfOk result (λ b. b ≡
            is_retemplated self.old.line.national self.old.laid) }
    {
        let alloc = self.database.allocator();
        self.laid.retemplate(alloc, self.line.national())
    }

    /// The number as a complete one, if a layout lays it out so, and whether a space parts the text
    /// from the front. Refused only for memory.
    fn completed(&self) -> Result<(bool, Option<String>), AllocError>
        ensures { IfOk result (λ c. (c.0, option_map string_bytes c.1) ≡
            step_rules.completed self.now) }
    {
        let alloc = self.database.allocator();
        let laid = &self.laid;
        complete(
            alloc,
            &self.line,
            self.keys.as_str(),
            laid.is_spaced(),
            laid.layouts(),
        )
    }

    /// Shows the number as a complete one, if a layout lays it out so, and tells whether it did.
    /// Refused only for memory.
    pub(crate) fn show_complete(&mut self) -> Result<bool, AllocError>
        ensures told { OnOk result (self.new ≡
            step_rules.told (step_rules.completed self.old) self.old) }
        ensures done { IfOk result (λ b. b ≡ is_some (step_rules.completed self.old).1) }
    {
        let (is_spaced, text) = self.completed()?;
        self.laid.set_spaced(is_spaced);
        match text {
            Some(text) => {
                self.shown = text;
                Ok(true)
            }
            None => Ok(false),
        }
    }
}
