//! How the national digits of a number are laid out while it is keyed in.
ghost use Rattle.std.specs.Prelude.{◌≡◌, ◌≤◌, [], false, drop, filter, length, map, None, Some};
ghost use Rattle.std.specs.Prelude.{IfOk, OnOk, option_map, string_bytes};
ghost use Rattle.std.specs.Borrow.{Bor};
ghost use Rattle.phone_records.specs.declared.loader.Format as loader;
ghost use Rattle.phone_keyed_parts.specs.Layouts as layout_rules;

use crate::layouts::{eligible, is_spaced};
use crate::leading::leads;
use crate::line::Line;
use crate::templates::{begun, template_of};
use phone_base::results::{zip, zip_value};
use phone_territory::Format;
use std::alloc::{AllocError, Global};
use std::marker::Model;

/// The layouts that are left, and the template that shows the beginning. Contracts see the record.
#[derive(Drop)]
pub struct Laid<'d> {
    layouts: Vec<&'d Format>,
    pattern: &'d str,
    template: String,
    is_spaced: bool,
    fits: bool,
}

impl<'d> Model for Laid<'d> {
    ghost use Rattle.std.specs.Prelude.{map, string_bytes};
    ghost use Rattle.std.specs.Borrow.{Bor};
    ghost use Rattle.phone_records.specs.declared.loader.Format as loader;
    ghost use Rattle.phone_keyed_parts.specs.Layouts as layout_rules;

    ghost Value = { layout_rules.Laid };

    ghost view = { λ l. record {
      layouts = map (λ (f : Bor loader.Format). f.now) l.layouts.items;
      pattern = l.pattern.now;
      template = string_bytes l.template;
      is_spaced = l.is_spaced;
      fits = l.fits;
    } };
}

/// Which of these layouts are meant for digits. Refused only for memory.
fn leading<'d>(
    alloc: Global,
    all: &[&'d Format],
    digits: &str,
) -> Result<Vec<&'d Format>, AllocError>
    ensures { IfOk result (λ v. map (λ (f : Bor loader.Format). f.now) v.items ≡
        filter (layout_rules.leads digits.now) (map (λ (f : Bor loader.Format). f.now) all.now)) }
{
    let mut left = Vec::new(alloc);
    for layout in all {
        if leads(layout, digits)? {
            left.push(*layout)?;
        }
    }
    Ok(left)
}

/// How many layouts come before the first that is of a kept pattern or has room for digits; in the
/// second case with its template. Refused only for memory.
fn passed_over(
    all: &[&Format],
    pattern: &str,
    digits: &str,
) -> Result<(usize, Option<String>), AllocError>
    ensures within { IfOk result (λ s. s.0 ≤ length all.now) }
    ensures serving { IfOk result (λ s.
        (map (λ (f : Bor loader.Format). f.now) (drop s.0 all.now), option_map string_bytes s.1) ≡
        layout_rules.first_serving digits.now pattern.now
        (map (λ (f : Bor loader.Format). f.now) all.now)) }
{
    let mut n = 0;
    for layout in all {
        if pattern == layout.whole_pattern().as_str() {
            return Ok((n, None));
        }
        if let Some(template) = template_of(layout, digits)? {
            return Ok((n, Some(template)));
        }
        n += 1;
    }
    Ok((n, None))
}

/// The layouts from the first on that is of a kept pattern or has room for digits; in the second
/// case with its template. Refused only for memory.
fn first_serving<'d>(
    alloc: Global,
    all: &[&'d Format],
    pattern: &str,
    digits: &str,
) -> Result<(Vec<&'d Format>, Option<String>), AllocError>
    ensures { IfOk result (λ s.
        (map (λ (f : Bor loader.Format). f.now) s.0.items, option_map string_bytes s.1) ≡
        layout_rules.first_serving digits.now pattern.now
        (map (λ (f : Bor loader.Format). f.now) all.now)) }
{
    let (n, template) = passed_over(all, pattern, digits)?;
    zip_value(Vec::from_slice(alloc, &all[n..]), template)
}

impl<'d> Laid<'d> {
    /// No layouts yet. Takes no memory.
    pub fn none(alloc: Global) -> Laid<'d>
        ensures { result ≡ layout_rules.no_layouts }
    {
        Laid {
            layouts: Vec::new(alloc),
            pattern: "",
            template: String::new(alloc),
            is_spaced: false,
            fits: true,
        }
    }

    /// The same again. Refused only for memory.
    pub fn try_copy(&self, alloc: Global) -> Result<Laid<'d>, AllocError>
        ensures { IfOk result (λ l. l ≡ self.now) }
    {
        let layouts = Vec::from_slice(alloc, self.layouts.as_slice());
        let template = String::from_str(alloc, self.template.as_str());
        let (layouts, template) = zip(layouts, template)?;
        Ok(Laid {
            layouts,
            pattern: self.pattern,
            template,
            is_spaced: self.is_spaced,
            fits: self.fits,
        })
    }

    /// The layouts that are left.
    pub fn layouts(&self) -> &[&'d Format]
        ensures { map (λ (f : Bor loader.Format). f.now) result.now ≡ self.now.layouts }
    {
        self.layouts.as_slice()
    }

    /// Whether layouts are left.
    pub fn has_layouts(&self) -> bool
        ensures { result ≡ layout_rules.has_layouts self.now }
    {
        !self.layouts.is_empty()
    }

    /// Whether a space parts what the layout prints from what stands in front.
    pub fn is_spaced(&self) -> bool
        ensures { result ≡ self.now.is_spaced }
    {
        self.is_spaced
    }

    /// Whether the number fits some layout at all.
    pub fn fits(&self) -> bool
        ensures { result ≡ self.now.fits }
    {
        self.fits
    }

    /// Notes whether a space parts what the layout prints from what stands in front.
    pub fn set_spaced(&mut self, is_spaced: bool)
        ensures { self.new ≡ record self.old { is_spaced = is_spaced } }
    {
        self.is_spaced = is_spaced;
    }

    /// Notes that the number fits no layout.
    pub fn fit_none(&mut self)
        ensures { self.new ≡ record self.old { fits = false } }
    {
        self.fits = false;
    }

    /// Forgets the layouts, and that the number fitted none. Takes no memory.
    pub fn forget(&mut self)
        ensures { self.new ≡ record layout_rules.no_layouts { is_spaced = self.old.is_spaced } }
    {
        self.layouts.truncate(0);
        self.pattern = "";
        self.template.truncate(0);
        self.fits = true;
    }

    /// Looks up the layouts that may show the digits of a line, and are meant for them. Refused
    /// only for memory.
    pub fn look_up(&mut self, alloc: Global, line: &Line<'d>) -> Result<(), AllocError>
        ensures { OnOk result (self.new ≡ layout_rules.looked_up line.now self.old) }
    {
        let all = eligible(alloc, line)?;
        let left = leading(alloc, all.as_slice(), line.national());
        drop(all);
        self.layouts = left?;
        Ok(())
    }

    /// Leaves the layouts that are meant for digits. Refused only for memory.
    pub fn narrow(&mut self, alloc: Global, digits: &str) -> Result<(), AllocError>
        ensures { OnOk result (self.new ≡ layout_rules.narrowed digits.now self.old) }
    {
        let left = leading(alloc, self.layouts.as_slice(), digits)?;
        self.layouts = left;
        Ok(())
    }

    /// Finds the template for national digits, and tells whether it is a new one. Refused only for
    /// memory.
    pub fn retemplate(&mut self, alloc: Global, digits: &str) -> Result<bool, AllocError>
        ensures found { OnOk result (self.new ≡ layout_rules.retemplated digits.now self.old) }
        ensures new { IfOk result (λ b. b ≡ layout_rules.is_retemplated digits.now self.old) }
    {
        let (left, template) = first_serving(alloc, self.layouts.as_slice(), self.pattern, digits)?;
        let is_new = template.is_some();
        self.serve(left, template);
        Ok(is_new)
    }

    /// Goes on with these layouts, and with the new template, if there is one.
    fn serve(&mut self, left: Vec<&'d Format>, template: Option<String>)
        ensures { self.new ≡ layout_rules.served
            (map (λ (f : Bor loader.Format). f.now) left.entry.items)
            (option_map string_bytes template) self.old }
    {
        match template {
            Some(template) => self.serve_new(left, template),
            None => self.serve_kept(left),
        }
    }

    /// Goes on with these layouts and the new template of the first.
    fn serve_new(&mut self, left: Vec<&'d Format>, template: String)
        ensures { self.new ≡ layout_rules.served
            (map (λ (f : Bor loader.Format). f.now) left.entry.items)
            (Some (string_bytes template)) self.old }
    {
        let Some((layout, _)) = left.as_slice().split_first() else {
            return self.serve_none();
        };
        let layout = *layout;
        self.layouts = left;
        self.pattern = layout.whole_pattern().as_str();
        self.template = template;
        self.is_spaced = is_spaced(layout);
    }

    /// Goes on with these layouts and the kept template, which stays if no layout fell away.
    fn serve_kept(&mut self, left: Vec<&'d Format>)
        ensures { self.new ≡ layout_rules.served
            (map (λ (f : Bor loader.Format). f.now) left.entry.items) None self.old }
    {
        if left.is_empty() {
            return self.serve_none();
        }
        if left.len() != self.layouts.len() {
            self.template.truncate(0);
        }
        self.layouts = left;
    }

    /// No layout is left.
    fn serve_none(&mut self)
        ensures { self.new ≡ record self.old { layouts = []; template = []; fits = false } }
    {
        self.layouts.truncate(0);
        self.template.truncate(0);
        self.fits = false;
    }

    /// What the template shows of national digits, if it has room. Refused only for memory.
    pub fn shown_part(&self, alloc: Global, digits: &str) -> Result<Option<String>, AllocError>
        ensures { IfOk result (λ t. option_map string_bytes t ≡
            layout_rules.shown_part digits.now self.now) }
    {
        begun(alloc, self.template.as_str(), digits)
    }

    /// Forgets the template's pattern, which has no room; the number fits no layout if only one is
    /// left.
    pub fn overflow(&mut self)
        ensures { self.new ≡ layout_rules.overflown self.old }
    {
        self.pattern = "";
        if self.layouts.len() == 1 {
            self.fits = false;
        }
    }
}
