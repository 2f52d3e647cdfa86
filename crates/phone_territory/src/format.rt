//! A layout of national numbers, with its patterns compiled.
ghost use Rattle.std.specs.Prelude.{◌≡◌, ◌-◌, ℕ, List, [], true, None, Some, Ok, option_map};
ghost use Rattle.std.specs.Prelude.{IfOk, IsTrue, length, slice_get, string_bytes};
ghost use Rattle.std.specs.Borrow.{Bor};
ghost use Rattle.std.specs.Option.{option_copied, option_or};
ghost use Rattle.phone_territory.specs.Layouts.{laid_by, layout_template, national_template};
ghost use Rattle.phone_territory.specs.Layouts.{rule_for};
ghost use Rattle.phone_pattern.specs.Rules.{ruled_template};
ghost use Rattle.phone_territory.specs.Layouts.{suits};
ghost use Rattle.phone_territory.specs.Records.{is_led};

use crate::each::Compile;
use crate::lent;
use crate::loader::{self, Text};
use crate::results::zip_read;
use phone_pattern::{FirstGroup, KeptRuled, Leading, Pattern, Pool, Subject};
use phone_records::LoadMetadata;
use std::alloc::AllocError;
use std::marker::Model;

/// How the digits of a national number are grouped when it is printed.
#[derive(Drop)]
pub struct Format {
    pattern: Pattern,
    text: Text,
    leading_digits: Leading,
    national_prefix_rule: Option<Text>,
    is_national_prefix_optional: bool,
    domestic_carrier: Option<Text>,
    /// The template of national text that was made first for no carrier.
    ruled: KeptRuled,
}

impl Model for Format {
    ghost use Rattle.std.specs.Prelude.{Some};
    ghost use Rattle.phone_records.specs.declared.loader.Format as loader;

    ghost Value = { loader.Format };

    ghost view = { λ f. record {
      pattern = Some f.pattern;
      format = Some f.text;
      leading_digits = f.leading_digits;
      national_prefix_formatting_rule = f.national_prefix_rule;
      national_prefix_optional_when_formatting = f.is_national_prefix_optional;
      domestic_carrier = f.domestic_carrier;
    } };
}

impl Compile for Format {
    ghost use Rattle.phone_territory.specs.Refusals.{patterns_in_format};
    ghost use Rattle.phone_records.specs.Missing.{missing_in_format};

    type Record = loader::Format;

    ghost missing = { missing_in_format };

    ghost patterns = { patterns_in_format };

    ghost record_of = { λ f. f };

    /// Compiles a record, whose pattern and template must be there.
    fn compile(pool: &Pool, given: loader::Format) -> Result<Format, LoadMetadata> {
        let pattern = pool.pattern(given.pattern.unwrap());
        let leading = pool.leading(given.leading_digits.into_vec());
        let others = (
            given.format.unwrap(),
            given.national_prefix_formatting_rule,
            given.domestic_carrier,
        );
        let (others, patterns) = zip_read(Ok(others), zip_read(pattern, leading))?;
        let (text, national_prefix_rule, domestic_carrier) = others;
        let (pattern, leading_digits) = patterns;
        Ok(Format {
            pattern,
            text,
            leading_digits,
            national_prefix_rule,
            is_national_prefix_optional: given.national_prefix_optional_when_formatting,
            domestic_carrier,
            ruled: KeptRuled::new(pool.allocator()),
        })
    }
}

impl Format {
    /// The pattern that parts the digits into groups.
    pub fn whole_pattern(&self) -> &Pattern
        ensures { self.now.pattern ≡ Some result.now }
    {
        &self.pattern
    }

    /// The template that lays the groups out, with `$1` for the first.
    pub fn format(&self) -> &str
        ensures { self.now.format ≡ Some result.now }
    {
        self.text.as_str()
    }

    /// Whether the layout is meant for these digits: it has no leading digits, or the first match
    /// of the last of these patterns begins at the first byte. Where it has none nothing is
    /// searched, and nothing refused. Else refused only for memory.
    pub fn is_led(&self, digits: &str) -> Result<bool, AllocError>
        ensures led { IfOk result (λ b. b ≡ is_led digits.now self.now) }
        ensures unsearched { self.now.leading_digits ≡ [] → result ≡ Ok true }
    {
        self.leading_digits.lead(digits)
    }

    /// The n-th pattern of the leading digits, counted from 0, or else the last. None where there
    /// is none.
    pub fn leading_at(&self, n: usize) -> Option<&Pattern>
        ensures { option_copied result ≡ option_or (slice_get self.now.leading_digits n)
            (slice_get self.now.leading_digits (length self.now.leading_digits - 1)) }
    {
        self.leading_digits.at_or_last(n)
    }

    /// Whether the layout suits digits: it names no leading digits, or the first match of the last
    /// of these patterns begins at the first byte and the pattern's first match is the whole text.
    /// The pattern is asked only where the leading one matches. Where it names none nothing is
    /// searched, and nothing refused. Else refused only for memory.
    pub fn suits(&self, digits: &str) -> Result<bool, AllocError>
        ensures suited { IfOk result (λ b. b ≡ suits digits.now self.now) }
        ensures unsearched { self.now.leading_digits ≡ [] → result ≡ Ok true }
    {
        if self.leading_digits.is_empty() {
            return Ok(true);
        }
        if !self.is_led(digits)? {
            return Ok(false);
        }
        self.pattern.is_whole_match(digits)
    }

    /// The same of digits of which it is known whether they are of ASCII.
    #[inline]
    pub fn suits_in(&self, digits: &Subject<'_>) -> Result<bool, AllocError>
        ensures suited { IfOk result (λ b. b ≡ suits digits.now self.now) }
        ensures unsearched { self.now.leading_digits ≡ [] → result ≡ Ok true }
    {
        if self.leading_digits.is_empty() {
            return Ok(true);
        }
        if !self.leading_digits.lead_in(digits)? {
            return Ok(false);
        }
        self.pattern.is_whole_match_in(digits)
    }

    /// The digits laid out: the first match of the pattern replaced by the template as it stands.
    /// Digits without a match stay as they are. Refused only for memory.
    pub fn lay_out(&self, digits: &str) -> Result<String, AllocError>
        ensures { IfOk result (λ t. string_bytes t ≡
            laid_by self.now (layout_template self.now) digits.now) }
    {
        self.lay_out_in(&Subject::of(digits), false)
    }

    /// The same of digits of which it is known whether they are of ASCII, and by a layout that may
    /// be known to suit them: then its pattern isn't searched for again.
    pub fn lay_out_in(&self, digits: &Subject<'_>, is_suited: bool) -> Result<String, AllocError>
        requires { IsTrue is_suited → suits digits.now self.now ≡ true }
        ensures { IfOk result (λ t. string_bytes t ≡
            laid_by self.now (layout_template self.now) digits.now) }
    {
        self.lay_out_by(self.text.as_str(), digits, is_suited)
    }

    /// The digits laid out by a template.
    fn lay_out_by(
        &self,
        template: &str,
        digits: &Subject<'_>,
        is_suited: bool,
    ) -> Result<String, AllocError>
        requires { IsTrue is_suited → suits digits.now self.now ≡ true }
        ensures { IfOk result (λ t. string_bytes t ≡ laid_by self.now template.now digits.now) }
    {
        if is_suited && !self.leading_digits.is_empty() {
            self.pattern.replace_whole_in(template, digits)
        } else {
            self.pattern.replace_in(template, digits)
        }
    }

    /// The digits laid out for callers inside the country, by the template with its first group
    /// written by a rule: the carrier's rule where there are a carrier and such a rule, else the
    /// national prefix's, where there is one. Takes the territory's national prefix and the
    /// number's carrier. Refused only for memory.
    pub fn lay_out_nationally(
        &self,
        first_group: &FirstGroup,
        prefix: Option<&str>,
        carrier: Option<&str>,
        digits: &str,
    ) -> Result<String, AllocError>
        ensures { IfOk result (λ t. string_bytes t ≡
            laid_by self.now (national_template self.now (option_copied prefix.entry)
            (option_copied carrier.entry)) digits.now) }
    {
        let digits = Subject::of(digits);
        self.lay_out_nationally_in(first_group, prefix, carrier, &digits, false)
    }

    /// The same of digits of which it is known whether they are of ASCII, and by a layout that may
    /// be known to suit them.
    pub fn lay_out_nationally_in(
        &self,
        first_group: &FirstGroup,
        prefix: Option<&str>,
        carrier: Option<&str>,
        digits: &Subject<'_>,
        is_suited: bool,
    ) -> Result<String, AllocError>
        requires { IsTrue is_suited → suits digits.now self.now ≡ true }
        ensures { IfOk result (λ t. string_bytes t ≡
            laid_by self.now (national_template self.now (option_copied prefix.entry)
            (option_copied carrier.entry)) digits.now) }
    {
        let Some((rule, carrier)) = self.rule_for(carrier) else {
            return self.lay_out_in(digits, is_suited);
        };
        let text = self.text.as_str();
        let prefix = prefix.unwrap_or("");
        match self.ruled.template(text, rule, prefix, carrier) {
            Some(template) => self.lay_out_by(template, digits, is_suited),
            None => self.lay_out_anew(first_group, rule, prefix, carrier, digits),
        }
    }

    /// The digits laid out by the template with its first group written by a rule, which is kept
    /// for the numbers that follow where it is for no carrier. Refused only for memory.
    #[cold]
    #[inline(never)]
    fn lay_out_anew(
        &self,
        first_group: &FirstGroup,
        rule: &str,
        prefix: &str,
        carrier: &str,
        digits: &Subject<'_>,
    ) -> Result<String, AllocError>
        ensures { IfOk result (λ t. string_bytes t ≡ laid_by self.now
            (ruled_template (layout_template self.now) rule.now prefix.now carrier.now)
            digits.now) }
    {
        let text = self.text.as_str();
        let template = first_group.apply_rule(text, rule, prefix, carrier)?;
        let laid = self.pattern.replace_in(template.as_str(), digits);
        self.ruled.keep(template, text, rule, prefix, carrier);
        laid
    }

    /// The template of national text for no carrier: the layout's own, with its first group written
    /// by the national prefix's rule where there is one. Takes the territory's national prefix.
    /// Such a template is kept for the numbers that follow. Refused only for memory.
    pub fn national_template(
        &self,
        first_group: &FirstGroup,
        prefix: Option<&str>,
    ) -> Result<String, AllocError>
        ensures { IfOk result (λ t. string_bytes t ≡
            national_template self.now (option_copied prefix.entry) None) }
    {
        let alloc = self.pattern.allocator();
        let text = self.text.as_str();
        let Some(rule) = self.national_prefix() else {
            return String::from_str(alloc, text);
        };
        let prefix = prefix.unwrap_or("");
        match self.ruled.template(text, rule, prefix, "") {
            Some(template) => String::from_str(alloc, template),
            None => self.template_anew(first_group, rule, prefix),
        }
    }

    /// The template with its first group written by a rule, which is kept for numbers that follow.
    /// Refused only for memory.
    #[cold]
    #[inline(never)]
    fn template_anew(
        &self,
        first_group: &FirstGroup,
        rule: &str,
        prefix: &str,
    ) -> Result<String, AllocError>
        ensures { IfOk result (λ t. string_bytes t ≡
            ruled_template (layout_template self.now) rule.now prefix.now []) }
    {
        let text = self.text.as_str();
        let template = first_group.apply_rule(text, rule, prefix, "")?;
        let copy = String::from_str(self.pattern.allocator(), template.as_str())?;
        self.ruled.keep(copy, text, rule, prefix, "");
        Ok(template)
    }

    /// The rule of national text, and what its `$CC` stands for.
    fn rule_for<'a>(&'a self, carrier: Option<&'a str>) -> Option<(&'a str, &'a str)>
        ensures { option_map (λ (r : Bor (List ℕ) × Bor (List ℕ)). (r.0.now, r.1.now)) result ≡
            rule_for self.now (option_copied carrier.entry) }
    {
        match (carrier, self.domestic_carrier()) {
            (Some(carrier), Some(rule)) => Some((rule, carrier)),
            _ => match self.national_prefix() {
                Some(rule) => Some((rule, "")),
                None => None,
            },
        }
    }

    /// How the national prefix is written: `$NP` stands for it, `$FG` for the first group.
    pub fn national_prefix(&self) -> Option<&str>
        ensures { option_copied result ≡ self.now.national_prefix_formatting_rule }
    {
        lent::text(&self.national_prefix_rule)
    }

    /// Whether the national prefix may be left out.
    pub fn is_national_prefix_optional(&self) -> bool
        ensures { result ≡ self.now.national_prefix_optional_when_formatting }
    {
        self.is_national_prefix_optional
    }

    /// How a carrier is written: `$CC` stands for it.
    pub fn domestic_carrier(&self) -> Option<&str>
        ensures { option_copied result ≡ self.now.domestic_carrier }
    {
        lent::text(&self.domestic_carrier)
    }
}
