//! The places in which a layout keeps its templates of national text from one number to the next.
ghost use Rattle.std.specs.Prelude.{◌≡◌, IfSome, string_bytes};
ghost use Rattle.phone_pattern.specs.Rules.{ruled_template};

use once_cell::race::OnceBox;
use phone_base::results::zip;
use std::alloc::{AllocError, Global};
use std::marker::Model;

/// A template whose first group a rule has written, and the texts of which it was made: the
/// layout's template, the rule, the national prefix and the carrier. Contracts see the template.
struct Ruled {
    template: String,
    text: String,
    rule: String,
    prefix: String,
    carrier: String,
}

impl Model for Ruled {
    ghost use Rattle.std.specs.Prelude.{◌≡◌, ℕ, List, string_bytes};
    ghost use Rattle.phone_pattern.specs.Rules.{ruled_template};

    ghost Value = { List ℕ };

    ghost view = { λ r. string_bytes r.template };

    ghost invariant = { λ r. string_bytes r.template ≡ ruled_template (string_bytes r.text)
        (string_bytes r.rule) (string_bytes r.prefix) (string_bytes r.carrier) };
}

/// Drops the texts: as a function it is proved once.
impl Drop for Ruled {
    fn drop(self) {
        let Ruled {
            template,
            text,
            rule,
            prefix,
            carrier,
        } = self;
        drop(template);
        drop(text);
        drop(rule);
        drop(prefix);
        drop(carrier);
    }
}

impl Ruled {
    /// A template with copies of the texts of which it was made. Refused only for memory.
    fn new(
        alloc: Global,
        template: String,
        text: &str,
        rule: &str,
        prefix: &str,
        carrier: &str,
    ) -> Result<Ruled, AllocError>
        requires { string_bytes template ≡
            ruled_template text.now rule.now prefix.now carrier.now }
    {
        let front = zip(String::from_str(alloc, text), String::from_str(alloc, rule));
        let back = zip(
            String::from_str(alloc, prefix),
            String::from_str(alloc, carrier),
        );
        let (front, back) = zip(front, back)?;
        Ok(Ruled {
            template,
            text: front.0,
            rule: front.1,
            prefix: back.0,
            carrier: back.1,
        })
    }

    /// The template, if it was made of these texts.
    fn made_of(&self, text: &str, rule: &str, prefix: &str, carrier: &str) -> Option<&str>
        ensures { IfSome result (λ t. t.now ≡
            ruled_template text.now rule.now prefix.now carrier.now) }
    {
        let is_same = self.prefix.as_str() == prefix
            && self.text.as_str() == text
            && self.rule.as_str() == rule
            && self.carrier.as_str() == carrier;
        if is_same {
            Some(self.template.as_str())
        } else {
            None
        }
    }
}

/// How many templates are kept: national prefixes are few, five with none in today's table.
const SLOTS: usize = 5;

/// Keeps the templates of national text that a layout made first for no carrier, for as long as the
/// layout is there: one a national prefix, or twice where two threads make the same at a time. Each
/// place is set once, so that several threads may read it at a time. Of what it holds nothing is
/// known, so each use names the texts of which the template is to be made; no other one serves.
pub struct KeptRuled {
    alloc: Global,
    slots: [OnceBox<Ruled>; SLOTS],
}

/// Drops what is kept: as a function it is proved once.
impl Drop for KeptRuled {
    fn drop(self) {
        let KeptRuled { alloc: _, slots } = self;
        drop(slots);
    }
}

impl KeptRuled {
    /// Nothing is kept yet.
    pub fn new(alloc: Global) -> KeptRuled {
        KeptRuled {
            alloc,
            slots: [
                OnceBox::new(alloc),
                OnceBox::new(alloc),
                OnceBox::new(alloc),
                OnceBox::new(alloc),
                OnceBox::new(alloc),
            ],
        }
    }

    /// The template that is made of these texts. None where another template is kept, or none.
    pub fn template(&self, text: &str, rule: &str, prefix: &str, carrier: &str) -> Option<&str>
        ensures { IfSome result (λ t. t.now ≡
            ruled_template text.now rule.now prefix.now carrier.now) }
    {
        for slot in &self.slots {
            let made = slot.get()?.made_of(text, rule, prefix, carrier);
            if made.is_some() {
                return made;
            }
        }
        None
    }

    /// Keeps a template with the texts of which it was made, for the numbers that follow, where the
    /// carrier is empty and a place is free. Else, and where memory for it is refused, it is
    /// dropped.
    pub fn keep(&self, template: String, text: &str, rule: &str, prefix: &str, carrier: &str)
        requires { string_bytes template ≡
            ruled_template text.now rule.now prefix.now carrier.now }
    {
        if !carrier.is_empty() {
            return;
        }
        let Some(slot) = self.free() else {
            return;
        };
        if let Ok(ruled) = Ruled::new(self.alloc, template, text, rule, prefix, carrier) {
            self.put(slot, ruled);
        }
    }

    /// The first place that is free.
    fn free(&self) -> Option<&OnceBox<Ruled>> {
        for slot in &self.slots {
            if slot.get().is_none() {
                return Some(slot);
            }
        }
        None
    }

    /// Puts a template in a place, where none is there yet.
    fn put(&self, slot: &OnceBox<Ruled>, ruled: Ruled) {
        let Ok(ruled) = Box::new(self.alloc, ruled) else {
            return;
        };
        if let Err(late) = slot.set(ruled) {
            drop(late);
        }
    }
}
