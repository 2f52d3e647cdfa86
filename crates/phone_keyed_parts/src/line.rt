//! How the keys of a number are parted: what stands in front of the national digits, and these.
ghost use Rattle.std.specs.Prelude.{◌≡◌, ◌++◌, not, IfOk, IsCharBoundary, OnOk, Some};
ghost use Rattle.std.specs.Prelude.{string_bytes};
ghost use Rattle.std.specs.Option.{option_copied};
ghost use Rattle.std.specs.Str.{bytes_eq};
ghost use Rattle.phone_plans.specs.CodeLookUps.{shortest};
ghost use Rattle.phone_keyed_parts.specs.Lines as line_rules;

use crate::parting::{before_last, gap_behind_sign, gap_in, prefix_length, territory_behind};
use phone_base::results::zip;
use phone_plans::{Plans, Territory};
use phone_read::trims::behind_number;
use phone_values::country::Id;
use std::alloc::{AllocError, Global};
use std::marker::Model;

/// A number's keys, parted. Contracts see the record of its parts.
#[derive(Drop)]
pub struct Line<'d> {
    pub(crate) territory: Option<&'d Territory>,
    pub(crate) front: String,
    pub(crate) national: String,
    pub(crate) prefix: String,
    pub(crate) is_whole: bool,
}

impl<'d> Model for Line<'d> {
    ghost use Rattle.std.specs.Prelude.{string_bytes};
    ghost use Rattle.std.specs.Option.{option_copied};
    ghost use Rattle.phone_keyed_parts.specs.Lines as line_rules;

    ghost Value = { line_rules.Line };

    ghost view = { λ l. record {
      territory = option_copied l.territory;
      front = string_bytes l.front;
      national = string_bytes l.national;
      prefix = string_bytes l.prefix;
      is_whole = l.is_whole;
    } };
}

impl<'d> Line<'d> {
    /// No keys yet, under a territory. Takes no memory.
    pub fn at(alloc: Global, territory: Option<&'d Territory>) -> Line<'d>
        ensures { result ≡ line_rules.no_keys (option_copied territory.entry) }
    {
        Line {
            territory,
            front: String::new(alloc),
            national: String::new(alloc),
            prefix: String::new(alloc),
            is_whole: false,
        }
    }

    /// The same line again. Refused only for memory.
    pub fn try_copy(&self, alloc: Global) -> Result<Line<'d>, AllocError>
        ensures { IfOk result (λ l. l ≡ self.now) }
    {
        let front = String::from_str(alloc, self.front.as_str());
        let national = String::from_str(alloc, self.national.as_str());
        let prefix = String::from_str(alloc, self.prefix.as_str());
        let (front, (national, prefix)) = zip(front, zip(national, prefix))?;
        Ok(Line {
            territory: self.territory,
            front,
            national,
            prefix,
            is_whole: self.is_whole,
        })
    }

    /// The territory whose layouts count.
    pub fn territory(&self) -> Option<&'d Territory>
        ensures { option_copied result ≡ self.now.territory }
    {
        self.territory
    }

    /// What stands in front of the national digits.
    pub fn front(&self) -> &str
        ensures { result.now ≡ self.now.front }
    {
        self.front.as_str()
    }

    /// The national digits.
    pub fn national(&self) -> &str
        ensures { result.now ≡ self.now.national }
    {
        self.national.as_str()
    }

    /// Puts a key down: a digit comes to the national ones. Refused only for memory.
    pub fn put_key(&mut self, key: char) -> Result<(), AllocError>
        ensures { OnOk result (self.new ≡ line_rules.with_key key self.old) }
    {
        if key == '+' {
            return Ok(());
        }
        self.national.push(key)
    }

    /// Keys parted where a calling code may begin. Refused only for memory.
    pub fn after_sign(&self, alloc: Global, end: usize, keys: &str) -> Result<Line<'d>, AllocError>
        requires { IsCharBoundary keys.now end }
        ensures { IfOk result (λ l. l ≡ line_rules.after_sign end keys.now self.now) }
    {
        let front = joined(alloc, "", &keys[..end], gap_behind_sign(keys));
        let national = String::from_str(alloc, &keys[end..]);
        let prefix = String::from_str(alloc, self.prefix.as_str());
        let (front, (national, prefix)) = zip(front, zip(national, prefix))?;
        Ok(Line {
            territory: self.territory,
            front,
            national,
            prefix,
            is_whole: true,
        })
    }

    /// A calling code that begins the national digits, and a space, put in front of them. Refused
    /// only for memory.
    pub fn after_code(
        &self,
        db: &'d Plans,
        hint: Option<Id>,
        code: u16,
    ) -> Result<Line<'d>, AllocError>
        requires { shortest db.now self.now.national ≡ Some code }
        ensures { IfOk result (λ l. l ≡ line_rules.after_code db.entry.now hint code self.now) }
    {
        let alloc = db.allocator();
        let national = self.national.as_str();
        let at = behind_number(national, code);
        let front = joined(alloc, self.front.as_str(), &national[..at], " ");
        let (front, national) = zip(front, String::from_str(alloc, &national[at..]))?;
        Ok(Line {
            territory: territory_behind(db, hint, code, self.territory),
            front,
            national,
            prefix: String::new(alloc),
            is_whole: self.is_whole,
        })
    }

    /// A national prefix of n digits put in front of the national digits; this one is kept. Refused
    /// only for memory.
    fn without_prefix(&self, alloc: Global, n: usize, kept: &str) -> Result<Line<'d>, AllocError>
        requires { IsCharBoundary self.now.national n }
        ensures { IfOk result (λ l. l ≡ line_rules.without_prefix n kept.now self.now) }
    {
        if n == 0 {
            return self.keeping(alloc, kept);
        }
        let national = self.national.as_str();
        let gap = gap_in(self.territory, national);
        let front = joined(alloc, self.front.as_str(), &national[..n], gap);
        let rest = String::from_str(alloc, &national[n..]);
        let (front, (rest, kept)) = zip(front, zip(rest, String::from_str(alloc, kept)))?;
        Ok(Line {
            territory: self.territory,
            front,
            national: rest,
            prefix: kept,
            is_whole: true,
        })
    }

    /// The same line with another prefix kept. Refused only for memory.
    fn keeping(&self, alloc: Global, kept: &str) -> Result<Line<'d>, AllocError>
        ensures { IfOk result (λ l. l ≡ record self.now { prefix = kept.now }) }
    {
        let front = String::from_str(alloc, self.front.as_str());
        let national = String::from_str(alloc, self.national.as_str());
        let (front, (national, prefix)) = zip(front, zip(national, String::from_str(alloc, kept)))?;
        Ok(Line {
            territory: self.territory,
            front,
            national,
            prefix,
            is_whole: self.is_whole,
        })
    }

    /// The national prefix in front of the national digits taken off, and kept. Refused only for
    /// memory.
    pub fn with_prefix_off(&self, alloc: Global) -> Result<Line<'d>, AllocError>
        ensures { IfOk result (λ l. l ≡ line_rules.with_prefix_off self.now) }
    {
        let national = self.national.as_str();
        let n = prefix_length(self.territory, national)?;
        self.without_prefix(alloc, n, &national[..n])
    }

    /// The national prefix that was taken off put back. Refused only for memory.
    fn with_prefix_back(&self, alloc: Global) -> Result<Line<'d>, AllocError>
        ensures { IfOk result (λ l. l ≡ line_rules.with_prefix_back self.now) }
    {
        let prefix = self.prefix.as_str();
        if prefix.is_empty() {
            return self.try_copy(alloc);
        }
        let front = self.front.as_str();
        let front = String::from_str(alloc, &front[..before_last(prefix, front)]);
        let national = joined(alloc, "", prefix, self.national.as_str());
        let (front, (national, prefix)) = zip(
            front,
            zip(national, String::from_str(alloc, prefix)),
        )?;
        Ok(Line {
            territory: self.territory,
            front,
            national,
            prefix,
            is_whole: self.is_whole,
        })
    }

    /// The national prefix that is in front of the national digits taken off where this one is
    /// kept, and whether it is another. Refused only for memory.
    fn with_front_off(&self, alloc: Global, kept: &str) -> Result<(bool, Line<'d>), AllocError>
        ensures other { IfOk result (λ r. r.0 ≡
            not (bytes_eq (line_rules.prefix_of self.now) kept.now)) }
        ensures line { IfOk result (λ r. r.1 ≡ line_rules.without_prefix
            (line_rules.prefix_length_in self.now.territory self.now.national) kept.now
            self.now) }
    {
        let national = self.national.as_str();
        let n = prefix_length(self.territory, national)?;
        let line = self.without_prefix(alloc, n, kept)?;
        Ok((&national[..n] != kept, line))
    }

    /// The national prefix put back, the one that is in front then taken off, and whether it is
    /// another. Refused only for memory.
    pub fn with_longer_prefix(&self, alloc: Global) -> Result<(bool, Line<'d>), AllocError>
        ensures other { IfOk result (λ r. r.0 ≡ line_rules.has_longer_prefix self.now) }
        ensures line { IfOk result (λ r. r.1 ≡ line_rules.with_longer_prefix self.now) }
    {
        let whole = self.with_prefix_back(alloc)?;
        let longer = whole.with_front_off(alloc, self.prefix.as_str());
        drop(whole);
        longer
    }

    /// Puts a space behind what stands in front of the national digits. Refused only for memory.
    pub fn push_space(&mut self) -> Result<(), AllocError>
        ensures { OnOk result (self.new ≡ line_rules.with_space self.old) }
    {
        self.front.push(' ')
    }
}

/// Three texts, one after another. Refused only for memory.
fn joined(alloc: Global, a: &str, b: &str, c: &str) -> Result<String, AllocError>
    ensures { IfOk result (λ t. string_bytes t ≡ a.now ++ (b.now ++ c.now)) }
{
    let mut text = String::from_str(alloc, a)?;
    text.push_str(b)?;
    text.push_str(c)?;
    Ok(text)
}
