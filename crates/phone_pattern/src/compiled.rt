//! Patterns that are compiled where a database is made, so that each may lend its `Regex`.
ghost use Rattle.std.specs.Prelude.{◌≡◌, [], ◌∷◌, IfErr, IfOk, IsTrue, map};
ghost use Rattle.std.specs.Arc.{arc_value};
ghost use Rattle.regex.specs.Strings.{regex_source};
ghost use Rattle.phone_pattern.specs.First.{ArePatternsOf, IsPatternOf};
ghost use Rattle.phone_pattern.specs.Refusals.{IsPatternRefusal};

use crate::pool::Pool;
use crate::under_x::{self, UnderX};
use phone_base::{LoadMetadata, Text};
use regex::Regex;
use std::alloc::Global;
use std::marker::Model;
use std::sync::Arc;

/// A compiled text, shared with all that have the same text. Contracts see the text.
pub struct Compiled {
    re: Arc<UnderX>,
}

impl Model for Compiled {
    ghost use Rattle.std.specs.Prelude.{ℕ, List};
    ghost use Rattle.std.specs.Arc.{arc_value};

    ghost Value = { List ℕ };

    ghost view = { λ c. arc_value c.re };
}

/// Drops what was compiled: as a function it is proved once.
impl Drop for Compiled {
    fn drop(self) {
        let Compiled { re } = self;
        drop(re);
    }
}

impl Compiled {
    /// Compiles a text where it is new to the pool. Refused by `Regex` with the text where it is no
    /// pattern or compiles to more than 10 MiB, by `Memory` where memory is refused.
    pub fn new(pool: &Pool, text: &str) -> Result<Compiled, LoadMetadata>
        ensures compiled { IfOk result (λ c. c ≡ text.now) }
        ensures refused { IfErr result (IsPatternRefusal (text.now ∷ [])) }
    {
        Ok(Compiled {
            re: pool.compiled(text)?,
        })
    }

    /// The compiled pattern.
    pub fn regex(&self) -> &Regex
        ensures { IsPatternOf self.now result.now }
    {
        self.re.regex()
    }
}

/// Patterns that are compiled, each of one of these texts, shared with all lists of the same texts.
/// Contracts see the texts.
pub struct CompiledList {
    patterns: Arc<Regexes>,
}

impl Model for CompiledList {
    ghost use Rattle.std.specs.Prelude.{ℕ, List};
    ghost use Rattle.std.specs.Arc.{arc_value};

    ghost Value = { List (List ℕ) };

    ghost view = { λ l. arc_value l.patterns };
}

/// Drops what was compiled: as a function it is proved once.
impl Drop for CompiledList {
    fn drop(self) {
        let CompiledList { patterns } = self;
        drop(patterns);
    }
}

impl CompiledList {
    /// Compiles these texts where they are new to the pool. Refused by `Regex` with the first that
    /// is no pattern or compiles to more than 10 MiB, by `Memory` where memory is refused.
    pub fn new(pool: &Pool, texts: &[Text]) -> Result<CompiledList, LoadMetadata>
        ensures compiled { IfOk result (λ l. l ≡ texts.now) }
        ensures refused { IfErr result (IsPatternRefusal texts.now) }
    {
        pool.compiled_list(texts)
    }

    /// The list of what was compiled.
    pub(crate) fn of(patterns: Arc<Regexes>) -> CompiledList
        ensures { result ≡ arc_value patterns }
    {
        CompiledList { patterns }
    }

    /// The compiled patterns.
    pub fn as_slice(&self) -> &[Regex]
        ensures { ArePatternsOf self.now result.now }
    {
        self.patterns.as_slice()
    }
}

/// What is compiled of a list of texts. Contracts see the texts.
pub(crate) struct Regexes {
    patterns: Vec<Regex>,
}

impl Model for Regexes {
    ghost use Rattle.std.specs.Prelude.{ℕ, List, map};
    ghost use Rattle.std.specs.List.{AllByRecursion};
    ghost use Rattle.regex.specs.Strings.{regex_source};
    ghost use Rattle.phone_pattern.specs.First.{IsUnderX};

    ghost Value = { List (List ℕ) };

    ghost view = { λ l. map regex_source l.patterns.items };

    ghost invariant = { λ l. AllByRecursion IsUnderX l.patterns.items };
}

/// Drops what was compiled: as a function it is proved once.
impl Drop for Regexes {
    fn drop(self) {
        let Regexes { patterns } = self;
        drop(patterns);
    }
}

impl Regexes {
    /// Compiles each of these texts. Refused by `Regex` with the first that is no pattern or
    /// compiles to more than 10 MiB, by `Memory` where memory is refused.
    pub(crate) fn new(alloc: Global, texts: &[Text]) -> Result<Regexes, LoadMetadata>
        ensures compiled { IfOk result (λ l. l ≡ texts.now) }
        ensures refused { IfErr result (IsPatternRefusal texts.now) }
    {
        Ok(Regexes {
            patterns: under_x::compile_all(alloc, texts)?,
        })
    }

    /// The compiled patterns.
    fn as_slice(&self) -> &[Regex]
        ensures { ArePatternsOf self.now result.now }
    {
        self.patterns.as_slice()
    }

    /// Whether the patterns are of these texts.
    pub(crate) fn is_of(&self, texts: &[Text]) -> bool
        ensures { IsTrue result → self.now ≡ texts.now }
    {
        have_texts(self.patterns.as_slice(), texts)
    }
}

/// Whether compiled patterns are of these texts.
fn have_texts(patterns: &[Regex], texts: &[Text]) -> bool
    ensures { IsTrue result → map regex_source patterns.now ≡ texts.now }
{
    let mut patterns = patterns;
    let mut texts = texts;
    while let (Some((pattern, other_patterns)), Some((text, other_texts))) = (
        patterns.split_first(),
        texts.split_first(),
    ) {
        if pattern.as_str() != text.as_str() {
            return false;
        }
        patterns = other_patterns;
        texts = other_texts;
    }
    patterns.is_empty() && texts.is_empty()
}
