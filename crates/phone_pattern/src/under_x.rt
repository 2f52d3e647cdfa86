//! A text that is compiled. Contracts see the text.
ghost use Rattle.std.specs.Prelude.{◌≡◌, [], ◌∷◌, IfErr, IfOk, IsTrue};
ghost use Rattle.std.specs.List.{AllByRecursion};
ghost use Rattle.phone_pattern.specs.First.{ArePatternsOf, IsPattern, IsPatternOf};
ghost use Rattle.phone_pattern.specs.Refusals.{IsPatternRefusal};

use phone_base::{LoadMetadata, Text};
use regex::{Error, Regex, RegexBuilder};
use std::alloc::{AllocError, Global};
use std::marker::Model;

/// A text that is compiled under flag x: white space and `#` comments in it don't count.
pub(crate) struct UnderX {
    re: Regex,
}

impl Model for UnderX {
    ghost use Rattle.std.specs.Prelude.{ℕ, List};
    ghost use Rattle.regex.specs.Strings.{regex_source};
    ghost use Rattle.phone_pattern.specs.First.{IsUnderX};

    ghost Value = { List ℕ };

    ghost view = { λ c. regex_source c.re };

    ghost invariant = { λ c. IsUnderX c.re };
}

/// Drops what was compiled: as a function it is proved once.
impl Drop for UnderX {
    fn drop(self) {
        let UnderX { re } = self;
        drop(re);
    }
}

/// Compiles a text. Refused by `Regex` with the text where it is no pattern or compiles to more
/// than 10 MiB, by `Memory` where memory is refused.
pub(crate) fn compile(alloc: Global, text: Text) -> Result<Regex, LoadMetadata>
    ensures compiled { IfOk result (λ re. IsPatternOf text re) }
    ensures read { IfOk result (λ re. IsPattern text) }
    ensures refused { IfErr result (IsPatternRefusal (text ∷ [])) }
{
    let built = RegexBuilder::new(text.as_str())
        .ignore_whitespace(true)
        .build(alloc);
    match built {
        Ok(re) => Ok(re),
        Err(Error::OutOfMemory) => Err(LoadMetadata::Memory),
        Err(_) => Err(LoadMetadata::Regex(text.into_string())),
    }
}

impl UnderX {
    /// Compiles a text. Refused by `Regex` with the text where it is no pattern or compiles to more
    /// than 10 MiB, by `Memory` where memory is refused.
    pub(crate) fn new(alloc: Global, text: Text) -> Result<UnderX, LoadMetadata>
        ensures compiled { IfOk result (λ c. c ≡ text) }
        ensures read { IfOk result (λ c. IsPattern text) }
        ensures refused { IfErr result (IsPatternRefusal (text ∷ [])) }
    {
        Ok(UnderX {
            re: compile(alloc, text)?,
        })
    }

    /// The same of a text that is lent.
    pub(crate) fn of(alloc: Global, text: &str) -> Result<UnderX, LoadMetadata>
        ensures compiled { IfOk result (λ c. c ≡ text.now) }
        ensures read { IfOk result (λ c. IsPattern text.now) }
        ensures refused { IfErr result (IsPatternRefusal (text.now ∷ [])) }
    {
        UnderX::new(alloc, Text::from(String::from_str(alloc, text)?))
    }

    /// The same, in a place of its own. Refused where memory is, and where the text is.
    pub(crate) fn boxed(alloc: Global, text: &str) -> Result<Box<UnderX>, AllocError> {
        match UnderX::of(alloc, text) {
            Ok(compiled) => Ok(Box::new(alloc, compiled)?),
            Err(_) => Err(AllocError),
        }
    }

    /// The compiled pattern.
    pub(crate) fn regex(&self) -> &Regex
        ensures { IsPatternOf self.now result.now }
    {
        &self.re
    }

    /// Whether this is the text that was compiled.
    pub(crate) fn is_of(&self, text: &str) -> bool
        ensures { IsTrue result → self.now ≡ text.now }
    {
        self.re.as_str() == text
    }
}

/// Compiles each of these texts.
pub(crate) fn compile_all(alloc: Global, texts: &[Text]) -> Result<Vec<Regex>, LoadMetadata>
    ensures compiled { IfOk result (λ res. ArePatternsOf texts.now res.items) }
    ensures refused { IfErr result (IsPatternRefusal texts.now) }
{
    let mut patterns = Vec::new(alloc);
    for text in texts {
        patterns.push(compile(alloc, text.clone()?)?)?;
    }
    Ok(patterns)
}
