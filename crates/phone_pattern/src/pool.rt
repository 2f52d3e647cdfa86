//! What is made once for all that have the same text.
ghost use Rattle.std.specs.Prelude.{◌≡◌, ◌++◌, [], ◌∷◌, IfOk, IfErr};
ghost use Rattle.std.specs.Arc.{arc_value};
ghost use Rattle.std.specs.List.{AllByRecursion};
ghost use Rattle.phone_pattern.specs.First.{IsPattern};
ghost use Rattle.phone_pattern.specs.Refusals.{IsPatternRefusal};

use crate::compiled::{CompiledList, Regexes};
use crate::intern_table::InternTable;
use crate::leading::Leading;
use crate::pattern::Pattern;
use crate::plan::Plan;
use crate::reading::{self, Unread};
use crate::under_x::UnderX;
use phone_base::{LoadMetadata, Text};
use std::alloc::{AllocError, Global};
use std::sync::Arc;

/// What a database made so far of the texts of its patterns, and compiled of them and of its lists
/// of leading digits. The texts of what is found are compared.
pub struct Pool {
    alloc: Global,
    plans: InternTable<Plan>,
    compiled: InternTable<UnderX>,
    lists: InternTable<Regexes>,
}

/// Drops what is kept: as a function it is proved once.
impl Drop for Pool {
    fn drop(self) {
        let Pool {
            alloc: _,
            plans,
            compiled,
            lists,
        } = self;
        drop(plans);
        drop(compiled);
        drop(lists);
    }
}

impl Pool {
    /// Nothing is made yet.
    pub fn new(alloc: Global) -> Pool {
        Pool {
            alloc,
            plans: InternTable::new(alloc),
            compiled: InternTable::new(alloc),
            lists: InternTable::new(alloc),
        }
    }

    /// The allocator of what is made.
    pub fn allocator(&self) -> Global {
        self.alloc
    }

    /// The pattern of a text, read where the text is new. Refused by `Regex` with the text where it
    /// is no pattern or compiles to more than 10 MiB, by `Memory` where memory is refused.
    pub fn pattern(&self, text: Text) -> Result<Pattern, LoadMetadata>
        ensures made { IfOk result (λ p. p ≡ text) }
        ensures read { IfOk result (λ p. IsPattern text) }
        ensures refused { IfErr result (IsPatternRefusal (text ∷ [])) }
    {
        if let Some(found) = self.plans.find(text.as_str())? {
            if found.is_of(text.as_str()) {
                return Ok(Pattern::of(found));
            }
        }
        Ok(Pattern::of(self.plan(text)?))
    }

    /// What is made of a text for which nothing is kept.
    fn plan(&self, text: Text) -> Result<Arc<Plan>, LoadMetadata>
        ensures made { IfOk result (λ p. arc_value p ≡ text) }
        ensures read { IfOk result (λ p. IsPattern text) }
        ensures refused { IfErr result (IsPatternRefusal (text ∷ [])) }
    {
        let made = Arc::new(self.alloc, Plan::new(self.alloc, text)?)?;
        let name = String::from_str(self.alloc, made.as_str());
        self.plans.keep(name, &made)?;
        Ok(made)
    }

    /// The pattern of a text that is lent. Refused as `pattern` refuses it.
    fn pattern_of(&self, text: &Text) -> Result<Pattern, LoadMetadata>
        ensures made { IfOk result (λ p. p ≡ text.now) }
        ensures read { IfOk result (λ p. IsPattern text.now) }
        ensures refused { IfErr result (IsPatternRefusal (text.now ∷ [])) }
    {
        self.pattern(text.clone()?)
    }

    /// The patterns of texts, in their order. Refused as the first that is refused.
    fn patterns(&self, texts: &[Text]) -> Result<Vec<Pattern>, LoadMetadata>
        ensures made { IfOk result (λ ps. ps.items ≡ texts.now) }
        ensures read { IfOk result (λ ps. AllByRecursion IsPattern texts.now) }
        ensures refused { IfErr result (IsPatternRefusal texts.now) }
    {
        let mut made = Vec::new(self.alloc);
        for text in texts {
            made.push(self.pattern_of(text)?)?;
        }
        Ok(made)
    }

    /// A list of leading digits, each pattern of which is read where its text is new. Refused by
    /// `Regex` with the first text that is no pattern or compiles to more than 10 MiB, by `Memory`
    /// where memory is refused.
    pub fn leading(&self, texts: Vec<Text>) -> Result<Leading, LoadMetadata>
        ensures made { IfOk result (λ l. l ≡ texts.items) }
        ensures read { IfOk result (λ l. AllByRecursion IsPattern texts.items) }
        ensures refused { IfErr result (IsPatternRefusal texts.items) }
    {
        let mut others = self.patterns(texts.as_slice())?;
        match others.pop() {
            Some(last) => Ok(Leading::of(others, last)),
            None => Ok(Leading::none(others)),
        }
    }

    /// What is compiled of a text, where the text is new. Refused by `Regex` with the text where it
    /// is no pattern or compiles to more than 10 MiB, by `Memory` where memory is refused.
    pub(crate) fn compiled(&self, text: &str) -> Result<Arc<UnderX>, LoadMetadata>
        ensures compiled { IfOk result (λ c. arc_value c ≡ text.now) }
        ensures refused { IfErr result (IsPatternRefusal (text.now ∷ [])) }
    {
        if let Some(found) = self.compiled.find(text)? {
            if found.is_of(text) {
                return Ok(found);
            }
        }
        let made = Arc::new(self.alloc, UnderX::of(self.alloc, text)?)?;
        let name = String::from_str(self.alloc, text);
        self.compiled.keep(name, &made)?;
        Ok(made)
    }

    /// What is compiled of a list of texts, where they are new. Refused by `Regex` with the first
    /// text that is no pattern or compiles to more than 10 MiB, by `Memory` where memory is
    /// refused.
    pub(crate) fn compiled_list(&self, texts: &[Text]) -> Result<CompiledList, LoadMetadata>
        ensures compiled { IfOk result (λ l. l ≡ texts.now) }
        ensures refused { IfErr result (IsPatternRefusal texts.now) }
    {
        let name = join(self.alloc, texts)?;
        if let Some(found) = self.lists.find(name.as_str())? {
            if found.is_of(texts) {
                return Ok(CompiledList::of(found));
            }
        }
        let made = Arc::new(self.alloc, Regexes::new(self.alloc, texts)?)?;
        self.lists.keep(Ok(name), &made)?;
        Ok(CompiledList::of(made))
    }
}

/// The name of a list in a pool: its texts, each with a line's end after it.
fn join(alloc: Global, texts: &[Text]) -> Result<String, AllocError> {
    let mut name = String::new(alloc);
    for text in texts {
        push_line(&mut name, text.as_str())?;
    }
    Ok(name)
}

/// Puts a text and a line's end behind a name.
fn push_line(name: &mut String, text: &str) -> Result<(), AllocError> {
    name.push_str(text)?;
    name.push('\n')?;
    Ok(())
}
