//! How a formatting rule changes a layout's template: the rule, its marks filled, is written in the
//! place of the first group.
ghost use Rattle.std.specs.Prelude.{◌≡◌, [], ◌∷◌, IfOk, IfErr, string_bytes};
ghost use Rattle.phone_pattern.specs.First.{IsPattern};
ghost use Rattle.phone_pattern.specs.Rules.{filled_rule, ruled_template};
ghost use Rattle.phone_pattern.specs.Rules.{first_group_pattern};
ghost use Rattle.phone_pattern.specs.Refusals.{IsPatternRefusal};

use crate::pattern::Pattern;
use phone_base::{LoadMetadata, Text};
use std::alloc::{AllocError, Global};
use std::marker::Model;

/// In a formatting rule: the place of the national prefix.
const NATIONAL_PREFIX: &str = "$NP";

/// In a formatting rule: the place of the first group of digits.
const GROUP: &str = "$FG";

/// In a formatting rule: the place of the carrier's code.
const CARRIER: &str = "$CC";

/// The pattern of the first group that a template names: a `$` and a digit.
const FIRST_GROUP: &str = "(\\$\\d)";

/// What finds the first group that a template names. Each database has one.
#[derive(Drop)]
pub struct FirstGroup {
    pattern: Pattern,
}

impl Model for FirstGroup {
    ghost use Rattle.std.specs.Prelude.{◌≡◌, ℕ, List};
    ghost use Rattle.phone_pattern.specs.Rules.{first_group_pattern};

    ghost Value = { List ℕ };

    ghost view = { λ g. g.pattern };

    ghost invariant = { λ g. g.pattern ≡ first_group_pattern };
}

impl FirstGroup {
    /// Reads the pattern, `(\$\d)`. Refused by `Memory` where memory is refused; by `Regex` where
    /// the pattern is refused.
    pub fn new(alloc: Global) -> Result<FirstGroup, LoadMetadata>
        ensures read { IfOk result (λ g. IsPattern first_group_pattern) }
        ensures refused { IfErr result (IsPatternRefusal (first_group_pattern ∷ [])) }
    {
        Ok(FirstGroup {
            pattern: Pattern::new(alloc, FirstGroup::text(alloc)?)?,
        })
    }

    /// The text of the pattern.
    pub fn text(alloc: Global) -> Result<Text, AllocError>
        ensures { IfOk result (λ t. t ≡ first_group_pattern) }
    {
        Ok(Text::from(String::from_str(alloc, FIRST_GROUP)?))
    }

    /// A template with its first group written by a rule, in which `$NP` stands for the national
    /// prefix, `$FG` for the group as it is named, and `$CC` for the carrier; a template that names
    /// no group as it is. Refused only for memory.
    pub fn apply_rule(
        &self,
        template: &str,
        rule: &str,
        prefix: &str,
        carrier: &str,
    ) -> Result<String, AllocError>
        ensures { IfOk result (λ t. string_bytes t ≡
            ruled_template template.now rule.now prefix.now carrier.now) }
    {
        let alloc = self.pattern.allocator();
        let Some((start, end)) = self.pattern.first_span(template)? else {
            return String::from_str(alloc, template);
        };
        let rule = fill(alloc, rule, prefix, &template[start..end], carrier)?;
        self.pattern.replace(rule.as_str(), template)
    }
}

/// A rule with its marks filled: each `$NP` by the national prefix, then each `$FG` by the group
/// with one more `$` before it, then each `$CC` by the carrier.
fn fill(
    alloc: Global,
    rule: &str,
    prefix: &str,
    group: &str,
    carrier: &str,
) -> Result<String, AllocError>
    ensures { IfOk result (λ t. string_bytes t ≡
        filled_rule rule.now prefix.now group.now carrier.now) }
{
    let mut literal = String::from_str(alloc, "$")?;
    literal.push_str(group)?;
    let prefixed = rule.replace(alloc, NATIONAL_PREFIX, prefix)?;
    let grouped = prefixed.as_str().replace(alloc, GROUP, literal.as_str())?;
    grouped.as_str().replace(alloc, CARRIER, carrier)
}
