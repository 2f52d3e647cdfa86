//! Why a text may be cut, and its parts be read side by side. These functions do nothing; their
//! contracts are the statements.
ghost use Rattle.std.specs.Prelude.{◌++◌, ℕ, List, Option};
ghost use Rattle.phone_values.specs.declared.rules.Rules.{Rules};
ghost use Rattle.phone_records.specs.declared.loader.Metadata as loader;
ghost use Rattle.phone_engine.specs.Reports.{IsReport};
ghost use Rattle.phone_values.specs.declared.country.Id.{Id};
ghost use Rattle.headline_examples.specs.Parts.{EndsLine};

/// By either rules, under each database and hint: the report on a text that is cut behind a line
/// feed is the report on its front followed by that on its rest. So it is for any number of parts,
/// and there is no other report on the text (`phone_engine::laws::one_report`).
pub fn report_of_two_parts()
    ensures { (rules : Rules) (db : List loader.Metadata) (hint : Option Id)
        (front rest of_front of_rest : List ℕ) → EndsLine front →
        IsReport rules db hint front of_front → IsReport rules db hint rest of_rest →
        IsReport rules db hint (front ++ rest) (of_front ++ of_rest) }
{}
