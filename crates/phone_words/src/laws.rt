//! What holds of every list of words. These functions do nothing; their contracts are the
//! statements.
ghost use Rattle.std.specs.Prelude.{◌≡◌, ◌⊎◌, ◌∷◌, [], ℕ, List, Err, Ok, Some, codes, length};
ghost use Rattle.std.specs.Prelude.{nat_le, true};
ghost use Rattle.std.specs.List.{list_all};
ghost use Rattle.std.specs.Str.Lines.{lines};
ghost use Rattle.phone_words.specs.Calls.{IsCall, IsNoCall, Meaning, Says, meaning};
ghost use Rattle.phone_words.specs.Examples.{command_by, level_by, skipped_by, value_by, why_by};
ghost use Rattle.phone_words.specs.Help.{help_text};
ghost use Rattle.phone_words.specs.Parts.{Fault};
ghost use Rattle.phone_words.specs.declared.call.Call as call;
ghost use Rattle.phone_words.specs.declared.command.Command.TheVariants as command;
ghost use Rattle.phone_words.specs.declared.parts.Why.TheVariants as why;
ghost use Rattle.phone_words.specs.declared.values.Level.TheVariants as level;
ghost use Rattle.phone_words.specs.declared.parts.WordError as error;

/// A list of words is at most one call: all calls that it is say one meaning.
pub fn at_most_one()
    ensures { (words : List (List ℕ)) (c d : call.Call) → (one : IsCall words c) →
        IsCall words d → Says one.meant d }
{}

/// No list of words is both a call and none.
pub fn not_both()
    ensures { (words : List (List ℕ)) (c : call.Call) (e : error.WordError) → IsCall words c →
        ¬ (IsNoCall words e) }
{}

/// Each list of words has a meaning, or a reason why it is no call.
pub fn one_or_other()
    ensures { (words : List (List ℕ)) → ((m : Meaning) × (meaning words ≡ Ok m)) ⊎
        ((f : Fault) × (meaning words ≡ Err f)) }
{}

/// What some lists of words mean.
pub fn examples()
    ensures report { command_by [] ≡ Some command.Report }
    ensures output { value_by (codes "-o" ∷ codes "out" ∷ codes "in" ∷ []) (codes "--output") ≡
        Some (codes "out") }
    ensures delimiter { value_by (codes "--csv" ∷ codes "number" ∷ codes "-d" ∷ codes ";" ∷ [])
        (codes "--delimiter") ≡ Some (codes ";") }
    ensures joined { value_by (codes "--csv=number" ∷ codes "-d;" ∷ []) (codes "--delimiter") ≡
        Some (codes ";") }
    ensures table { command_by (codes "--csv=number" ∷ codes "-d;" ∷ []) ≡ Some command.Table }
    ensures found { command_by (codes "--csv" ∷ codes "--find" ∷ []) ≡ Some command.FoundRecords }
    ensures skipped { skipped_by (codes "--skipped" ∷ codes "5" ∷ []) ≡ Some 5 }
    ensures later { skipped_by (codes "--skipped" ∷ codes "x" ∷ codes "--skipped=5" ∷ []) ≡ Some 5 }
    ensures help { command_by (codes "--help" ∷ codes "--as" ∷ codes "x" ∷ []) ≡
        Some command.Help }
    ensures marked { command_by (codes "--" ∷ codes "--nz" ∷ []) ≡ Some command.Report }
    ensures typed { why_by (codes "--typed" ∷ codes "--rules" ∷ codes "crate" ∷ []) ≡
        Some why.LibraryAlone }
    ensures unknown { why_by (codes "--nz" ∷ []) ≡ Some why.Unknown }
    ensures no_value { why_by (codes "-o" ∷ codes "--" ∷ []) ≡ Some why.NoValue }
    ensures apart { why_by (codes "--json" ∷ codes "--csv" ∷ codes "x" ∷ []) ≡ Some why.Together }
    ensures area { command_by (codes "--json" ∷ codes "--area" ∷ codes "--areas=a" ∷ []) ≡
        Some command.Objects }
    ensures areas { why_by (codes "--json" ∷ codes "--area" ∷ []) ≡ Some why.Without }
    ensures language { why_by (codes "--language=de" ∷ codes "--places=p" ∷ []) ≡
        Some why.Without }
    ensures strict { level_by (codes "--find" ∷ codes "--leniency=strict-grouping" ∷ []) ≡
        Some level.StrictGrouping }
    ensures findless { why_by (codes "--leniency" ∷ codes "valid" ∷ []) ≡ Some why.Without }
    ensures lacking { why_by (codes "--as" ∷ codes "x" ∷ []) ≡ Some why.Without }
{}

/// No line of the help has more than 100 characters.
pub fn narrow()
    ensures { list_all (λ l. nat_le (length l) 100) (lines help_text) ≡ true }
{}
