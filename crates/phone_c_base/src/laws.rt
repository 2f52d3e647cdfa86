//! What a call says is said of one answer alone. These functions do nothing; their contracts are
//! the statements.
ghost use Rattle.std.specs.Prelude.{◌≡◌, ◌↔◌, ◌<◌, ℕ, List, Option, Result, None, Some, length};
ghost use Rattle.std.specs.List.{AllByRecursion};
ghost use Rattle.phone_values.specs.Ids.{name};
ghost use Rattle.phone_values.specs.Kinds.{kind_name};
ghost use Rattle.phone_values.specs.Refusals.{refusal_number, refusal_words};
ghost use Rattle.phone_values.specs.declared.country.Id.{Id};
ghost use Rattle.phone_values.specs.declared.country.Source.{Source};
ghost use Rattle.phone_values.specs.declared.kind.«Type».{«Type»};
ghost use Rattle.phone_values.specs.declared.error.ParseError.{ParseError};
ghost use Rattle.phone_values.specs.declared.reading.Reading.{Reading};
ghost use Rattle.phone_records.specs.declared.loader.Metadata as loader;
ghost use Rattle.phone_values.specs.declared.rules.Rules.{Rules};
ghost use Rattle.phone_find.specs.declared.leniency.Leniency.{Leniency};
ghost use Rattle.phone_c_base.specs.Answers.{IsKey, IsKind, IsPrinted, IsRegion, IsUnprinted};
ghost use Rattle.phone_c_base.specs.Answers.{IsValidity, kind_number};
ghost use Rattle.phone_c_base.specs.Comparisons.{AreAlike, sameness_number};
ghost use Rattle.phone_c_base.specs.Dialled.{IsDialled};
ghost use Rattle.phone_c_base.specs.Examples.{ExampleReads};
ghost use Rattle.phone_c_base.specs.Found.{ArePlaces, IsReadAt, leniency_number};
ghost use Rattle.phone_c_base.specs.Kinds.{kind_of};
ghost use Rattle.phone_c_base.specs.Numbers.{IsNumber, source_number};
ghost use Rattle.phone_c_base.specs.Possibilities.{IsPossibility, IsTextPossibility};
ghost use Rattle.phone_c_base.specs.Possibilities.{possibility_number};
ghost use Rattle.phone_c_base.specs.Rules.{rules_number};
ghost use Rattle.phone_c_base.specs.ShortNumbers.{AreShortFacts, cost_number};
ghost use Rattle.phone_short.specs.Costs.{cost_word};
ghost use Rattle.phone_short.specs.declared.rates.Cost.{Cost};
ghost use Rattle.phone_engine.specs.declared.possibilities.Possibility.{Possibility};
ghost use Rattle.phone_engine.specs.declared.sameness.Sameness.{Sameness};
ghost use Rattle.phone_engine.specs.Words.{source_word};
ghost use Rattle.phone_c_base.specs.Typing.{IsCaret, IsShown};
ghost use Rattle.phone_c_base.specs.Words.{possibility_word, sameness_word, status_words};
ghost use Rattle.phone_c_base.specs.Words.{word_of};
ghost use Rattle.phone_c_base.specs.declared.found.Place.{Place};
ghost use Rattle.phone_c_base.specs.declared.number.Number as plain;
ghost use Rattle.phone_c_base.specs.declared.short.PlainFacts.{PlainFacts};

/// Plain numbers, with the bytes beside them, are one number at most; by either rules they have one
/// kind, one validity, one region, and one text in a mode, which is unknown or not; and one key.
/// That a text has one reading, and a line one report line, is said by `phone_engine::laws`.
pub fn one_answer()
    ensures number { (x : plain.Number) (bytes : List ℕ) (m n : Reading) →
        IsNumber x bytes m → IsNumber x bytes n → m ≡ n }
    ensures kind { (rules : Rules) (db : List loader.Metadata) (x : plain.Number) (j k : ℕ) →
        IsKind rules db x j → IsKind rules db x k → j ≡ k }
    ensures validity { (rules : Rules) (db : List loader.Metadata) (x : plain.Number) (u v : ℕ) →
        IsValidity rules db x u → IsValidity rules db x v → u ≡ v }
    ensures region { (rules : Rules) (db : List loader.Metadata) (x : plain.Number)
        (a b : List ℕ) → IsRegion rules db x a → IsRegion rules db x b → a ≡ b }
    ensures key { (x : plain.Number) (a b : List ℕ) → IsKey x a → IsKey x b → a ≡ b }
    ensures text { (rules : Rules) (db : List loader.Metadata) (x : plain.Number)
        (bytes : List ℕ) (mode : ℕ) (a b : List ℕ) → IsPrinted rules db x bytes mode a →
        IsPrinted rules db x bytes mode b → a ≡ b }
    ensures unknown { (rules : Rules) (db : List loader.Metadata) (x : plain.Number)
        (bytes : List ℕ) (mode : ℕ) (a : List ℕ) → IsPrinted rules db x bytes mode a →
        ¬ (IsUnprinted rules db x bytes mode) }
{}

/// Of the keys of a text one text is shown, in which the n-th key has one place; and one is known
/// of a text as a short number.
pub fn one_shown()
    ensures shown { (db : List loader.Metadata) (hint : Option Id) (text a b : List ℕ) →
        IsShown db hint text a → IsShown db hint text b → a ≡ b }
    ensures caret { (db : List loader.Metadata) (hint : Option Id) (text : List ℕ) (n j k : ℕ) →
        IsCaret db hint text n j → IsCaret db hint text n k → j ≡ k }
    ensures short { (db : List loader.Metadata) (region text : List ℕ) (a b : PlainFacts) →
        AreShortFacts db region text a → AreShortFacts db region text b → a ≡ b }
{}

/// By either rules the length of plain numbers, and that of a text, says one thing; two texts are
/// alike in one way; a region and a kind have one example; and the numbers of a text stand at
/// certain places alone. From a region a number is dialled by one text.
pub fn one_told()
    ensures possibility { (rules : Rules) (db : List loader.Metadata) (x : plain.Number)
        (j k : ℕ) → IsPossibility rules db x j → IsPossibility rules db x k → j ≡ k }
    ensures text { (rules : Rules) (db : List loader.Metadata) (hint : Option Id)
        (text : List ℕ) (j k : ℕ) → IsTextPossibility rules db hint text j →
        IsTextPossibility rules db hint text k → j ≡ k }
    ensures alike { (rules : Rules) (db : List loader.Metadata) (first second : List ℕ)
        (j k : ℕ) → AreAlike rules db first second j → AreAlike rules db first second k → j ≡ k }
    ensures example { (rules : Rules) (db : List loader.Metadata) (region : List ℕ) (kind : ℕ)
        (r s : Result Reading ParseError) → ExampleReads rules db region kind r →
        ExampleReads rules db region kind s → r ≡ s }
    ensures places { (rules : Rules) (db : List loader.Metadata) (hint : Option Id)
        (leniency : Leniency) (text : List ℕ) (p q : List Place) →
        ArePlaces rules db hint leniency text p → ArePlaces rules db hint leniency text q →
        p ≡ q }
    ensures dialled { (db : List loader.Metadata) (region : List ℕ) (x : plain.Number)
        (bytes a b : List ℕ) → IsDialled db region x bytes a → IsDialled db region x bytes b →
        a ≡ b }
{}

/// What stands at each place that is found in a text is read, by the same rules and under the same
/// hint, as a number.
pub fn found_is_read()
    ensures { (rules : Rules) (db : List loader.Metadata) (hint : Option Id)
        (leniency : Leniency) (text : List ℕ) (places : List Place) →
        ArePlaces rules db hint leniency text places →
        AllByRecursion (IsReadAt rules db hint text) places }
{}

/// Each of the rules, each leniency and each kind has a number of its own, the kinds up to 16; and
/// each region's id has two bytes.
pub fn by_number()
    ensures rules { (q r : Rules) → rules_number q ≡ rules_number r → q ≡ r }
    ensures leniency { (a b : Leniency) → leniency_number a ≡ leniency_number b → a ≡ b }
    ensures kind { (k : «Type») → kind_of (kind_number k) ≡ Some k }
    ensures no_kind { (n : ℕ) → (kind_of n ≡ None) ↔ (16 < n) }
    ensures region { (id : Id) → length (name id) ≡ 2 }
{}

/// The words that are told of values are theirs: a kind's name, the words of a report for how a
/// calling code was found, those for costs, and those of the refusals of a text.
pub fn words()
    ensures kind { (k : «Type») → word_of 0 (kind_number k) ≡ Some (kind_name k) }
    ensures source { (s : Source) → word_of 1 (source_number s) ≡ Some (source_word s) }
    ensures possibility { (p : Possibility) →
        word_of 2 (possibility_number p) ≡ Some (possibility_word p) }
    ensures sameness { (s : Sameness) → word_of 3 (sameness_number s) ≡ Some (sameness_word s) }
    ensures cost { (c : Cost) → word_of 4 (cost_number c) ≡ Some (cost_word c) }
    ensures refusal { (e : ParseError) →
        status_words (refusal_number e) ≡ Some (refusal_words e) }
{}
