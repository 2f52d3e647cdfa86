//! What holds of answers. These functions do nothing, but for those that read a text to show that
//! it has an answer; their contracts are the statements.
ghost use Rattle.std.specs.Prelude.{◌≡◌, ℕ, List, None, Option, Some, chars};
ghost use Rattle.std.specs.Prelude.{false, true};
ghost use Rattle.std.specs.Str.{IsUtf8};
ghost use Rattle.serde_json.specs.Data.{Data};
ghost use Rattle.phone_values.specs.declared.country.Id.{Id};
ghost use Rattle.phone_values.specs.declared.reading.Reading.{Reading};
ghost use Rattle.phone_csv.specs.Formats.{Record};
ghost use Rattle.phone_values.specs.declared.rules.Rules.{Rules};
ghost use Rattle.phone_records.specs.declared.loader.Metadata as loader;
ghost use Rattle.phone_short.specs.Regions.{short_kind};
ghost use Rattle.phone_short.specs.declared.kind.ShortKind.TheVariants as kind;
ghost use Rattle.phone_prefixes.specs.Tables as prefixes;
ghost use Rattle.phone_answers.specs.Answers.{IsFieldAnswer};
ghost use Rattle.phone_answers.specs.Extras.{EachHasOneText, HaveOneText, ask_fields};
ghost use Rattle.phone_answers.specs.Objects.{IsObject, IsObjectLine};
ghost use Rattle.phone_answers.specs.Shorts.{is_number_alone, short_answer};
ghost use Rattle.phone_answers.specs.declared.extra.Extra as extra;

use phone_engine::laws::some_reading;

/// A field that is nothing but an emergency number of the hint's region is answered as one,
/// whatever number could be read in it.
pub fn emergency_alone()
    ensures { (rules : Rules) (db short : List loader.Metadata) (region : Id) (field : List ℕ)
        (number : Option Reading) (answer : Record) → IsUtf8 field →
        is_number_alone field ≡ true → short_kind short region (chars field) ≡ Some kind.Emergency →
        IsFieldAnswer rules db (Some short) (Some region) field number answer →
        (number ≡ None) × (answer ≡ short_answer region kind.Emergency) }
{}

/// By either rules a field has one answer at most, which is of one number or of none, under each
/// database, database of short numbers and hint.
pub fn one_answer()
    ensures { (rules : Rules) (db : List loader.Metadata) (short : Option (List loader.Metadata))
        (hint : Option Id) (field : List ℕ) (n k : Option Reading) (a b : Record) →
        IsFieldAnswer rules db short hint field n a →
        IsFieldAnswer rules db short hint field k b → (n ≡ k) × (a ≡ b) }
{}

/// By either rules each field has an answer, under each database, database of short numbers and
/// hint. The body reads the text, since the contract of reading shows that the text has a reading.
pub fn some_answer(field: &[u8])
    ensures { (rules : Rules) (db : List loader.Metadata) (short : Option (List loader.Metadata))
        (hint : Option Id) → (number : Option Reading) × (answer : Record) ×
        IsFieldAnswer rules db short hint field.now number answer }
{
    if let Ok(text) = std::str::from_utf8(field) {
        some_reading(text);
    }
}

/// In each table of prefixes that was loaded a prefix has one text.
pub fn loaded_tables()
    ensures { (bytes : List ℕ) (entries : List prefixes.Entry) →
        prefixes.IsTable bytes entries → HaveOneText entries }
{}

/// By either rules a line has one object at most, and one text of it, under each database, database
/// of short numbers and hint, where of each prefix the columns' tables have one text.
pub fn one_object()
    ensures object { (rules : Rules) (db : List loader.Metadata)
        (short : Option (List loader.Metadata)) (columns : List extra.Extra) (hint : Option Id)
        (place : ℕ) (line : List ℕ) (d e : Data) → EachHasOneText columns →
        IsObject rules db short columns hint place line d →
        IsObject rules db short columns hint place line e → d ≡ e }
    ensures text { (rules : Rules) (db : List loader.Metadata)
        (short : Option (List loader.Metadata)) (columns : List extra.Extra) (hint : Option Id)
        (place : ℕ) (line a b : List ℕ) → EachHasOneText columns →
        IsObjectLine rules db short columns hint place line a →
        IsObjectLine rules db short columns hint place line b → a ≡ b }
{}

/// By either rules each line has an object, whatever its number, under each database, database of
/// short numbers and hint, beside columns that tell nothing of the line itself.
pub fn some_object(line: &[u8])
    ensures { (rules : Rules) (db : List loader.Metadata) (short : Option (List loader.Metadata))
        (columns : List extra.Extra) (hint : Option Id) (place : ℕ) →
        ask_fields columns ≡ false →
        (d : Data) × IsObject rules db short columns hint place line.now d }
{
    some_answer(line);
}
