//! What holds of every number that is read, whatever its text. These functions do nothing; their
//! contracts are the statements.
ghost use Rattle.std.specs.Prelude.{◌≡◌, ◌<◌, ◌≤◌, ℕ, List, length, Option, Ok, true};
ghost use Rattle.std.specs.List.{list_all};
ghost use Rattle.std.specs.Option.{option_map_or};
ghost use Rattle.phone_chars.specs.Characters.{is_digit};
ghost use Rattle.phone_values.specs.Numbers.{text_of};
ghost use Rattle.phone_values.specs.declared.country.Id.{Id};
ghost use Rattle.phone_plans.specs.CodeLookUps.{is_listed};
ghost use Rattle.phone_records.specs.declared.loader.Metadata as loader;
ghost use Rattle.phone_read.specs.Readings.{Reads};
ghost use Rattle.phone_read.specs.TransformRules.{rules_have_no_plus};
ghost use Rattle.phone_values.specs.declared.reading.Reading.{Reading};

/// The calling code of a number that was read is listed.
pub fn code_is_listed()
    ensures { (db : List loader.Metadata) (hint : Option Id) (text : List ℕ) (n : Reading) →
        Reads db hint text (Ok n) → is_listed n.code.value db ≡ true }
{}

/// The extension of a number that was read is absent, or it is ASCII digits alone, possibly none.
pub fn extension_of_digits()
    ensures { (db : List loader.Metadata) (hint : Option Id) (text : List ℕ) (n : Reading) →
        Reads db hint text (Ok n) → option_map_or (list_all is_digit) n.extension true ≡ true }
{}

/// Where no transform rule of the database has a plus sign, the national number of a number that
/// was read isn't 0, and its text, the leading zeros and then the value in decimal, has 2 to 17
/// bytes. A plus sign that a rule wrote would be counted when the text is read, and not be printed.
pub fn national_text_of_digits()
    ensures not_zero { (db : List loader.Metadata) (hint : Option Id) (text : List ℕ)
        (n : Reading) → rules_have_no_plus db ≡ true → Reads db hint text (Ok n) →
        0 < n.national.value }
    ensures long_enough { (db : List loader.Metadata) (hint : Option Id) (text : List ℕ)
        (n : Reading) → rules_have_no_plus db ≡ true → Reads db hint text (Ok n) →
        2 ≤ length (text_of n.national) }
    ensures short_enough { (db : List loader.Metadata) (hint : Option Id) (text : List ℕ)
        (n : Reading) → rules_have_no_plus db ≡ true → Reads db hint text (Ok n) →
        length (text_of n.national) ≤ 17 }
{}
