//! What a number's kind, region and validity have to do with one another, and with its length.
ghost use Rattle.std.specs.Prelude.{◌≡◌, ◌↔◌, List, Some, true, false, length};
ghost use Rattle.std.specs.Prelude.{if◌then◌else◌, ◌==◌};
ghost use Rattle.std.specs.List.{list_any};
ghost use Rattle.std.specs.Option.{option_map_or};
ghost use Rattle.phone_values.specs.Numbers.{text_of};
ghost use Rattle.phone_values.specs.declared.kind.«Type».TheVariants as kind;
ghost use Rattle.phone_values.specs.declared.reading.Reading.{Reading};
ghost use Rattle.phone_values.specs.declared.validator.Validation.TheVariants as length_verdict;
ghost use Rattle.phone_read.specs.Verdicts.{general_lengths};
ghost use Rattle.phone_library.specs.Facts.{is_valid_number, kind_of_number, territory_of_number};
ghost use Rattle.phone_library.specs.Kinds.{kind_in};
ghost use Rattle.phone_library.specs.Lengths.{length_in, local_lengths};
ghost use Rattle.phone_library_laws.specs.Lengths.{is_ascending};
ghost use Rattle.phone_plans.specs.Records.{has_code};
ghost use Rattle.phone_records.specs.declared.loader.Descriptor as descriptor;
ghost use Rattle.phone_records.specs.declared.loader.Metadata as loader;
ghost use Rattle.phone_territory.specs.Records.{allows_length};

/// A number is valid exactly where its kind isn't unknown, and exactly where it has a territory, in
/// which its digits are of a known kind. That territory has the number's calling code.
pub fn valid_by_kind()
    ensures known { (db : List loader.Metadata) (n : Reading) →
        (is_valid_number db n ≡ true) ↔ ¬ (kind_of_number db n ≡ kind.Unknown) }
    ensures in_territory { (db : List loader.Metadata) (n : Reading) →
        (is_valid_number db n ≡ true) ↔ ((m : loader.Metadata) ×
        (territory_of_number db n ≡ Some m) ×
        ¬ (kind_in m (text_of n.national) ≡ kind.Unknown)) }
    ensures of_code { (db : List loader.Metadata) (n : Reading) (m : loader.Metadata) →
        territory_of_number db n ≡ Some m → has_code n.code.value m ≡ true }
{}

/// The count of a valid number's digits, its leading zeros among them, is one that its territory's
/// general descriptor allows. Where the general lengths ascend, as they do in every table, it is
/// possible by them, and where it is a local length as well, possible only locally.
pub fn valid_is_possible()
    ensures allowed { (db : List loader.Metadata) (n : Reading) (m : loader.Metadata) →
        is_valid_number db n ≡ true → territory_of_number db n ≡ Some m →
        option_map_or (λ (d : descriptor.Descriptor).
        allows_length d (length (text_of n.national))) m.general false ≡ true }
    ensures possible { (db : List loader.Metadata) (n : Reading) (m : loader.Metadata) →
        is_valid_number db n ≡ true → territory_of_number db n ≡ Some m →
        is_ascending (general_lengths m) ≡ true →
        length_in m (length (text_of n.national)) ≡
        (if list_any (λ l. l == length (text_of n.national)) (local_lengths m)
        then length_verdict.IsPossibleLocalOnly else length_verdict.IsPossible) }
{}
