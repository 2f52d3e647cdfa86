//! Numbers that the premises of the laws of what is told of numbers take.
ghost use Rattle.std.specs.Prelude.{◌≡◌, codes, None, Some, true};
ghost use Rattle.phone_values.specs.declared.country.Id.TheVariants as id;
ghost use Rattle.phone_library.specs.Facts.{is_valid_number, territory_of_number};
ghost use Rattle.phone_library_laws.specs.Lengths.{is_ascending};
ghost use Rattle.phone_plans.specs.CodeLookUps.{first_of, territories};
ghost use Rattle.phone_read.specs.Verdicts.{general_lengths};
ghost use Rattle.phone_short.specs.Regions.{is_emergency, is_valid_short, short_kind};
ghost use Rattle.phone_short.specs.declared.kind.ShortKind.TheVariants as kind;
ghost use Rattle.phone_engine.specs.Possibilities.{has_listed_kind};
ghost use Rattle.phonenumber.specs.Queries.{is_valid};
ghost use Rattle.headline_examples.specs.Samples.{db_b, db_short, free_phone, number};

/// A free number of a code of its own is valid by both rules. Its kind lists its lengths, its
/// territory is the first of its code, and the lengths of that ascend.
pub fn valid_number()
    ensures by_crate { is_valid db_b (number 800 0 12345678 None) ≡ true }
    ensures listed { has_listed_kind db_b (number 800 0 12345678 None) ≡ true }
    ensures by_library { is_valid_number db_b (number 800 0 12345678 None) ≡ true }
    ensures territory { territory_of_number db_b (number 800 0 12345678 None) ≡ Some free_phone }
    ensures first { first_of (territories 800 db_b) ≡ Some free_phone }
    ensures ascending { is_ascending (general_lengths free_phone) ≡ true }
{}

/// New Zealand's emergency number, which is a valid short number as well.
pub fn short_number()
    ensures valid { is_valid_short db_short id.NZ (codes "111") ≡ true }
    ensures emergency { is_emergency db_short id.NZ (codes "111") ≡ true }
    ensures kind { short_kind db_short id.NZ (codes "111") ≡ Some kind.Emergency }
{}
