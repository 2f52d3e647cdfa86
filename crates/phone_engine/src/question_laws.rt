//! What holds of the definitions of this crate, but of dialled numbers (`dialled::laws`). These
//! functions do nothing; their contracts are the statements.
ghost use Rattle.std.specs.Prelude.{◌≡◌, ◌⊎◌, ◌<◌, ◌≤◌, ℕ, List, true, None, Some, Result, Ok};
ghost use Rattle.std.specs.Prelude.{Err, IsUtf8, chars, if◌then◌else◌, ◌==◌, length};
ghost use Rattle.std.specs.List.{list_any};
ghost use Rattle.phone_values.specs.Numbers.{text_of};
ghost use Rattle.phone_values.specs.declared.error.ParseError.{ParseError};
ghost use Rattle.phone_values.specs.declared.mode.Mode.TheVariants as mode;
ghost use Rattle.phone_read.specs.Verdicts.{general_lengths};
ghost use Rattle.phone_library.specs.Facts.{is_valid_number, territory_of_number};
ghost use Rattle.phone_library.specs.Lengths.{local_lengths};
ghost use Rattle.phone_library_laws.specs.Lengths.{is_ascending};
ghost use Rattle.phone_plans.specs.CodeLookUps.{first_of, is_prefix_free, territories};
ghost use Rattle.phone_records.specs.declared.loader.Metadata as loader;
ghost use Rattle.phone_values.specs.declared.reading.Reading.{Reading};
ghost use Rattle.phonenumber.specs.Bounds.{IsBounded};
ghost use Rattle.phonenumber.specs.Queries.{is_valid};
ghost use Rattle.phonenumber.specs.Printed.{printed};
ghost use Rattle.phonenumber.specs.Plain.{IsAnnouncedSafely, IsLeftAlone, IsPlainInternational};
ghost use Rattle.phonenumber.specs.Plain.{IsPlainRfc3966};
ghost use Rattle.phone_engine.specs.Possibilities.{has_listed_kind, possibility_by, possibility_of};
ghost use Rattle.phone_engine.specs.Sameness.{IsAnswer, is_one_extension, sameness_of};
ghost use Rattle.phone_engine.specs.Sides.{IsTaken};
ghost use Rattle.phone_engine.specs.declared.possibilities.Possibility.TheVariants as possibility;
ghost use Rattle.phone_engine.specs.declared.sameness.Sameness.{Sameness};
ghost use Rattle.phone_engine.specs.declared.sameness.Sameness.TheVariants as sameness;
ghost use Rattle.phone_engine.specs.declared.sides.Side.{Side};
ghost use Rattle.phone_engine.specs.Readings.{ReadsBy};
ghost use Rattle.phone_values.specs.declared.rules.Rules.{Rules};
ghost use Rattle.phone_values.specs.declared.rules.Rules.TheVariants as rules;

use phone_library_laws::facts;
use phonenumber::laws;

/// By the rules of the crate a valid number of a kind that lists its lengths is possible.
pub fn valid_is_possible()
    ensures { (db : List loader.Metadata) (n : Reading) → is_valid db n ≡ true →
        has_listed_kind db n ≡ true → possibility_of rules.Crate db n ≡ possibility.Possible }
{}

/// By the rules of libphonenumber a valid number is possible where its territory is the first one
/// of its calling code, and the lengths of that ascend, as they do in every table: inside its area
/// alone where its length is a local one as well.
pub fn valid_is_possible_by_library()
    ensures { (db : List loader.Metadata) (n : Reading) (m : loader.Metadata) →
        is_valid_number db n ≡ true → territory_of_number db n ≡ Some m →
        first_of (territories n.code.value db) ≡ Some m →
        is_ascending (general_lengths m) ≡ true → possibility_of rules.Library db n ≡
        (if list_any (λ l. l == length (text_of n.national)) (local_lengths m)
        then possibility.PossibleLocally else possibility.Possible) }
{
    facts::valid_is_possible();
}

/// Where a count of digits is too short, a greater one is possible.
pub fn too_short_goes_on()
    ensures { (lengths local : List ℕ) (n : ℕ) →
        possibility_by lengths local n ≡ possibility.TooShort →
        (longer : ℕ) × (n < longer) ×
        (possibility_by lengths local longer ≡ possibility.Possible) }
{}

/// Two sides are as like in one order as in the other.
pub fn swapped_sides()
    ensures { (a b : Side) → sameness_of a b ≡ sameness_of b a }
{}

/// A side with a calling code is exactly itself; one without has its own national number.
pub fn one_with_itself()
    ensures coded { (a : Side) (code : ℕ) → a.code ≡ Some code → sameness_of a a ≡ sameness.Exact }
    ensures dialled { (a : Side) → a.code ≡ None → sameness_of a a ≡ sameness.National }
{}

/// By either rules and under each database two texts have at most one answer, and in the other
/// order the same. Only where both texts are refused, each for a reason of its own, the two orders
/// are refused differently: the text that stands first is told of.
pub fn one_answer()
    ensures one { (by : Rules) (db : List loader.Metadata) (s t : List ℕ)
        (x y : Result Sameness ParseError) → IsAnswer by db s t x → IsAnswer by db s t y → x ≡ y }
    ensures swapped { (by : Rules) (db : List loader.Metadata) (s t : List ℕ) (x : Sameness) →
        IsAnswer by db s t (Ok x) → IsAnswer by db t s (Ok x) }
    ensures refused { (by : Rules) (db : List loader.Metadata) (s t : List ℕ) (e f : ParseError) →
        IsAnswer by db s t (Err e) → IsAnswer by db t s (Err f) → ¬ (e ≡ f) →
        IsTaken by db s (Err e) × IsTaken by db t (Err f) }
{}

/// Two texts that are read as one calling code and one national number are exactly the same where
/// their extensions are, and else the same number.
pub fn read_alike()
    ensures { (by : Rules) (db : List loader.Metadata) (s t : List ℕ) (m n : Reading) →
        ReadsBy by db None s (Ok m) → ReadsBy by db None t (Ok n) →
        m.code.value ≡ n.code.value → m.national ≡ n.national → IsAnswer by db s t
        (Ok (if is_one_extension m.extension n.extension
        then sameness.Exact else sameness.Number)) }
{}

/// By the rules of the crate the printed texts of a number are the same number, under the premises
/// of `phonenumber::laws` for reading them back: those of RFC 3966 and international text exactly,
/// each with the E.164 text, which has no extension, exactly where the number has none.
pub fn printed_alike()
    ensures rfc3966 { (db : List loader.Metadata) (n : Reading) (e164 text : List ℕ) →
        IsBounded n → IsPlainRfc3966 db n → IsLeftAlone db n.code.value (text_of n.national) →
        1 ≤ n.code.value → n.code.value ≤ 999 → is_prefix_free db ≡ true →
        printed db mode.E164 None n ≡ Some e164 → printed db mode.Rfc3966 None n ≡ Some text →
        IsAnswer rules.Crate db (chars e164) (chars text)
        (Ok (if is_one_extension None n.extension then sameness.Exact else sameness.Number)) }
    ensures international { (db : List loader.Metadata) (n : Reading) (e164 text : List ℕ) →
        IsBounded n → IsUtf8 text → (plain : IsPlainInternational db n) →
        IsLeftAlone db n.code.value (text_of n.national) →
        1 ≤ n.code.value → n.code.value ≤ 999 → is_prefix_free db ≡ true →
        (n.extension ≡ None) ⊎ IsAnnouncedSafely plain.territory n →
        printed db mode.E164 None n ≡ Some e164 →
        printed db mode.International None n ≡ Some text →
        IsAnswer rules.Crate db (chars e164) (chars text)
        (Ok (if is_one_extension None n.extension then sameness.Exact else sameness.Number)) }
    ensures both { (db : List loader.Metadata) (n : Reading) (rfc3966 text : List ℕ) →
        IsBounded n → IsUtf8 text → IsPlainRfc3966 db n → (plain : IsPlainInternational db n) →
        IsLeftAlone db n.code.value (text_of n.national) →
        1 ≤ n.code.value → n.code.value ≤ 999 → is_prefix_free db ≡ true →
        (n.extension ≡ None) ⊎ IsAnnouncedSafely plain.territory n →
        printed db mode.Rfc3966 None n ≡ Some rfc3966 →
        printed db mode.International None n ≡ Some text →
        IsAnswer rules.Crate db (chars rfc3966) (chars text) (Ok sameness.Exact) }
{
    laws::e164_back();
    laws::rfc3966_back();
    laws::international_back();
}
