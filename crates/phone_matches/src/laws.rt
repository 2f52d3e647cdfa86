//! What holds of the numbers of a text. The contracts of these functions are the statements; the
//! functions do nothing.
ghost use Rattle.std.specs.Prelude.{◌≡◌, ◌<◌, ◌∷◌, [], ℕ, List, Option, Ok};
ghost use Rattle.std.specs.List.{AllByRecursion};
ghost use Rattle.phone_library.specs.Readings.{ReadsByLibrary};
ghost use Rattle.phone_matches.specs.Numbers.{AreNumbersBy, IsNumberBy, IsReadWell};
ghost use Rattle.phone_matches.specs.Orders.{IsOrdered};
ghost use Rattle.phone_matches.specs.Spaced.{StandsWhole, linked, scheme, space, spaced};
ghost use Rattle.phone_matches.specs.declared.leniency.Leniency.{Leniency};
ghost use Rattle.phone_matches.specs.declared.leniency.Leniency.TheVariants as leniency;
ghost use Rattle.phone_matches.specs.Searches.{Matched};
ghost use Rattle.phone_records.specs.declared.loader.Metadata as loader;
ghost use Rattle.phone_values.specs.declared.country.Id.{Id};
ghost use Rattle.phone_values.specs.declared.reading.Reading.{Reading};

use phone_library_laws::readings;

/// A text has at most one answer: what is found in it, database, hint, leniency and tries
/// determine.
pub fn one_answer()
    ensures { (db alternates : List loader.Metadata) (hint : Option Id) (l : Leniency) (tries : ℕ)
        (text : List ℕ) (a b : List (Matched Reading)) →
        AreNumbersBy db alternates hint l tries text a →
        AreNumbersBy db alternates hint l tries text b → a ≡ b }
{
    readings::one_reading();
}

/// Each text has an answer, for each database, hint, leniency and number of tries.
pub fn some_answer()
    ensures { (db alternates : List loader.Metadata) (hint : Option Id) (l : Leniency) (tries : ℕ)
        (text : List ℕ) → (all : List (Matched Reading)) ×
        AreNumbersBy db alternates hint l tries text all }
{
    readings::one_reading();
    readings::some_reading();
}

/// What is a number strictly grouped, or exactly, is a valid number: one candidate that a stricter
/// leniency accepts, `Valid` accepts as the same.
pub fn grouped_is_valid()
    ensures strict { (db alternates : List loader.Metadata) (hint : Option Id)
        (before piece after : List ℕ) (n : Reading) →
        IsNumberBy db alternates hint leniency.StrictGrouping before piece after n →
        IsNumberBy db alternates hint leniency.Valid before piece after n }
    ensures exact { (db alternates : List loader.Metadata) (hint : Option Id)
        (before piece after : List ℕ) (n : Reading) →
        IsNumberBy db alternates hint leniency.ExactGrouping before piece after n →
        IsNumberBy db alternates hint leniency.Valid before piece after n }
{}

/// Each match is read, by itself and under the hint, as its number.
pub fn read_as_found()
    ensures { (db alternates : List loader.Metadata) (hint : Option Id) (l : Leniency) (tries : ℕ)
        (text : List ℕ) (all : List (Matched Reading)) →
        AreNumbersBy db alternates hint l tries text all →
        AllByRecursion (λ (m : Matched Reading). ReadsByLibrary db hint m.0.1 (Ok m.1)) all }
{}

/// Matches come in their order and don't overlap: each begins where the one before it ends, or
/// later.
pub fn in_order()
    ensures { (db alternates : List loader.Metadata) (hint : Option Id) (l : Leniency) (tries : ℕ)
        (text : List ℕ) (all : List (Matched Reading)) →
        AreNumbersBy db alternates hint l tries text all →
        IsOrdered 0 all }
{}

/// A text between two spaces that is read as a number that suffices is found, at its place, and
/// alone. By its characters it stands whole there: a candidate begins and ends with it, it is no
/// date, its brackets are good, and it has no page numbers. There is a try at least.
pub fn found_between_spaces()
    ensures { (db alternates : List loader.Metadata) (hint : Option Id) (l : Leniency) (tries : ℕ)
        (t : List ℕ) (n : Reading) (all : List (Matched Reading)) → 0 < tries → StandsWhole t →
        IsReadWell db alternates hint l t n →
        AreNumbersBy db alternates hint l tries (spaced t) all → all ≡ ((space, t), n) ∷ [] }
{
    readings::one_reading();
}

/// So is one behind the scheme of RFC 3966, `tel:`, with spaces around both.
pub fn found_behind_scheme()
    ensures { (db alternates : List loader.Metadata) (hint : Option Id) (l : Leniency) (tries : ℕ)
        (t : List ℕ) (n : Reading) (all : List (Matched Reading)) → 0 < tries → StandsWhole t →
        IsReadWell db alternates hint l t n →
        AreNumbersBy db alternates hint l tries (linked t) all → all ≡ ((scheme, t), n) ∷ [] }
{
    readings::one_reading();
}
