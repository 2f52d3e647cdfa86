//! What holds of examples (`phone_further`). These functions do nothing; their contracts are the
//! statements.
ghost use Rattle.std.specs.Prelude.{◌≡◌, List, Ok, Some, false};
ghost use Rattle.phone_values.specs.declared.country.Id.{Id};
ghost use Rattle.phone_values.specs.declared.kind.«Type».{«Type»};
ghost use Rattle.phone_values.specs.declared.reading.Reading.{Reading};
ghost use Rattle.phone_library.specs.Facts.{is_valid_number, kind_of_number, region_of_number};
ghost use Rattle.phone_records.specs.declared.loader.Metadata as loader;
ghost use Rattle.phone_further.specs.Examples.{IsExample, example_in};
ghost use Rattle.phone_laws.specs.Fitting.{IsFitting};
ghost use Rattle.phone_further.specs.Invalid.{IsInvalidExample};

/// The example of a number that isn't valid isn't.
pub fn invalid_is_invalid()
    ensures { (db : List loader.Metadata) (region : Id) (n : Reading) →
        IsInvalidExample db region (Some n) → is_valid_number db n ≡ false }
{}

/// An example that a region's territory gives of a kind is read under the region as a number of
/// that kind and of that region. It holds where the example fits: its digits, three or more, are
/// dialled there as they stand, so that they begin neither with an international prefix nor with
/// the calling code and nothing is stripped off them; of the code's territories this one has them;
/// and it says that they are of the kind. An example of a fixed line may be one of a mobile as
/// well, as in the United States: then its kind is both, and it fits as one of both.
pub fn example_is_of_its_kind()
    ensures kind { (db : List loader.Metadata) (region : Id) (m : loader.Metadata) (k : «Type»)
        (n : Reading) → IsFitting db region m k →
        IsExample db (Some region) (example_in m k) (Ok (Some n)) → kind_of_number db n ≡ k }
    ensures region { (db : List loader.Metadata) (region : Id) (m : loader.Metadata)
        (k : «Type») (n : Reading) → IsFitting db region m k →
        IsExample db (Some region) (example_in m k) (Ok (Some n)) →
        region_of_number db n ≡ Some region }
{}
