//! What holds of the definitions of this crate. These functions do nothing; their contracts are the
//! statements.
ghost use Rattle.std.specs.Prelude.{◌≡◌, ◌≢◌, ℕ, List, Option, Some, true};
ghost use Rattle.phone_languages.specs.Atlases.{IsArea, name_in};
ghost use Rattle.phone_languages.specs.declared.atlas.Atlas as told;
ghost use Rattle.phone_library.specs.Facts.{region_of_number};
ghost use Rattle.phone_places.specs.Maps.{digits_of};
ghost use Rattle.phone_places.specs.Areas.{IsAreaOf};
ghost use Rattle.phone_places.specs.Descriptions.{IsDescribed, is_elsewhere};
ghost use Rattle.phone_records.specs.declared.loader.Metadata as loader;
ghost use Rattle.phone_values.specs.Ids.{name};
ghost use Rattle.phone_values.specs.declared.country.Id as country;
ghost use Rattle.phone_values.specs.declared.reading.Reading.{Reading};

/// A user in another region is told the name of the number's region, and no area.
pub fn elsewhere_no_area()
    ensures { (db : List loader.Metadata) (atlas : told.Atlas) (user : Option (List ℕ))
        (n : Reading) (region : country.Id) (text : List ℕ) →
        region_of_number db n ≡ Some region → is_elsewhere user region ≡ true →
        IsDescribed db atlas user n text → text ≡ name_in atlas (name region) }
{}

/// Outside Argentina a number's area is that of its own digits.
pub fn own_digits_outside_argentina()
    ensures { (db : List loader.Metadata) (atlas : told.Atlas) (n : Reading) (text : List ℕ) →
        n.code.value ≢ 54 → IsAreaOf db atlas n text → IsArea atlas (digits_of n) text }
{}
