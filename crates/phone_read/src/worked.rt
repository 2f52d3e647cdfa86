//! Rows that are computed on the definitions of reading. These functions do nothing; their
//! contracts are the rows.
ghost use Rattle.std.specs.Prelude.{◌≡◌, ℕ, List, [], ◌∷◌, ◌++◌, length, codes, Some, None, Ok};
ghost use Rattle.std.specs.Prelude.{Err, true};
ghost use Rattle.std.specs.List.{list_any};
ghost use Rattle.std.specs.Str.{bytes_eq};
ghost use Rattle.phone_values.specs.declared.country.Id.TheVariants.{NZ};
ghost use Rattle.phone_values.specs.declared.country.Source.TheVariants.{Default, Plus};
ghost use Rattle.phone_read.specs.Readings.{Reads};
ghost use Rattle.phone_read.specs.Samples.{nz};

/// Whole readings under a database of New Zealand alone and its hint: a number as it is dialled
/// there, whose code is the hint's and whose national prefix is cut off, and one of the `tel:`
/// form.
pub fn whole_readings()
    ensures by_hint { Reads (nz ∷ []) (Some NZ) (codes "03-331 6005") (Ok (record {
      code = record { value = 64; source = Default };
      national = record { zeros = 0; value = 33316005 };
      extension = None;
      carrier = None;
    })) }
    ensures by_prefix { Reads (nz ∷ []) (Some NZ) (codes "tel:+64-3-331-6005") (Ok (record {
      code = record { value = 64; source = Plus };
      national = record { zeros = 0; value = 33316005 };
      extension = None;
      carrier = None;
    })) }
{}
