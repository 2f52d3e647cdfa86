//! Numbers that the premises of the laws of what is typed take.
ghost use Rattle.std.specs.Prelude.{◌∷◌, [], codes, None, Some};
ghost use Rattle.phone_values.specs.declared.country.Id.TheVariants as id;
ghost use Rattle.phone_values.specs.declared.mode.Mode.TheVariants as mode;
ghost use Rattle.phone_typed.specs.Beginnings.{IsBegun};
ghost use Rattle.phone_typed.specs.Printed.{IsPlainAbroad, IsPlainAtHome};
ghost use Rattle.headline_examples.specs.Samples.{am_by_anexo, db_b, db_e, long_number};
ghost use Rattle.headline_examples.specs.Samples.{long_numbers, number, nz};

/// A number of New Zealand that is typed as its E.164 text, and last shown as its international
/// text.
pub fn typed_abroad()
    ensures { IsPlainAbroad db_b nz (number 64 0 33316005 None) }
{}

/// A number of Armenia that is typed there, and last shown as its national text.
pub fn typed_at_home()
    ensures { IsPlainAtHome db_e (Some id.AM) am_by_anexo (number 374 0 123456 None) }
{}

/// Of a number of fifteen digits the first four are typed, and shown as they stand in its text.
pub fn typed_in_part()
    ensures plain { IsPlainAbroad (long_numbers ∷ []) long_numbers long_number }
    ensures begun { IsBegun long_numbers mode.International long_number (codes "3331")
        (codes "3331") }
{}
