//! Rows that are computed on the definitions of this crate. This function does nothing; its
//! contracts are the rows.
ghost use Rattle.std.specs.Prelude.{◌≡◌, [], ◌∷◌, codes, None, Some};
ghost use Rattle.phone_values.specs.declared.country.Source.TheVariants.{Default, Plus};
ghost use Rattle.phone_book.specs.Firsts.{firsts};
ghost use Rattle.phone_book.specs.Samples.{number};

/// The first numbers of some lists: one that was written in two ways is kept as it was written
/// first, wherever it comes again; a zero in front, another calling code or another extension makes
/// another number.
pub fn first_numbers()
    ensures again { firsts (number 64 Default 0 33316005 None ∷ number 1 Plus 0 6502530000 None ∷
        number 64 Plus 0 33316005 None ∷ []) ≡ number 64 Default 0 33316005 None ∷
        number 1 Plus 0 6502530000 None ∷ [] }
    ensures extensions { firsts (number 64 Plus 0 33316005 None ∷
        number 64 Plus 0 33316005 (Some (codes "5")) ∷
        number 64 Default 0 33316005 (Some (codes "5")) ∷ []) ≡ number 64 Plus 0 33316005 None ∷
        number 64 Plus 0 33316005 (Some (codes "5")) ∷ [] }
    ensures zeros { firsts (number 64 Default 1 12 None ∷ number 64 Default 0 12 None ∷ [])
        ≡ number 64 Default 1 12 None ∷ number 64 Default 0 12 None ∷ [] }
    ensures codes { firsts (number 64 Plus 0 33316005 None ∷ number 61 Plus 0 33316005 None ∷ [])
        ≡ number 64 Plus 0 33316005 None ∷ number 61 Plus 0 33316005 None ∷ [] }
    ensures each_time { firsts (number 64 Plus 0 12 None ∷ number 64 Default 0 12 None ∷
        number 64 Plus 0 12 None ∷ []) ≡ number 64 Plus 0 12 None ∷ [] }
{}
