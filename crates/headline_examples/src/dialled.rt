//! Numbers that the premises of dialling and of finding take, a real one each.
ghost use Rattle.std.specs.Prelude.{◌≡◌, codes, None, true};
ghost use Rattle.phone_values.specs.declared.country.Id.TheVariants as id;
ghost use Rattle.phone_find.specs.Alone.{EndsInDigits, IsAmong, IsNothingElse, IsPlainEnough};
ghost use Rattle.phone_find.specs.Alone.{IsShaped};
ghost use Rattle.phone_find.specs.Leniencies.{suffices};
ghost use Rattle.phone_values.specs.declared.rules.Rules.TheVariants as rules;
ghost use Rattle.phone_find.specs.declared.leniency.Leniency.TheVariants as leniency;
ghost use Rattle.phone_engine.specs.Back.{IsAfterPlus, IsAfterPrefix, IsPlainDialled};
ghost use Rattle.phone_engine.specs.LibraryBack.{IsSettledDialled};
ghost use Rattle.headline_examples.specs.Samples.{db_b, db_kp, extended, number, nz};

/// A number of New Zealand that is dialled from the United States, behind `011`; for
/// libphonenumber's rules it has an extension.
pub fn dialled_behind_a_prefix()
    ensures by_crate { (plain : IsPlainDialled db_b id.US (number 64 0 33316005 None)) ×
        IsAfterPrefix plain.from (number 64 0 33316005 None) }
    ensures by_library { (dialled : IsSettledDialled db_b id.US extended) ×
        IsAfterPrefix dialled.from extended }
{}

/// The same number dialled from North Korea, behind a plus sign: of two international prefixes none
/// is preferred.
pub fn dialled_behind_a_plus()
    ensures { (plain : IsPlainDialled db_kp id.KP (number 64 0 33316005 None)) ×
        IsAfterPlus plain.from (number 64 0 33316005 None) }
{}

/// The same number is plain enough to be found in a text, and its text ends in digits, may be a
/// number before this word, is taken for nothing else, and stands among words. By libphonenumber's
/// rules it suffices as well.
pub fn found_in_a_text()
    ensures enough { IsPlainEnough db_b leniency.Possible (number 64 0 33316005 None) }
    ensures ends { EndsInDigits nz (number 64 0 33316005 None) }
    ensures shaped { IsShaped (codes "+64 3 331 6005") (codes "today") }
    ensures only { IsNothingElse (codes "+64 3 331 6005") (codes " today") }
    ensures among { IsAmong (codes "call") (codes "+64 3 331 6005") (codes "today") }
    ensures by_library { suffices rules.Library db_b leniency.Possible
        (number 64 0 33316005 None) ≡ true }
{}
