//! A printed number between two spaces is found.
ghost use Rattle.std.specs.Prelude.{◌≡◌, ◌<◌, ◌∷◌, ◌++◌, [], ℕ, List, None, Option, Some};
ghost use Rattle.std.specs.Prelude.{chars, codes, true};
ghost use Rattle.phone_library.specs.Facts.{is_valid_number};
ghost use Rattle.phone_library.specs.Readings.{stripped};
ghost use Rattle.phone_library_laws.specs.Plain.{IsPlainInternational, IsPlainNational};
ghost use Rattle.phone_library_laws.specs.Plain.{IsPlainRfc3966};
ghost use Rattle.phone_library_laws.specs.Printed.{inside_reading, printed_reading, uncarried};
ghost use Rattle.phone_library_laws.specs.Again.{IsSettled, e164_reading};
ghost use Rattle.phone_library_text.specs.NumberTexts.{context_name};
ghost use Rattle.phone_library_text.specs.Places.{parted};
ghost use Rattle.phone_matches.specs.Leniencies.{IsValidIn};
ghost use Rattle.phone_matches.specs.Marks.{HasGoodMarks};
ghost use Rattle.phone_matches.specs.Numbers.{AreNumbersBy};
ghost use Rattle.phone_matches.specs.Spaced.{StandsWhole, linked, scheme, space, spaced};
ghost use Rattle.phone_matches.specs.declared.leniency.Leniency.TheVariants as leniency;
ghost use Rattle.phone_matches.specs.Searches.{Matched};
ghost use Rattle.phone_print.specs.Texts.{e164_text};
ghost use Rattle.phone_read.specs.Hints.{hinted};
ghost use Rattle.phone_records.specs.declared.loader.Metadata as loader;
ghost use Rattle.phone_values.specs.declared.country.Id.{Id};
ghost use Rattle.phone_values.specs.declared.mode.Mode.TheVariants as mode;
ghost use Rattle.phone_values.specs.declared.reading.Reading.{Reading};
ghost use Rattle.phone_library.specs.Printed.{printed_by};
ghost use Rattle.phone_values.specs.declared.rules.Rules.{Rules};

use phone_library_laws::again::e164_again;
use phone_library_laws::international::international_again;
use phone_library_laws::national::national_again;
use phone_library_laws::rfc3966::rfc3966_again;
use phone_matches::laws::{found_behind_scheme, found_between_spaces};

/// The E.164 text of a valid number, between two spaces, is found under any hint, at its place, and
/// alone: as the number without extension and carrier, its code told by the plus sign.
///
/// The number is settled, as `e164_again` asks. What an `x` would announce is as it should; the
/// text has none. By its characters it stands whole between the spaces.
pub fn e164_is_found()
    ensures { (db alternates : List loader.Metadata) (hint : Option Id) (tries : ℕ) (n : Reading)
        (all : List (Matched Reading)) → 0 < tries → IsSettled db n →
        is_valid_number db n ≡ true → HasGoodMarks db (e164_reading n) (chars (e164_text n)) →
        StandsWhole (chars (e164_text n)) →
        AreNumbersBy db alternates hint leniency.Valid tries (spaced (chars (e164_text n))) all →
        all ≡ ((space, chars (e164_text n)), e164_reading n) ∷ [] }
{
    e164_again();
    found_between_spaces();
}

/// The international text of a valid number, by either rules, between two spaces, is found under
/// any hint, at its place, and alone: as the number without its carrier, its code told by the plus
/// sign.
///
/// The number is settled and its text plain, as `international_again` asks. The `x` of the text, as
/// of ` ext. `, announce what they should. By its characters it stands whole between the spaces.
pub fn international_is_found()
    ensures { (rules : Rules) (db alternates : List loader.Metadata) (hint : Option Id) (tries : ℕ)
        (n : Reading) (text : List ℕ) (all : List (Matched Reading)) → 0 < tries → IsSettled db n →
        IsPlainInternational rules db (uncarried n) →
        printed_by rules db mode.International (uncarried n) ≡ Some text →
        is_valid_number db n ≡ true → HasGoodMarks db (printed_reading n) (chars text) →
        StandsWhole (chars text) →
        AreNumbersBy db alternates hint leniency.Valid tries (spaced (chars text)) all →
        all ≡ ((space, chars text), printed_reading n) ∷ [] }
{
    found_between_spaces();
    international_again();
}

/// The national text of a number, by either rules, between two spaces, is found under a hint whose
/// territory has the number's code, at its place, and alone: as the number with the carrier that
/// stripping finds, its code the hint's.
///
/// The text is plain, as `national_again` asks. As it is read there, the number is valid in it: its
/// `x` announce what they should, and it has the national prefix that it should have. By its
/// characters it stands whole between the spaces.
pub fn national_is_found()
    ensures { (rules : Rules) (db alternates : List loader.Metadata) (hint : Option Id) (tries : ℕ)
        (m : loader.Metadata) (n : Reading) (text : List ℕ) (all : List (Matched Reading)) →
        0 < tries → hinted db hint ≡ Some m → (plain : IsPlainNational rules db m (uncarried n)) →
        printed_by rules db mode.National (uncarried n) ≡ Some text →
        IsValidIn db (inside_reading n (stripped (Some m) plain.layout.digits).carrier)
        (chars text) → StandsWhole (chars text) →
        AreNumbersBy db alternates hint leniency.Valid tries (spaced (chars text)) all →
        all ≡ (
          (space, chars text),
          inside_reading n (stripped (Some m) plain.layout.digits).carrier,
        ) ∷ [] }
{
    found_between_spaces();
    national_again();
}

/// The text of RFC 3966 of a valid number, by either rules, between two spaces, has the number
/// found in it under any hint, behind `tel:`, and alone: as the number without its carrier, its
/// code told by the plus sign.
///
/// The number is settled and its text plain, as `rfc3966_again` asks, and it names no context. The
/// `x` behind `tel:`, as of `;ext=`, announce what they should. By its characters that part stands
/// whole before the space.
pub fn rfc3966_is_found()
    ensures { (rules : Rules) (db alternates : List loader.Metadata) (hint : Option Id) (tries : ℕ)
        (n : Reading) (text t : List ℕ) (all : List (Matched Reading)) → 0 < tries →
        IsSettled db n → IsPlainRfc3966 rules db (uncarried n) →
        printed_by rules db mode.Rfc3966 (uncarried n) ≡ Some text →
        chars text ≡ codes "tel:" ++ t → parted context_name (codes "tel:" ++ t) ≡ None →
        is_valid_number db n ≡ true → HasGoodMarks db (printed_reading n) t → StandsWhole t →
        AreNumbersBy db alternates hint leniency.Valid tries (linked t) all →
        all ≡ ((scheme, t), printed_reading n) ∷ [] }
{
    found_behind_scheme();
    rfc3966_again();
}
