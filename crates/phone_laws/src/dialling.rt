//! What holds of how a number is dialled (`phone_dialling`). These functions do nothing; their
//! contracts are the statements.
ghost use Rattle.std.specs.Prelude.{◌≡◌, ℕ, List, None, Ok, Option, Some, chars, false, true};
ghost use Rattle.std.specs.Str.{bytes_eq};
ghost use Rattle.phone_values.specs.declared.country.Id.{Id};
ghost use Rattle.phone_values.specs.declared.reading.Reading.{Reading};
ghost use Rattle.phone_library.specs.Facts.{is_valid_number};
ghost use Rattle.phone_library.specs.Readings.{ReadsByLibrary};
ghost use Rattle.phone_library_laws.specs.Told.{AreToldAlike};
ghost use Rattle.phone_library_laws.specs.Again.{IsSettled};
ghost use Rattle.phone_plans.specs.CodeLookUps.{first_of, territories};
ghost use Rattle.phone_print.specs.Texts.{e164_text};
ghost use Rattle.phone_records.specs.declared.loader.Metadata as loader;
ghost use Rattle.phone_territory.specs.Records.{id_of};
ghost use Rattle.phone_questions.specs.Belonging.{is_dialled_from_abroad};
ghost use Rattle.phone_dialling.specs.Mobile.{mobile_text};
ghost use Rattle.phone_dialling.specs.Original.{IsOriginal, dialled_of};

use phone_library_laws::told;

/// Of a number that is printed as it was written a telephone dials what it dials of that text: no
/// digit is added, and none is lost.
pub fn dialled_as_written()
    ensures { (db : List loader.Metadata) (from : Option Id) (n : Reading) (raw t : List ℕ) →
        IsOriginal db from n (Some raw) t → dialled_of t ≡ dialled_of raw }
{}

/// From another region a mobile phone dials, without symbols, the E.164 text of a valid number that
/// can be dialled from abroad.
pub fn dialled_abroad()
    ensures { (db : List loader.Metadata) (m : loader.Metadata) (id : List ℕ) (n : Reading) →
        first_of (territories n.code.value db) ≡ Some m → bytes_eq (id_of m) id ≡ false →
        is_valid_number db n ≡ true → is_dialled_from_abroad db n ≡ true →
        mobile_text db id false None n ≡ e164_text n }
{}

/// What is dialled so is read as the number, under any hint, where its code's main territory strips
/// nothing off its digits: the code and the national number are the same, and what a database tells
/// of both.
pub fn read_abroad()
    ensures { (db : List loader.Metadata) (m : loader.Metadata) (id : List ℕ) (hint : Option Id)
        (n r : Reading) →
        first_of (territories n.code.value db) ≡ Some m → bytes_eq (id_of m) id ≡ false →
        is_valid_number db n ≡ true → is_dialled_from_abroad db n ≡ true → IsSettled db n →
        ReadsByLibrary db hint (chars (mobile_text db id false None n)) (Ok r) →
        AreToldAlike db r n }
{
    told::told_again();
}
