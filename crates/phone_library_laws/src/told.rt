//! What is told of a number is told of it where its texts are read.
ghost use Rattle.std.specs.Prelude.{◌≡◌, List, None, Option, Some, Ok, chars, ℕ};
ghost use Rattle.phone_values.specs.declared.country.Id.{Id};
ghost use Rattle.phone_values.specs.declared.mode.Mode.TheVariants as mode;
ghost use Rattle.phone_values.specs.declared.reading.Reading.{Reading};
ghost use Rattle.phone_library.specs.Readings.{ReadsByLibrary};
ghost use Rattle.phone_library_laws.specs.Again.{IsSettled};
ghost use Rattle.phone_print.specs.Texts.{e164_text};
ghost use Rattle.phone_read.specs.Hints.{hinted};
ghost use Rattle.phone_records.specs.declared.loader.Metadata as loader;
ghost use Rattle.phone_library.specs.Printed.{printed_by};
ghost use Rattle.phone_values.specs.declared.rules.Rules.{Rules};
ghost use Rattle.phone_library_laws.specs.Plain.{IsPlainInternational, IsPlainNational};
ghost use Rattle.phone_library_laws.specs.Plain.{IsPlainRfc3966};
ghost use Rattle.phone_library_laws.specs.Printed.{uncarried};
ghost use Rattle.phone_library_laws.specs.Told.{AreToldAlike};

/// Whatever number one of the texts, by either rules, is read as, it has the code and the national
/// number of the number that was printed, and by the database it is of the same region and kind,
/// and valid and possible just where that is. The premises are those of the laws of the four texts.
pub fn told_again()
    ensures e164 { (db : List loader.Metadata) (hint : Option Id) (n r : Reading) →
        IsSettled db n → ReadsByLibrary db hint (chars (e164_text n)) (Ok r) →
        AreToldAlike db r n }
    ensures international { (rules : Rules) (db : List loader.Metadata) (hint : Option Id)
        (n r : Reading) (text : List ℕ) → IsSettled db n →
        IsPlainInternational rules db (uncarried n) →
        printed_by rules db mode.International (uncarried n) ≡ Some text →
        ReadsByLibrary db hint (chars text) (Ok r) → AreToldAlike db r n }
    ensures rfc3966 { (rules : Rules) (db : List loader.Metadata) (hint : Option Id)
        (n r : Reading) (text : List ℕ) → IsSettled db n → IsPlainRfc3966 rules db (uncarried n) →
        printed_by rules db mode.Rfc3966 (uncarried n) ≡ Some text →
        ReadsByLibrary db hint (chars text) (Ok r) → AreToldAlike db r n }
    ensures national { (rules : Rules) (db : List loader.Metadata) (hint : Option Id)
        (m : loader.Metadata) (n r : Reading) (text : List ℕ) → hinted db hint ≡ Some m →
        IsPlainNational rules db m (uncarried n) →
        printed_by rules db mode.National (uncarried n) ≡ Some text →
        ReadsByLibrary db hint (chars text) (Ok r) → AreToldAlike db r n }
{}
