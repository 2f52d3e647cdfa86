//! A number that was read is read again from its texts.
ghost use Rattle.std.specs.Prelude.{◌≡◌, List, None, Option, Some, Ok, chars, true, ℕ};
ghost use Rattle.phone_values.specs.declared.country.Id.{Id};
ghost use Rattle.phone_values.specs.declared.mode.Mode.TheVariants as mode;
ghost use Rattle.phone_values.specs.declared.reading.Reading.{Reading};
ghost use Rattle.phone_library.specs.Readings.{ReadsByLibrary};
ghost use Rattle.phone_library_laws.specs.Again.{IsSettledIfRead};
ghost use Rattle.phone_read.specs.TransformRules.{rules_have_no_plus};
ghost use Rattle.phone_records.specs.declared.loader.Metadata as loader;
ghost use Rattle.phone_library.specs.Printed.{printed_by};
ghost use Rattle.phone_values.specs.declared.rules.Rules.{Rules};
ghost use Rattle.phone_library_laws.specs.Plain.{IsLaidInternational, IsLaidRfc3966};
ghost use Rattle.phone_library_laws.specs.Printed.{printed_reading, uncarried};

/// A number that was read under one hint is read again from its international text and from its
/// text of RFC 3966, by the layouts that either rules choose, under any other, where its code has
/// at most three digits, no listed code begins another, no transform rule has a plus sign, the
/// code's first territory strips nothing off the national number, and the text is laid out plainly:
/// its extension is one that is read. In an international text it must be announced by ` ext. `.
pub fn read_twice()
    ensures international { (rules : Rules) (db : List loader.Metadata) (hint other : Option Id)
        (text again : List ℕ) (n : Reading) → rules_have_no_plus db ≡ true →
        IsSettledIfRead db n → ReadsByLibrary db hint text (Ok n) →
        (layout : IsLaidInternational rules db (uncarried n)) →
        layout.territory.preferred_extension_prefix ≡ None →
        printed_by rules db mode.International (uncarried n) ≡ Some again →
        ReadsByLibrary db other (chars again) (Ok (printed_reading n)) }
    ensures rfc3966 { (rules : Rules) (db : List loader.Metadata) (hint other : Option Id)
        (text again : List ℕ) (n : Reading) → rules_have_no_plus db ≡ true →
        IsSettledIfRead db n → ReadsByLibrary db hint text (Ok n) →
        IsLaidRfc3966 rules db (uncarried n) →
        printed_by rules db mode.Rfc3966 (uncarried n) ≡ Some again →
        ReadsByLibrary db other (chars again) (Ok (printed_reading n)) }
{}
