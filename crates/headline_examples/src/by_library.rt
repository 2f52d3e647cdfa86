//! Numbers that the premises of the laws of libphonenumber's rules take.
ghost use Rattle.std.specs.Prelude.{◌≡◌, codes, None, Some, true, false};
ghost use Rattle.phone_values.specs.declared.country.Id.TheVariants as id;
ghost use Rattle.phone_values.specs.declared.rules.Rules.{Rules};
ghost use Rattle.phone_read.specs.Hints.{hinted};
ghost use Rattle.phone_read.specs.TransformRules.{rules_have_no_plus};
ghost use Rattle.phone_library_laws.specs.Again.{IsSettled, IsSettledIfRead, e164_reading};
ghost use Rattle.phone_library_laws.specs.Agreement.{IsOwnNumber, IsReadAlike, IsSettledAlike};
ghost use Rattle.phone_library_laws.specs.Prefixes.{IsDialledAlike, IsHomeNumber};
ghost use Rattle.phone_library_laws.specs.Announced.{IsParameterIfAny};
ghost use Rattle.phone_library_laws.specs.Coded.{IsCoded, IsLeftAlone};
ghost use Rattle.phone_library_laws.specs.Keys.{IsReadByEither};
ghost use Rattle.phone_library_laws.specs.Plain.{IsLaidInternational, IsLaidRfc3966};
ghost use Rattle.phone_library_laws.specs.Plain.{IsPlainInternational, IsPlainNational};
ghost use Rattle.phone_library_laws.specs.Plain.{IsPlainRfc3966};
ghost use Rattle.headline_examples.specs.Samples.{am_by_anexo, bare_ad, db_b, db_d, db_e};
ghost use Rattle.headline_examples.specs.Samples.{dialled_at_home, extended, number};

use phone_library_laws::again::e164_again;

/// A number of New Zealand is read again from its E.164 text, under every hint, and by both rules
/// alike: no transform rule has a plus sign, and nothing is stripped off it.
pub fn settled()
    ensures settled { IsSettled db_b (number 64 0 33316005 None) }
    ensures if_read { IsSettledIfRead db_b (number 64 0 33316005 None) }
    ensures alike { IsSettledAlike db_b (number 64 0 33316005 None) }
    ensures coded { IsCoded db_b (number 64 0 33316005 None) }
    ensures left_alone { IsLeftAlone db_b (number 64 0 33316005 None) }
    ensures no_plus { rules_have_no_plus db_b ≡ true }
{}

/// The same number is read alike by both rules where it stands behind a plus sign, where it is
/// dialled from the United States, and where it is dialled in New Zealand.
pub fn read_alike()
    ensures signed { IsReadAlike db_b None true (codes "6433316005") }
    ensures prefixed { IsReadAlike db_b (Some id.US) false (codes "0116433316005") }
    ensures own { IsReadAlike db_b (Some id.NZ) false (codes "33316005") }
{}

/// A number of Andorra, which has no national prefix, as it is dialled there.
pub fn own_number()
    ensures { IsOwnNumber db_d (Some id.AD) (codes "123456") }
{}

/// The first number as it is dialled in New Zealand, behind the national prefix; by both rules the
/// prefix is stripped.
pub fn home_number()
    ensures home { IsHomeNumber db_b (Some id.NZ) (codes "033316005") }
    ensures dialled { IsDialledAlike db_b (Some id.NZ) dialled_at_home }
{}

/// The texts of a number of New Zealand with an extension, by either rules, are read again under
/// every hint: the international one and that of RFC 3966.
pub fn printed_with_code()
    ensures international { (rules : Rules) → IsPlainInternational rules db_b extended }
    ensures laid { (rules : Rules) → IsLaidInternational rules db_b extended }
    ensures rfc3966 { (rules : Rules) → IsPlainRfc3966 rules db_b extended }
    ensures laid_rfc3966 { (rules : Rules) → IsLaidRfc3966 rules db_b extended }
    ensures parameter { IsParameterIfAny extended.extension }
{}

/// The national text of a number of Armenia, by either rules, is read again under Armenia's hint.
pub fn printed_without_code()
    ensures national { (rules : Rules) →
        IsPlainNational rules db_e am_by_anexo (number 374 0 123456 None) }
    ensures hinted { hinted db_e (Some id.AM) ≡ Some am_by_anexo }
{}

/// The national text of a number of Andorra, which has no layout, is two digits alone, and is read
/// again under Andorra's hint.
pub fn two_digits_printed()
    ensures national { (rules : Rules) →
        IsPlainNational rules db_d bare_ad (number 376 0 12 None) }
    ensures hinted { hinted db_d (Some id.AD) ≡ Some bare_ad }
{}

/// The first number, its code told by a plus sign, is read from its E.164 text: so it is one of
/// those that either rules read.
pub fn read_by_either()
    ensures { IsReadByEither db_b (e164_reading (number 64 0 33316005 None)) }
{
    e164_again();
}
