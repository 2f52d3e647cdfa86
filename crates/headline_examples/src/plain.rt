//! Numbers that the premises take.
ghost use Rattle.std.specs.Prelude.{◌≡◌, ◌∷◌, [], codes, None, Some, true};
ghost use Rattle.phone_print.specs.Layouts.{layout_for};
ghost use Rattle.phone_values.specs.declared.mode.Mode.TheVariants as mode;
ghost use Rattle.phonenumber.specs.Thin.{IsThinDatabase, is_thin};
ghost use Rattle.phonenumber.specs.Plain.{IsAnnouncedByWord};
ghost use Rattle.phonenumber.specs.Plain.{IsAnnouncedSafely, IsLeftAlone, IsPlainE164};
ghost use Rattle.phonenumber.specs.Plain.{IsPlainInternational, IsPlainRfc3966};
ghost use Rattle.headline_examples.specs.Samples.{ad, ad_by_x, am_by_anexo, bare_ad, db_b, db_c};
ghost use Rattle.headline_examples.specs.Samples.{db_e, number, us};

/// A number of New Zealand without an extension.
pub fn without_extension()
    ensures e164 { IsPlainE164 db_b (number 64 0 33316005 None) }
    ensures rfc3966 { IsPlainRfc3966 db_b (number 64 0 33316005 None) }
    ensures international { IsPlainInternational db_b (number 64 0 33316005 None) }
    ensures idle { IsLeftAlone db_b 64 (codes "33316005") }
{}

/// A number of the United States with an empty extension.
pub fn with_empty_extension()
    ensures e164 { IsPlainE164 db_b (number 1 0 6502530000 (Some [])) }
    ensures rfc3966 { IsPlainRfc3966 db_b (number 1 0 6502530000 (Some [])) }
    ensures international { IsPlainInternational db_b (number 1 0 6502530000 (Some [])) }
    ensures benign { IsAnnouncedSafely us (number 1 0 6502530000 (Some [])) }
    ensures idle { IsLeftAlone db_b 1 (codes "6502530000") }
{}

/// A number of Andorra with an extension.
pub fn with_extension()
    ensures e164 { IsPlainE164 db_c (number 376 0 123456 (Some (codes "5"))) }
    ensures rfc3966 { IsPlainRfc3966 db_c (number 376 0 123456 (Some (codes "5"))) }
    ensures international { IsPlainInternational db_c (number 376 0 123456 (Some (codes "5"))) }
    ensures benign { IsAnnouncedSafely ad (number 376 0 123456 (Some (codes "5"))) }
    ensures idle { IsLeftAlone db_c 376 (codes "123456") }
{}

/// A number of Andorra whose extension is announced by an `x`, which is there or empty.
pub fn announced_by_x()
    ensures international { IsPlainInternational db_e (number 376 0 123456 (Some (codes "5"))) }
    ensures benign { IsAnnouncedSafely ad_by_x (number 376 0 123456 (Some (codes "5"))) }
    ensures empty { IsPlainInternational db_e (number 376 0 123456 (Some [])) }
    ensures empty_benign { IsAnnouncedSafely ad_by_x (number 376 0 123456 (Some [])) }
    ensures idle { IsLeftAlone db_e 376 (codes "123456") }
{}

/// A number of Armenia whose extension is announced by `anexo`, which is there or empty.
pub fn announced_by_anexo()
    ensures international { IsPlainInternational db_e (number 374 0 123456 (Some (codes "12"))) }
    ensures benign { IsAnnouncedSafely am_by_anexo (number 374 0 123456 (Some (codes "12"))) }
    ensures empty { IsPlainInternational db_e (number 374 0 123456 (Some [])) }
    ensures empty_benign { IsAnnouncedSafely am_by_anexo (number 374 0 123456 (Some [])) }
    ensures idle { IsLeftAlone db_e 374 (codes "123456") }
    ensures by_word { IsAnnouncedByWord am_by_anexo (number 374 0 123456 (Some (codes "12"))) }
{}

/// A number of Andorra, for which it has no layout, and a text as short as that of digits and a
/// hyphen, under a database as small as Andorra's alone.
pub fn without_layout()
    ensures plain { IsPlainE164 (bare_ad ∷ []) (number 376 0 123456 None) }
    ensures layout { layout_for bare_ad mode.International None (codes "123456") ≡ None }
    ensures thin { IsThinDatabase (bare_ad ∷ []) }
    ensures text { is_thin (codes "123-456") ≡ true }
{}
