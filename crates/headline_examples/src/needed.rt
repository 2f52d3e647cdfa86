//! Numbers that a premise refuses, which shows why it is there, and which of the others take them.
ghost use Rattle.std.specs.Prelude.{◌≡◌, codes, None, Some, false};
ghost use Rattle.phone_plans.specs.CodeLookUps.{is_prefix_free, shortest};
ghost use Rattle.phone_read.specs.TransformRules.{rules_have_no_plus};
ghost use Rattle.phonenumber.specs.Plain.{IsAnnouncedSafely, IsLeftAlone, IsPlainE164};
ghost use Rattle.phonenumber.specs.Plain.{IsPlainInternational, IsPlainRfc3966};
ghost use Rattle.headline_examples.specs.Samples.{al_by_e, at_by_x, db_b, db_c, db_d, db_e, number};

/// A code that isn't listed, and national texts of one digit and of eighteen.
pub fn wrong_length()
    ensures unlisted { ¬ (IsPlainE164 db_b (number 99 0 33316005 None)) }
    ensures one_digit { ¬ (IsPlainE164 db_b (number 64 0 1 None)) }
    ensures eighteen { ¬ (IsPlainE164 db_b (number 64 17 1 None)) }
{}

/// A text of zeros alone is malformed.
pub fn value_zero()
    ensures e164 { ¬ (IsPlainE164 db_c (number 376 3 0 None)) }
    ensures rfc3966 { ¬ (IsPlainRfc3966 db_c (number 376 3 0 None)) }
    ensures international { ¬ (IsPlainInternational db_c (number 376 3 0 None)) }
    ensures idle { IsLeftAlone db_c 376 (codes "0000") }
{}

/// Two digits after the code are too few for the text of RFC 3966 alone.
pub fn two_digits()
    ensures e164 { IsPlainE164 db_c (number 376 0 12 None) }
    ensures rfc3966 { ¬ (IsPlainRfc3966 db_c (number 376 0 12 None)) }
    ensures international { IsPlainInternational db_c (number 376 0 12 None) }
    ensures idle { IsLeftAlone db_c 376 (codes "12") }
{}

/// A layout that writes `number` in place of the digits.
pub fn digits_dropped()
    ensures e164 { IsPlainE164 db_c (number 374 0 12345678 None) }
    ensures rfc3966 { ¬ (IsPlainRfc3966 db_c (number 374 0 12345678 None)) }
    ensures international { ¬ (IsPlainInternational db_c (number 374 0 12345678 None)) }
    ensures idle { IsLeftAlone db_c 374 (codes "12345678") }
{}

/// A layout that writes an `x`, which announces an extension, but in the text of RFC 3966.
pub fn announced_by_layout()
    ensures e164 { IsPlainE164 db_c (number 43 0 123456 None) }
    ensures rfc3966 { IsPlainRfc3966 db_c (number 43 0 123456 None) }
    ensures international { ¬ (IsPlainInternational db_c (number 43 0 123456 None)) }
    ensures idle { IsLeftAlone db_c 43 (codes "123456") }
{}

/// Eight digits of extension are too many for the international text alone; an extension that isn't
/// digits is refused for both texts that have one.
pub fn extensions()
    ensures eight { ¬ (IsPlainInternational db_b (number 64 0 33316005 (Some (codes "12345678")))) }
    ensures eight_rfc3966 { IsPlainRfc3966 db_b (number 64 0 33316005 (Some (codes "12345678"))) }
    ensures other { ¬ (IsPlainInternational db_b (number 64 0 33316005 (Some (codes "5#")))) }
    ensures other_rfc3966 { ¬ (IsPlainRfc3966 db_b (number 64 0 33316005 (Some (codes "5#")))) }
{}

/// A letter announces the extension, which is no indicator: `+355 123 456 e 5` has another number's
/// digits. And an `x` does, but behind a slash: `/ x` marks a second number.
pub fn announced_otherwise()
    ensures by_a_letter { ¬ (IsAnnouncedSafely al_by_e (number 355 0 123456 (Some (codes "5")))) }
    ensures by_a_letter_plain { IsPlainInternational db_e (number 355 0 123456 (Some (codes "5"))) }
    ensures by_a_letter_idle { IsLeftAlone db_e 355 (codes "123456") }
    ensures behind_a_slash { ¬ (IsAnnouncedSafely at_by_x (number 43 0 123456 (Some (codes "5")))) }
    ensures behind_a_slash_plain { IsPlainInternational db_e
        (number 43 0 123456 (Some (codes "5"))) }
    ensures behind_a_slash_idle { IsLeftAlone db_e 43 (codes "123456") }
{}

/// Codes of which one begins another, and a code of four digits: in front of the digits stands
/// another code, or none.
pub fn codes_apart()
    ensures prefix_free { is_prefix_free db_d ≡ false }
    ensures plain { IsPlainE164 db_d (number 376 0 123456 None) }
    ensures idle { IsLeftAlone db_d 376 (codes "123456") }
    ensures another { shortest db_d (codes "376123456") ≡ Some 3 }
    ensures four_digits { IsPlainE164 db_d (number 1234 0 567890 None) }
    ensures four_digits_idle { IsLeftAlone db_d 1234 (codes "567890") }
    ensures none { shortest db_d (codes "1234567890") ≡ None }
{}

/// A number that begins with the national prefix, which is stripped.
pub fn prefix_stripped()
    ensures plain { IsPlainE164 db_b (number 64 1 33316005 None) }
    ensures not_idle { ¬ (IsLeftAlone db_b 64 (codes "033316005")) }
{}

/// A transform rule with a plus sign, the one thing that `phonenumber::laws::reach` asks besides.
pub fn plus_in_rule()
    ensures { rules_have_no_plus db_c ≡ false }
{}
