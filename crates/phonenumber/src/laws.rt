//! What holds of the definitions of this crate, and of its values. All but `hashes` do nothing;
//! their contracts are the statements.
ghost use Rattle.std.specs.Prelude.{◌≡◌, ◌⊎◌, ◌↔◌, ◌≤◌, ◌||◌, ◌==◌, ◌++◌, ◌∷◌, ℕ, List, Option};
ghost use Rattle.std.specs.Prelude.{None, Some, Result, Ok, IsUtf8, chars, fold, length, true, not};
ghost use Rattle.std.specs.Hash.DefaultHasher as sip;
ghost use Rattle.std.specs.List.{list_all};
ghost use Rattle.phone_chars.specs.Characters.{is_separator};
ghost use Rattle.phone_values.specs.Numbers.{IsHeld, text_of};
ghost use Rattle.phone_values.specs.declared.country.Id.{Id};
ghost use Rattle.phone_values.specs.declared.error.ParseError.{ParseError};
ghost use Rattle.phone_values.specs.declared.mode.Mode.TheVariants as mode;
ghost use Rattle.phone_plans.specs.CodeLookUps.{is_listed, is_prefix_free};
ghost use Rattle.phone_records.specs.declared.loader.Metadata as loader;
ghost use Rattle.phone_read.specs.Readings.{Reads};
ghost use Rattle.phone_read.specs.TransformRules.{rules_have_no_plus};
ghost use Rattle.phone_values.specs.declared.reading.Reading.{Reading};
ghost use Rattle.phonenumber.specs.RoundTrips.{IsReadAs};
ghost use Rattle.phone_print.specs.Layouts.{layout_for};
ghost use Rattle.phonenumber.specs.Bounds.{IsBounded};
ghost use Rattle.phonenumber.specs.Plain.{IsAnnouncedByWord, IsAnnouncedSafely, IsLeftAlone};
ghost use Rattle.phonenumber.specs.Plain.{IsPlainE164, IsPlainInternational, IsPlainRfc3966};
ghost use Rattle.phone_print.specs.Texts.{e164_text, hyphenated};
ghost use Rattle.phonenumber.specs.Printed.{printed};
ghost use Rattle.phonenumber.specs.Thin.{IsThinDatabase, ThinReads, is_thin};

use crate::PhoneNumber;
use phone_values::equality;
use std::hash::Hash;

/// What a thin text is read as under a thin database is what it is read as: the short definition
/// and the whole one agree.
pub fn thin_readings()
    ensures { (db : List loader.Metadata) (hint : Option Id) (text : List ℕ)
        (r : Result Reading ParseError) → IsThinDatabase db → is_thin text ≡ true →
        (ThinReads db hint text r ↔ Reads db hint text r) }
{}

/// The E.164 text is a key: numbers whose codes are listed have one E.164 text only where they have
/// one calling code and one national number, if no listed code begins another. Source, extension
/// and carrier play no part. Every `NationalNumber` is held: it has at most 255 zeros and a value
/// below 2^56.
pub fn key()
    ensures { (db : List loader.Metadata) (a b : Reading) → is_prefix_free db ≡ true →
        is_listed a.code.value db ≡ true → is_listed b.code.value db ≡ true → IsHeld a.national →
        IsHeld b.national → e164_text a ≡ e164_text b → (a.code.value ≡ b.code.value) ×
        (a.national ≡ b.national) }
{}

/// The E.164 text of a plain number whose digits stripping leaves alone is read without a hint as
/// its code and its national number, with no extension. The code has at most three digits, and no
/// listed code's text begins another's: the code is found in the text.
///
/// Here and below: the bounds, and that a text is UTF-8, every `PhoneNumber` and every `String`
/// keeps; [`again`](crate::round_trip) asks for neither.
pub fn e164_back()
    ensures { (db : List loader.Metadata) (n : Reading) (text : List ℕ) → IsBounded n →
        IsPlainE164 db n → IsLeftAlone db n.code.value (text_of n.national) → 1 ≤ n.code.value →
        n.code.value ≤ 999 → is_prefix_free db ≡ true → printed db mode.E164 None n ≡ Some text →
        IsReadAs db (chars text) n None }
{}

/// The RFC 3966 text of a plain number whose digits stripping leaves alone is read without a hint
/// as its code, its national number and its extension; the code may be any listed one, as the text
/// says where it ends.
pub fn rfc3966_back()
    ensures { (db : List loader.Metadata) (n : Reading) (text : List ℕ) → IsBounded n →
        IsPlainRfc3966 db n → IsLeftAlone db n.code.value (text_of n.national) →
        printed db mode.Rfc3966 None n ≡ Some text → IsReadAs db (chars text) n n.extension }
{}

/// The international text of a plain number whose digits stripping leaves alone is read without a
/// hint as its code, its national number and its extension. The code is found as in the E.164 text.
/// Where there is an extension, the code's first territory has no preferred extension prefix, so
/// that ` ext. ` announces it; or that prefix is ` ext. `, ` ext `, ` ext: `, ` extn. `, ` anexo `,
/// ` int ` or ` x`, and the laid-out text ends in an ASCII digit.
pub fn international_back()
    ensures { (db : List loader.Metadata) (n : Reading) (text : List ℕ) → IsBounded n →
        IsUtf8 text → (plain : IsPlainInternational db n) →
        IsLeftAlone db n.code.value (text_of n.national) → 1 ≤ n.code.value → n.code.value ≤ 999 →
        is_prefix_free db ≡ true → (n.extension ≡ None) ⊎ IsAnnouncedSafely plain.territory n →
        printed db mode.International None n ≡ Some text → IsReadAs db (chars text) n n.extension }
{}

/// The same for each preferred extension prefix that announces by a word, as those seven do, and
/// ` Anexo ` and ` int. ` besides, where the laid-out text ends in an ASCII digit. Taiwan's `#`
/// can't be among them: behind `1234`, the ` 5678#` of an extension without digits is an extension
/// itself, of spaces or hyphens, one to five digits and a number sign. That the prefix is UTF-8
/// every text of a record keeps.
pub fn announced_back()
    ensures { (db : List loader.Metadata) (n : Reading) (text : List ℕ) → IsBounded n →
        IsUtf8 text → (plain : IsPlainInternational db n) →
        IsLeftAlone db n.code.value (text_of n.national) →
        1 ≤ n.code.value → n.code.value ≤ 999 → is_prefix_free db ≡ true →
        IsAnnouncedByWord plain.territory n →
        printed db mode.International None n ≡ Some text → IsReadAs db (chars text) n n.extension }
{}

/// How far reading back reaches. Where no transform rule has a plus sign, a plain number is read
/// back from its text exactly where stripping leaves its digits alone, and each number that was
/// read, under any hint, is plain for the E.164 text. A number that is plain for the E.164 text,
/// has no extension and no layout is plain for the international text too and, with three digits,
/// for that of RFC 3966.
pub fn reach()
    ensures e164_exactly { (db : List loader.Metadata) (n : Reading) (text : List ℕ) → IsBounded n →
        IsPlainE164 db n → rules_have_no_plus db ≡ true → 1 ≤ n.code.value → n.code.value ≤ 999 →
        is_prefix_free db ≡ true → printed db mode.E164 None n ≡ Some text →
        (IsReadAs db (chars text) n None ↔ IsLeftAlone db n.code.value (text_of n.national)) }
    ensures rfc3966_exactly { (db : List loader.Metadata) (n : Reading) (text : List ℕ) →
        IsBounded n → IsPlainRfc3966 db n → rules_have_no_plus db ≡ true →
        printed db mode.Rfc3966 None n ≡ Some text →
        (IsReadAs db (chars text) n n.extension ↔
        IsLeftAlone db n.code.value (text_of n.national)) }
    ensures international_exactly { (db : List loader.Metadata) (n : Reading) (text : List ℕ) →
        IsBounded n → IsUtf8 text → (plain : IsPlainInternational db n) →
        rules_have_no_plus db ≡ true → 1 ≤ n.code.value → n.code.value ≤ 999 →
        is_prefix_free db ≡ true → (n.extension ≡ None) ⊎ IsAnnouncedSafely plain.territory n →
        printed db mode.International None n ≡ Some text →
        (IsReadAs db (chars text) n n.extension ↔
        IsLeftAlone db n.code.value (text_of n.national)) }
    ensures what_is_read { (db : List loader.Metadata) (hint : Option Id) (text : List ℕ)
        (n : Reading) → rules_have_no_plus db ≡ true → Reads db hint text (Ok n) →
        IsPlainE164 db n }
    ensures international_without_layout { (db : List loader.Metadata) (n : Reading) → IsBounded n →
        (plain : IsPlainE164 db n) → n.extension ≡ None →
        layout_for plain.0 mode.International None (text_of n.national) ≡ None →
        IsPlainInternational db n }
    ensures rfc3966_without_layout { (db : List loader.Metadata) (n : Reading) → IsBounded n →
        (plain : IsPlainE164 db n) → n.extension ≡ None →
        layout_for plain.0 mode.International None (text_of n.national) ≡ None →
        3 ≤ length (text_of n.national) → IsPlainRfc3966 db n }
{}

/// Whatever characters a number is laid out with, in the text of RFC 3966 the part between the
/// hyphen after the code and the extension has no separator but the hyphen, and never two hyphens
/// side by side.
pub fn rfc3966_hyphens()
    ensures alone { (laid : List ℕ) →
        list_all (λ c. not (is_separator c) || (c == 45)) (hyphenated laid) ≡ true }
    ensures apart { (laid before after : List ℕ) → ¬ (hyphenated laid ≡ before ++ 45 ∷ 45 ∷ after) }
{}

/// The hashes of two phone numbers by std's hasher, each its own: equal where the numbers are,
/// source and carrier included.
pub fn hashes(a: &PhoneNumber, b: &PhoneNumber) -> (u64, u64)
    ensures first { result.0 ≡ sip.finish
        (fold sip.write sip.initial (⟦<PhoneNumber as Hash>⟧.hash_input a.now)) }
    ensures second { result.1 ≡ sip.finish
        (fold sip.write sip.initial (⟦<PhoneNumber as Hash>⟧.hash_input b.now)) }
    ensures alike { a.now ≡ b.now → result.0 ≡ result.1 }
{
    equality::hashes(a, b)
}
