//! What holds of all that is shown.
ghost use Rattle.std.specs.Prelude.{◌≡◌, ◌-◌, ◌∷◌, ◌++◌, ◌||◌, [], ℕ, List, Option, None, Some};
ghost use Rattle.std.specs.Prelude.{◌≤◌, filter, length, take, true, Result};
ghost use Rattle.std.specs.Fmt.{decimal};
ghost use Rattle.std.specs.List.{list_all};
ghost use Rattle.phone_chars.specs.Characters.{is_digit};
ghost use Rattle.phone_values.specs.declared.country.Id.{Id};
ghost use Rattle.phone_values.specs.Numbers.{text_of};
ghost use Rattle.phone_values.specs.declared.error.ParseError.{ParseError};
ghost use Rattle.phone_values.specs.declared.mode.Mode.TheVariants as mode;
ghost use Rattle.phone_values.specs.declared.reading.Reading.{Reading};
ghost use Rattle.phone_library_text.specs.Written.{IsWritten, most_characters};
ghost use Rattle.phone_library_text.specs.declared.written.WrittenNumber.{WrittenNumber};
ghost use Rattle.phone_print.specs.Texts.{e164_text, international_text, national_text};
ghost use Rattle.phone_read.specs.Strips.{step};
ghost use Rattle.phone_records.specs.declared.loader.Metadata as loader;
ghost use Rattle.phone_typed.specs.Beginnings.{IsBegun};
ghost use Rattle.phone_typed.specs.Keys.{is_key, is_mark, key_of, keys_in, up_to_key, with_key};
ghost use Rattle.phone_typed.specs.Keys.{with_keys};
ghost use Rattle.phone_typed.specs.Printed.{IsPlainAbroad, IsPlainAtHome, national_keys};
ghost use Rattle.phone_typed.specs.Typed.{typed};

/// No digit is lost or made: what is shown is the keys in their order, and between them nothing but
/// marks: spaces, round brackets, hyphens and full stops.
pub fn no_key_is_lost()
    ensures keys { (db : List loader.Metadata) (hint : Option Id) (text : List ℕ) →
        filter is_key (typed db hint (keys_in text)) ≡ keys_in text }
    ensures marks { (db : List loader.Metadata) (hint : Option Id) (text : List ℕ) →
        list_all (λ c. is_key c || is_mark c) (typed db hint (keys_in text)) ≡ true }
{}

/// Steps don't matter: characters typed one after the other give the keys that the text of them
/// gives at once.
pub fn steps_give_the_same()
    ensures one { (text : List ℕ) (c : ℕ) → keys_in (text ++ c ∷ []) ≡ with_key (keys_in text) c }
    ensures all { (text more : List ℕ) → keys_in (text ++ more) ≡ with_keys (keys_in text) more }
{}

/// A key that is typed and taken away again leaves the keys as they were.
pub fn back_undoes_push()
    ensures { (keys : List ℕ) (c k : ℕ) → key_of keys c ≡ Some k →
        take (length (with_key keys c) - 1) (with_key keys c) ≡ keys }
{}

/// The last text is the printed one: of a plain number that is typed as its E.164 text, the
/// international text.
pub fn last_is_international()
    ensures { (db : List loader.Metadata) (hint : Option Id) (m : loader.Metadata) (n : Reading) →
        IsPlainAbroad db m n → typed db hint (e164_text n) ≡ international_text m None n }
{}

/// The last text is the printed one: of a plain number that is typed as the digits of its national
/// text, the prefix among them, the national text.
pub fn last_is_national()
    ensures { (db : List loader.Metadata) (hint : Option Id) (m : loader.Metadata) (n : Reading) →
        IsPlainAtHome db hint m n →
        typed db hint (national_keys m n) ≡ national_text m None n }
{}

/// A beginning is shown as it stands in the last text, up to the last key: of a plain number that
/// is typed as its E.164 text, where the layout that prints the number serves the beginning too and
/// parts the digits of both alike, the front of the international text.
pub fn beginning_is_international()
    ensures { (db : List loader.Metadata) (hint : Option Id) (m : loader.Metadata) (n : Reading)
        (front rest : List ℕ) → IsPlainAbroad db m n → text_of n.national ≡ front ++ rest →
        IsBegun m mode.International n front front →
        typed db hint (43 ∷ (decimal n.code.value ++ front)) ≡
        up_to_key (length (43 ∷ (decimal n.code.value ++ front)))
        (international_text m None n) }
{}

/// The same of a plain number that is typed as the digits of its national text: the front of the
/// national text. The territory's rules leave digits of the beginning.
pub fn beginning_is_national()
    ensures { (db : List loader.Metadata) (hint : Option Id) (m : loader.Metadata) (n : Reading)
        (keys rest : List ℕ) → IsPlainAtHome db hint m n → national_keys m n ≡ keys ++ rest →
        list_all is_digit (step m keys None).national ≡ true →
        IsBegun m mode.National n (step m keys None).national keys →
        typed db hint keys ≡ up_to_key (length keys) (national_text m None n) }
{}

/// Every beginning is written as the keys are, by libphonenumber's rules: of three digits or more,
/// with a plus sign before them or without, what is shown has the same sign and digits, and no
/// extension. It has at most 250 characters.
pub fn shown_is_written_as_keys()
    ensures signed { (db : List loader.Metadata) (hint : Option Id) (digits : List ℕ) →
        list_all is_digit digits ≡ true → 3 ≤ length digits →
        length (typed db hint (43 ∷ digits)) ≤ most_characters →
        (r : Result WrittenNumber ParseError) → IsWritten (43 ∷ digits) r →
        IsWritten (typed db hint (43 ∷ digits)) r }
    ensures unsigned { (db : List loader.Metadata) (hint : Option Id) (digits : List ℕ) →
        list_all is_digit digits ≡ true → 3 ≤ length digits →
        length (typed db hint digits) ≤ most_characters →
        (r : Result WrittenNumber ParseError) → IsWritten digits r →
        IsWritten (typed db hint digits) r }
{}
