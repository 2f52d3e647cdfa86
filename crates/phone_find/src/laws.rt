//! What holds of the numbers of a text. The contracts of these functions are the statements; the
//! functions do nothing, but for those that run the readers to show that each text has an answer.
ghost use Rattle.std.specs.Prelude.{◌≡◌, ◌<◌, ◌≤◌, ◌+◌, ◌++◌, ◌∷◌, [], ℕ, List, Option, None};
ghost use Rattle.std.specs.Prelude.{Some, IsUtf8, chars, length, true};
ghost use Rattle.phone_values.specs.declared.country.Id.{Id};
ghost use Rattle.phone_values.specs.declared.mode.Mode.TheVariants as mode;
ghost use Rattle.phonenumber.specs.Bounds.{IsBounded};
ghost use Rattle.phonenumber.specs.Printed.{printed};
ghost use Rattle.phone_values.specs.declared.reading.Reading.{Reading};
ghost use Rattle.phone_records.specs.declared.loader.Metadata as loader;
ghost use Rattle.phone_library_laws.specs.Again.{IsSettled, e164_reading};
ghost use Rattle.phone_print.specs.Texts.{e164_text};
ghost use Rattle.phonenumber.specs.RoundTrips.{IsSame};
ghost use Rattle.phonenumber.specs.Plain.{IsPlainInternational};
ghost use Rattle.phone_find.specs.Alone.{EndsInDigits, IsAmong, IsNothingElse, IsPlainEnough};
ghost use Rattle.phone_find.specs.Alone.{IsShaped, placed};
ghost use Rattle.phone_find.specs.Founds.{IsDecided, IsOrdered, most_bytes};
ghost use Rattle.phone_find.specs.Leniencies.{suffices};
ghost use Rattle.phone_find.specs.Numbers.{AreNumbers, IsNumberAt, IsNumberBetween};
ghost use Rattle.phone_find.specs.Shapes.{has_few_digits};
ghost use Rattle.phone_find.specs.declared.leniency.Leniency.{Leniency};
ghost use Rattle.phone_find.specs.declared.search.Found.{Found};
ghost use Rattle.phone_values.specs.declared.rules.Rules.{Rules};
ghost use Rattle.phone_values.specs.declared.rules.Rules.TheVariants as rules;

use phone_engine::laws::some_reading;
use phone_library_laws::again::e164_again;

/// A text has one answer: what is found in it, rules, database, hint and leniency determine.
pub fn one_answer()
    ensures { (rules : Rules) (db : List loader.Metadata) (hint : Option Id) (l : Leniency)
        (text : List ℕ) (all others : List (Found Reading)) → AreNumbers rules db hint l text all →
        AreNumbers rules db hint l text others → all ≡ others }
{}

/// For each text there is an answer that `find_numbers_with` may give, by either rules, under each
/// database, hint and leniency. The pieces of the text are read, since that each of them has a
/// reading is what the readers show; no memory is asked for.
pub fn some_numbers(text: &str)
    ensures { (rules : Rules) (db : List loader.Metadata) (hint : Option Id) (l : Leniency) →
        (all : List (Found Reading)) × AreNumbers rules db hint l text.now all }
{
    for start in 0..text.len() {
        some_pieces_at(text, start);
    }
}

/// From this place to each one a number stands, or none does.
fn some_pieces_at(text: &str, start: usize)
    ensures { (rules : Rules) (db : List loader.Metadata) (hint : Option Id) (l : Leniency)
        (end : ℕ) → end < length text.now →
        IsDecided (IsNumberAt rules db hint l text.now) text.now start (end + 1) }
{
    for end in 0..text.len() {
        some_piece(text, start, end + 1);
    }
}

/// From one place to another a number stands, or none does.
fn some_piece(text: &str, start: usize, end: usize)
    ensures { (rules : Rules) (db : List loader.Metadata) (hint : Option Id) (l : Leniency) →
        IsDecided (IsNumberAt rules db hint l text.now) text.now start end }
{
    if start < end
        && end - start <= 250
        && text.is_char_boundary(start)
        && text.is_char_boundary(end)
    {
        some_reading(&text[start..end]);
    }
}

/// What is found comes in its order, doesn't overlap, and stands on borders of characters.
pub fn in_order()
    ensures { (rules : Rules) (db : List loader.Metadata) (hint : Option Id) (l : Leniency)
        (text : List ℕ) (all : List (Found Reading)) → AreNumbers rules db hint l text all →
        IsOrdered text 0 all }
{}

/// A number is found, at its place, and alone, where no piece begins in the text before it and the
/// text behind it has neither digit nor number sign, whatever rules, database, hint and leniency.
pub fn found_alone()
    ensures { (rules : Rules) (db : List loader.Metadata) (hint : Option Id) (l : Leniency)
        (before piece after : List ℕ) (n : Reading) (all : List (Found Reading)) →
        IsAmong before piece after → length piece ≤ most_bytes →
        IsNumberBetween rules db hint l before piece after n →
        AreNumbers rules db hint l (before ++ (piece ++ after)) all →
        all ≡ placed before piece n ∷ [] }
{}

/// By the rules of the crate a plain number that suffices, as a valid one does, and whose digits
/// stripping leaves alone, printed in international form between two spaces, is found without a
/// hint, at its place, and alone: with its code, its national number and its extension. Before the
/// spaces no piece begins, as where there is no digit, plus sign and opening bracket; after them is
/// neither digit nor number sign. The printed text may be a number by its characters and what
/// follows, which makes no price of it, say.
///
/// The bounds, and that a text is UTF-8, every `PhoneNumber` and every `String` keeps.
pub fn printed_is_found()
    ensures { (db : List loader.Metadata) (l : Leniency) (n : Reading) (before text after : List ℕ)
        (all : List (Found Reading)) → IsBounded n → IsPlainEnough db l n →
        printed db mode.International None n ≡ Some text → IsShaped text after →
        IsAmong before text after →
        AreNumbers rules.Crate db None l ((before ++ 32 ∷ []) ++ (text ++ 32 ∷ after)) all →
        (m : Reading) × IsSame n n.extension m × (all ≡ placed (before ++ 32 ∷ []) text m ∷ []) }
{}

/// The international text of a plain number may be a number so if it has at most 250 bytes and few
/// digits, the laid-out number ends in a digit, there is no extension, or one of digits that
/// ` ext. ` announces, and it is taken for nothing else: its brackets stand as they may in a
/// number, no date stands in it, and what follows makes no longer number, price or time of it.
pub fn plain_is_shaped()
    ensures { (db : List loader.Metadata) (n : Reading) (text after : List ℕ) → IsBounded n →
        IsUtf8 text → (plain : IsPlainInternational db n) → EndsInDigits plain.territory n →
        printed db mode.International None n ≡ Some text → length text ≤ most_bytes →
        has_few_digits (chars text) ≡ true → IsNothingElse (chars text) (32 ∷ chars after) →
        IsShaped text after }
{}

/// By the rules of libphonenumber the E.164 text of a number that suffices, between two spaces, is
/// found under any hint, at its place, and alone: as the number without extension and carrier, its
/// code told by the plus sign. The number is settled: its code is listed and has at most three
/// digits, no listed code begins another, its national number has 2 to 17 digits, and the code's
/// first territory strips nothing off them. Before the spaces no piece begins; after them is
/// neither digit nor number sign, and the text is taken for nothing else.
pub fn e164_is_found()
    ensures { (db : List loader.Metadata) (hint : Option Id) (l : Leniency) (n : Reading)
        (before after : List ℕ) (all : List (Found Reading)) → IsSettled db n →
        suffices rules.Library db l n ≡ true →
        IsNothingElse (chars (e164_text n)) (32 ∷ chars after) →
        IsAmong before (e164_text n) after →
        AreNumbers rules.Library db hint l
        ((before ++ 32 ∷ []) ++ (e164_text n ++ 32 ∷ after)) all →
        all ≡ placed (before ++ 32 ∷ []) (e164_text n) (e164_reading n) ∷ [] }
{
    e164_again();
}
