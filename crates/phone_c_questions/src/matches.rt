//! How like numbers and texts are, by whose rules.
ghost use Rattle.std.specs.Prelude.{◌≡◌, ◌⊎◌, ◌↔◌, IsUtf8};
ghost use Rattle.phone_c_base.specs.Numbers.{AreNoNumber};
ghost use Rattle.phone_c_questions.specs.Matches.{AreLike, AreLikeTexts, IsLikeText};
ghost use Rattle.phone_c_questions.specs.Matches.{match_number};

use phone_c_base::number::{Number, to_phone_number};
use phone_c_base::status::{BAD_NUMBER, MEMORY, NOT_UTF8, OK};
use phone_further::{Likeness, match_text, match_texts};
use phone_plans::Plans;
use phone_questions::NumberMatch;
use phonenumber::PhoneNumber;
use std::alloc::Global;

/// How like two numbers are, by its number.
fn match_number(found: NumberMatch) -> u32
    ensures { result ≡ match_number found }
{
    match found {
        NumberMatch::NotANumber => 0,
        NumberMatch::NoMatch => 1,
        NumberMatch::ShortNsnMatch => 2,
        NumberMatch::NsnMatch => 3,
        NumberMatch::ExactMatch => 4,
    }
}

/// Tells how like two numbers are, by its number.
fn tell<L: Likeness>(
    likeness: &L,
    alloc: Global,
    first: &PhoneNumber,
    second: &PhoneNumber,
    told: &mut u32,
) -> u32
    ensures told { result ≡ OK →
        told.new ≡ match_number (L.like likeness.now first.now second.now) }
    ensures status { (result ≡ OK) ⊎ (result ≡ MEMORY) }
    ensures untouched { ¬ (result ≡ OK) → told.new ≡ told.old }
{
    match likeness.match_numbers(alloc, first, second) {
        Ok(found) => {
            *told = match_number(found);
            OK
        }
        Err(_) => MEMORY,
    }
}

/// How like two numbers are that are given as plain numbers.
pub fn numbers<L: Likeness>(
    likeness: &L,
    alloc: Global,
    first: &Number,
    first_bytes: &[u8],
    second: &Number,
    second_bytes: &[u8],
    told: &mut u32,
) -> u32
    ensures told { result ≡ OK → AreLike (L.like likeness.now) first.now first_bytes.now
        second.now second_bytes.now told.new }
    ensures bad { (result ≡ BAD_NUMBER) ↔ (AreNoNumber first.now first_bytes.now ⊎
        AreNoNumber second.now second_bytes.now) }
    ensures other { ¬ (result ≡ OK) → ¬ (result ≡ BAD_NUMBER) → result ≡ MEMORY }
    ensures untouched { ¬ (result ≡ OK) → told.new ≡ told.old }
{
    let first = to_phone_number(alloc, first, first_bytes);
    let second = to_phone_number(alloc, second, second_bytes);
    match (first, second) {
        (Ok(first), Ok(second)) => tell(likeness, alloc, &first, &second, told),
        (Ok(_), Err(status)) => status,
        (Err(status), Ok(_)) => status,
        (Err(status), Err(other)) => either_bad(status, other),
    }
}

/// Of two statuses that one which says that there is no number.
fn either_bad(status: u32, other: u32) -> u32
    ensures bad { (result ≡ BAD_NUMBER) ↔ ((status ≡ BAD_NUMBER) ⊎ (other ≡ BAD_NUMBER)) }
    ensures one { (result ≡ status) ⊎ (result ≡ other) }
{
    if status == BAD_NUMBER { status } else { other }
}

/// How like a number that is given as plain numbers and a text are.
pub fn text<L: Likeness>(
    likeness: &L,
    database: &Plans,
    number: &Number,
    bytes: &[u8],
    text: &[u8],
    told: &mut u32,
) -> u32
    ensures told { result ≡ OK →
        IsLikeText (L.like likeness.now) (L.guessed likeness.now) database.now number.now
        bytes.now text.now told.new }
    ensures not_utf8 { (result ≡ NOT_UTF8) ↔ ¬ (IsUtf8 text.now) }
    ensures bad { (result ≡ BAD_NUMBER) ↔
        (IsUtf8 text.now × AreNoNumber number.now bytes.now) }
    ensures other { ¬ (result ≡ OK) → ¬ (result ≡ NOT_UTF8) → ¬ (result ≡ BAD_NUMBER) →
        result ≡ MEMORY }
    ensures untouched { ¬ (result ≡ OK) → told.new ≡ told.old }
{
    let Ok(text) = std::str::from_utf8(text) else {
        return NOT_UTF8;
    };
    let number = match to_phone_number(database.allocator(), number, bytes) {
        Ok(number) => number,
        Err(status) => return status,
    };
    match match_text(likeness, database, &number, text) {
        Ok(found) => {
            *told = match_number(found);
            OK
        }
        Err(_) => MEMORY,
    }
}

/// How like two texts are.
pub fn texts<L: Likeness>(
    likeness: &L,
    database: &Plans,
    first: &[u8],
    second: &[u8],
    told: &mut u32,
) -> u32
    ensures told { result ≡ OK → AreLikeTexts (L.like likeness.now) (L.guessed likeness.now)
        database.now first.now second.now told.new }
    ensures not_utf8 { (result ≡ NOT_UTF8) ↔ ¬ (IsUtf8 first.now × IsUtf8 second.now) }
    ensures other { ¬ (result ≡ OK) → ¬ (result ≡ NOT_UTF8) → result ≡ MEMORY }
    ensures untouched { ¬ (result ≡ OK) → told.new ≡ told.old }
{
    let Ok(first) = std::str::from_utf8(first) else {
        return NOT_UTF8;
    };
    let Ok(second) = std::str::from_utf8(second) else {
        return NOT_UTF8;
    };
    match match_texts(likeness, database, first, second) {
        Ok(found) => {
            *told = match_number(found);
            OK
        }
        Err(_) => MEMORY,
    }
}
