//! A hint that C gives by its bytes.
ghost use Rattle.std.specs.Prelude.{◌≡◌, ◌==◌, [], get_or, map};
ghost use Rattle.std.specs.List.{position};
ghost use Rattle.phone_values.specs.Ids.{id_of};
ghost use Rattle.phone_values.specs.declared.country.Id.TheVariants as id;
ghost use Rattle.phone_c_base.specs.Hints.{hint_of, place_behind, place_of};

use phone_values::country::{ALL, Id};

/// The second letters of the ids that begin with each letter, from A on, in the order of `ALL`.
const SECOND_LETTERS: [&str; 26] = [
    "CDEFGILMORSTUWXZ",
    "ABDEFGHIJLMNOQRSTWYZ",
    "ACDFGHIKLMNORUVWXYZ",
    "EJKMOZ",
    "CEGHRST",
    "IJKMOR",
    "ABDEFGHILMNPQRTUWY",
    "KNRTU",
    "DELMNOQRST",
    "EMOP",
    "EGHIMNPRWYZ",
    "ABCIKRSTUVY",
    "ACDEFGHKLMNOPQRSTUVWXYZ",
    "ACEFGILOPRUZ",
    "M",
    "AEFGHKLMRSTWY",
    "A",
    "EOSUW",
    "ABCDEGHIJKLMNORSTVXYZ",
    "ACDGHJKLMNORTVWZ",
    "AGSYZ",
    "ACEGINU",
    "FS",
    "K",
    "ET",
    "AMW",
];

/// Where in `ALL` the ids begin that begin with each letter.
const STARTS: [u8; 26] = [
    0, 16, 36, 55, 61, 68, 74, 92, 97, 107, 111, 122, 133, 156, 168, 169, 182, 183, 188, 209, 225,
    230, 237, 239, 240, 242,
];

/// The hint that bytes are: none where there is no byte, else the region whose id they are.
pub fn hint_of(bytes: &[u8]) -> Option<Option<Id>>
    ensures { result ≡ hint_of bytes.now }
{
    if bytes.is_empty() {
        return Some(None);
    }
    match id_of(bytes) {
        Some(id) => Some(Some(id)),
        None => None,
    }
}

/// The region whose id bytes are: the only id that stands where theirs would, if it is theirs.
pub fn id_of(bytes: &[u8]) -> Option<Id>
    ensures { result ≡ id_of bytes.now }
{
    let id = id_at(&ALL, place_of(bytes));
    if id.as_str().as_bytes() == bytes {
        Some(id)
    } else {
        None
    }
}

/// Where in `ALL` the id stands that bytes are; of bytes that are none, some place.
fn place_of(bytes: &[u8]) -> usize
    ensures { result ≡ place_of bytes.now }
{
    let Some((first, behind)) = bytes.split_first() else {
        return 0;
    };
    let Some((second, _)) = behind.split_first() else {
        return 0;
    };
    let row = usize::from(first.saturating_sub(b'A'));
    let letters = letters_at(&SECOND_LETTERS, row);
    place_behind(start_at(&STARTS, row), letters.as_bytes(), *second)
}

/// A place as far behind the start of a row as a letter stands in the row; the start where it
/// doesn't.
fn place_behind(start: u8, letters: &[u8], letter: u8) -> usize
    ensures { result ≡ place_behind start letters.now letter }
{
    match position_of(letter, letters) {
        Some(at) => usize::from(start) + at,
        None => usize::from(start),
    }
}

/// Where a letter stands among others; none where it doesn't.
fn position_of(letter: u8, letters: &[u8]) -> Option<usize>
    ensures { result ≡ position (λ l. l == letter) letters.now }
{
    letters.iter().position(|l| *l == letter)
}

/// The id at this place of a list; `AC` past its end.
fn id_at(ids: &[Id], at: usize) -> Id
    ensures { result ≡ get_or ids.now at id.AC }
{
    match ids.get(at) {
        Some(id) => *id,
        None => Id::AC,
    }
}

/// The number at this place of a list; 0 past its end.
fn start_at(starts: &[u8], at: usize) -> u8
    ensures { result ≡ get_or starts.now at 0 }
{
    match starts.get(at) {
        Some(start) => *start,
        None => 0,
    }
}

/// The text at this place of a list; the empty one past its end.
fn letters_at(letters: &[&'static str], at: usize) -> &'static str
    ensures { result.now ≡ get_or (map (λ l. l.now) letters.now) at [] }
{
    match letters.get(at) {
        Some(letters) => letters,
        None => "",
    }
}
