//! The words of values that calls tell by their numbers, as texts and in a buffer.
ghost use Rattle.std.specs.Prelude.{◌≡◌, ◌⊎◌, ◌↔◌, ◌==◌, ℕ, List, None, Some};
ghost use Rattle.std.specs.Borrow.{Bor};
ghost use Rattle.std.specs.List.{find};
ghost use Rattle.std.specs.Option.{option_copied};
ghost use Rattle.phone_c_base.specs.Buffers.{IsTooLongA, IsWrittenA};
ghost use Rattle.phone_c_base.specs.Words.{rows_of, status_words, word_in, word_of};

use crate::buffer::give;
use crate::status::{NO_WORD, OK, TOO_SMALL};

/// The words of kinds.
const KIND_WORDS: [(u32, &str); 17] = [
    (0, "FixedLine"),
    (1, "Mobile"),
    (2, "FixedLineOrMobile"),
    (3, "TollFree"),
    (4, "PremiumRate"),
    (5, "SharedCost"),
    (6, "PersonalNumber"),
    (7, "Voip"),
    (8, "Pager"),
    (9, "Uan"),
    (10, "Emergency"),
    (11, "Voicemail"),
    (12, "ShortCode"),
    (13, "StandardRate"),
    (14, "Carrier"),
    (15, "NoInternational"),
    (16, "Unknown"),
];

/// The words of the ways in which a calling code was found.
const SOURCE_WORDS: [(u32, &str); 4] = [(0, "plus"), (1, "idd"), (2, "number"), (3, "default")];

/// The words of what a length says.
const POSSIBILITY_WORDS: [(u32, &str); 6] = [
    (0, "possible"),
    (1, "possible-locally"),
    (2, "too-short"),
    (3, "too-long"),
    (4, "wrong-length"),
    (5, "unknown-code"),
];

/// The words of how like two numbers are.
const SAMENESS_WORDS: [(u32, &str); 5] = [
    (0, "exact"),
    (1, "number"),
    (2, "national"),
    (3, "end"),
    (4, "different"),
];

/// The words of costs.
const COST_WORDS: [(u32, &str); 4] = [
    (0, "TOLL_FREE"),
    (1, "STANDARD_RATE"),
    (2, "PREMIUM_RATE"),
    (3, "UNKNOWN_COST"),
];

/// The words of the statuses: those from 1 to 6 are the words of the refusals of a text, and those
/// from 8 to 12 say why bytes are no database.
const STATUS_WORDS: [(u32, &str); 34] = [
    (0, "done"),
    (1, "not a number"),
    (2, "invalid country code"),
    (3, "the number is too short after IDD"),
    (4, "the number is too short after the country code"),
    (5, "the number is too long"),
    (6, "malformed integer part in phone number"),
    (7, "out of memory"),
    (8, "a record lacks a value that it must have"),
    (9, "a record has a key that it may not have"),
    (10, "malformed JSON"),
    (11, "a value is of the wrong kind"),
    (12, "a text is no pattern"),
    (16, "closed"),
    (17, "the buffer is too short for the answer"),
    (18, "not UTF-8"),
    (19, "unknown region"),
    (20, "unknown calling code"),
    (21, "the plain numbers are no phone number"),
    (22, "unknown mode"),
    (24, "unknown rules"),
    (25, "the line is empty"),
    (26, "the line has no tab"),
    (27, "the prefix isn't 1 to 15 digits"),
    (28, "the text isn't UTF-8"),
    (29, "the prefix stands in an earlier line"),
    (30, "no prefix begins the digits"),
    (31, "unknown kind"),
    (32, "the table has no example"),
    (33, "no value has the number"),
    (34, "the table has no territory of the region"),
    (35, "unknown leniency"),
    (36, "unknown column"),
    (37, "the texts or hints are laid out as no column"),
];

/// The first row of a table that has this number.
fn row_of<'r>(rows: &'r [(u32, &'static str)], value: u32) -> Option<&'r (u32, &'static str)>
    ensures { option_copied result ≡
        find (λ (row : ℕ × Bor (List ℕ)). row.0 == value) rows.now }
{
    rows.iter().find(|row| row.0 == value)
}

/// The word in the first row of a table that has this number; none where no row has it.
#[tactic(auto, using(crate::proofs::FoundRows::found_rows))]
fn word_in(rows: &[(u32, &'static str)], value: u32) -> Option<&'static str>
    ensures { option_copied result ≡ word_in (rows_of rows.now) value }
{
    match row_of(rows, value) {
        Some(row) => Some(row.1),
        None => None,
    }
}

/// The word of a value of a set: of kinds, 0; of the ways in which a calling code was found, 1; of
/// what a length says, 2; of how like two numbers are, 3; of costs, 4.
#[tactic(auto, unfolding(crate::specs::Words::word_of))]
pub fn word_of(set: u32, value: u32) -> Option<&'static str>
    ensures { option_copied result ≡ word_of set value }
{
    match set {
        0 => word_in(&KIND_WORDS, value),
        1 => word_in(&SOURCE_WORDS, value),
        2 => word_in(&POSSIBILITY_WORDS, value),
        3 => word_in(&SAMENESS_WORDS, value),
        4 => word_in(&COST_WORDS, value),
        _ => None,
    }
}

/// The words of a status.
#[tactic(auto, unfolding(crate::specs::Words::status_words))]
pub fn status_words_of(status: u32) -> Option<&'static str>
    ensures { option_copied result ≡ status_words status }
{
    word_in(&STATUS_WORDS, status)
}

/// The word of a value of a set, in a buffer.
pub fn word(set: u32, value: u32, out: &mut [u8], wrote: &mut usize) -> u32
    ensures written { result ≡ OK →
        IsWrittenA (λ text. word_of set value ≡ Some text) out.old out.new wrote.new }
    ensures too_small { result ≡ TOO_SMALL →
        IsTooLongA (λ text. word_of set value ≡ Some text) out.old out.new wrote.new }
    ensures none { (result ≡ NO_WORD) ↔ (word_of set value ≡ None) }
    ensures status { (result ≡ OK) ⊎ (result ≡ TOO_SMALL) ⊎ (result ≡ NO_WORD) }
    ensures untouched { ¬ (result ≡ OK) → out.new ≡ out.old }
    ensures no_length { result ≡ NO_WORD → wrote.new ≡ 0 }
{
    *wrote = 0;
    match word_of(set, value) {
        Some(text) => give(text.as_bytes(), out, wrote),
        None => NO_WORD,
    }
}

/// The words of a status, in a buffer.
pub fn words(status: u32, out: &mut [u8], wrote: &mut usize) -> u32
    ensures written { result ≡ OK →
        IsWrittenA (λ text. status_words status ≡ Some text) out.old out.new wrote.new }
    ensures too_small { result ≡ TOO_SMALL →
        IsTooLongA (λ text. status_words status ≡ Some text) out.old out.new wrote.new }
    ensures none { (result ≡ NO_WORD) ↔ (status_words status ≡ None) }
    ensures status { (result ≡ OK) ⊎ (result ≡ TOO_SMALL) ⊎ (result ≡ NO_WORD) }
    ensures untouched { ¬ (result ≡ OK) → out.new ≡ out.old }
    ensures no_length { result ≡ NO_WORD → wrote.new ≡ 0 }
{
    *wrote = 0;
    match status_words_of(status) {
        Some(text) => give(text.as_bytes(), out, wrote),
        None => NO_WORD,
    }
}
