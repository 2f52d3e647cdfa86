//! The report line of a number.
ghost use Rattle.std.specs.Prelude.{◌≡◌, ◌∷◌, ◌++◌, None, Some, Err};
ghost use Rattle.std.specs.Prelude.{IfOk, OnOk, codes, string_bytes};
ghost use Rattle.phone_engine.specs.Facts.{printed_as};
ghost use Rattle.phone_engine.specs.ReportLines.{known_words, number_line};
ghost use Rattle.phone_plans.specs.CodeLookUps.{first_of, territories};
ghost use Rattle.phone_print.specs.Tabbed.{tabbed, texts_by_rules};
ghost use Rattle.phone_records.specs.declared.loader.Metadata.{Metadata};

use crate::engine::Engine;
use crate::words::{kind_word, region_word, source_word, validity_word};
use phone_library::{push_printed_texts, without_carrier};
use phone_plans::Plans;
use phone_values::Rules;
use phonenumber::{FormatError, PhoneNumber, format_with};
use std::alloc::{AllocError, Global};

/// How many bytes a report line has room for at first: more than most take.
const ROOM: usize = 160;

/// The report line of a number. Refused by `UnknownCode` where no territory has its code, and by
/// `Memory`.
pub(crate) fn number_line(engine: Engine<'_>, number: &PhoneNumber) -> Result<String, FormatError>
    ensures line { IfOk result (λ line. (m : Metadata) ×
        (first_of (territories number.now.code.value engine.entry.database.now) ≡ Some m) ×
        (string_bytes line ≡
        number_line engine.entry.rules engine.entry.database.now m number.now)) }
    ensures unknown { result ≡ Err FormatError.UnknownCode →
        first_of (territories number.now.code.value engine.entry.database.now) ≡ None }
{
    let Ok(mut line) = first_field(engine.database.allocator()) else {
        return Err(FormatError::Memory);
    };
    push_number(&mut line, engine, number)?;
    Ok(line)
}

/// The first field of a number's line, with room for what follows it. Refused only for memory.
fn first_field(alloc: Global) -> Result<String, AllocError>
    ensures { IfOk result (λ line. string_bytes line ≡ codes "ok") }
{
    let mut line = String::with_capacity(alloc, ROOM)?;
    line.push_str("ok")?;
    Ok(line)
}

/// Puts the other fields behind a line, each after one tab. Refused by `UnknownCode` where no
/// territory has the number's code, and by `Memory`.
fn push_number(
    line: &mut String,
    engine: Engine<'_>,
    number: &PhoneNumber,
) -> Result<(), FormatError>
    ensures fields { OnOk result ((m : Metadata) ×
        (first_of (territories number.now.code.value engine.entry.database.now) ≡ Some m) ×
        (string_bytes line.new ≡ (string_bytes line.old ++
        9 ∷ texts_by_rules engine.entry.rules m None (printed_as engine.entry.rules number.now)) ++
        9 ∷ tabbed (known_words engine.entry.rules engine.entry.database.now number.now))) }
    ensures unknown { result ≡ Err FormatError.UnknownCode →
        first_of (territories number.now.code.value engine.entry.database.now) ≡ None }
{
    push_printed(line, engine, number)?;
    match push_known(line, engine, number) {
        Ok(()) => Ok(()),
        Err(_) => Err(FormatError::Memory),
    }
}

/// Puts the texts of a number behind a line as the engine's rules print it, each after one tab.
/// Refused by `UnknownCode` where no territory has the number's code, and by `Memory`.
fn push_printed(
    line: &mut String,
    engine: Engine<'_>,
    number: &PhoneNumber,
) -> Result<(), FormatError>
    ensures texts { OnOk result ((m : Metadata) ×
        (first_of (territories number.now.code.value engine.entry.database.now) ≡ Some m) ×
        (string_bytes line.new ≡ string_bytes line.old ++
        9 ∷ texts_by_rules engine.entry.rules m None (printed_as engine.entry.rules number.now))) }
    ensures unknown { result ≡ Err FormatError.UnknownCode →
        first_of (territories number.now.code.value engine.entry.database.now) ≡ None }
{
    match engine.rules {
        Rules::Library => push_without_carrier(line, engine.database, number),
        Rules::Crate => push_texts(line, engine.database, number),
    }
}

/// Puts the texts of a number without its carrier behind a line, as libphonenumber prints it. A
/// number that has none is printed as it is.
fn push_without_carrier(
    line: &mut String,
    database: &Plans,
    number: &PhoneNumber,
) -> Result<(), FormatError>
    ensures texts { OnOk result ((m : Metadata) ×
        (first_of (territories number.now.code.value database.now) ≡ Some m) ×
        (string_bytes line.new ≡ string_bytes line.old ++
        9 ∷ texts_by_rules Rules.Library m None (printed_as Rules.Library number.now))) }
    ensures unknown { result ≡ Err FormatError.UnknownCode →
        first_of (territories number.now.code.value database.now) ≡ None }
{
    if number.carrier().is_none() {
        return push_printed_texts(line, database, number);
    }
    match without_carrier(number) {
        Ok(bare) => push_printed_texts(line, database, &bare),
        Err(_) => Err(FormatError::Memory),
    }
}

/// Puts the texts of a number as it is behind a line, as the crate prints it.
fn push_texts(line: &mut String, database: &Plans, number: &PhoneNumber) -> Result<(), FormatError>
    ensures texts { OnOk result ((m : Metadata) ×
        (first_of (territories number.now.code.value database.now) ≡ Some m) ×
        (string_bytes line.new ≡ string_bytes line.old ++
        9 ∷ texts_by_rules Rules.Crate m None number.now)) }
    ensures unknown { result ≡ Err FormatError.UnknownCode →
        first_of (territories number.now.code.value database.now) ≡ None }
{
    format_with(database, number).push_texts(line)
}

/// Puts what is known of a number behind a line, each word after one tab. Refused only for memory.
fn push_known(line: &mut String, engine: Engine<'_>, number: &PhoneNumber) -> Result<(), AllocError>
    ensures { OnOk result (string_bytes line.new ≡ string_bytes line.old ++
        9 ∷ tabbed (known_words engine.entry.rules engine.entry.database.now number.now)) }
{
    let facts = engine.facts(number)?;
    push_word(line, source_word(number.code().source()))?;
    push_word(line, kind_word(facts.kind))?;
    push_word(line, region_word(facts.region))?;
    push_word(line, validity_word(facts.is_valid))
}

/// Puts a tab and a word behind a line. Refused only for memory.
fn push_word(line: &mut String, word: &str) -> Result<(), AllocError>
    ensures { OnOk result (string_bytes line.new ≡ string_bytes line.old ++ 9 ∷ word.now) }
{
    line.push('\t')?;
    line.push_str(word)
}
