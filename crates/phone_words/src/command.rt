//! What options ask for.
ghost use Rattle.std.specs.Prelude.{◌≡◌};
ghost use Rattle.phone_words.specs.Calls.{command_of, form_in, found_command, line_command};
ghost use Rattle.phone_words.specs.Calls.{other_command};
ghost use Rattle.phone_words.specs.Parts.{all_said};

use crate::options::{has, lacks, value};
use crate::parts::Part;
use crate::values::{Form, form_named};

/// What is asked for.
#[derive(Clone, Copy, PartialEq, Eq, Debug)]
pub enum Command {
    /// How the program is called.
    Help,
    /// The version of the program and of the table.
    Version,
    /// The ids that name a region.
    Regions,
    /// The report line of each line.
    Report,
    /// The report line of each line, with the line.
    ReportWithInput,
    /// The first line of each number.
    Unique,
    /// A JSON object for each line.
    Objects,
    /// The valid numbers that stand in a text.
    Find,
    /// A JSON object for each of them.
    FoundObjects,
    /// A record of a table for each of them.
    FoundRecords,
    /// What is shown after each key of a number that is typed, a line for each line.
    Typed,
    /// What is known of each line as a short number.
    Short,
    /// The text of each line's number in a format.
    Written(Form),
    /// A table of customers with what is known of their numbers.
    Table,
}

/// What is asked for of the numbers in a text.
fn found_command(parts: &[Part<'_>]) -> Command
    ensures { result ≡ found_command (all_said parts.now) }
{
    if has(parts, "--json") {
        return Command::FoundObjects;
    }
    if has(parts, "--csv") {
        return Command::FoundRecords;
    }
    Command::Find
}

/// The format that is named, where one is.
fn form_in(parts: &[Part<'_>]) -> Option<Form>
    ensures { result ≡ form_in (all_said parts.now) }
{
    match value(parts, "--format") {
        Some(name) => form_named(name),
        None => None,
    }
}

/// What is asked for of lines.
fn line_command(parts: &[Part<'_>]) -> Command
    ensures { result ≡ line_command (all_said parts.now) }
{
    match form_in(parts) {
        Some(form) => Command::Written(form),
        None => other_command(parts),
    }
}

/// What else is asked for of lines.
fn other_command(parts: &[Part<'_>]) -> Command
    ensures { result ≡ other_command (all_said parts.now) }
{
    if has(parts, "--typed") {
        return Command::Typed;
    }
    if has(parts, "--short") {
        return Command::Short;
    }
    if has(parts, "--find") {
        return found_command(parts);
    }
    if has(parts, "--json") {
        return Command::Objects;
    }
    if has(parts, "--unique") {
        return Command::Unique;
    }
    if has(parts, "--with-input") {
        return Command::ReportWithInput;
    }
    Command::Report
}

/// What is asked for: help before the version, that before the regions, these before what reads
/// numbers; of that a table, where its column is named, or else lines.
pub(crate) fn command_of(parts: &[Part<'_>]) -> Command
    ensures { result ≡ command_of (all_said parts.now) }
{
    if has(parts, "--help") {
        return Command::Help;
    }
    if has(parts, "--version") {
        return Command::Version;
    }
    if has(parts, "--regions") {
        return Command::Regions;
    }
    if lacks(parts, "--csv") {
        return line_command(parts);
    }
    Command::Table
}
