//! How a table is read and written.
ghost use Rattle.std.specs.Prelude.{◌≡◌};
ghost use Rattle.phone_csv.specs.Formats.{format_after, line_end_in, state_behind, state_of};

use crate::cutter::Start;
use crate::machine::Place;

/// What stands behind each record that is written.
#[derive(Clone, Copy, PartialEq, Eq, Debug)]
pub enum LineEnd {
    /// A line feed.
    Feed,
    /// A carriage return and a line feed.
    ReturnFeed,
}

/// How a table is read and written.
#[derive(Clone, Copy, PartialEq, Eq, Debug)]
pub struct Format {
    /// The byte between fields.
    pub delimiter: u8,
    /// What stands behind each record that is written. Read are carriage returns, line feeds and
    /// both together.
    pub line_end: LineEnd,
}

/// The format of a table whose records go on there behind the first one: they are written with
/// carriage returns and line feeds where a carriage return ended the first one, else with line
/// feeds.
pub fn format_after(delimiter: u8, rest: Option<Start>) -> Format
    ensures { result ≡ format_after delimiter (state_behind rest) }
{
    let line_end = match rest {
        Some(start) => line_end_at(start.place),
        None => LineEnd::Feed,
    };
    Format {
        delimiter,
        line_end,
    }
}

/// What stands behind the records of a table whose first record ended at this place.
fn line_end_at(place: Place) -> LineEnd
    ensures { result ≡ line_end_in (state_of place) }
{
    match place {
        Place::AfterReturn => LineEnd::ReturnFeed,
        Place::StartRecord
        | Place::StartField
        | Place::InField
        | Place::InQuoted
        | Place::AfterQuote => LineEnd::Feed,
    }
}
