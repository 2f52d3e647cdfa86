//! What columns tell of a line, as members of its object.
ghost use Rattle.std.specs.Prelude.{◌≡◌, ℕ, IfOk, List};
ghost use Rattle.serde_json.specs.Data.{put, string};
ghost use Rattle.serde_json.specs.View.{members_view};
ghost use Rattle.phone_csv.specs.Formats.{Record};
ghost use Rattle.phone_answers.specs.Extras.{AreTold, IsTold};
ghost use Rattle.phone_answers.specs.Objects.{with_told};
ghost use Rattle.phone_answers.specs.Spelled.{IsKnownIn, number_in};

use crate::extra::{Extra, Subject, told_by};
use crate::objects::{Members, with_text};
use phone_engine::Engine;
use serde_json::{Map, Value};

/// These members, and what a column tells of a field, by its heading. Refused only for memory.
fn with_column(
    members: Map<String, Value>,
    engine: Engine<'_>,
    column: &Extra<'_>,
    subject: Subject<'_>,
) -> Members
    requires { IsKnownIn engine.rules engine.database.now subject.answer.now }
    ensures { IfOk result (λ m. (text : List ℕ) × IsTold engine.entry.rules
        engine.entry.database.now subject.entry.under subject.entry.field.now
        (number_in subject.entry.answer.now) column.now text × (members_view m.entries ≡
        put column.now.heading.now (string text) (members_view members.entries))) }
{
    let text = told_by(engine, column, subject)?;
    let alloc = engine.database.allocator();
    with_text(Ok(members), alloc, column.heading, text.as_str())
}

/// These members, and what columns tell of a field, each by its heading. Refused only for memory.
pub(crate) fn with_told(
    members: Map<String, Value>,
    engine: Engine<'_>,
    extra: &[Extra<'_>],
    subject: Subject<'_>,
) -> Members
    requires { IsKnownIn engine.rules engine.database.now subject.answer.now }
    ensures { IfOk result (λ m. (told : Record) × AreTold engine.entry.rules
        engine.entry.database.now subject.entry.under subject.entry.field.now
        (number_in subject.entry.answer.now) extra.now told × (members_view m.entries ≡
        with_told extra.now told (members_view members.entries))) }
{
    let mut members = members;
    'columns: for column in extra {
        members = with_column(members, engine, column, subject)?;
    }
    Ok(members)
}
