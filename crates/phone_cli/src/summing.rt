//! The file of a summary, which is written whole or not at all.
ghost use Rattle.std.specs.Prelude.{◌≡◌, ◌⊎◌, ◌++◌, ◌∷◌, [], IfOk, is_some, string_bytes, true};
ghost use Rattle.serde_json.specs.Written.{compact_text};
ghost use Rattle.phone_table.specs.Objects.{summary_object};

use crate::beside::{Place, Target, Unfinished, create_beside, place_of, put_in_place};
use crate::say::{say, say_records};
use phone_commands::Customers;
use phone_device::{ByteSink, Std, write_out};
use phone_table::Summary;
use std::alloc::{AllocError, AllocGlobal, Global};
use std::fs::{self, Files};

/// The text of a summary: its JSON text, and a line feed. Refused only for memory.
fn summary_line(alloc: Global, summary: &Summary) -> Result<String, AllocError>
    ensures { IfOk result (λ s.
        string_bytes s ≡ compact_text (summary_object summary.now) ++ 10 ∷ []) }
{
    let mut text = summary.to_json(alloc)?;
    text.push('\n')?;
    Ok(text)
}

/// Writes a summary to the file of a name: to a file beside it, which takes its place once it is
/// whole. It is false where it can't be written, or there is no memory; then what was there stays,
/// unless it is no file whose bytes are kept, as a pipe.
fn write_summary<R: Files + AllocGlobal>(rt: &R, name: &str, summary: &Summary) -> bool {
    let Ok(text) = summary_line(rt.alloc(), summary) else {
        return false;
    };
    match place_of(rt, name) {
        Place::Itself => write_itself(rt, name, text.as_str()),
        Place::Beside(target) => write_beside(rt, &target, text.as_str()),
        Place::Nowhere => false,
    }
}

/// Writes a text to what is no file whose bytes are kept. It is false where that fails.
fn write_itself<R: Files>(rt: &R, name: &str, text: &str) -> bool {
    match fs::create(rt, name) {
        Ok(file) => write_out(&mut Std::new(file), text.as_bytes()).is_ok(),
        Err(_) => false,
    }
}

/// Writes a text to a file beside another one, whose place it takes. It is false where that fails.
fn write_beside<R: Files + AllocGlobal>(rt: &R, target: &Target, text: &str) -> bool {
    let Some(unfinished) = create_beside(rt, target) else {
        return false;
    };
    let Unfinished { file, name } = unfinished;
    let mut sink = Std::new(file);
    let status = match write_out(&mut sink, text.as_bytes()) {
        Ok(()) => 0,
        Err(_) => 1,
    };
    put_in_place(
        rt,
        status,
        &sink.device,
        name.as_str(),
        target.name.as_str(),
    ) && status == 0
}

/// Writes the summary of a table that was answered whole, where a file is named for it, and tells
/// its counts.
pub(crate) fn sum_up<R: Files + AllocGlobal, E: ByteSink>(
    rt: &R,
    name: Option<&str>,
    job: &Customers<'_, '_>,
    errors: &mut E,
) -> u8
    ensures { (result ≡ 0) ⊎ ((result ≡ 1) × (is_some name.entry ≡ true)) }
{
    let status = write_if_named(rt, name, &job.totals.summary, errors);
    let _told = say_records(rt.alloc(), job, errors);
    status
}

/// Tells the counts of a table that was answered whole, but has records that aren't UTF-8. Of one
/// that wasn't answered whole none are known.
pub(crate) fn say_stray_records<E: ByteSink>(
    alloc: Global,
    job: &Customers<'_, '_>,
    errors: &mut E,
) {
    if job.totals.counts.first_stray.is_some() {
        let _told = say_records(alloc, job, errors);
    }
}

/// Writes a summary where a file is named for it, or tells that it can't be written, and gives the
/// status.
fn write_if_named<R: Files + AllocGlobal, E: ByteSink>(
    rt: &R,
    name: Option<&str>,
    summary: &Summary,
    errors: &mut E,
) -> u8
    ensures { (result ≡ 0) ⊎ ((result ≡ 1) × (is_some name.entry ≡ true)) }
{
    let Some(name) = name else {
        return 0;
    };
    if write_summary(rt, name, summary) {
        0
    } else {
        say(errors, &[name, " can't be written"], 1)
    }
}
