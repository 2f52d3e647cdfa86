//! The file that is written, and whether a call reads it too.
ghost use Rattle.std.specs.Prelude.{◌≡◌, IsNone, IsSome, Some, false, is_some, true};
ghost use Rattle.std.specs.List.{list_any};
ghost use Rattle.std.specs.Str.{bytes_eq};
ghost use Rattle.phone_cli.specs.Operands.{IsApart, input_names, named_files, names_read};
ghost use Rattle.phone_cli.specs.Operands.{names_taken};
ghost use Rattle.phone_words.specs.Calls.{further_files};

use crate::tool::Reading;
use phone_commands::is_standard;
use phone_words::{Call, Further};
use std::fs::{self, Files};
use std::os::unix::fs::MetadataExt;
use std::path::Path;

/// The name under which the system has standard input.
const STANDARD_INPUT: &str = "/dev/stdin";

/// Where a file of a name lies: its device, and its number there. None where there is no such file,
/// where it isn't one whose bytes are kept, and where the system doesn't tell.
fn place_of<R: Files>(rt: &R, name: &str) -> Option<(u64, u64)> {
    match fs::metadata(rt, name) {
        Ok(metadata) if metadata.is_file() && metadata.ino() > 0 => {
            Some((metadata.dev(), metadata.ino()))
        }
        _ => None,
    }
}

/// Where a file of a name is going to lie that isn't there yet: the device of its folder, the
/// folder's number there, and its name in that. None where something has the name, where there is
/// no such folder, and where the system doesn't tell.
fn place_to_be<'n, R: Files>(rt: &R, name: &'n str) -> Option<(u64, u64, &'n str)> {
    if fs::symlink_metadata(rt, name).is_ok() {
        return None;
    }
    let path = Path::new(name);
    let file = path.file_name()?;
    let folder = match path.parent()?.as_str() {
        "" => ".",
        folder => folder,
    };
    match fs::metadata(rt, folder) {
        Ok(metadata) if metadata.ino() > 0 => Some((metadata.dev(), metadata.ino(), file)),
        _ => None,
    }
}

/// The file that is to be written.
#[derive(Clone, Copy)]
struct Written<'n> {
    /// Its name.
    name: &'n str,
    /// Where it lies, if it is there already.
    place: Option<(u64, u64)>,
    /// Where it is going to lie, if it isn't.
    to_be: Option<(u64, u64, &'n str)>,
}

/// The file that is to be written under a name.
fn written_under<'n, R: Files>(rt: &R, name: &'n str) -> Written<'n>
    ensures { result.name ≡ name.entry }
{
    Written {
        name,
        place: place_of(rt, name),
        to_be: place_to_be(rt, name),
    }
}

/// Whether two files that aren't there yet are going to lie in one place.
fn is_one_place(one: Option<(u64, u64, &str)>, other: Option<(u64, u64, &str)>) -> bool {
    match (one, other) {
        (Some((dev, ino, name)), Some((other_dev, other_ino, other_name))) => {
            dev == other_dev && ino == other_ino && name == other_name
        }
        _ => false,
    }
}

/// Whether a name is that of the file that is to be written, or is another name of it, as `./f` and
/// a link are of `f`, whether or not the file is there yet.
fn is_written<R: Files>(rt: &R, written: Written<'_>, name: &str) -> bool
    ensures { result ≡ false → bytes_eq written.entry.name.now name.now ≡ false }
{
    if name == written.name {
        return true;
    }
    match written.place {
        Some(_) => place_of(rt, name) == written.place,
        None => is_one_place(place_to_be(rt, name), written.to_be),
    }
}

/// Whether one of some files is the one that is to be written.
fn is_any_written<R: Files>(rt: &R, written: Written<'_>, names: &[Option<&str>]) -> bool
    ensures { result ≡ false →
        list_any (bytes_eq written.entry.name.now) (named_files names.now) ≡ false }
{
    for name in names {
        if let Some(name) = *name {
            if is_written(rt, written, name) {
                return true;
            }
        }
    }
    false
}

/// Whether the file that is to be written is one of the input's. Standard input is, where it comes
/// from that file.
fn is_input<R: Files>(rt: &R, written: Written<'_>, files: &[&str]) -> bool
    ensures { result ≡ false →
        list_any (bytes_eq written.entry.name.now) (input_names files.now) ≡ false }
{
    for name in files {
        let name = if is_standard(name) {
            STANDARD_INPUT
        } else {
            *name
        };
        if is_written(rt, written, name) {
            return true;
        }
    }
    files.is_empty() && is_written(rt, written, STANDARD_INPUT)
}

/// Whether further columns are told by the file that is to be written.
fn is_of_columns<R: Files>(rt: &R, written: Written<'_>, further: Further<'_>) -> bool
    ensures { result ≡ false → list_any (bytes_eq written.entry.name.now)
        (named_files (further_files further.entry)) ≡ false }
{
    is_any_written(rt, written, &further.files())
}

/// Whether the file of a name is read, under that name or another one, so that it can't be written
/// as well.
pub(crate) fn is_read<R: Files>(rt: &R, reading: Reading<'_, '_>, name: &str) -> bool
    ensures { result ≡ false → list_any (bytes_eq name.now)
        (names_read reading.entry.call.now reading.entry.path reading.entry.files.now) ≡ false }
{
    let written = written_under(rt, name);
    let call = reading.call;
    let tables = [
        Some(reading.path),
        call.short_database,
        call.alternates,
        call.table.countries,
    ];
    is_input(rt, written, reading.files)
        || is_any_written(rt, written, &tables)
        || is_of_columns(rt, written, call.table.further)
}

/// Whether the file of a name is read or written by a call with a table, under that name or another
/// one, so that the summary can't be written there.
fn is_taken<R: Files>(rt: &R, call: &Call<'_>, files: &[&str], name: &str) -> bool
    ensures { result ≡ false →
        list_any (bytes_eq name.now) (names_taken call.now files.now) ≡ false }
{
    let written = written_under(rt, name);
    let tables = [
        call.database,
        call.short_database,
        call.alternates,
        call.table.countries,
        call.output,
    ];
    is_input(rt, written, files)
        || is_any_written(rt, written, &tables)
        || is_of_columns(rt, written, call.table.further)
}

/// A name, where its file is read or written by such a call.
fn name_taken<'w, R: Files>(
    rt: &R,
    call: &Call<'_>,
    files: &[&str],
    name: &'w str,
) -> Option<&'w str>
    ensures { IsNone result →
        list_any (bytes_eq name.now) (names_taken call.now files.now) ≡ false }
{
    if is_taken(rt, call, files, name) {
        Some(name)
    } else {
        None
    }
}

/// The name of the file of the summary, where that is read or written as well.
pub(crate) fn taken_summary<'w, R: Files>(rt: &R, reading: Reading<'_, 'w>) -> Option<&'w str>
    ensures apart { IsNone result → IsApart reading.entry.call.now reading.entry.files.now }
    ensures named { IsSome result → is_some reading.entry.call.now.table.summary ≡ true }
{
    match reading.call.table.summary {
        Some(name) => name_taken(rt, reading.call, reading.files, name),
        None => None,
    }
}
