//! The region and the files that a call names.
ghost use Rattle.std.specs.Prelude.{◌≡◌, ℕ, IfSome, IsNone, Some, slice_get};
ghost use Rattle.phone_cli.specs.Operands.{region_and_files};
ghost use Rattle.phone_cli.specs.Streams.{IsSomeTold};
ghost use Rattle.phone_commands.specs.Inputs.{IsStandard, Name};

use crate::say::say;
use phone_commands::is_standard;
use phone_device::ByteSink;
use phone_table::id_in;
use phonenumber::country::Id;
use std::fs::{self, Files};

/// The region and the files that operands name: the first one is a region's id, in capital or small
/// letters, or a file.
pub(crate) fn hint_and_files<'l, 'w>(operands: &'l [&'w str]) -> (Option<Id>, &'l [&'w str])
    ensures { (result.0, result.1.now) ≡ region_and_files operands.now }
{
    match operands {
        [first, rest @ ..] => match id_in(first) {
            Some(id) => (Some(id), rest),
            None => (None, operands),
        },
        [] => (None, operands),
    }
}

/// Whether a name may be meant as a region's: it has two or three bytes.
fn is_like_region(name: &str) -> bool {
    name.len() == 2 || name.len() == 3
}

/// What is wrong with the file of a name: that it isn't there, or is a folder.
#[derive(Clone, Copy, PartialEq, Eq, Debug)]
enum Wrong {
    Absent,
    Folder,
}

/// What is wrong with the file of a name, where anything is.
fn wrong_file<R: Files>(rt: &R, name: &str) -> Option<Wrong>
    ensures { IfSome result (λ _. ¬ (IsStandard name.entry)) }
{
    if is_standard(name) {
        return None;
    }
    match fs::metadata(rt, name) {
        Ok(metadata) if metadata.is_dir() => Some(Wrong::Folder),
        Ok(_) => None,
        Err(_) => Some(Wrong::Absent),
    }
}

/// Tells of the first file that isn't there or is a folder, and gives the status; none where all
/// are there. Where there is no region, the first name may be meant as one.
pub(crate) fn say_missing<R: Files, E: ByteSink>(
    rt: &R,
    hint: Option<Id>,
    files: &[&str],
    errors: &mut E,
) -> Option<u8>
    ensures status { IfSome result (λ status. status ≡ 2) }
    ensures absent { IfSome result (λ _. (name : Name) × (at : ℕ) ×
        (slice_get files.now at ≡ Some name) × ¬ (IsStandard name)) }
    ensures told { IfSome result (λ _. IsSomeTold (E.taken errors.old) (E.faults errors.old)
        (E.taken errors.new) (E.faults errors.new)) }
    ensures silent { IsNone result → errors.new ≡ errors.old }
{
    let mut is_first = hint.is_none();
    for name in files {
        let name = *name;
        match wrong_file(rt, name) {
            Some(Wrong::Folder) => return Some(say(errors, &[name, " is a folder"], 2)),
            Some(Wrong::Absent) if is_first && is_like_region(name) => {
                let more = ", nor is there such a file; --regions lists the ids";
                return Some(say(errors, &["unknown region ", name, more], 2));
            }
            Some(Wrong::Absent) => return Some(say(errors, &["there is no file ", name], 2)),
            None => {}
        }
        is_first = false;
    }
    None
}
