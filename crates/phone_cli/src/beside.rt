//! The file that is written beside another one, whose place it takes once it is whole.
ghost use Rattle.std.specs.Prelude.{◌≡◌, false};

use std::alloc::{AllocError, AllocGlobal, Global};
use std::fs::{self, File, Files, Metadata, OpenFile, OpenOptions, Permissions};
use std::io::ErrorKind;

/// How many names are tried for a file that is written beside another one.
const MOST_NAMES: u32 = 100;

/// Where the output goes that a name tells.
#[derive(Drop)]
pub(crate) enum Place {
    /// There: it is no file whose bytes are kept, as a pipe and `/dev/null`.
    Itself,
    /// Beside this file, whose place it takes then.
    Beside(Target),
    /// Nowhere: the file can't be written, or there is no memory for its name.
    Nowhere,
}

/// A file whose place another one takes.
#[derive(Drop)]
pub(crate) struct Target {
    /// Its name, which is that of no link.
    pub name: String,
    /// Who may read and write it, where it is there.
    permissions: Option<Permissions>,
}

/// Where the output goes that is to be in a file of this name. A link stays: what it leads to is
/// the file.
pub(crate) fn place_of<R: Files + AllocGlobal>(rt: &R, name: &str) -> Place {
    match fs::metadata(rt, name) {
        Ok(metadata) if metadata.is_file() => place_of_file(rt, name, metadata),
        Ok(_) => Place::Itself,
        Err(_) => place_of_none(rt, name),
    }
}

/// The same for a file that is there.
fn place_of_file<R: Files + AllocGlobal>(rt: &R, name: &str, metadata: Metadata) -> Place {
    if OpenOptions::new().write(true).open(rt, name).is_err() {
        return Place::Nowhere;
    }
    match fs::canonicalize(rt, name) {
        Ok(path) => Place::Beside(Target {
            name: path.into_string(),
            permissions: Some(metadata.permissions()),
        }),
        Err(_) => Place::Itself,
    }
}

/// The same for one that isn't there, or is a link to one that isn't.
fn place_of_none<R: Files + AllocGlobal>(rt: &R, name: &str) -> Place {
    if fs::symlink_metadata(rt, name).is_ok() {
        return Place::Itself;
    }
    match String::from_str(rt.alloc(), name) {
        Ok(name) => Place::Beside(Target {
            name,
            permissions: None,
        }),
        Err(_) => Place::Nowhere,
    }
}

/// A file that is written beside another one.
#[derive(Drop)]
pub(crate) struct Unfinished<F> {
    /// The file.
    pub file: F,
    /// Its name: that of the other one, `.new-` and a number.
    pub name: String,
}

/// Makes a file beside another one, for the same users, under the first number that no file has.
/// None where none can be made there.
pub(crate) fn create_beside<R: Files + AllocGlobal>(
    rt: &R,
    target: &Target,
) -> Option<Unfinished<R::File>> {
    for number in 1..=MOST_NAMES {
        let name = unfinished_name(rt.alloc(), target.name.as_str(), number).ok()?;
        match File::create_new(rt, name.as_str()) {
            Ok(file) => return Some(for_same_users(Unfinished { file, name }, target)),
            Err(error) if error.kind() == ErrorKind::AlreadyExists => {}
            Err(_) => return None,
        }
    }
    None
}

/// The same file, for those who may read and write the other one. That this can't be set changes
/// nothing.
fn for_same_users<F: OpenFile>(unfinished: Unfinished<F>, target: &Target) -> Unfinished<F> {
    let Some(permissions) = &target.permissions else {
        return unfinished;
    };
    if let Ok(permissions) = permissions.clone() {
        let _set = unfinished.file.set_permissions(permissions);
    }
    unfinished
}

/// The name of a file that is written beside another one. Refused only for memory.
fn unfinished_name(alloc: Global, name: &str, number: u32) -> Result<String, AllocError> {
    format!(in alloc; "{name}.new-{number}")
}

/// Puts a file in the place of the one that it was written beside, where the run ended well, and
/// else removes it. It is false where it can't be put there.
pub(crate) fn put_in_place<R: Files, F: OpenFile>(
    rt: &R,
    status: u8,
    file: &F,
    unfinished: &str,
    name: &str,
) -> bool
    ensures { result ≡ false → status ≡ 0 }
{
    if status == 0 && file.sync_all().is_ok() && fs::rename(rt, unfinished, name).is_ok() {
        return true;
    }
    let _removed = fs::remove_file(rt, unfinished);
    status != 0
}
