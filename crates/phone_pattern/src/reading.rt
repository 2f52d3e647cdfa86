//! What a pattern's text is read as.
ghost use Rattle.std.specs.Prelude.{◌≡◌, IfOk, map, option_map, string_bytes};
ghost use Rattle.std.specs.Str.{chars};
ghost use Rattle.phone_pattern.specs.First.{verbose};
ghost use Rattle.phone_pattern.specs.Outlines.{IsReadAs};
ghost use Rattle.phone_plain.specs.Plain.{IsPlain};
ghost use Rattle.regex_hir.specs.Meaning.{meaning};
ghost use Rattle.regex_syntax.specs.Verdict.{Reads};

use crate::size;
use crate::under_x::UnderX;
use phone_automaton::narrow_classes;
use phone_base::LoadMetadata;
use phone_plain::{PlainPattern, plain};
use regex_hir::Hir;
use regex_syntax::{Config, ErrorKind, Parsed};
use std::alloc::Global;

/// Why a text isn't read.
#[derive(Clone, Copy)]
pub(crate) enum Unread {
    /// It is no pattern, or compiles to more than 10 MiB.
    Refused,
    /// Memory was refused.
    Memory,
}

/// What a text is read as.
#[derive(Drop)]
pub(crate) struct ReadPattern {
    /// The tree by which it matches texts of ASCII.
    pub(crate) hir: Hir,
    /// How many groups there are, the match itself included.
    pub(crate) groups: usize,
}

/// Flag x: white space and `#` comments in a pattern don't count.
fn under_x() -> Config
    ensures { result ≡ verbose }
{
    let mut config = Config::default();
    config.flags.ignore_whitespace = true;
    config
}

/// What the kit's parser reads a text as.
pub(crate) fn parse(alloc: Global, pattern: &str) -> Result<Parsed, Unread>
    ensures { IfOk result (λ p. Reads verbose pattern.now p.hir
        (map (option_map string_bytes) p.names.items)) }
{
    match regex_syntax::parse(alloc, pattern, &under_x()) {
        Ok(parsed) => Ok(parsed),
        Err(error) => Err(reason(error.kind)),
    }
}

/// Why a text isn't read, by the error of its reader.
fn reason(kind: ErrorKind) -> Unread {
    if kind == ErrorKind::OutOfMemory {
        Unread::Memory
    } else {
        Unread::Refused
    }
}

/// Looks whether a text compiles, where it could compile to more than 10 MiB.
fn try_compiled(alloc: Global, pattern: &str, may_be_too_large: bool) -> Result<(), Unread> {
    if !may_be_too_large {
        return Ok(());
    }
    match UnderX::of(alloc, pattern) {
        Ok(_) => Ok(()),
        Err(LoadMetadata::Regex(_)) => Err(Unread::Refused),
        Err(_) => Err(Unread::Memory),
    }
}

/// What a text is read as: in one pass where it is plain, else by the kit's parser. One that could
/// compile to more than 10 MiB is compiled, to know whether it does.
pub(crate) fn read(alloc: Global, pattern: &str) -> Result<ReadPattern, Unread>
    ensures { IfOk result (λ r. IsReadAs pattern.now (meaning r.hir) r.groups) }
{
    match plain(alloc, pattern) {
        Ok(Some(found)) => of_plain(alloc, pattern, found),
        Ok(None) => of_other(alloc, pattern),
        Err(_) => Err(Unread::Memory),
    }
}

/// That of a plain text.
fn of_plain(alloc: Global, pattern: &str, found: PlainPattern) -> Result<ReadPattern, Unread>
    requires { IsPlain (chars pattern.now) found }
    ensures { IfOk result (λ r. IsReadAs pattern.now (meaning r.hir) r.groups) }
{
    try_compiled(alloc, pattern, found.size > size::MOST_PARTS)?;
    let PlainPattern {
        hir,
        groups,
        size: _,
    } = found;
    Ok(ReadPattern {
        hir,
        groups: groups as usize + 1,
    })
}

/// That of a text that isn't plain.
fn of_other(alloc: Global, pattern: &str) -> Result<ReadPattern, Unread>
    ensures { IfOk result (λ r. IsReadAs pattern.now (meaning r.hir) r.groups) }
{
    let parsed = parse(alloc, pattern)?;
    try_compiled(alloc, pattern, size::may_be_too_large(&parsed.hir))?;
    match narrow_classes(alloc, &parsed.hir) {
        Ok(hir) => Ok(ReadPattern {
            hir,
            groups: parsed.names.len(),
        }),
        Err(_) => Err(Unread::Memory),
    }
}
