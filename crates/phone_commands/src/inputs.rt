//! The inputs of a call: files, one after the other, or standard input.

ghost use Rattle.std.specs.Prelude.{◌≡◌, ◌↔◌, IsTrue, List, Option, [], codes, ℕ};
ghost use Rattle.phone_commands.specs.EncodedJobs.{Asked};
ghost use Rattle.phone_commands.specs.Inputs.{InputsEnd, IsAnswered, IsStandard, Name, failed_in};
ghost use Rattle.phone_lines.specs.Ends.{seen};

use crate::jobs::{Job, JobError};
use phone_device::{ByteSink, Std};
use phone_encodings::{Ahead, Inlet};
use std::alloc::{AllocGlobal, Global};
use std::fs::{self, Files};

/// Whether a name is standard input's.
pub fn is_standard(name: &str) -> bool
    ensures { IsTrue result ↔ (name.now ≡ codes "-") }
{
    name == "-"
}

/// Why a call was not answered whole: what failed, and in which file.
#[derive(Drop)]
pub enum Failure<'f> {
    /// A file can't be opened.
    Unopened(&'f str),
    /// What failed in an input of this name.
    In(&'f str, JobError),
}

/// An input's end, with its name where it failed.
fn failed_in<'f>(name: &'f str, end: Result<(), JobError>) -> Result<(), Failure<'f>>
    ensures { result ≡ failed_in name.entry end }
{
    match end {
        Ok(()) => Ok(()),
        Err(error) => Err(Failure::In(name, error)),
    }
}

/// Answers an input, unless it is asked for the mark of UTF-16 and begins with it.
fn on_asked<S: Inlet, W: ByteSink, J: Job>(
    alloc: Global,
    asks: bool,
    source: &mut S,
    sink: &mut W,
    job: &mut J,
) -> Result<(), JobError>
    ensures { Asked asks J.acts job.old
        (seen (S.to_come source.old) (S.faults source.old) (W.taken sink.old)
        (W.faults sink.old) (W.unflushed sink.old))
        (seen (S.to_come source.new) (S.faults source.new) (W.taken sink.new)
        (W.faults sink.new) (W.unflushed sink.new))
        job.new result }
{
    if !asks {
        return job.answer(alloc, source, sink);
    }
    match source.is_utf_16() {
        Ok(true) => Err(JobError::Utf16),
        Ok(false) => job.answer(alloc, source, sink),
        Err(_) => Err(JobError::Input),
    }
}

/// Answers the file of a name.
fn on_file<'f, R: Files + AllocGlobal, W: ByteSink, J: Job>(
    rt: &R,
    name: &'f str,
    asks: bool,
    sink: &mut W,
    job: &mut J,
) -> Result<(), Failure<'f>>
    ensures { ¬ (IsStandard name.entry) → (to_come : Option (List ℕ)) (faults : ℕ) →
        IsAnswered (Asked asks J.acts) name.entry job.old
        (seen to_come faults (W.taken sink.old) (W.faults sink.old) (W.unflushed sink.old))
        (seen to_come faults (W.taken sink.new) (W.faults sink.new) (W.unflushed sink.new))
        job.new result }
{
    match fs::open(rt, name) {
        Ok(file) => {
            let mut source = Ahead::new(Std::new(file));
            failed_in(name, on_asked(rt.alloc(), asks, &mut source, sink, job))
        }
        Err(_) => Err(Failure::Unopened(name)),
    }
}

/// Answers the file of a name, or standard input.
fn on_input<'f, R: Files + AllocGlobal, S: Inlet, W: ByteSink, J: Job>(
    rt: &R,
    name: &'f str,
    asks: bool,
    input: &mut S,
    sink: &mut W,
    job: &mut J,
) -> Result<(), Failure<'f>>
    ensures { IsAnswered (Asked asks J.acts) name.entry job.old
        (seen (S.to_come input.old) (S.faults input.old) (W.taken sink.old)
        (W.faults sink.old) (W.unflushed sink.old))
        (seen (S.to_come input.new) (S.faults input.new) (W.taken sink.new)
        (W.faults sink.new) (W.unflushed sink.new))
        job.new result }
{
    if is_standard(name) {
        return failed_in(name, on_asked(rt.alloc(), asks, input, sink, job));
    }
    on_file(rt, name, asks, sink, job)
}

/// Has a job answer each file in its turn, where `-` is standard input; standard input where there
/// is none. The first failure ends it; then what is in front was answered. Where it is asked for,
/// that an input begins with the mark of UTF-16 is such a failure.
pub fn on_inputs<'f, R: Files + AllocGlobal, S: Inlet, W: ByteSink, J: Job>(
    rt: &R,
    files: &[&'f str],
    asks: bool,
    input: &mut S,
    sink: &mut W,
    job: &mut J,
) -> Result<(), Failure<'f>>
    ensures standard { files.now ≡ [] → (name : Name) × IsStandard name ×
        IsAnswered (Asked asks J.acts) name job.old
        (seen (S.to_come input.old) (S.faults input.old) (W.taken sink.old)
        (W.faults sink.old) (W.unflushed sink.old))
        (seen (S.to_come input.new) (S.faults input.new) (W.taken sink.new)
        (W.faults sink.new) (W.unflushed sink.new))
        job.new result }
    ensures files { ¬ (files.now ≡ []) → InputsEnd (Asked asks J.acts) files.now job.old
        (seen (S.to_come input.old) (S.faults input.old) (W.taken sink.old)
        (W.faults sink.old) (W.unflushed sink.old))
        (seen (S.to_come input.new) (S.faults input.new) (W.taken sink.new)
        (W.faults sink.new) (W.unflushed sink.new))
        job.new result }
{
    if files.is_empty() {
        return on_input(rt, "-", asks, input, sink, job);
    }
    for name in files {
        match on_input(rt, *name, asks, input, sink, job) {
            Ok(()) => {}
            Err(failure) => return Err(failure),
        }
    }
    Ok(())
}
