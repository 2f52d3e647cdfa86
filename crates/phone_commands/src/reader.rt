//! What reads the numbers of a call.
use phone_engine::Engine;
use phone_plans::Plans;

/// What reads, prints and tells, and a database of short numbers.
#[derive(Clone, Copy)]
pub struct Reader<'d> {
    /// What reads texts as numbers, prints these and tells of them.
    pub engine: Engine<'d>,
    /// The database that tells which lines are short numbers of the engine's region, where they are
    /// asked for.
    pub short: Option<&'d Plans>,
}
