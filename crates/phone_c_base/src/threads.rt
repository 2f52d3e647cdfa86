//! What may be passed to another thread, and what several threads may read at a time. Each of these
//! functions is proved only while its type is `Send`, or `Sync`; none of them does anything.

use crate::handle::Handle;
use crate::table::PrefixTable;
use phone_plans::Plans;
use phone_prefixes::Prefixes;

/// Takes what may be passed to another thread.
fn crosses<T: Send>(_thing: &T) {}

/// Takes what several threads may read at a time.
fn is_shared<T: Sync>(_thing: &T) {}

/// A database may be passed to another thread.
pub fn database_crosses(database: &Plans) {
    crosses(database)
}

/// Several threads may read a database at a time.
pub fn database_is_shared(database: &Plans) {
    is_shared(database)
}

/// Several threads may read a table of prefixes at a time.
pub fn prefixes_are_shared(prefixes: &Prefixes) {
    is_shared(prefixes)
}

/// The handle of a database may be passed to another thread.
pub fn handle_crosses(handle: &Handle) {
    crosses(handle)
}

/// The handle of a table of prefixes may be passed to another thread.
pub fn table_crosses(table: &PrefixTable) {
    crosses(table)
}
