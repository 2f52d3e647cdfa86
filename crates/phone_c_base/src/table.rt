//! The handle of a table of prefixes: the pointer by which C keeps one.
ghost use Rattle.std.specs.Prelude.{◌≡◌, List, MatchOption};
ghost use denote.RawPtr.{null_ptr, InBlock};
ghost use Rattle.phone_prefixes.specs.Tables.{Entry};

use crate::raw_box::RawBox;
use crate::shared::Owner;
use phone_prefixes::Prefixes;
use std::alloc::Global;
use std::marker::Model;

/// A handle of a table of prefixes, null where nothing is open. Behind it lies one of the owners of
/// a table. Contracts see the pointer and the table's entries. The pointer is one to bytes, since
/// one to an `Owner` doesn't cross to C.
#[repr(C)]
pub struct PrefixTable {
    pub(crate) at: *mut u8,
    pub ghost entries: { List Entry },
}

impl Model for PrefixTable {
    ghost use Rattle.phone_c_base.specs.Owned.{table_owns};

    ghost also_owns = { λ t. table_owns t.at t.entries };
}

/// A handle, closed or open, may be passed to another thread: a table is plain data.
unsafe impl Send for PrefixTable {}

impl PrefixTable {
    /// A handle behind which nothing is open.
    fn empty() -> PrefixTable
        ensures { result.at ≡ null_ptr }
    {
        PrefixTable {
            at: std::ptr::null_mut(),
        }
    }

    /// The handle at the pointer of a boxed owner.
    fn of_raw(loose: RawBox<Owner<Prefixes>, Global>) -> PrefixTable
        ensures open { InBlock result.at }
        ensures entries { result.entries ≡ loose.value }
    {
        let RawBox { at, alloc: _ } = loose;
        PrefixTable { at: at as *mut u8 }
    }

    /// The pointer of the boxed owner, where one is open.
    fn into_raw(self, alloc: Global) -> Option<RawBox<Owner<Prefixes>, Global>>
        ensures { MatchOption result (self.at ≡ null_ptr)
            (λ l. InBlock self.at × (l.value ≡ self.entries)) }
    {
        let PrefixTable { at } = self;
        if at.is_null() {
            None
        } else {
            Some(RawBox {
                at: at as *mut Owner<Prefixes>,
                alloc,
            })
        }
    }
}

/// Takes what is open behind the handle of a table out of it; the handle is closed then.
pub fn take_table(alloc: Global, table: &mut PrefixTable) -> Option<Box<Owner<Prefixes>>>
    ensures entries { MatchOption result (table.old.at ≡ null_ptr)
        (λ owner. InBlock table.old.at × (owner.value ≡ table.old.entries)) }
    ensures closed { table.new.at ≡ null_ptr }
{
    let whole = std::mem::replace(table, PrefixTable::empty());
    match whole.into_raw(alloc) {
        Some(loose) => Some(loose.into_box()),
        None => None,
    }
}

/// Puts an owner of a table behind a handle; what the handle held is dropped.
pub fn put_table(alloc: Global, table: &mut PrefixTable, prefixes: Box<Owner<Prefixes>>)
    ensures open { InBlock table.new.at }
    ensures entries { table.new.entries ≡ prefixes.value }
{
    let before = std::mem::replace(table, PrefixTable::of_raw(RawBox::of(prefixes)));
    if let Some(loose) = before.into_raw(alloc) {
        drop(loose.into_box());
    }
}

/// Closes the handle of a table: what it held is dropped.
pub fn close_table(alloc: Global, table: &mut PrefixTable)
    ensures { table.new.at ≡ null_ptr }
{
    if let Some(owner) = take_table(alloc, table) {
        drop(owner);
    }
}
