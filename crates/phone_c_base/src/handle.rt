//! A handle: the pointer by which C keeps a database, and by whose rules it is asked.
ghost use Rattle.std.specs.Prelude.{◌≡◌, List, MatchOption};
ghost use denote.RawPtr.{null_ptr, InBlock};
ghost use Rattle.phone_records.specs.declared.loader.Metadata.{Metadata};
ghost use Rattle.phone_values.specs.declared.rules.Rules.{Rules};

use crate::opened::Opened;
use crate::raw_box::RawBox;
use std::alloc::Global;
use std::marker::Model;

/// A handle, null where nothing is open. Behind it lies one of the owners of a database, and the
/// rules by which it is asked. Contracts see the pointer, the database's records, and the rules.
/// The pointer is one to bytes, since one to an `Opened` doesn't cross to C.
#[repr(C)]
pub struct Handle {
    pub(crate) at: *mut u8,
    pub ghost records: { List Metadata },
    pub ghost rules: { Rules },
}

impl Model for Handle {
    ghost use Rattle.phone_c_base.specs.Owned.{handle_owns};

    ghost also_owns = { λ h. handle_owns h.at (h.records, h.rules) };
}

/// A handle, closed or open, may be passed to another thread: several threads may read a database.
unsafe impl Send for Handle {}

impl Handle {
    /// A handle behind which nothing is open.
    fn empty() -> Handle
        ensures { result.at ≡ null_ptr }
    {
        Handle {
            at: std::ptr::null_mut(),
        }
    }

    /// The handle at the pointer of what is boxed.
    fn of_raw(loose: RawBox<Opened, Global>) -> Handle
        ensures open { InBlock result.at }
        ensures records { result.records ≡ loose.value.0 }
        ensures rules { result.rules ≡ loose.value.1 }
    {
        let RawBox { at, alloc: _ } = loose;
        Handle { at: at as *mut u8 }
    }

    /// The pointer of what is boxed, where something is open.
    fn into_raw(self, alloc: Global) -> Option<RawBox<Opened, Global>>
        ensures { MatchOption result (self.at ≡ null_ptr) (λ l. InBlock self.at ×
            (l.value.0 ≡ self.records) × (l.value.1 ≡ self.rules)) }
    {
        let Handle { at } = self;
        if at.is_null() {
            None
        } else {
            Some(RawBox {
                at: at as *mut Opened,
                alloc,
            })
        }
    }
}

/// Takes what is open behind a handle out of it; the handle is closed then.
pub fn take(alloc: Global, handle: &mut Handle) -> Option<Box<Opened>>
    ensures opened { MatchOption result (handle.old.at ≡ null_ptr) (λ o. InBlock handle.old.at ×
        (o.value.0 ≡ handle.old.records) × (o.value.1 ≡ handle.old.rules)) }
    ensures closed { handle.new.at ≡ null_ptr }
{
    let whole = std::mem::replace(handle, Handle::empty());
    match whole.into_raw(alloc) {
        Some(loose) => Some(loose.into_box()),
        None => None,
    }
}

/// Puts what is open behind a handle; what the handle held is dropped.
pub fn put(alloc: Global, handle: &mut Handle, opened: Box<Opened>)
    ensures open { InBlock handle.new.at }
    ensures records { handle.new.records ≡ opened.value.0 }
    ensures rules { handle.new.rules ≡ opened.value.1 }
{
    let before = std::mem::replace(handle, Handle::of_raw(RawBox::of(opened)));
    if let Some(loose) = before.into_raw(alloc) {
        drop(loose.into_box());
    }
}

/// Closes a handle: what it held is dropped.
pub fn close(alloc: Global, handle: &mut Handle)
    ensures { handle.new.at ≡ null_ptr }
{
    if let Some(opened) = take(alloc, handle) {
        drop(opened);
    }
}
