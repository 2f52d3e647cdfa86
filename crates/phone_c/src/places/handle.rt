//! The handle of an atlas: the pointer by which C keeps one.
ghost use Rattle.std.specs.Prelude.{◌≡◌, MatchOption};
ghost use denote.RawPtr.{null_ptr, InBlock};
ghost use Rattle.phone_c.specs.declared.places.owned.OwnedAtlas.{OwnedAtlas};

use crate::places::owned::OwnedAtlas;
use phone_c_base::raw_box::RawBox;
use std::alloc::Global;
use std::marker::Model;

/// A handle of an atlas, null where nothing is open. Behind it lie the tables of a locale.
/// Contracts see the pointer and what the tables have. The pointer is one to bytes, since one to an
/// `OwnedAtlas` doesn't cross to C.
#[repr(C)]
pub struct AtlasHandle {
    pub(crate) at: *mut u8,
    pub ghost held: { OwnedAtlas },
}

impl Model for AtlasHandle {
    ghost use Rattle.phone_c.specs.Owned.{atlas_owns};

    ghost also_owns = { λ h. atlas_owns h.at h.held };
}

/// A handle, closed or open, may be passed to another thread: an atlas is plain data.
unsafe impl Send for AtlasHandle {}

impl AtlasHandle {
    /// A handle behind which nothing is open.
    fn empty() -> AtlasHandle
        ensures { result.at ≡ null_ptr }
    {
        AtlasHandle {
            at: std::ptr::null_mut(),
        }
    }

    /// The handle at the pointer of a boxed atlas.
    fn of_raw(loose: RawBox<OwnedAtlas, Global>) -> AtlasHandle
        ensures open { InBlock result.at }
        ensures held { result.held ≡ loose.value }
    {
        let RawBox { at, alloc: _ } = loose;
        AtlasHandle { at: at as *mut u8 }
    }

    /// The pointer of the boxed atlas, where one is open.
    fn into_raw(self, alloc: Global) -> Option<RawBox<OwnedAtlas, Global>>
        ensures { MatchOption result (self.at ≡ null_ptr)
            (λ l. InBlock self.at × (l.value ≡ self.held)) }
    {
        let AtlasHandle { at } = self;
        if at.is_null() {
            None
        } else {
            Some(RawBox {
                at: at as *mut OwnedAtlas,
                alloc,
            })
        }
    }
}

/// Takes what is open behind the handle of an atlas out of it; the handle is closed then.
pub fn take_atlas(alloc: Global, atlas: &mut AtlasHandle) -> Option<Box<OwnedAtlas>>
    ensures held { MatchOption result (atlas.old.at ≡ null_ptr)
        (λ held. InBlock atlas.old.at × (held.value ≡ atlas.old.held)) }
    ensures closed { atlas.new.at ≡ null_ptr }
{
    let whole = std::mem::replace(atlas, AtlasHandle::empty());
    match whole.into_raw(alloc) {
        Some(loose) => Some(loose.into_box()),
        None => None,
    }
}

/// Puts an atlas behind a handle; what the handle held is dropped.
pub fn put_atlas(alloc: Global, atlas: &mut AtlasHandle, held: Box<OwnedAtlas>)
    ensures open { InBlock atlas.new.at }
    ensures held { atlas.new.held ≡ held.value }
{
    let before = std::mem::replace(atlas, AtlasHandle::of_raw(RawBox::of(held)));
    if let Some(loose) = before.into_raw(alloc) {
        drop(loose.into_box());
    }
}

/// Closes the handle of an atlas: what it held is dropped.
pub fn close_atlas(alloc: Global, atlas: &mut AtlasHandle)
    ensures { atlas.new.at ≡ null_ptr }
{
    if let Some(held) = take_atlas(alloc, atlas) {
        drop(held);
    }
}
