//! What stands behind a handle: one of the owners of a thing, which handles may share.
ghost use Rattle.std.specs.Prelude.{◌≡◌, IfOk};

use std::alloc::{AllocError, Global};
use std::marker::Model;
use std::sync::Arc;

/// One of the owners of a thing, which goes with the last of them. Contracts see the thing.
pub struct Owner<T> {
    whole: Arc<T>,
}

/// Written out, so that it is proved once.
impl<T: Drop> Drop for Owner<T> {
    fn drop(self) {
        let Owner { whole } = self;
        drop(whole);
    }
}

impl<T> Model for Owner<T> {
    ghost Value = { T };

    ghost view = { λ o. o.whole.value };
}

impl<T: Drop> Owner<T> {
    /// The only owner of a thing, which is dropped where memory is refused.
    pub fn of(alloc: Global, thing: T) -> Result<Owner<T>, AllocError>
        ensures { IfOk result (λ o. o ≡ thing) }
    {
        match Arc::new(alloc, thing) {
            Ok(whole) => Ok(Owner { whole }),
            Err(_) => Err(AllocError),
        }
    }

    /// One owner more of the same thing.
    pub fn again(&self) -> Result<Owner<T>, AllocError>
        ensures { IfOk result (λ o. o ≡ self.now) }
    {
        Ok(Owner {
            whole: Arc::try_clone(&self.whole)?,
        })
    }

    /// The thing.
    pub fn thing(&self) -> &T
        ensures { result.now ≡ self.now }
    {
        &*self.whole
    }

    /// An owner in a box.
    pub fn boxed(self, alloc: Global) -> Result<Box<Owner<T>>, AllocError>
        ensures { IfOk result (λ b. b.value ≡ self) }
    {
        match Box::new(alloc, self) {
            Ok(owner) => Ok(owner),
            Err(_) => Err(AllocError),
        }
    }
}
