//! A list that contracts see as its items.
ghost use Rattle.std.specs.Prelude.{◌≡◌, [], IfOk};

use std::alloc::{AllocError, Global};
use std::marker::Model;

/// A list of a record.
#[derive(Debug, Drop)]
pub struct Items<T> {
    items: Vec<T>,
}

impl<T> Model for Items<T> {
    ghost use Rattle.std.specs.Prelude.{List};

    ghost Value = { List T };

    ghost view = { λ s. s.items.items };
}

impl<T> From<Vec<T>> for Items<T> {
    ghost use Rattle.std.specs.Prelude.{◌≡◌};

    ghost from_gives = { λ v s. s ≡ v.items };

    fn from(items: Vec<T>) -> Items<T> {
        Items { items }
    }
}

impl<T> Items<T> {
    /// No items; takes no memory.
    pub fn empty(alloc: Global) -> Items<T>
        ensures { result ≡ [] }
    {
        Items {
            items: Vec::new(alloc),
        }
    }

    /// The items in their order.
    pub fn as_slice(&self) -> &[T]
        ensures { result.now ≡ self.now }
    {
        self.items.as_slice()
    }

    /// The items as a vector of its own.
    pub fn into_vec(self) -> Vec<T>
        ensures { result.items ≡ self }
    {
        self.items
    }
}

/// What can be made a second time, unless memory is refused.
pub trait TryCopy: Sized {
    /// An equal value of its own.
    fn try_copy(&self, alloc: Global) -> Result<Self, AllocError>
        ensures { IfOk result (λ copy. copy ≡ self.now) };
}

impl TryCopy for u16 {
    fn try_copy(&self, _alloc: Global) -> Result<u16, AllocError> {
        Ok(*self)
    }
}

impl<T: TryCopy + Drop> Items<T> {
    /// The same items again; refused only for memory.
    pub fn clone(&self, alloc: Global) -> Result<Items<T>, AllocError>
        ensures { IfOk result (λ s. s ≡ self.now) }
    {
        let mut items = Vec::new(alloc);
        for item in self.as_slice() {
            items.push(item.try_copy(alloc)?)?;
        }
        Ok(Items { items })
    }
}
