//! What was made so far, each thing by a name.
use std::alloc::{AllocError, Global};
use std::cell::RefCell;
use std::collections::HashMap;
use std::sync::Arc;

/// Things that are shared by those that ask for them by the same name. Of what a cell holds nothing
/// is known, so who finds a thing looks whether it is the right one.
#[derive(Drop)]
pub(crate) struct InternTable<T> {
    things: RefCell<HashMap<String, Arc<T>>>,
}

impl<T: Drop> InternTable<T> {
    /// Nothing is kept yet.
    pub(crate) fn new(alloc: Global) -> InternTable<T> {
        InternTable {
            things: RefCell::new(HashMap::new(alloc)),
        }
    }

    /// What is kept by a name.
    pub(crate) fn find(&self, name: &str) -> Result<Option<Arc<T>>, AllocError> {
        let Ok(things) = self.things.try_borrow() else {
            return Ok(None);
        };
        match things.get(name) {
            Some(found) => share(found),
            None => Ok(None),
        }
    }

    /// Keeps a thing by a name, unless memory was refused for the name.
    pub(crate) fn keep(
        &self,
        name: Result<String, AllocError>,
        thing: &Arc<T>,
    ) -> Result<(), AllocError> {
        let name = name?;
        self.insert(name, thing.clone())
    }

    /// Keeps a thing by a name, unless memory was refused for the thing.
    fn insert(&self, name: String, thing: Result<Arc<T>, AllocError>) -> Result<(), AllocError> {
        let thing = thing?;
        if let Ok(mut things) = self.things.try_borrow_mut() {
            things.insert(name, thing)?;
        }
        Ok(())
    }
}

/// A thing once more, for one who shares it.
fn share<T: Drop>(thing: &Arc<T>) -> Result<Option<Arc<T>>, AllocError> {
    Ok(Some(thing.clone()?))
}
