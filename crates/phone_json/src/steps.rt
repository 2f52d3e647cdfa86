//! A step that may be refused memory: a function that leaves between its steps takes long to prove.
ghost use Rattle.std.specs.Prelude.{◌≡◌, Ok, OnOk};

use std::alloc::AllocError;

/// Puts what a step made in its place, unless it was refused.
pub fn put<T: Drop>(made: Result<T, AllocError>, place: &mut T) -> Result<(), AllocError>
    ensures { OnOk result (made ≡ Ok place.new) }
{
    *place = made?;
    Ok(())
}
