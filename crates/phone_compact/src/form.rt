//! What has a compact form.
ghost use Rattle.std.specs.Prelude.{◌≡◌, ◌++◌, IfOk, IfErr, OnOk};
ghost use Rattle.phone_compact.specs.Forms.{Form, IsUnique};
ghost use Rattle.phone_compact.specs.Refusals.{IsRefused};

use crate::error::NotRead;
use crate::reader::Reader;
use std::alloc::{AllocError, Global};

/// What is written in its compact form, and read from it.
pub(crate) trait Compact: Drop + Sized {
    ghost form: { Form Self };

    /// Reads a value from the front.
    fn read(alloc: Global, from: &mut Reader<'_>) -> Result<Self, NotRead>
        ensures value { IfOk result (λ x. from.old ≡ form.written x ++ from.new) }
        ensures refused { IfErr result (λ e. IsRefused form from.old e) };

    /// Writes the value at the end.
    fn write(&self, out: &mut Vec<u8>) -> Result<(), AllocError>
        ensures { OnOk result (out.new.items ≡ out.old.items ++ form.written self.now) };

    ghost unique: { IsUnique form };
}
