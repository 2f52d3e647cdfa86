//! What stands behind the handle of a database: one of its owners, and by whose rules it is asked.
ghost use Rattle.std.specs.Prelude.{◌≡◌, IfOk, List};
ghost use Rattle.phone_records.specs.declared.loader.Metadata.{Metadata};
ghost use Rattle.phone_values.specs.declared.rules.Rules.{Rules};

use crate::shared::Owner;
use phone_engine::Rules;
use phone_plans::Plans;
use std::alloc::{AllocError, Global};
use std::marker::Model;

/// One of the owners of a database, which goes with the last of them, and the rules by which its
/// numbers are read, printed and described. Contracts see the records and the rules.
pub struct Opened {
    owner: Owner<Plans>,
    rules: Rules,
}

/// Written out, so that it is proved once.
impl Drop for Opened {
    fn drop(self) {
        let Opened { owner, rules: _ } = self;
        drop(owner);
    }
}

impl Model for Opened {
    ghost Value = { List Metadata × Rules };

    ghost view = { λ o. (o.owner, o.rules) };
}

impl Opened {
    /// The only owner of a database, which is dropped where memory is refused.
    pub fn of(alloc: Global, database: Plans, rules: Rules) -> Result<Box<Opened>, AllocError>
        ensures database { IfOk result (λ o. o.value.0 ≡ database) }
        ensures rules { IfOk result (λ o. o.value.1 ≡ rules) }
    {
        boxed(alloc, Owner::of(alloc, database)?, rules)
    }

    /// One owner more of the same database, asked by these rules. Takes the memory of a few words;
    /// refused only for memory.
    pub fn again(&self, alloc: Global, rules: Rules) -> Result<Box<Opened>, AllocError>
        ensures database { IfOk result (λ o. o.value.0 ≡ self.now.0) }
        ensures rules { IfOk result (λ o. o.value.1 ≡ rules) }
    {
        boxed(alloc, self.owner.again()?, rules)
    }

    /// The database.
    pub fn database(&self) -> &Plans
        ensures { result.now ≡ self.now.0 }
    {
        self.owner.thing()
    }

    /// By whose rules it is asked.
    pub fn rules(&self) -> Rules
        ensures { result ≡ self.now.1 }
    {
        self.rules
    }
}

/// An owner in a box, with the rules.
fn boxed(alloc: Global, owner: Owner<Plans>, rules: Rules) -> Result<Box<Opened>, AllocError>
    ensures database { IfOk result (λ o. o.value.0 ≡ owner) }
    ensures rules { IfOk result (λ o. o.value.1 ≡ rules) }
{
    match Box::new(alloc, Opened { owner, rules }) {
        Ok(opened) => Ok(opened),
        Err(_) => Err(AllocError),
    }
}
