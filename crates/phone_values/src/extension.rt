//! The extension of a number: what is dialled once the call is answered.
ghost use Rattle.std.specs.Prelude.{◌≡◌, IfOk, string_bytes};

use serde::{Deserialize, Serialize};
use std::alloc::AllocError;
use std::fmt;
use std::hash::{Hash, Hasher};
use std::marker::Model;

/// The text of an extension. Contracts see its bytes.
#[derive(Debug, Drop, Serialize, Deserialize)]
pub struct Extension(String);

impl Model for Extension {
    ghost use Rattle.std.specs.Prelude.{ℕ, List, string_bytes};

    ghost Value = { List ℕ };

    ghost view = { λ e. string_bytes e.0 };
}

impl Extension {
    /// The text.
    pub fn as_str(&self) -> &str
        ensures { result.now ≡ self.now }
    {
        self.0.as_str()
    }

    /// The same text again; refused only for memory.
    pub fn clone(&self) -> Result<Extension, AllocError>
        ensures { IfOk result (λ e. e ≡ self.now) }
    {
        Ok(Extension(self.0.clone()?))
    }
}

impl From<String> for Extension {
    ghost use Rattle.std.specs.Prelude.{◌≡◌, string_bytes};

    ghost from_gives = { λ s e. e ≡ string_bytes s };

    fn from(text: String) -> Extension {
        Extension(text)
    }
}

impl fmt::Display for Extension {
    ghost use Rattle.std.specs.Prelude.{Some};

    ghost output = { λ e. Some e };

    fn fmt<W: fmt::Write>(&self, f: &mut fmt::Formatter<W>) -> fmt::Result {
        f.write_str(self.as_str())
    }
}

impl PartialEq for Extension {
    ghost use Rattle.std.specs.Prelude.{nat_eq};
    ghost use Rattle.std.specs.Cmp.Lexicographic.{pointwise, nat_list_eq_equiv};
    ghost use Rattle.std.specs.Cmp;

    ghost eq = { pointwise nat_eq };

    ghost laws = { Cmp.partial_equiv_from_equiv nat_list_eq_equiv };

    fn eq(&self, other: &Extension) -> bool {
        self.as_str() == other.as_str()
    }
}

impl Eq for Extension {
    ghost use Rattle.std.specs.Cmp.Lexicographic.{nat_list_eq_equiv};

    ghost laws = { nat_list_eq_equiv };
}

impl Hash for Extension {
    ghost use Rattle.std.proofs.Common.{rules};
    ghost use Rattle.std.specs.Cmp.Rules.{hashing};
    ghost use Rattle.std.specs.Hash as fed;

    ghost hash_input = { λ e. fed.str e };

    ghost respects_eq = { Prim.search (hashing, rules) };

    fn hash<H: Hasher>(&self, state: &mut H) {
        self.as_str().hash(state);
    }
}
