//! A territory's id, and the region that it stands for.
ghost use Rattle.std.specs.Prelude.{◌≡◌};
ghost use Rattle.phone_values.specs.Ids.{id_of};

use crate::loader::Text;
use phone_values::country::Id;
use std::marker::Model;

/// A territory's id, and the region that it is the id of, where it is one's: found once, since each
/// number that is looked up asks for it. Contracts see the id's text.
#[derive(Drop)]
pub(crate) struct TerritoryId {
    text: Text,
    region: Option<Id>,
}

impl Model for TerritoryId {
    ghost use Rattle.std.specs.Prelude.{◌≡◌, ℕ, List};
    ghost use Rattle.phone_values.specs.Ids.{id_of};

    ghost Value = { List ℕ };

    ghost view = { λ i. i.text };

    ghost invariant = { λ i. i.region ≡ id_of i.text };
}

impl TerritoryId {
    /// The id that a text is.
    pub(crate) fn of(text: Text) -> TerritoryId
        ensures { result ≡ text }
    {
        let region = text.as_str().parse::<Id>().ok();
        TerritoryId { text, region }
    }

    /// Its text.
    pub(crate) fn as_str(&self) -> &str
        ensures { result.now ≡ self.now }
    {
        self.text.as_str()
    }

    /// The region of this id; none where it is no region's.
    pub(crate) fn region(&self) -> Option<Id>
        ensures { result ≡ id_of self.now }
    {
        self.region
    }
}
