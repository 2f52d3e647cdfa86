//! The id of a region that a text is.
ghost use Rattle.std.specs.Prelude.{◌≡◌};
ghost use Rattle.std.specs.List.{find};
ghost use Rattle.phone_places.specs.Ids.{id_in, is_id};

use phone_values::country::{ALL, Id};

/// Whether a text is this id, its letters capital or small.
fn is_id(id: Id, text: &str) -> bool
    ensures { result ≡ is_id text.now id }
{
    id.as_str().eq_ignore_ascii_case(text)
}

/// The first of the ids that a text is.
fn find_id(ids: &[Id], text: &str) -> Option<Id>
    ensures { result ≡ find (is_id text.now) ids.now }
{
    ids.iter().copied().find(|id| is_id(*id, text))
}

/// The id that a text is, its letters capital or small.
pub fn id_in(text: &str) -> Option<Id>
    ensures { result ≡ id_in text.now }
{
    find_id(&ALL, text)
}
