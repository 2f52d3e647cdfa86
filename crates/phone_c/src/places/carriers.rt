//! The carrier of a number.
ghost use Rattle.std.specs.Prelude.{IfOk};
ghost use Rattle.phone_c.specs.Places.{IsCarrierByKind};

use crate::places::told::AtlasText;
use phone_languages::Atlas;
use phone_places::valid_carrier;
use phone_plans::Plans;
use phonenumber::PhoneNumber;
use std::alloc::AllocError;

/// The carrier of a number by its kind. Refused only for memory.
fn by_kind<'t>(
    database: &Plans,
    atlas: &Atlas<'t>,
    number: &PhoneNumber,
) -> Result<&'t str, AllocError>
    ensures { IfOk result (λ t. IsCarrierByKind database.now atlas.now number.now t.now) }
{
    let text = phone_places::carrier(database, atlas, number)?;
    Ok(text)
}

/// The carrier of a number.
#[derive(Clone, Copy)]
pub struct Carrier {
    /// Where it is 0 by the number's kind, else as the number stands.
    pub as_it_stands: u8,
}

impl AtlasText for Carrier {
    ghost use Rattle.phone_languages.specs.Atlases.{IsCarrier};
    ghost use Rattle.phone_places.specs.Maps.{digits_of};
    ghost use Rattle.phone_c.specs.Places.{IsAsAsked, IsCarrierByKind};

    ghost tells = { λ asked db atlas n text. IsAsAsked asked.as_it_stands
        (IsCarrierByKind db atlas n text) (IsCarrier atlas (digits_of n) text) };

    fn text<'t>(
        &self,
        database: &Plans,
        atlas: &Atlas<'t>,
        number: &PhoneNumber,
    ) -> Result<&'t str, AllocError> {
        if self.as_it_stands == 0 {
            Ok(by_kind(database, atlas, number)?)
        } else {
            Ok(valid_carrier(database.allocator(), atlas, number)?)
        }
    }
}

/// The carrier that is safe to show.
#[derive(Clone, Copy)]
pub struct SafeCarrier;

impl AtlasText for SafeCarrier {
    ghost use Rattle.phone_c.specs.Places.{IsSafeCarrier};

    ghost tells = { λ _ db atlas n text. IsSafeCarrier db atlas n text };

    fn text<'t>(
        &self,
        database: &Plans,
        atlas: &Atlas<'t>,
        number: &PhoneNumber,
    ) -> Result<&'t str, AllocError> {
        let text = phone_places::safe_carrier(database, atlas, number)?;
        Ok(text)
    }
}
