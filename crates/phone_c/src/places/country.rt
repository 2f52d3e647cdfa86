//! The name of a number's country.
use crate::places::told::AtlasText;
use phone_languages::Atlas;
use phone_plans::Plans;
use phonenumber::PhoneNumber;
use std::alloc::AllocError;

/// The name of the number's country.
#[derive(Clone, Copy)]
pub struct Country;

impl AtlasText for Country {
    ghost use Rattle.std.specs.Prelude.{◌≡◌};
    ghost use Rattle.phone_places.specs.Countries.{country_name};

    ghost tells = { λ _ db atlas n text. text ≡ country_name db atlas n };

    fn text<'t>(
        &self,
        database: &Plans,
        atlas: &Atlas<'t>,
        number: &PhoneNumber,
    ) -> Result<&'t str, AllocError> {
        let text = phone_places::country_name(database, atlas, number)?;
        Ok(text)
    }
}
