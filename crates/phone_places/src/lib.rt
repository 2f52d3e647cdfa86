//! Where a number is, by libphonenumber's rules: its country, its area, its carrier and its time
//! zones, told in a locale; and what it tells of them by tables of prefixes alone. Regions as
//! people write them: a table of the names of countries, each looked up after folding; ids; and
//! calling codes.
#![tactic(auto)]

mod areas;
mod carriers;
mod countries;
mod country;
mod descriptions;
mod digits;
mod fault;
mod folding;
mod id;
mod kinds;
pub mod laws;
mod line;
mod maps;
mod named;
mod nearest;
mod zones;

pub use areas::area;
pub use carriers::{carrier, safe_carrier, valid_carrier};
pub use countries::{Countries, Entry};
pub use country::{country_name, country_of};
pub use descriptions::{description, valid_description};
pub use digits::{digits_of, of_number};
pub use fault::{CountriesError, LineFault};
pub use folding::fold;
pub use id::id_in;
pub use kinds::{has_carrier, is_geographical};
pub use maps::{Owner, area_of, carrier_of, time_zones_of};
pub use named::region_named;
pub use zones::{UNKNOWN_ZONE, placed_time_zones, time_zones};
