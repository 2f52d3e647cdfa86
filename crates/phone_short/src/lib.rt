//! Short numbers, which are dialled within a region alone: whether one is possible and valid, what
//! it costs, and which texts reach emergency services. A database of short numbers tells, whose
//! records are the regions'.
#![tactic(auto)]

mod digits;
mod emergency;
mod facts;
mod kind;
pub mod laws;
mod numbers;
mod rates;
mod regions;

pub use facts::{ShortFacts, short_facts};
pub use kind::ShortKind;
pub use numbers::{has_number, is_possible};
pub use rates::{Cost, cost_in};
pub use regions::{
    cost, is_carrier_specific, is_emergency, is_possible_short, is_valid_short, reaches_emergency,
    short_kind,
};
