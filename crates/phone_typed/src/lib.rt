//! A number as it is typed: the keys so far as a layout prints them, of a complete number or of the
//! beginning of one; and as libphonenumber's formatter shows it, a state over keys.
#![tactic(auto)]

mod caret;
mod field;
pub mod keyed_laws;
mod keys;
pub mod laws;
mod layouts;
mod shown;
mod steps;
mod stripping;
mod texts;
mod typing;

pub use field::Keyed;
pub use texts::typed;
pub use typing::Typing;
