//! What tables of texts have in a language: of the areas and the carriers of numbers, by prefixes
//! of their digits, with English behind them; and of the names of regions, by locales.
#![tactic(auto)]

mod atlas;
mod fault;
pub mod laws;
mod line;
mod locale;
mod names;
mod texts;

pub use atlas::Atlas;
pub use fault::{LineFault, NamesError};
pub use locale::Locale;
pub use names::{Name, Names, name_among};
pub use texts::{Texts, text_in, text_told};
