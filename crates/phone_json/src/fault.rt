//! What may be wrong with a value of a database text.
ghost use Rattle.std.specs.Prelude.{◌≡◌, IfOk, string_bytes};
ghost use Rattle.phone_base.specs.Errors.{told};
ghost use Rattle.phone_json.specs.Told.{refusal_of};

use phone_base::MetadataError;
use phone_base::results::zip;
use phone_records::LoadMetadata;
use std::alloc::{AllocError, Global};

/// Why a value is refused.
#[derive(Clone, Copy)]
pub enum Fault<'v> {
    /// A record of this kind may not have this key.
    UnknownKey { phase: &'v str, key: &'v str },
    /// In a record of this kind the value of this field is of the wrong kind.
    WrongKind { phase: &'v str, name: &'v str },
}

impl<'v> Fault<'v> {
    /// The error that tells it; refused only for memory.
    pub fn into_refusal(self, alloc: Global) -> Result<LoadMetadata, AllocError>
        ensures { IfOk result (λ e. told e ≡ refusal_of self.entry) }
    {
        match self {
            Fault::UnknownKey { phase, key } => {
                let (phase, name) = own_texts(alloc, phase, key)?;
                Ok(LoadMetadata::Metadata(MetadataError::UnhandledElement { phase, name }))
            }
            Fault::WrongKind { phase, name } => {
                let (phase, name) = own_texts(alloc, phase, name)?;
                Ok(LoadMetadata::Kind { phase, name })
            }
        }
    }
}

/// Two texts as strings of their own.
fn own_texts(alloc: Global, a: &str, b: &str) -> Result<(String, String), AllocError>
    ensures { IfOk result (λ pair. (string_bytes pair.0 ≡ a.now) × (string_bytes pair.1 ≡ b.now)) }
{
    zip(String::from_str(alloc, a), String::from_str(alloc, b))
}
