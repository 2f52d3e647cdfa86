//! Inputs in an encoding.
use crate::jobs::{Job, JobError};
use crate::strays::Strays;
use phone_device::{ByteSink, ByteSource};
use phone_encodings::{Decoded, Encoding};
use std::alloc::Global;

/// A job on the text of each input.
#[derive(Drop)]
pub struct Encoded<'j, J> {
    /// The job.
    pub job: &'j mut J,
    /// The encoding of the inputs, where that isn't UTF-8.
    pub encoding: Option<Encoding>,
}

impl<'j, J: Job> Job for Encoded<'j, J> {
    ghost use Rattle.std.specs.Prelude.{◌≡◌};
    ghost use Rattle.phone_commands.specs.EncodedJobs.{ActsOn};

    ghost acts = { λ j before after j' result.
        ActsOn j.encoding J.acts j.job.now before after j'.job.now result ×
        (j'.encoding ≡ j.encoding) };

    ghost met = { λ j. J.met j.job.now };

    fn strays(&self) -> Strays {
        self.job.strays()
    }

    fn answer<S: ByteSource, W: ByteSink>(
        &mut self,
        alloc: Global,
        source: &mut S,
        sink: &mut W,
    ) -> Result<(), JobError> {
        match self.encoding {
            Some(encoding) => {
                let mut text = Decoded::new(source, encoding);
                self.job.answer(alloc, &mut text, sink)
            }
            None => self.job.answer(alloc, source, sink),
        }
    }
}
