//! How many lines of each call agree.
use std::alloc::{AllocError, Global};

/// The lines of one call: how many agree, of how many.
#[derive(Drop)]
pub struct Count {
    pub call: String,
    pub agree: u64,
    pub all: u64,
}

/// The counts of all calls, in the order in which the calls were met.
#[derive(Drop)]
pub struct Tally {
    counts: Vec<Count>,
}

impl Tally {
    /// Nothing counted yet.
    pub fn new(alloc: Global) -> Tally {
        Tally {
            counts: Vec::new(alloc),
        }
    }

    /// Counts a line of this call.
    pub fn count(&mut self, alloc: Global, call: &str, agrees: bool) -> Result<(), AllocError> {
        if self.has_counted(call, agrees) {
            return Ok(());
        }
        let call = String::from_str(alloc, call)?;
        let agree = u64::from(agrees);
        Ok(
            self.counts.push(Count {
                call,
                agree,
                all: 1,
            })?,
        )
    }

    /// Counts a line of a call that was met before. Whether it was.
    fn has_counted(&mut self, call: &str, agrees: bool) -> bool {
        for count in &mut self.counts {
            if count.call.as_str() == call {
                count.all = count.all.saturating_add(1);
                count.agree = count.agree.saturating_add(u64::from(agrees));
                return true;
            }
        }
        false
    }

    /// The counts of the calls.
    pub fn counts(&self) -> &[Count] {
        self.counts.as_slice()
    }

    /// Whether all lines agree.
    pub fn all_agree(&self) -> bool {
        for count in &self.counts {
            if count.agree != count.all {
                return false;
            }
        }
        true
    }
}
