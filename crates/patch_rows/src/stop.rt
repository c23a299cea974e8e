use gr_base::End;
use std::alloc::AllocError;
use taken_ids::RewriteFault;

/// Why patches don't go into a module.
#[derive(Debug, Drop)]
pub enum Stop {
    /// The file of the row has no module that passes its checks.
    File,
    /// The patch text says nothing of the module.
    Patches,
    /// An identifier that the patches derive is taken.
    Taken,
    Memory,
}

impl From<AllocError> for Stop {
    fn from(_: AllocError) -> Stop {
        Stop::Memory
    }
}

impl From<End<RewriteFault>> for Stop {
    fn from(end: End<RewriteFault>) -> Stop {
        match end {
            End::Fault(RewriteFault::IdTaken(_)) => Stop::Taken,
            End::Memory => Stop::Memory,
        }
    }
}

/// The words that a row has for why nothing moves.
pub fn stop_text(stop: &Stop) -> Result<&'static str, AllocError> {
    match stop {
        Stop::File => Ok("no module"),
        Stop::Patches => Ok("no patches"),
        Stop::Taken => Ok("taken"),
        Stop::Memory => Err(AllocError),
    }
}
