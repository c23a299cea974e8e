use gr_base::End;
use node_arena::{AddFault, CheckFault};
use std::alloc::{AllocError, Global};
use uuid::Uuid;

/// Why there is no graph, or an action isn't done.
#[derive(Debug, Drop)]
pub enum Stop {
    /// The words of the row have no meaning.
    Words,
    /// There is no node of the kind that the action wants, or it isn't as the action says.
    Refused,
    /// A node can't be added.
    Add(AddFault),
    /// The file isn't well linked.
    Links(CheckFault),
    /// An edge has the id that another one has or had.
    GivenAgain,
    Memory,
}

impl From<AllocError> for Stop {
    fn from(_: AllocError) -> Stop {
        Stop::Memory
    }
}

impl From<End<AddFault>> for Stop {
    fn from(end: End<AddFault>) -> Stop {
        match end {
            End::Fault(fault) => Stop::Add(fault),
            End::Memory => Stop::Memory,
        }
    }
}

/// The first byte of an identifier of equal bytes.
fn first_byte(id: &Uuid) -> u8 {
    id.as_bytes()[0]
}

/// The words of two identifiers behind what is said of them.
fn pair_text(alloc: Global, said: &str, from: &Uuid, to: &Uuid) -> Result<String, AllocError> {
    format!(in alloc; "{said} u{:02x} u{:02x}", first_byte(from), first_byte(to))
}

/// The words of a fault of links.
fn fault_text(alloc: Global, fault: &CheckFault) -> Result<String, AllocError> {
    match fault {
        CheckFault::DupUuid(id) => format!(in alloc; "duplicate u{:02x}", first_byte(id)),
        CheckFault::BareBlock(id) => format!(in alloc; "bare u{:02x}", first_byte(id)),
        CheckFault::Dangling(from, to) => pair_text(alloc, "dangling", from, to),
        CheckFault::WrongKind(from, to) => pair_text(alloc, "wrong kind", from, to),
        _ => String::from_str(alloc, "another fault"),
    }
}

/// The words that a row has for why an action isn't done.
pub fn stop_text(alloc: Global, stop: &Stop) -> Result<String, AllocError> {
    match stop {
        Stop::Words => String::from_str(alloc, "no meaning"),
        Stop::Refused => String::from_str(alloc, "refused"),
        Stop::Add(AddFault::Taken(id)) => format!(in alloc; "taken u{:02x}", first_byte(id)),
        Stop::Links(fault) => fault_text(alloc, fault),
        Stop::GivenAgain => String::from_str(alloc, "an id is given again"),
        Stop::Memory => Err(AllocError),
    }
}
