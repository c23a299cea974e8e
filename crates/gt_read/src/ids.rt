ghost use Rattle.std.specs.Prelude.{◌≡◌, []};
ghost use Rattle.gt_model.specs.Schema.{Id, OptionalId};
ghost use Rattle.gt_read.specs.Drafts.Draft.{identifier, kept, drafted_plain, finished_plain, plain_fault};
ghost use Rattle.gt_read.specs.Identifiers.{earlier};
ghost use Rattle.gt_read.specs.Kinds.{value_of};
ghost use Rattle.gt_read.specs.Drafts.Answers.{piece};

use crate::pieces::{Carried, Piece};
use uuid::Uuid;

/// The place and the length of an identifier that hasn't its length.
#[derive(Clone, Copy, Debug)]
pub struct IdFault {
    pub place: u64,
    pub len: u64,
}

/// An identifier as it was read: its place, how many bytes it has, and these where they are sixteen.
#[derive(Clone, Copy, Debug)]
pub struct Identifier {
    pub place: u64,
    pub len: u64,
    pub id: Uuid,
}

/// The length of an identifier.
const LEN: u64 = 16;

impl Identifier {
    /// An identifier without a record, in a message of which the first stands at the place.
    pub fn missing(place: u64) -> Identifier
        ensures { result ≡ identifier (record { place = place; bytes = [] }) }
    {
        Identifier {
            place,
            len: 0,
            id: Uuid::nil(),
        }
    }

    /// The identifier of a record at the place.
    pub fn read(place: u64, bytes: &[u8]) -> Identifier
        ensures { result ≡ identifier (record { place = place; bytes = bytes.now }) }
    {
        let id = match Uuid::from_slice(bytes) {
            Ok(id) => id,
            Err(_) => Uuid::nil(),
        };
        Identifier {
            place,
            len: bytes.len() as u64,
            id,
        }
    }

    /// Takes a record of the field.
    pub fn take(&mut self, part: &Piece<'_>)
        ensures id { self.new ≡ kept (drafted_plain Id) self.old (value_of Id (piece part.now)) }
        ensures optional { self.new ≡ kept (drafted_plain OptionalId) self.old (value_of OptionalId (piece part.now)) }
    {
        if let Carried::Bytes(run) = &part.carried {
            *self = Identifier::read(part.place, run.bytes);
        }
    }

    /// What is wrong with an identifier that must be there.
    pub fn fault(&self) -> Option<IdFault>
        ensures { result ≡ plain_fault Id self.now }
    {
        if self.len == LEN {
            return None;
        }
        Some(IdFault {
            place: self.place,
            len: self.len,
        })
    }

    /// What is wrong with an identifier that may be absent.
    pub fn optional_fault(&self) -> Option<IdFault>
        ensures { result ≡ plain_fault OptionalId self.now }
    {
        if self.len == LEN || self.len == 0 {
            return None;
        }
        Some(IdFault {
            place: self.place,
            len: self.len,
        })
    }

    /// The identifier, if it is there.
    pub fn optional(&self) -> Option<Uuid>
        ensures { result ≡ finished_plain OptionalId self.now }
    {
        if self.len == LEN { Some(self.id) } else { None }
    }
}

/// Of two faults the one of the lesser place.
pub fn earlier(first: Option<IdFault>, second: Option<IdFault>) -> Option<IdFault>
    ensures { result ≡ earlier first second }
{
    match (first, second) {
        (None, _) => second,
        (Some(_), None) => first,
        (Some(f), Some(g)) => { if f.place <= g.place { first } else { second } }
    }
}
