use gr_base::Text;
use uuid::Uuid;

/// A place in a node: its identifier and an offset.
#[derive(Clone, Copy, Debug, PartialEq, Eq)]
pub struct Place {
    pub id: Uuid,
    pub offset: u64,
}

/// What an auxiliary table holds, or a part of one.
#[cycle(aux_value)]
#[derive(Debug, Drop)]
pub enum AuxValue {
    Str(Text),
    Bool(bool),
    Id(Uuid),
    /// An address or an unsigned number.
    Number(u64),
    Signed(i64),
    Place(Place),
    /// The bits of a number of four bytes.
    Four(u32),
    /// The bits of a number of eight bytes.
    Eight(u64),
    /// The members of a sequence or a set.
    Many(Vec<AuxValue>),
    /// The entries of a mapping.
    Pairs(Vec<AuxPair>),
    /// The parts of a tuple.
    Parts(Vec<AuxValue>),
    /// The index of a variant's part, and the value of that part.
    Choice(u64, Box<AuxValue>),
}

/// An entry of a mapping.
#[cycle(aux_value)]
#[derive(Debug, Drop)]
pub struct AuxPair {
    pub key: AuxValue,
    pub value: AuxValue,
}
