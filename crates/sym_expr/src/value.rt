use crate::point::Point;
use crate::target::Target;
use uuid::Uuid;

/// What holds bytes: a data block of the program, or the stack.
#[derive(Clone, Copy, Debug, PartialEq, Eq)]
pub enum Object {
    Block(Uuid),
    Stack,
}

/// What a symbolic machine holds in place of a number.
#[derive(Clone, Copy, Debug, PartialEq, Eq)]
pub enum Value {
    /// A number below 2^64.
    Num(u64),
    /// An address in an object, with its offset modulo 2^64.
    Addr(Object, u64),
    /// An address in code.
    At(Point),
    /// The page of 4096 bytes of a target.
    PageOf(Target),
    /// The first target less the second.
    Diff(Target, Target),
    /// A number read from an entry of a table of jumps, which remembers its two points.
    Step(Point, Point, u64),
}

/// The flags, each known or unknown.
#[derive(Clone, Copy, Debug, PartialEq, Eq)]
pub struct KnownFlags {
    pub n: Option<bool>,
    pub z: Option<bool>,
    pub c: Option<bool>,
    pub v: Option<bool>,
}
