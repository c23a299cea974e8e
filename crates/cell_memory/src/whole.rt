//! What is no number, as it is stored whole.
ghost use Rattle.std.specs.Prelude.{◌≡◌, ◌==◌, if◌then◌else◌, Some, None};
ghost use Rattle.cell_memory.specs.Wholes.{difference_in, entry_in, value_in};

use sym_expr::{Point, Target, Value};

/// An entry of a table of jumps: its bytes, its scale and its two points.
#[derive(Clone, Copy, Debug, PartialEq, Eq)]
pub struct Entry {
    pub size: u8,
    pub scale: u8,
    pub first: Point,
    pub second: Point,
}

/// What is stored over several cells, of which each is a part.
#[derive(Clone, Copy, Debug, PartialEq, Eq)]
pub enum Whole {
    /// Eight parts of a value.
    Value(Value),
    /// The first target less the second, as four parts.
    Difference(Target, Target),
    Entry(Entry),
}

/// The offset of a first cell, and how many cells there are.
#[derive(Clone, Copy, Debug, PartialEq, Eq, Hash)]
pub struct Span {
    pub start: u64,
    pub count: u8,
}

impl Whole {
    /// The value of which the parts are, if it is one.
    pub fn value(self) -> Option<Value>
        ensures { result ≡ value_in self }
    {
        match self {
            Whole::Value(value) => Some(value),
            _ => None,
        }
    }

    /// The difference of which the parts are, if it is one.
    pub fn difference(self) -> Option<Value>
        ensures { result ≡ difference_in self }
    {
        match self {
            Whole::Difference(p, q) => Some(Value::Diff(p, q)),
            _ => None,
        }
    }

    /// The entry of so many bytes of which the parts are, if it is one.
    pub fn entry(self, count: u64) -> Option<Entry>
        ensures { result ≡ entry_in count self }
    {
        match self {
            Whole::Entry(entry) => entry.sized(count),
            _ => None,
        }
    }
}

impl Entry {
    fn sized(self, count: u64) -> Option<Entry>
        ensures { result ≡ (if self.size == count then Some self else None) }
    {
        if u64::from(self.size) == count {
            Some(self)
        } else {
            None
        }
    }
}
