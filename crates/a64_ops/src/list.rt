//! Lists of operations that take no memory.

ghost use Rattle.std.specs.Prelude.{◌≡◌, ◌+◌, ◌<◌, ◌≤◌, List, [], ◌∷◌, ◌++◌, length, take};
ghost use Rattle.a64_inst.specs.declared.operations.Op.{Op};

use a64_inst::Op;
use std::marker::Model;

/// The most operations that an instruction has: those of a stored pair that changes its base.
pub const LONGEST: usize = 12;

/// The operations of an instruction.
#[derive(Debug, Drop)]
pub struct OpList {
    list: [Op; LONGEST],
    count: usize,
}

impl Model for OpList {
    ghost Value = { List Op };

    ghost view = { λ ops. take ops.count ops.list };

    ghost invariant = { λ ops. ops.count ≤ 12 };
}

impl OpList {
    // The operations of these, one after the other.
    pub(crate) fn of(parts: &[Op]) -> OpList
        requires { length parts.now ≤ 12 }
        ensures { result ≡ parts.now }
    {
        let mut ops = OpList {
            list: [Op::Carry; LONGEST],
            count: 0,
        };
        ops.extend(parts);
        ops
    }

    fn push(&mut self, op: Op)
        requires { length self.old < 12 }
        ensures { self.new ≡ self.old ++ op ∷ [] }
    {
        self.list[self.count] = op;
        self.count += 1;
    }

    // These too, behind the others.
    pub(crate) fn extend(&mut self, more: &[Op])
        requires { length self.old + length more.now ≤ 12 }
        ensures { self.new ≡ self.old ++ more.now }
    {
        for op in more {
            self.push(*op);
        }
    }

    /// The operations in their order.
    pub fn as_slice(&self) -> &[Op]
        ensures { result.now ≡ self.now }
    {
        &self.list[..self.count]
    }
}
