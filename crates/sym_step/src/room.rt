//! Room for all that an instruction stores, made before anything is stored.

ghost use Rattle.std.specs.Prelude.{◌≡◌, ℕ, OnOk};
ghost use Rattle.sym_expr.specs.declared.value.Object.{Object as ObjectOf};
ghost use Rattle.sym_values.specs.Kept.{kept_room};
ghost use Rattle.sym_step.specs.Room.{RoomAt, RoomFor, RoomForAll};
ghost use Rattle.sym_step.specs.Runner.{Keeps, state};

use crate::given::value_at;
use crate::runner::Runner;
use a64_inst::Op;
use std::alloc::AllocError;
use sym_expr::Value;

impl<'a> Runner<'a> {
    /// Makes room for so many values more where an address leads.
    pub fn reserve_at(&mut self, at: &Value, count: usize) -> Result<(), AllocError>
        ensures state { state self.new ≡ state self.old }
        ensures keeps { Keeps self.old self.new }
        ensures ok { OnOk result (RoomAt self.new.memory count at.now) }
        ensures room { (other : ObjectOf) (more : ℕ) → kept_room self.old.memory more other → kept_room self.new.memory more other }
    {
        match at {
            Value::Addr(object, _) => self.memory.reserve(*object, count),
            _ => Ok(()),
        }
    }

    /// Makes room for so many values more where an operation stores, if it does.
    fn reserve_for(&mut self, values: &[Value], op: &Op, count: usize) -> Result<(), AllocError>
        ensures state { state self.new ≡ state self.old }
        ensures ok { OnOk result (RoomFor self.new.memory count values.now op.now) }
        ensures room { (other : ObjectOf) (more : ℕ) → kept_room self.old.memory more other → kept_room self.new.memory more other }
    {
        match *op {
            Op::Store { at, .. } => self.reserve_at(&value_at(values, at), count),
            _ => Ok(()),
        }
    }

    /// Makes room for so many values more wherever one of these operations stores.
    #[tactic(auto, using(crate::proofs::Rooms::grown))]
    pub fn reserve(&mut self, values: &[Value], ops: &[Op], count: usize) -> Result<(), AllocError>
        ensures state { state self.new ≡ state self.old }
        ensures ok { OnOk result (RoomForAll self.new.memory count values.now ops.now) }
        ensures room { (other : ObjectOf) (more : ℕ) → kept_room self.old.memory more other → kept_room self.new.memory more other }
    {
        let Some((first, rest)) = ops.split_first() else {
            return Ok(());
        };
        self.reserve_for(values, first, count)?;
        self.reserve(values, rest, count)
    }
}
