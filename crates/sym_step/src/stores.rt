//! Stores, for which there is room.

ghost use Rattle.std.specs.Prelude.{◌≡◌, ◌+◌, ℕ, IfOk, IsTrue, OnErr};
ghost use Rattle.a64_ops.specs.Sound.{is_size};
ghost use Rattle.sym_expr.specs.declared.value.Object.{Object as ObjectOf};
ghost use Rattle.sym_expr.specs.declared.value.Value.TheVariants.{Num};
ghost use Rattle.sym_expr.specs.States.{number_cells, value_cells};
ghost use Rattle.sym_expr.specs.Symbolic.{put_cells, store_outcome};
ghost use Rattle.sym_values.specs.Kept.{kept_room};
ghost use Rattle.sym_step.specs.Room.{RoomAt};
ghost use Rattle.sym_step.specs.declared.flow.Flow.TheVariants.{On};
ghost use Rattle.sym_step.specs.Runner.{Flows, Keeps, state};

use crate::flow::Flow;
use crate::runner::Runner;
use std::alloc::AllocError;
use sym_expr::{Cause, Value};
use sym_values::{laws, number_in};

impl<'a> Runner<'a> {
    /// Puts the low bytes of a number at an address.
    #[tactic(auto, using(crate::proofs::Cells::number_has_length))]
    fn put_number(&mut self, count: u8, n: u64, at: &Value) -> Flow
        requires { IsTrue (is_size count) }
        ensures flows { Flows (put_cells at.now (number_cells count n) (state self.old)) result (state self.new) }
        ensures keeps { Keeps self.old self.new }
        ensures room { (other : ObjectOf) (more : ℕ) → kept_room self.old.memory more other → kept_room self.new.memory more other }
    {
        let Value::Addr(object, offset) = at else {
            return Flow::Stuck(Cause::Value);
        };
        let count = u64::from(count);
        if !self.is_inside(object, *offset, count) {
            return Flow::Stuck(Cause::Outside);
        }
        self.memory.put_number(*object, *offset, count, n);
        Flow::On
    }

    /// Puts a value at an address.
    #[tactic(auto, using(crate::proofs::Cells::value_has_length))]
    fn put_value(&mut self, value: &Value, at: &Value) -> Flow
        requires { RoomAt self.old.memory 1 at.now }
        ensures flows { Flows (put_cells at.now (value_cells value.now) (state self.old)) result (state self.new) }
        ensures keeps { Keeps self.old self.new }
        ensures room { result ≡ On → (other : ObjectOf) (more : ℕ) → kept_room self.old.memory (more + 1) other → kept_room self.new.memory more other }
    {
        let Value::Addr(object, offset) = at else {
            return Flow::Stuck(Cause::Value);
        };
        if !self.is_inside(object, *offset, 8) {
            return Flow::Stuck(Cause::Outside);
        }
        let _ = self.memory.put_value(*object, *offset, *value);
        Flow::On
    }

    /// Stores so many bytes of a number.
    fn store_number(&mut self, count: u8, n: u64, at: &Value) -> Flow
        requires { IsTrue (is_size count) }
        ensures flows { Flows (store_outcome count (Num n) at.now (state self.old)) result (state self.new) }
        ensures keeps { Keeps self.old self.new }
    {
        if count == 8 {
            self.put_number(8, n, at)
        } else {
            self.put_number(count, n, at)
        }
    }

    /// Stores so many bytes of a value, with room made for what is no number.
    pub fn store_common(&mut self, count: u8, value: &Value, at: &Value) -> Result<Flow, AllocError>
        requires { IsTrue (is_size count) }
        ensures flows { IfOk result (λ flow. Flows (store_outcome count value.now at.now (state self.old)) flow (state self.new)) }
        ensures err { OnErr result (state self.new ≡ state self.old) }
        ensures keeps { Keeps self.old self.new }
    {
        if let Value::Num(n) = *value {
            return Ok(self.store_number(count, n, at));
        }
        self.reserve_at(at, 1)?;
        Ok(self.store(count, value, at))
    }

    /// Stores so many bytes of a value at an address: eight bytes hold any value.
    pub fn store(&mut self, count: u8, value: &Value, at: &Value) -> Flow
        requires size { IsTrue (is_size count) }
        requires room { RoomAt self.old.memory 1 at.now }
        ensures flows { Flows (store_outcome count value.now at.now (state self.old)) result (state self.new) }
        ensures keeps { Keeps self.old self.new }
        ensures room { result ≡ On → (other : ObjectOf) (more : ℕ) → kept_room self.old.memory (more + 1) other → kept_room self.new.memory more other }
    {
        laws::room_for_more_is_room();
        if count == 8 {
            return self.put_value(value, at);
        }
        match number_in(value) {
            Some(n) => self.put_number(count, n, at),
            None => Flow::Stuck(Cause::Value),
        }
    }
}
