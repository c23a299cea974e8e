//! System calls.

ghost use Rattle.std.specs.Prelude.{◌≡◌, ◌≤◌, ◌<◌, length};
ghost use Rattle.sym_expr.specs.Symbolic.{call_done, call_of, called, received, written};
ghost use Rattle.sym_step.specs.Runner.{Flows, Keeps, KeepsOutput, received_at, state, written_from};

use crate::flow::Flow;
use crate::runner::Runner;
use a64_inst::Trap;
use sym_expr::{Cause, Object, Value};
use sym_values::number;

impl<'a> Runner<'a> {
    /// Does the system call that X8 names.
    pub fn call(&mut self, immediate: u16) -> Flow
        ensures flows { Flows (called immediate (state self.old)) result (state self.new) }
        ensures output { KeepsOutput self.old self.new }
        ensures place { self.new.place ≡ self.old.place }
    {
        if immediate != 0 {
            return Flow::Trap(Trap::BadCall);
        }
        match number(&self.register(false, 8)) {
            Ok(call) => self.call_of(call),
            Err(cause) => Flow::Stuck(cause),
        }
    }

    fn call_of(&mut self, call: u64) -> Flow
        ensures flows { Flows (call_of call (state self.old)) result (state self.new) }
        ensures output { KeepsOutput self.old self.new }
        ensures place { self.new.place ≡ self.old.place }
    {
        match call {
            93 => self.exit(),
            64 => self.write_call(),
            63 => self.read_call(),
            _ => Flow::Trap(Trap::BadCall),
        }
    }

    /// Call 93.
    fn exit(&self) -> Flow
        ensures { Flows (call_of 93 (state self.now)) result (state self.now) }
    {
        match number(&self.register(false, 0)) {
            Ok(status) => Flow::Exit((status % 256) as u8),
            Err(cause) => Flow::Stuck(cause),
        }
    }

    /// Call 64.
    fn write_call(&mut self) -> Flow
        ensures flows { Flows (call_of 64 (state self.old)) result (state self.new) }
        ensures output { KeepsOutput self.old self.new }
        ensures place { self.new.place ≡ self.old.place }
    {
        match number(&self.register(false, 0)) {
            Ok(1) => match number(&self.register(false, 2)) {
                Ok(count) => self.write(count),
                Err(cause) => Flow::Stuck(cause),
            },
            Ok(_) => Flow::Trap(Trap::BadCall),
            Err(cause) => Flow::Stuck(cause),
        }
    }

    /// Call 63.
    fn read_call(&mut self) -> Flow
        ensures flows { Flows (call_of 63 (state self.old)) result (state self.new) }
        ensures output { KeepsOutput self.old self.new }
        ensures place { self.new.place ≡ self.old.place }
    {
        match number(&self.register(false, 0)) {
            Ok(0) => match number(&self.register(false, 2)) {
                Ok(count) => self.read_input(count.min(self.input.len() as u64)),
                Err(cause) => Flow::Stuck(cause),
            },
            Ok(_) => Flow::Trap(Trap::BadCall),
            Err(cause) => Flow::Stuck(cause),
        }
    }

    /// The call is done, for so many bytes.
    fn call_done(&mut self, count: u64) -> Flow
        ensures flows { Flows (call_done count (state self.old)) result (state self.new) }
        ensures keeps { Keeps self.old self.new }
    {
        self.set_register(false, 0, Value::Num(count));
        Flow::On
    }

    /// Writes so many bytes.
    fn write(&mut self, count: u64) -> Flow
        ensures flows { Flows (written count (state self.old)) result (state self.new) }
        ensures output { KeepsOutput self.old self.new }
        ensures place { self.new.place ≡ self.old.place }
    {
        if count == 0 {
            return self.call_done(count);
        }
        match self.register(false, 1) {
            Value::Addr(object, at) => self.write_from(&object, at, count),
            _ => Flow::Stuck(Cause::Value),
        }
    }

    /// Writes so many bytes of an object.
    #[tactic(auto, using(crate::proofs::Cells::bytes_have_no_blank, crate::proofs::Cells::bytes_have_length))]
    fn write_from(&mut self, object: &Object, at: u64, count: u64) -> Flow
        requires { 0 < count }
        ensures flows { Flows (written_from count object.now at (state self.old)) result (state self.new) }
        ensures output { KeepsOutput self.old self.new }
        ensures place { self.new.place ≡ self.old.place }
    {
        if !self.is_inside(object, at, count) {
            return Flow::Stuck(Cause::Outside);
        }
        if !self.output.has_room(count) {
            return Flow::Trap(Trap::OutputFull);
        }
        let Some(bytes) = self.memory.bytes(*object, at, count) else {
            let blank = self.memory.has_blank(*object, at, count);
            return Flow::Stuck(if blank {
                Cause::Undefined
            } else {
                Cause::Mixed
            });
        };
        self.output.write(bytes);
        self.call_done(count)
    }

    /// Puts so many bytes of the input at the address in X1.
    fn read_input(&mut self, count: u64) -> Flow
        requires { count ≤ length self.old.input.now }
        ensures flows { Flows (received count (state self.old)) result (state self.new) }
        ensures keeps { Keeps self.old self.new }
    {
        if count == 0 {
            return self.call_done(0);
        }
        match self.register(false, 1) {
            Value::Addr(object, at) => self.read_to(&object, at, count),
            _ => Flow::Stuck(Cause::Value),
        }
    }

    /// Puts so many bytes of the input into an object.
    fn read_to(&mut self, object: &Object, at: u64, count: u64) -> Flow
        requires { count ≤ length self.old.input.now }
        ensures flows { Flows (received_at count object.now at (state self.old)) result (state self.new) }
        ensures keeps { Keeps self.old self.new }
    {
        if !self.is_inside(object, at, count) {
            return Flow::Stuck(Cause::Outside);
        }
        let (bytes, rest) = self.input.split_at(count as usize);
        self.memory.put_bytes(*object, at, bytes);
        self.input = rest;
        self.call_done(count)
    }
}
