//! What common instructions do.

ghost use Rattle.std.specs.Prelude.{◌≡◌, IfOk, IsTrue, OnErr};
ghost use Rattle.a64_inst.specs.Domain.{next, then_do};
ghost use Rattle.a64_ops.specs.Sound.{is_size};
ghost use Rattle.sym_expr.specs.Points.{after};
ghost use Rattle.sym_expr.specs.States.{State, with_register};
ghost use Rattle.sym_expr.specs.Symbolic.{advanced, Outcome};
ghost use Rattle.sym_values.specs.Answers.{answer_of};
ghost use Rattle.sym_step.specs.Common.{common_outcome, end_outcome, is_sound_end, start_outcome, stored};
ghost use Rattle.sym_step.specs.Runner.{came, Flows, KeepsOutput, state};

use crate::common::{Common, End, Start};
use crate::flow::Flow;
use crate::runner::Runner;
use indexed_program::IndexedProgram;
use std::alloc::AllocError;
use sym_expr::{Cause, Point, Value};
use sym_values::{join_low, operand, sum};

impl<'a> Runner<'a> {
    /// On to the point after the instruction, where it is known.
    fn advance_to(&mut self, program: &IndexedProgram, onward: &Point)
        requires { onward.now ≡ after program.now self.old.place }
        ensures machine { state self.new ≡ advanced program.now (state self.old) }
        ensures output { self.new.output.bytes.items ≡ self.old.output.bytes.items }
    {
        let _ = program;
        self.go_to(*onward);
    }

    /// Keeps a value in a register, and goes on to the point after the instruction.
    fn put(
        &mut self,
        program: &IndexedProgram,
        onward: &Point,
        stack: bool,
        register: u8,
        value: Value,
    ) -> Flow
        requires { onward.now ≡ after program.now self.old.place }
        ensures flows { next (advanced program.now (with_register stack register value (state self.old))) ≡ came result (state self.new) }
        ensures output { KeepsOutput self.old self.new }
    {
        self.set_register(stack, register, value);
        self.advance_to(program, onward);
        Flow::Placed
    }

    /// The first value of a common instruction.
    fn start_value(&self, program: &IndexedProgram, start: &Start) -> Result<Value, Cause>
        ensures { answer_of result ≡ start_outcome program.now start.now (state self.now) }
    {
        match *start {
            Start::Joined {
                stack,
                register,
                unit,
                field,
            } => join_low(
                program,
                unit,
                field,
                &self.register(stack, register),
                &self.named,
            ),
            Start::Summed {
                stack,
                register,
                sum: kind,
                width,
                number,
            } => sum(
                program,
                kind,
                width,
                &self.register(stack, register),
                &Value::Num(number),
            ),
        }
    }

    /// On to the point after the instruction where a store goes on.
    fn behind_store(&mut self, program: &IndexedProgram, onward: &Point, flow: Flow) -> Flow
        requires { onward.now ≡ after program.now self.old.place }
        ensures flows { (outcome : Outcome State) → Flows outcome flow (state self.old) → then_do outcome (λ t. next (advanced program.now t)) ≡ came result (state self.new) }
        ensures output { self.new.output.bytes.items ≡ self.old.output.bytes.items }
    {
        match flow {
            Flow::On => {
                self.advance_to(program, onward);
                Flow::Placed
            }
            flow => flow,
        }
    }

    /// Stores a value at another, and goes on to the point after the instruction.
    fn put_stored(
        &mut self,
        program: &IndexedProgram,
        onward: &Point,
        bytes: u8,
        value: &Value,
        at: &Value,
    ) -> Result<Flow, AllocError>
        requires size { IsTrue (is_size bytes) }
        requires after { onward.now ≡ after program.now self.old.place }
        ensures flows { IfOk result (λ flow. stored program.now bytes value.now at.now (state self.old) ≡ came flow (state self.new)) }
        ensures err { OnErr result (state self.new ≡ state self.old) }
        ensures output { KeepsOutput self.old self.new }
    {
        let flow = self.store_common(bytes, value, at)?;
        Ok(self.behind_store(program, onward, flow))
    }

    /// What comes of the first value of a common instruction.
    fn do_end(
        &mut self,
        program: &IndexedProgram,
        onward: &Point,
        end: &End,
        first: &Value,
    ) -> Result<Flow, AllocError>
        requires sound { IsTrue (is_sound_end end.now) }
        requires after { onward.now ≡ after program.now self.old.place }
        ensures flows { IfOk result (λ flow. end_outcome program.now end.now first.now (state self.old) ≡ came flow (state self.new)) }
        ensures err { OnErr result (state self.new ≡ state self.old) }
        ensures output { KeepsOutput self.old self.new }
    {
        match *end {
            End::Write { stack, register } => Ok(self.put(
                program, onward, stack, register, *first,
            )),
            End::Load {
                bytes,
                signed,
                width,
                stack,
                register,
            } => match self.load(program, bytes, signed, width, first) {
                Ok(value) => Ok(self.put(program, onward, stack, register, value)),
                Err(cause) => Ok(Flow::Stuck(cause)),
            },
            End::Store {
                bytes,
                stack,
                register,
                function,
                width,
            } => match operand(function, width, &self.register(stack, register)) {
                Ok(value) => self.put_stored(program, onward, bytes, &value, first),
                Err(cause) => Ok(Flow::Stuck(cause)),
            },
        }
    }

    /// Does a common instruction.
    pub fn do_common(
        &mut self,
        program: &IndexedProgram,
        onward: &Point,
        common: &Common,
    ) -> Result<Flow, AllocError>
        requires sound { IsTrue (is_sound_end common.now.end) }
        requires after { onward.now ≡ after program.now self.old.place }
        ensures flows { IfOk result (λ flow. common_outcome program.now common.now (state self.old) ≡ came flow (state self.new)) }
        ensures err { OnErr result (state self.new ≡ state self.old) }
        ensures output { KeepsOutput self.old self.new }
    {
        match self.start_value(program, &common.start) {
            Ok(first) => self.do_end(program, onward, &common.end, &first),
            Err(cause) => Ok(Flow::Stuck(cause)),
        }
    }
}
