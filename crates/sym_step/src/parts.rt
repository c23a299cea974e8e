//! What an instruction does, operation by operation: first what gives values, then what stores, and then the rest. Room
//! for what is stored is made between the first two, so that where there is none nothing has changed.

ghost use Rattle.std.specs.Prelude.{◌≡◌, ◌<◌, ◌≤◌, ◌+◌, ℕ, List, false, length, vec_len, vec_capacity, IsTrue, IsSome, IfOk, OnErr};
ghost use Rattle.std.specs.List.{list_all, list_any};
ghost use Rattle.a64_inst.specs.Domain.{exec, perform, then_do};
ghost use Rattle.a64_ops.specs.Sound.{is_sound};
ghost use Rattle.sym_expr.specs.declared.program.Program.{Program as ProgramOf};
ghost use Rattle.sym_expr.specs.declared.value.Object.{Object as ObjectOf};
ghost use Rattle.sym_expr.specs.declared.value.Value.{Value as ValueOf};
ghost use Rattle.sym_expr.specs.Points.{word_at};
ghost use Rattle.sym_expr.specs.States.{State};
ghost use Rattle.sym_expr.specs.Symbolic.{Outcome, symbolic};
ghost use Rattle.sym_values.specs.Answers.{answer_of};
ghost use Rattle.sym_values.specs.Kept.{kept_room};
ghost use Rattle.sym_step.specs.declared.flow.Flow.TheVariants.{On};
ghost use Rattle.sym_step.specs.Order.{behind_stores, behind_values, is_store, stores_early};
ghost use Rattle.sym_step.specs.Room.{RoomFor, RoomForAll};
ghost use Rattle.sym_step.specs.Runner.{came, flowed, Keeps, KeepsOutput, state};

use crate::flow::Flow;
use crate::given::{gives, value_at};
use crate::runner::Runner;
use a64_inst::Op;
use indexed_program::IndexedProgram;
use std::alloc::AllocError;
use sym_expr::{Cause, Value};

/// Whether an operation is a store.
fn is_store(op: &Op) -> bool
    ensures { result ≡ is_store op.now }
{
    matches!(op, Op::Store { .. })
}

impl<'a> Runner<'a> {
    /// Does the first operations that give values, and hands on those from the first on that gives none.
    fn start<'b>(
        &self,
        program: &IndexedProgram,
        values: &mut Vec<Value>,
        ops: &'b [Op],
    ) -> Result<&'b [Op], Cause>
        requires sound { IsTrue (list_all is_sound ops.now) }
        requires room { vec_len values.old + length ops.now ≤ vec_capacity values.old }
        ensures flows { exec (symbolic program.now) ops.now values.old.items (state self.now) ≡ then_do (answer_of result) (λ left. exec (symbolic program.now) left.now values.new.items (state self.now)) }
        ensures left { IfOk result (λ left. left.now ≡ behind_values ops.now) }
        ensures sound { IfOk result (λ left. IsTrue (list_all is_sound left.now)) }
        ensures room { IfOk result (λ left. vec_len values.new + length left.now ≤ vec_capacity values.new) }
    {
        let Some((first, rest)) = ops.split_first() else {
            return Ok(ops);
        };
        if !gives(first) {
            return Ok(ops);
        }
        let value = self.given(program, *first, values.as_slice())?;
        values.push_reserved(value);
        self.start(program, values, rest)
    }

    /// Does one operation that stores nothing.
    fn perform(&mut self, program: &IndexedProgram, values: &mut Vec<Value>, op: Op) -> Flow
        requires sound { IsTrue (is_sound op) }
        requires no_store { is_store op ≡ false }
        requires word { IsSome (word_at program.now self.old.place) }
        requires room { vec_len values.old < vec_capacity values.old }
        ensures flows { (go : List ValueOf → State → Outcome State) → perform (symbolic program.now) op go values.old.items (state self.old) ≡ flowed result values.new.items (state self.new) go }
        ensures place { result ≡ On → self.new.place ≡ self.old.place }
        ensures output { KeepsOutput self.old self.new }
        ensures few { vec_len values.new ≤ vec_len values.old + 1 }
        ensures room { vec_capacity values.old ≤ vec_capacity values.new }
    {
        if !gives(&op) {
            return self.changed(program, op, values.as_slice());
        }
        match self.given(program, op, values.as_slice()) {
            Ok(value) => {
                values.push_reserved(value);
                Flow::On
            }
            Err(cause) => Flow::Stuck(cause),
        }
    }

    /// Does operations that store nothing, one after the other; what does not jump goes on after the instruction.
    fn exec(&mut self, program: &IndexedProgram, values: &mut Vec<Value>, ops: &[Op]) -> Flow
        requires sound { IsTrue (list_all is_sound ops.now) }
        requires no_store { list_any is_store ops.now ≡ false }
        requires word { IsSome (word_at program.now self.old.place) }
        requires room { vec_len values.old + length ops.now ≤ vec_capacity values.old }
        ensures flows { exec (symbolic program.now) ops.now values.old.items (state self.old) ≡ came result (state self.new) }
        ensures output { KeepsOutput self.old self.new }
    {
        let Some((first, rest)) = ops.split_first() else {
            self.advance(program);
            return Flow::Placed;
        };
        match self.perform(program, values, *first) {
            Flow::On => self.exec(program, values, rest),
            flow => flow,
        }
    }

    /// Does a store for which there is room.
    fn perform_store(&mut self, values: &[Value], op: Op) -> Flow
        requires sound { IsTrue (is_sound op) }
        requires store { IsTrue (is_store op) }
        requires room { RoomFor self.old.memory 1 values.now op }
        ensures flows { (g : ProgramOf) (go : List ValueOf → State → Outcome State) → perform (symbolic g) op go values.now (state self.old) ≡ flowed result values.now (state self.new) go }
        ensures keeps { Keeps self.old self.new }
        ensures room { result ≡ On → (other : ObjectOf) (more : ℕ) → kept_room self.old.memory (more + 1) other → kept_room self.new.memory more other }
    {
        match op {
            Op::Store { bytes, value, at } => {
                self.store(bytes, &value_at(values, value), &value_at(values, at))
            }
            _ => Flow::On,
        }
    }

    /// Does the first stores, for which there is room, and then the rest.
    #[tactic(auto, using(crate::proofs::Rooms::left_over))]
    fn exec_stores(&mut self, program: &IndexedProgram, values: &mut Vec<Value>, ops: &[Op]) -> Flow
        requires sound { IsTrue (list_all is_sound ops.now) }
        requires early { list_any is_store (behind_stores ops.now) ≡ false }
        requires kept { RoomForAll self.old.memory (length ops.now) values.old.items ops.now }
        requires word { IsSome (word_at program.now self.old.place) }
        requires room { vec_len values.old + length ops.now ≤ vec_capacity values.old }
        ensures flows { exec (symbolic program.now) ops.now values.old.items (state self.old) ≡ came result (state self.new) }
        ensures output { KeepsOutput self.old self.new }
    {
        let Some((first, rest)) = ops.split_first() else {
            return self.exec(program, values, ops);
        };
        if !is_store(first) {
            return self.exec(program, values, ops);
        }
        sym_values::laws::room_for_more_is_room();
        match self.perform_store(values.as_slice(), *first) {
            Flow::On => self.exec_stores(program, values, rest),
            flow => flow,
        }
    }

    /// Does the operations of an instruction.
    pub fn exec_all(
        &mut self,
        program: &IndexedProgram,
        values: &mut Vec<Value>,
        ops: &[Op],
    ) -> Result<Flow, AllocError>
        requires sound { IsTrue (list_all is_sound ops.now) }
        requires early { IsTrue (stores_early ops.now) }
        requires word { IsSome (word_at program.now self.old.place) }
        requires room { vec_len values.old + length ops.now ≤ vec_capacity values.old }
        ensures flows { IfOk result (λ flow. exec (symbolic program.now) ops.now values.old.items (state self.old) ≡ came flow (state self.new)) }
        ensures err { OnErr result (state self.new ≡ state self.old) }
        ensures output { KeepsOutput self.old self.new }
    {
        match self.start(program, values, ops) {
            Ok(left) => {
                self.reserve(values.as_slice(), left, left.len())?;
                Ok(self.exec_stores(program, values, left))
            }
            Err(cause) => Ok(Flow::Stuck(cause)),
        }
    }
}
