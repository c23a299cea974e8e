//! Operations that change the machine.

ghost use Rattle.std.specs.Prelude.{◌≡◌, List, IsTrue, IsSome, false, if◌then◌else◌};
ghost use Rattle.a64_inst.specs.Domain.{next, perform, then_do};
ghost use Rattle.a64_inst.specs.Numbers.{bits_of, logic_flags, named_flags};
ghost use Rattle.a64_inst.specs.declared.operations.Op.TheVariants.{Keep};
ghost use Rattle.a64_ops.specs.Sound.{is_sound};
ghost use Rattle.sym_expr.specs.declared.cause.Cause.TheVariants.{Value as ValueCause};
ghost use Rattle.sym_expr.specs.declared.program.Program.{Program as ProgramOf};
ghost use Rattle.sym_expr.specs.declared.value.Value.{Value as ValueOf};
ghost use Rattle.sym_expr.specs.Points.{word_at};
ghost use Rattle.sym_expr.specs.States.{State};
ghost use Rattle.sym_expr.specs.Symbolic.{Outcome, flags_outcome, is_zero, jumped, known, or_stuck, symbolic, with_flags};
ghost use Rattle.sym_expr.specs.Values.{number_in};
ghost use Rattle.sym_values.specs.Answers.{answer_of};
ghost use Rattle.sym_step.specs.Order.{is_store};
ghost use Rattle.sym_step.specs.declared.flow.Flow.TheVariants.{On};
ghost use Rattle.sym_step.specs.Runner.{flowed, Flows, gives, Keeps, KeepsOutput, sets_flags, sets_tested_flags, state};

use crate::flow::Flow;
use crate::given::value_at;
use crate::runner::Runner;
use a64_inst::{Flags, Op, Sum, Width};
use a64_numbers::sums::flags_of_logic;
use indexed_program::IndexedProgram;
use sym_expr::{Cause, KnownFlags, Value};
use sym_values::{carried_flags, is_zero, known, number};

impl<'a> Runner<'a> {
    /// Sets flags, where there are some.
    fn put_flags(&mut self, flags: Result<KnownFlags, Cause>) -> Flow
        ensures flows { Flows (then_do (answer_of flags) (λ f. next (with_flags (state self.old) f))) result (state self.new) }
        ensures keeps { Keeps self.old self.new }
    {
        match flags {
            Ok(flags) => {
                self.flags = flags;
                Flow::On
            }
            Err(cause) => Flow::Stuck(cause),
        }
    }

    /// Sets the flags of a logical result.
    fn put_logic_flags(&mut self, width: Width, value: &Value) -> Flow
        ensures flows { Flows (then_do (or_stuck ValueCause (number_in value.now)) (λ n. next (with_flags (state self.old) (known (logic_flags (bits_of width) n))))) result (state self.new) }
        ensures keeps { Keeps self.old self.new }
    {
        match number(value) {
            Ok(n) => {
                self.flags = known(flags_of_logic(width, n));
                Flow::On
            }
            Err(cause) => Flow::Stuck(cause),
        }
    }

    /// Sets the flags of a sum where a test holds, else those that four bits name.
    fn put_flags_if(
        &mut self,
        sum: Sum,
        width: Width,
        test: &Value,
        first: &Value,
        second: &Value,
        nzcv: u8,
    ) -> Flow
        ensures flows { Flows (if is_zero test.now then next (with_flags (state self.old) (known (named_flags nzcv))) else then_do (flags_outcome (state self.old) sum width first.now second.now) (λ f. next (with_flags (state self.old) f))) result (state self.new) }
        ensures keeps { Keeps self.old self.new }
    {
        if is_zero(test) {
            self.flags = known(Flags::named(nzcv));
            return Flow::On;
        }
        let flags = self.flags_of(sum, width, first, second);
        self.put_flags(flags)
    }

    /// Sets the flags of a sum with a carry, or of a sum where a test holds.
    fn change_tested_flags(&mut self, op: Op, values: &[Value]) -> Flow
        requires { IsTrue (sets_tested_flags op) }
        ensures flows { (g : ProgramOf) (go : List ValueOf → State → Outcome State) → perform (symbolic g) op go values.now (state self.old) ≡ flowed result values.now (state self.new) go }
        ensures keeps { Keeps self.old self.new }
    {
        match op {
            Op::FlagsOfCarry {
                sum,
                width,
                first,
                second,
                carry,
            } => self.put_flags(carried_flags(
                sum,
                width,
                &value_at(values, first),
                &value_at(values, second),
                &value_at(values, carry),
            )),
            Op::FlagsIf {
                sum,
                width,
                test,
                first,
                second,
                nzcv,
            } => self.put_flags_if(
                sum,
                width,
                &value_at(values, test),
                &value_at(values, first),
                &value_at(values, second),
                nzcv,
            ),
            _ => Flow::On,
        }
    }

    /// Does an operation that sets flags.
    fn change_flags(&mut self, op: Op, values: &[Value]) -> Flow
        requires { IsTrue (sets_flags op) }
        ensures flows { (g : ProgramOf) (go : List ValueOf → State → Outcome State) → perform (symbolic g) op go values.now (state self.old) ≡ flowed result values.now (state self.new) go }
        ensures keeps { Keeps self.old self.new }
    {
        match op {
            Op::FlagsOfSum {
                sum,
                width,
                first,
                second,
            } => {
                let flags = self.flags_of(
                    sum,
                    width,
                    &value_at(values, first),
                    &value_at(values, second),
                );
                self.put_flags(flags)
            }
            Op::FlagsOfLogic { width, value } => {
                self.put_logic_flags(width, &value_at(values, value))
            }
            _ => self.change_tested_flags(op, values),
        }
    }

    /// Register 30 gets the point after the instruction.
    fn link(&mut self, program: &IndexedProgram)
        requires { IsSome (word_at program.now self.old.place) }
        ensures machine { (symbolic program.now).link (state self.old) ≡ next (state self.new) }
        ensures keeps { Keeps self.old self.new }
    {
        let after = self.after(program);
        self.set_register(false, 30, Value::At(after));
    }

    /// On at a value.
    fn jump(&mut self, at: &Value) -> Flow
        ensures flows { (values : List ValueOf) (go : List ValueOf → State → Outcome State) → jumped at.now (state self.old) ≡ flowed result values (state self.new) go }
        ensures place { result ≡ On → self.new.place ≡ self.old.place }
        ensures output { self.new.output.bytes.items ≡ self.old.output.bytes.items }
    {
        match at {
            Value::At(point) => {
                self.go_to(*point);
                Flow::Placed
            }
            _ => Flow::Stuck(Cause::Value),
        }
    }

    /// On at a value where a test holds, else at the point after the instruction.
    fn jump_if(&mut self, program: &IndexedProgram, test: &Value, at: &Value) -> Flow
        requires { IsSome (word_at program.now self.old.place) }
        ensures flows { (values : List ValueOf) (go : List ValueOf → State → Outcome State) → (symbolic program.now).jump_if test.now at.now (state self.old) ≡ flowed result values (state self.new) go }
        ensures place { result ≡ On → self.new.place ≡ self.old.place }
        ensures output { self.new.output.bytes.items ≡ self.old.output.bytes.items }
    {
        if is_zero(test) {
            self.advance(program);
            Flow::Placed
        } else {
            self.jump(at)
        }
    }

    /// The rest is left out where a register keeps no result.
    fn keep(&mut self, program: &IndexedProgram, register: u8) -> Flow
        requires { IsSome (word_at program.now self.old.place) }
        ensures flows { (values : List ValueOf) (go : List ValueOf → State → Outcome State) → perform (symbolic program.now) (Keep register) go values (state self.old) ≡ flowed result values (state self.new) go }
        ensures place { result ≡ On → self.new.place ≡ self.old.place }
        ensures output { self.new.output.bytes.items ≡ self.old.output.bytes.items }
    {
        if register == 31 {
            self.advance(program);
            Flow::Placed
        } else {
            Flow::On
        }
    }

    /// Does an operation that gives no value and stores none.
    pub fn changed(&mut self, program: &IndexedProgram, op: Op, values: &[Value]) -> Flow
        requires sound { IsTrue (is_sound op) }
        requires none { gives op ≡ false }
        requires no_store { is_store op ≡ false }
        requires word { IsSome (word_at program.now self.old.place) }
        ensures flows { (go : List ValueOf → State → Outcome State) → perform (symbolic program.now) op go values.now (state self.old) ≡ flowed result values.now (state self.new) go }
        ensures place { result ≡ On → self.new.place ≡ self.old.place }
        ensures output { KeepsOutput self.old self.new }
    {
        match op {
            Op::Write {
                stack,
                register,
                value,
            } => {
                self.set_register(stack, register, value_at(values, value));
                Flow::On
            }
            Op::Link => {
                self.link(program);
                Flow::On
            }
            Op::Call(immediate) => self.call(immediate),
            Op::Keep(register) => self.keep(program, register),
            Op::Jump(at) => self.jump(&value_at(values, at)),
            Op::JumpIf { test, at } => {
                self.jump_if(program, &value_at(values, test), &value_at(values, at))
            }
            Op::Trap(why) => Flow::Trap(why),
            _ => self.change_flags(op, values),
        }
    }
}
