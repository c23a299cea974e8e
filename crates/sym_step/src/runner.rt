ghost use Rattle.std.specs.Prelude.{◌≡◌, ◌≤◌, ◌^◌, IfOk, IsSome};
ghost use Rattle.sym_expr.specs.Points.{after, word_at};
ghost use Rattle.sym_expr.specs.States.{register, start, with_register};
ghost use Rattle.sym_expr.specs.Symbolic.{advanced, at_place};
ghost use Rattle.sym_expr.specs.WellMade.{well_made};
ghost use Rattle.sym_step.specs.Runner.{Keeps, state};

use crate::output::Output;
use crate::registers::Registers;
use indexed_program::IndexedProgram;
use std::alloc::{AllocError, Global};
use sym_expr::{KnownFlags, Object, Point, Target, Value};
use sym_values::KeptCells;

/// The machine while it runs.
#[derive(Drop)]
pub struct Runner<'a> {
    pub registers: Registers,
    pub flags: KnownFlags,
    pub memory: KeptCells,
    /// The point of the next instruction, or while one is done its own.
    pub place: Point,
    /// What the instruction's expression names.
    pub named: Option<Target>,
    /// What is left of the input.
    pub input: &'a [u8],
    pub output: Output,
}

impl<'a> Runner<'a> {
    /// The machine before the first instruction of a program.
    pub fn new(
        alloc: Global,
        program: &IndexedProgram,
        stack: u64,
        input: &'a [u8],
    ) -> Result<Runner<'a>, AllocError>
        requires { stack ≤ 2 ^ 24 }
        ensures { IfOk result (λ runner. state runner ≡ start program.now stack input.now) }
    {
        let known = Some(false);
        let program = program.program();
        Ok(Runner {
            registers: Registers {
                general: [Value::Num(0); 31],
                stack_pointer: Value::Addr(Object::Stack, stack),
            },
            flags: KnownFlags {
                n: known,
                z: known,
                c: known,
                v: known,
            },
            memory: KeptCells::open(alloc, program, stack)?,
            place: program.entry,
            named: None,
            input,
            output: Output::new(alloc)?,
        })
    }

    /// A register, where from 31 on it is for true the stack pointer and for false zero.
    pub fn register(&self, stack: bool, r: u8) -> Value
        ensures { result ≡ register stack r (state self.now) }
    {
        self.registers.get(stack, r)
    }

    /// Keeps a value in a register, as for `register`; zero keeps none.
    pub fn set_register(&mut self, stack: bool, r: u8, value: Value)
        ensures machine { state self.new ≡ with_register stack r value (state self.old) }
        ensures keeps { Keeps self.old self.new }
    {
        self.registers.set(stack, r, value);
    }

    /// On to a point.
    pub fn go_to(&mut self, place: Point)
        ensures machine { state self.new ≡ at_place place (state self.old) }
        ensures output { self.new.output.bytes.items ≡ self.old.output.bytes.items }
    {
        self.place = place;
    }

    /// The point after the instruction.
    pub fn after(&self, program: &IndexedProgram) -> Point
        requires { IsSome (word_at program.now self.now.place) }
        ensures { result ≡ after program.now (state self.now).place }
    {
        program.after(self.place)
    }

    /// On to the point after the instruction.
    pub fn advance(&mut self, program: &IndexedProgram)
        requires { IsSome (word_at program.now self.old.place) }
        ensures machine { state self.new ≡ advanced program.now (state self.old) }
        ensures output { self.new.output.bytes.items ≡ self.old.output.bytes.items }
    {
        let place = self.after(program);
        self.go_to(place);
    }
}
