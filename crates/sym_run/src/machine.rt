//! Machines that run step by step.

use crate::next::next_at;
use crate::report::{Next, SymEnd};
use crate::steps::step_on;
use indexed_program::IndexedProgram;
use std::alloc::{AllocError, Global};
use std::marker::Model;
use sym_expr::{Program, Value};
use sym_step::{Cache, Runner};

/// A machine that runs a program, and how far it has run.
#[derive(Drop)]
pub struct SymMachine<'a> {
    program: IndexedProgram,
    stack: u64,
    input: &'a [u8],
    runner: Runner<'a>,
    values: Vec<Value>,
    cache: Cache,
    /// How many steps were asked for.
    count: u64,
    /// How many instructions were done.
    done: u64,
    end: SymEnd,
}

impl<'a> Model for SymMachine<'a> {
    ghost use Rattle.sym_run.specs.Opened.{Opened};

    ghost Value = { Opened };

    ghost use Rattle.sym_run.specs.Machine.{opened, Stands};

    ghost view = { opened };

    ghost invariant = { Stands };
}

impl<'a> SymMachine<'a> {
    ghost use Rattle.std.specs.Prelude.{◌≡◌, ◌≤◌, ◌<◌, ◌+◌, ◌^◌, IfOk, OnOk, OnErr};
    ghost use Rattle.sym_expr.specs.WellMade.{well_made};
    ghost use Rattle.sym_run.specs.Next.{next_at};
    ghost use Rattle.sym_run.specs.Opened.{held, report};

    /// The machine before the first instruction of a program, with a stack of so many bytes.
    pub fn over(
        alloc: Global,
        program: Program,
        stack: u64,
        input: &'a [u8],
    ) -> Result<SymMachine<'a>, AllocError>
        requires program { well_made program }
        requires stack { stack ≤ 2 ^ 24 }
        ensures { IfOk result (λ machine. machine ≡ record { program = program; stack = stack; input = input.now; count = 0 }) }
    {
        let program = IndexedProgram::new(alloc, program)?;
        let runner = Runner::new(alloc, &program, stack, input)?;
        let cache = Cache::new(alloc)?;
        Ok(SymMachine {
            program,
            stack,
            input,
            runner,
            values: Vec::new(alloc),
            cache,
            count: 0,
            done: 0,
            end: SymEnd::Running,
        })
    }

    /// Does one step more, and answers how the run stands then. Where memory is wanted the machine is as it was.
    pub fn step(&mut self) -> Result<SymEnd, AllocError>
        requires { self.old.count < 10000000 }
        ensures machine { OnOk result (self.new ≡ record self.old { count = self.old.count + 1 }) }
        ensures end { IfOk result (λ end. end ≡ (report self.new).end) }
        ensures err { OnErr result (self.new ≡ self.old) }
    {
        let stop = step_on(
            &mut self.runner,
            &self.program,
            &mut self.values,
            &mut self.cache,
            self.end,
        )?;
        self.done += stop.done;
        self.end = stop.end;
        self.count += 1;
        Ok(self.end)
    }

    /// What the machine comes to next, also where its run has ended.
    pub fn next(&self) -> Next
        ensures { result ≡ next_at self.now.program (held self.now).place }
    {
        next_at(&self.program, self.runner.place)
    }

    /// The bytes that were written.
    pub fn output(&self) -> &[u8]
        ensures { result.now ≡ (report self.now).output }
    {
        self.runner.output.bytes.as_slice()
    }
}
