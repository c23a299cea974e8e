//! One step.

ghost use Rattle.std.specs.Prelude.{◌≡◌, [], take, IfOk, OnErr};
ghost use Rattle.a64_inst.specs.declared.trap.Trap.TheVariants.{Undecoded};
ghost use Rattle.a64_inst.specs.Domain.{ended, exec, trapped};
ghost use Rattle.sym_expr.specs.declared.cause.Cause.{Cause as CauseOf};
ghost use Rattle.sym_expr.specs.Symbolic.{symbolic};
ghost use Rattle.sym_expr.specs.Steps.{step};
ghost use Rattle.sym_step.specs.declared.flow.Flow.TheVariants.{Stuck};
ghost use Rattle.sym_step.specs.Found.{IsCache, IsFound};
ghost use Rattle.sym_step.specs.Runner.{came, Keeps, KeepsOutput, state};

use crate::cache::{Cache, Found};
use crate::flow::Flow;
use crate::runner::Runner;
use a64_decode::decode;
use a64_inst::{Trap, laws};
use indexed_program::IndexedProgram;
use std::alloc::AllocError;
use sym_expr::{Cause, Point, Target, Value};

impl<'a> Runner<'a> {
    /// Takes back what a stuck instruction has changed of what is seen.
    fn take_back(&mut self, place: &Point, written: usize)
        ensures place { self.new.place ≡ place.now }
        ensures output { self.new.output.bytes.items ≡ take written self.old.output.bytes.items }
    {
        self.place = *place;
        self.output.take_back(written);
    }

    /// The word at a point is no instruction.
    fn undecoded(&mut self, at: &Point, named: Option<Target>) -> Flow
        ensures { ended (trapped Undecoded) (record (state self.old) { place = at.now; named = named }) ≡ came result (state self.new) }
    {
        self.place = *at;
        self.named = named;
        Flow::Trap(Trap::Undecoded)
    }

    /// Does the operations of what was found, at its point.
    #[tactic(auto, using(crate::proofs::Commons::common_is))]
    fn do_found(
        &mut self,
        program: &IndexedProgram,
        values: &mut Vec<Value>,
        found: &Found,
    ) -> Result<Flow, AllocError>
        requires found { IsFound program.now found.now }
        requires place { self.old.place ≡ found.now.at }
        ensures flows { IfOk result (λ flow. exec (symbolic program.now) found.now.ops [] (state self.old) ≡ came flow (state self.new)) }
        ensures err { OnErr result (state self.new ≡ state self.old) }
        ensures output { KeepsOutput self.old self.new }
    {
        if let Some(common) = &found.common {
            return self.do_common(program, &found.after, common);
        }
        let ops = found.ops.as_slice();
        values.clear();
        values.reserve(ops.len())?;
        self.exec_all(program, values, ops)
    }

    /// Does the instruction of what was found.
    fn execute(
        &mut self,
        program: &IndexedProgram,
        values: &mut Vec<Value>,
        found: &Found,
    ) -> Result<Flow, AllocError>
        requires { IsFound program.now found.now }
        ensures flows { IfOk result (λ flow. exec (symbolic program.now) found.now.ops [] (record (state self.old) { place = found.now.at; named = found.now.named }) ≡ came flow (state self.new)) }
        ensures stuck { IfOk result (λ flow. (cause : CauseOf) → flow ≡ Stuck cause → Keeps self.old self.new) }
        ensures err { OnErr result (state self.new ≡ state self.old) }
    {
        let (place, before) = (self.place, self.named);
        let written = self.output.bytes.len();
        self.place = found.at;
        self.named = found.named;
        match self.do_found(program, values, found) {
            Ok(Flow::Stuck(cause)) => {
                self.take_back(&place, written);
                Ok(Flow::Stuck(cause))
            }
            Ok(flow) => Ok(flow),
            Err(error) => {
                self.place = place;
                self.named = before;
                Err(error)
            }
        }
    }

    /// Does one step from a place of which nothing is kept, and keeps what is found of it.
    #[tactic(auto, unfolding(sym_expr::specs::Steps::step))]
    fn step_anew(
        &mut self,
        program: &IndexedProgram,
        values: &mut Vec<Value>,
        cache: &mut Cache,
    ) -> Result<Flow, AllocError>
        requires { IsCache program.now cache.old }
        ensures cache { IsCache program.now cache.new }
        ensures flows { IfOk result (λ flow. step program.now (state self.old) ≡ came flow (state self.new)) }
        ensures stuck { IfOk result (λ flow. (cause : CauseOf) → flow ≡ Stuck cause → Keeps self.old self.new) }
        ensures err { OnErr result (state self.new ≡ state self.old) }
    {
        let at = program.reached(self.place);
        let Some(word) = program.word(at) else {
            return Ok(Flow::Stuck(Cause::Fell));
        };
        laws::read_is_word();
        let Some(inst) = decode(word.word) else {
            return Ok(self.undecoded(&at, word.target));
        };
        let onward = program.after(at);
        let found = Found::new(&self.place, &at, &onward, &word, &inst);
        let flow = self.execute(program, values, &found)?;
        cache.put(found);
        Ok(flow)
    }

    /// Does one step. What is found of its place is kept for later steps from there.
    pub fn step(
        &mut self,
        program: &IndexedProgram,
        values: &mut Vec<Value>,
        cache: &mut Cache,
    ) -> Result<Flow, AllocError>
        requires { IsCache program.now cache.old }
        ensures cache { IsCache program.now cache.new }
        ensures flows { IfOk result (λ flow. step program.now (state self.old) ≡ came flow (state self.new)) }
        ensures stuck { IfOk result (λ flow. (cause : CauseOf) → flow ≡ Stuck cause → Keeps self.old self.new) }
        ensures err { OnErr result (state self.new ≡ state self.old) }
    {
        match cache.get(&self.place) {
            Some(found) => self.execute(program, values, found),
            None => self.step_anew(program, values, cache),
        }
    }
}
