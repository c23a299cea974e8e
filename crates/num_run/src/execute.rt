//! What each instruction does.

ghost use Rattle.std.specs.Prelude.{◌≡◌, [], IsTrue};
ghost use Rattle.a64_inst.specs.Domain.{exec};
ghost use Rattle.a64_inst.specs.Meaning.{ops};
ghost use Rattle.a64_inst.specs.Table.{is_allowed};
ghost use Rattle.a64_inst.specs.declared.inst.Inst.TheVariants.{SvcBrk};
ghost use Rattle.num_run.specs.Numeric.{numeric};
ghost use Rattle.num_run.specs.Run.{step};
ghost use Rattle.num_run.specs.Decoded.{IsCache};
ghost use Rattle.paged_memory.specs.Mapped.{IsMemory};
ghost use Rattle.num_run.specs.Runner.{machine, Comes};

use crate::cache::Cache;
use crate::report::RunEnd;
use crate::runner::Runner;
use a64_inst::{Inst, Trap, laws};

// What an instruction does: what the method of its row does with the row's fields, one row a line: first the
// rows after which a run goes on, then those that may end it.
macro_rules! by_row {
    ($runner:expr, $inst:expr,
        $($row:ident { $($field:ident),+ } => $method:ident;)+
        | $($access:ident { $($part:ident),+ } => $does:ident;)+) => {
        match *$inst {
            $(Inst::$row { $($field),+ } => {
                $runner.$method($($field),+);
                RunEnd::Running
            })+
            $(Inst::$access { $($part),+ } => $runner.$does($($part),+),)+
            Inst::SvcBrk { which: 0, imm16 } => $runner.system_call(imm16),
            Inst::SvcBrk { imm16, .. } => RunEnd::Trap(Trap::Break(imm16)),
            Inst::Udf { imm16 } => RunEnd::Trap(Trap::Udf(imm16)),
            Inst::Hint { .. } => {
                $runner.advance();
                RunEnd::Running
            }
        }
    };
}

impl<'a> Runner<'a> {
    /// Does one instruction.
    #[inline(always)]
    #[tactic(auto, unfolding(crate::specs::Run::step))]
    pub fn step(&mut self, cache: &mut Cache) -> RunEnd
        requires memory { IsMemory self.old.memory }
        requires cache { IsCache cache.old }
        ensures memory { IsMemory self.new.memory }
        ensures cache { IsCache cache.new }
        ensures comes { Comes (step (machine self.old)) result (machine self.new) }
    {
        if self.place % 4 != 0 {
            return RunEnd::Trap(Trap::Fault);
        }
        let Some(word) = self.memory.word(self.place) else {
            return RunEnd::Trap(Trap::Fault);
        };
        laws::read_is_word();
        match cache.find(self.place, word) {
            Some(index) => self.execute(cache.inst(index)),
            None => RunEnd::Trap(Trap::Undecoded),
        }
    }

    /// Does an instruction.
    fn execute(&mut self, inst: &Inst) -> RunEnd
        requires memory { IsMemory self.old.memory }
        requires inst { IsTrue (is_allowed inst.now) }
        ensures memory { IsMemory self.new.memory }
        ensures comes { Comes (exec numeric (ops inst.now) [] (machine self.old)) result (machine self.new) }
    {
        by_row! { self, inst,
            AdrAdrp { op, lo, hi, rd } => adr_adrp;
            AddSubImm { sf, op, s, sh, imm12, rn, rd } => add_sub_imm;
            AddSubShifted { sf, op, s, shift, rm, imm6, rn, rd } => add_sub_shifted;
            AddSubExtended { sf, op, s, rm, option, imm3, rn, rd } => add_sub_extended;
            LogicalShifted { sf, opc, shift, n, rm, imm6, rn, rd } => logical_shifted;
            LogicalImm { sf, opc, n, immr, imms, rn, rd } => logical_imm;
            MoveWide { sf, opc, hw, imm16, rd } => move_wide;
            Bitfield { sf, opc, n, immr, imms, rn, rd } => bitfield;
            Extr { sf, n, rm, imms, rn, rd } => extr;
            TwoSources { sf, rm, opcode, rn, rd } => two_sources;
            OneSource { sf, opcode, rn, rd } => one_source;
            ThreeSources { sf, op, rm, o0, ra, rn, rd } => three_sources;
            WithCarry { sf, op, s, rm, rn, rd } => with_carry;
            CondCompare { sf, op, rm, cond, i, rn, nzcv } => cond_compare;
            CondSelect { sf, op, rm, cond, o2, rn, rd } => cond_select;
            BBl { op, imm26 } => b_bl;
            BCond { imm19, cond } => b_cond;
            CbzCbnz { sf, op, imm19, rt } => cbz_cbnz;
            TbzTbnz { b5, op, b40, imm14, rt } => tbz_tbnz;
            BrBlrRet { which, rn } => br_blr_ret;
            | Literal { opc, imm19, rt } => literal;
            Scaled { size, opc, imm12, rn, rt } => scaled;
            UnscaledPostPre { size, opc, imm9, idx, rn, rt } => unscaled_post_pre;
            Register { size, opc, rm, option, s, rn, rt } => register_offset;
            Pair { opc, idx, l, imm7, rt2, rn, rt } => pair;
        }
    }

    /// SVC.
    fn system_call(&mut self, imm16: u16) -> RunEnd
        requires { IsMemory self.old.memory }
        ensures memory { IsMemory self.new.memory }
        ensures comes { Comes (exec numeric (ops (SvcBrk 0 imm16)) [] (machine self.old)) result (machine self.new) }
    {
        let end = self.call(imm16);
        if let RunEnd::Running = end {
            self.advance();
        }
        end
    }
}
