//! Sums and differences, and the flags that they set.

ghost use Rattle.std.specs.Prelude.{◌≡◌, [], IsTrue, false, ◌==◌, if◌then◌else◌};
ghost use Rattle.a64_inst.specs.Domain.{exec, next};
ghost use Rattle.a64_inst.specs.Meaning.{ops};
ghost use Rattle.a64_inst.specs.Table.{is_allowed};
ghost use Rattle.a64_inst.specs.declared.inst.Inst.TheVariants.{AddSubImm, AddSubShifted, AddSubExtended, WithCarry, CondCompare};
ghost use Rattle.num_run.specs.Machine.{register};
ghost use Rattle.num_run.specs.Numeric.{numeric};
ghost use Rattle.num_run.specs.Runner.{machine};

use crate::runner::Runner;
use a64_numbers::numbers::{immediate, sum_of, width};
use a64_numbers::{shifts, sums};

impl<'a> Runner<'a> {
    /// ADD, ADDS, SUB and SUBS of an immediate.
    pub fn add_sub_imm(&mut self, sf: u8, op: u8, s: u8, sh: u8, imm12: u16, rn: u8, rd: u8)
        requires inst { IsTrue (is_allowed (AddSubImm sf op s sh imm12 rn rd)) }
        ensures memory { self.new.memory ≡ self.old.memory }
        ensures machine { exec numeric (ops (AddSubImm sf op s sh imm12 rn rd)) [] (machine self.old) ≡ next (machine self.new) }
    {
        let b = immediate(imm12, sh);
        self.put_sum(sum_of(op), width(sf), s, self.register(true, rn), b, rd);
    }

    /// ADD, ADDS, SUB and SUBS of a shifted register.
    pub fn add_sub_shifted(
        &mut self,
        sf: u8,
        op: u8,
        s: u8,
        shift: u8,
        rm: u8,
        imm6: u8,
        rn: u8,
        rd: u8,
    )
        requires inst { IsTrue (is_allowed (AddSubShifted sf op s shift rm imm6 rn rd)) }
        ensures memory { self.new.memory ≡ self.old.memory }
        ensures machine { exec numeric (ops (AddSubShifted sf op s shift rm imm6 rn rd)) [] (machine self.old) ≡ next (machine self.new) }
    {
        let width = width(sf);
        let b = shifts::operand(width, shift, imm6, self.register(false, rm));
        self.keep_sum(sum_of(op), width, s, self.register(false, rn), b, rd);
    }

    /// ADD, ADDS, SUB and SUBS of an extended register.
    pub fn add_sub_extended(
        &mut self,
        sf: u8,
        op: u8,
        s: u8,
        rm: u8,
        option: u8,
        imm3: u8,
        rn: u8,
        rd: u8,
    )
        requires inst { IsTrue (is_allowed (AddSubExtended sf op s rm option imm3 rn rd)) }
        ensures memory { self.new.memory ≡ self.old.memory }
        ensures machine { exec numeric (ops (AddSubExtended sf op s rm option imm3 rn rd)) [] (machine self.old) ≡ next (machine self.new) }
    {
        let width = width(sf);
        let b = shifts::extended_operand(width, option, imm3, self.register(false, rm));
        self.put_sum(sum_of(op), width, s, self.register(true, rn), b, rd);
    }

    /// ADC, ADCS, SBC, SBCS.
    pub fn with_carry(&mut self, sf: u8, op: u8, s: u8, rm: u8, rn: u8, rd: u8)
        ensures memory { self.new.memory ≡ self.old.memory }
        ensures machine { exec numeric (ops (WithCarry sf op s rm rn rd)) [] (machine self.old) ≡ next (machine self.new) }
    {
        let a = self.register(false, rn);
        let b = self.register(false, rm);
        let (sum, width, carry) = (sum_of(op), width(sf), self.flags.c);
        if s == 1 {
            self.set_flags(sums::flags_with_carry(sum, width, a, b, carry));
        }
        self.keep(rd, sums::carried_sum(sum, width, a, b, carry));
    }

    /// CCMN, CCMP.
    pub fn cond_compare(&mut self, sf: u8, op: u8, rm: u8, cond: u8, i: u8, rn: u8, nzcv: u8)
        ensures memory { self.new.memory ≡ self.old.memory }
        ensures machine { exec numeric (ops (CondCompare sf op rm cond i rn nzcv)) [] (machine self.old) ≡ next (machine self.new) }
    {
        let a = self.register(false, rn);
        let b = self.compared(i, rm);
        let holds = self.flags.hold(cond);
        self.set_flags(sums::flags_if(sum_of(op), width(sf), holds, a, b, nzcv));
        self.advance();
    }

    /// The second operand of a conditional compare, where i is 1 a number.
    fn compared(&self, i: u8, rm: u8) -> u64
        ensures { result ≡ (if i == 1 then rm else register false rm (machine self.now)) }
    {
        if i == 1 {
            u64::from(rm)
        } else {
            self.register(false, rm)
        }
    }
}
