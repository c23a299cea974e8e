//! Addresses and branches.

ghost use Rattle.std.specs.Prelude.{◌≡◌, [], IsTrue, false, ◌+◌, ◌%◌, ◌^◌, ◌≤◌, ◌==◌, if◌then◌else◌};
ghost use Rattle.a64_inst.specs.Domain.{exec, next};
ghost use Rattle.a64_inst.specs.Meaning.{ops};
ghost use Rattle.a64_inst.specs.Table.{is_allowed};
ghost use Rattle.a64_inst.specs.declared.inst.Inst.TheVariants.{AdrAdrp, BBl, BCond, CbzCbnz, TbzTbnz, BrBlrRet};
ghost use Rattle.a64_inst.specs.Numbers.{bit_of, sign_extended};
ghost use Rattle.num_run.specs.Machine.{with_register};
ghost use Rattle.num_run.specs.Numeric.{numeric, at_place};
ghost use Rattle.num_run.specs.Runner.{machine};

use crate::runner::Runner;
use a64_inst::Width;
use a64_numbers::numbers;

impl<'a> Runner<'a> {
    /// The place of the instruction plus a signed offset of so many bits.
    pub fn target(&self, count: u8, offset: u64) -> u64
        requires some { 1 ≤ count }
        requires most { count ≤ 64 }
        ensures { result ≡ (self.now.place + sign_extended count 64 offset) % 2 ^ 64 }
    {
        self.place
            .wrapping_add(numbers::sign_extended(Width::X, count, offset))
    }

    /// Keeps the place after the instruction in X30.
    fn link(&mut self)
        ensures machine { machine self.new ≡ with_register false 30 ((self.old.place + 4) % 2 ^ 64) (machine self.old) }
        ensures memory { self.new.memory ≡ self.old.memory }
    {
        self.set_register(false, 30, self.place.wrapping_add(4));
    }

    /// Goes on at a place.
    fn jump(&mut self, at: u64)
        ensures machine { machine self.new ≡ at_place at (machine self.old) }
        ensures memory { self.new.memory ≡ self.old.memory }
    {
        self.place = at;
    }

    /// Goes on at a place where a test holds, else after the instruction.
    fn jump_if(&mut self, holds: bool, at: u64)
        ensures machine { machine self.new ≡ at_place (if bit_of holds == 0 then (self.old.place + 4) % 2 ^ 64 else at) (machine self.old) }
        ensures memory { self.new.memory ≡ self.old.memory }
    {
        self.place = if holds {
            at
        } else {
            self.place.wrapping_add(4)
        };
    }

    /// ADR, ADRP.
    pub fn adr_adrp(&mut self, op: u8, lo: u8, hi: u32, rd: u8)
        requires inst { IsTrue (is_allowed (AdrAdrp op lo hi rd)) }
        ensures memory { self.new.memory ≡ self.old.memory }
        ensures machine { exec numeric (ops (AdrAdrp op lo hi rd)) [] (machine self.old) ≡ next (machine self.new) }
    {
        let offset = u64::from(hi) * 4 + u64::from(lo);
        let at = if op == 1 {
            let page = self.place / 4096 * 4096;
            page.wrapping_add(numbers::sign_extended(Width::X, 33, offset * 4096))
        } else {
            self.target(21, offset)
        };
        self.put(false, rd, at);
    }

    /// B, BL.
    pub fn b_bl(&mut self, op: u8, imm26: u32)
        ensures memory { self.new.memory ≡ self.old.memory }
        ensures machine { exec numeric (ops (BBl op imm26)) [] (machine self.old) ≡ next (machine self.new) }
    {
        let at = self.target(28, u64::from(imm26) * 4);
        if op != 0 {
            self.link();
        }
        self.jump(at);
    }

    /// B.cond.
    pub fn b_cond(&mut self, imm19: u32, cond: u8)
        ensures memory { self.new.memory ≡ self.old.memory }
        ensures machine { exec numeric (ops (BCond imm19 cond)) [] (machine self.old) ≡ next (machine self.new) }
    {
        let at = self.target(21, u64::from(imm19) * 4);
        self.jump_if(self.flags.hold(cond), at);
    }

    /// CBZ, CBNZ.
    pub fn cbz_cbnz(&mut self, sf: u8, op: u8, imm19: u32, rt: u8)
        ensures memory { self.new.memory ≡ self.old.memory }
        ensures machine { exec numeric (ops (CbzCbnz sf op imm19 rt)) [] (machine self.old) ≡ next (machine self.new) }
    {
        let at = self.target(21, u64::from(imm19) * 4);
        let holds = numbers::is_zero(op == 1, numbers::width(sf), self.register(false, rt));
        self.jump_if(holds, at);
    }

    /// TBZ, TBNZ.
    pub fn tbz_tbnz(&mut self, b5: u8, op: u8, b40: u8, imm14: u16, rt: u8)
        requires inst { IsTrue (is_allowed (TbzTbnz b5 op b40 imm14 rt)) }
        ensures memory { self.new.memory ≡ self.old.memory }
        ensures machine { exec numeric (ops (TbzTbnz b5 op b40 imm14 rt)) [] (machine self.old) ≡ next (machine self.new) }
    {
        let at = self.target(16, u64::from(imm14) * 4);
        let bit = (self.register(false, rt) >> (b5 * 32 + b40)) % 2;
        self.jump_if(numbers::is_zero(op == 1, Width::X, bit), at);
    }

    /// BR, BLR, RET.
    pub fn br_blr_ret(&mut self, which: u8, rn: u8)
        ensures memory { self.new.memory ≡ self.old.memory }
        ensures machine { exec numeric (ops (BrBlrRet which rn)) [] (machine self.old) ≡ next (machine self.new) }
    {
        let at = self.register(false, rn);
        if which == 1 {
            self.link();
        }
        self.jump(at);
    }
}
