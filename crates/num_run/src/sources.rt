//! Instructions of one, two and three sources, and conditional selects.

ghost use Rattle.std.specs.Prelude.{◌≡◌, [], IsTrue};
ghost use Rattle.a64_inst.specs.Domain.{exec, next};
ghost use Rattle.a64_inst.specs.Meaning.{ops};
ghost use Rattle.a64_inst.specs.Table.{is_allowed};
ghost use Rattle.a64_inst.specs.declared.inst.Inst.TheVariants.{TwoSources, OneSource, ThreeSources, CondSelect};
ghost use Rattle.num_run.specs.Numeric.{numeric};
ghost use Rattle.num_run.specs.Runner.{machine};

use crate::runner::Runner;
use a64_inst::Width;
use a64_numbers::numbers::{chosen, sum_of, width};
use a64_numbers::sums::sum;
use a64_numbers::{products, turned};

impl<'a> Runner<'a> {
    /// UDIV, SDIV, LSLV, LSRV, ASRV, RORV.
    pub fn two_sources(&mut self, sf: u8, rm: u8, opcode: u8, rn: u8, rd: u8)
        requires inst { IsTrue (is_allowed (TwoSources sf rm opcode rn rd)) }
        ensures memory { self.new.memory ≡ self.old.memory }
        ensures machine { exec numeric (ops (TwoSources sf rm opcode rn rd)) [] (machine self.old) ≡ next (machine self.new) }
    {
        let a = self.register(false, rn);
        let value = products::two_sources(width(sf), opcode, a, self.register(false, rm));
        self.keep(rd, value);
    }

    /// RBIT, REV16, REV, REV32, CLZ, CLS.
    pub fn one_source(&mut self, sf: u8, opcode: u8, rn: u8, rd: u8)
        ensures memory { self.new.memory ≡ self.old.memory }
        ensures machine { exec numeric (ops (OneSource sf opcode rn rd)) [] (machine self.old) ≡ next (machine self.new) }
    {
        let value = turned::one_source(width(sf), opcode, self.register(false, rn));
        self.keep(rd, value);
    }

    /// MADD, MSUB, SMADDL, SMSUBL, SMULH, UMADDL, UMSUBL, UMULH.
    pub fn three_sources(&mut self, sf: u8, op: u8, rm: u8, o0: u8, ra: u8, rn: u8, rd: u8)
        ensures memory { self.new.memory ≡ self.old.memory }
        ensures machine { exec numeric (ops (ThreeSources sf op rm o0 ra rn rd)) [] (machine self.old) ≡ next (machine self.new) }
    {
        let a = self.register(false, rn);
        let b = self.register(false, rm);
        let c = self.register(false, ra);
        let value = match op {
            0 => sum(sum_of(o0), width(sf), c, products::product(width(sf), a, b)),
            1 | 5 => sum(
                sum_of(o0),
                Width::X,
                c,
                products::long_product(op == 1, a, b),
            ),
            _ => products::high_product(op == 2, a, b),
        };
        self.keep(rd, value);
    }

    /// CSEL, CSINC, CSINV, CSNEG.
    pub fn cond_select(&mut self, sf: u8, op: u8, rm: u8, cond: u8, o2: u8, rn: u8, rd: u8)
        ensures memory { self.new.memory ≡ self.old.memory }
        ensures machine { exec numeric (ops (CondSelect sf op rm cond o2 rn rd)) [] (machine self.old) ≡ next (machine self.new) }
    {
        let a = self.register(false, rn);
        let b = self.register(false, rm);
        let holds = self.flags.hold(cond);
        self.keep(rd, chosen(op == 1, o2 == 1, width(sf), holds, a, b));
    }
}
