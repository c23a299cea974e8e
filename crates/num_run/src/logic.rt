//! Logical instructions, moves and bit fields.

ghost use Rattle.std.specs.Prelude.{◌≡◌, [], IsTrue};
ghost use Rattle.a64_inst.specs.Domain.{exec, next};
ghost use Rattle.a64_inst.specs.Meaning.{ops};
ghost use Rattle.a64_inst.specs.Table.{is_allowed};
ghost use Rattle.a64_inst.specs.declared.inst.Inst.TheVariants.{LogicalShifted, LogicalImm, MoveWide, Bitfield, Extr};
ghost use Rattle.num_run.specs.Numeric.{numeric};
ghost use Rattle.num_run.specs.Runner.{machine};

use crate::runner::Runner;
use a64_numbers::{fields, numbers, shifts, sums};

impl<'a> Runner<'a> {
    /// AND, BIC, ORR, ORN, EOR, EON, ANDS and BICS of a shifted register.
    pub fn logical_shifted(
        &mut self,
        sf: u8,
        opc: u8,
        shift: u8,
        n: u8,
        rm: u8,
        imm6: u8,
        rn: u8,
        rd: u8,
    )
        requires inst { IsTrue (is_allowed (LogicalShifted sf opc shift n rm imm6 rn rd)) }
        ensures memory { self.new.memory ≡ self.old.memory }
        ensures machine { exec numeric (ops (LogicalShifted sf opc shift n rm imm6 rn rd)) [] (machine self.old) ≡ next (machine self.new) }
    {
        let width = numbers::width(sf);
        let b = shifts::operand(width, shift, imm6, self.register(false, rm));
        let value = numbers::logical(width, opc, n == 1, self.register(false, rn), b);
        if opc == 3 {
            self.set_flags(sums::flags_of_logic(width, value));
        }
        self.keep(rd, value);
    }

    /// AND, ORR, EOR and ANDS of an immediate.
    pub fn logical_imm(&mut self, sf: u8, opc: u8, n: u8, immr: u8, imms: u8, rn: u8, rd: u8)
        requires inst { IsTrue (is_allowed (LogicalImm sf opc n immr imms rn rd)) }
        ensures memory { self.new.memory ≡ self.old.memory }
        ensures machine { exec numeric (ops (LogicalImm sf opc n immr imms rn rd)) [] (machine self.old) ≡ next (machine self.new) }
    {
        let width = numbers::width(sf);
        let b = fields::mask(sf, n, immr, imms);
        let value = numbers::logical(width, opc, false, self.register(false, rn), b);
        if opc == 3 {
            self.set_flags(sums::flags_of_logic(width, value));
        }
        self.put(opc != 3, rd, value);
    }

    /// MOVN, MOVZ, MOVK.
    pub fn move_wide(&mut self, sf: u8, opc: u8, hw: u8, imm16: u16, rd: u8)
        requires inst { IsTrue (is_allowed (MoveWide sf opc hw imm16 rd)) }
        ensures memory { self.new.memory ≡ self.old.memory }
        ensures machine { exec numeric (ops (MoveWide sf opc hw imm16 rd)) [] (machine self.old) ≡ next (machine self.new) }
    {
        let width = numbers::width(sf);
        let value = match opc {
            0 => numbers::inverse(width, numbers::placed(imm16, hw)),
            3 => numbers::inserted(width, self.register(false, rd), imm16, hw),
            _ => numbers::placed(imm16, hw),
        };
        self.put(false, rd, value);
    }

    /// SBFM, BFM, UBFM.
    pub fn bitfield(&mut self, sf: u8, opc: u8, n: u8, immr: u8, imms: u8, rn: u8, rd: u8)
        requires inst { IsTrue (is_allowed (Bitfield sf opc n immr imms rn rd)) }
        ensures memory { self.new.memory ≡ self.old.memory }
        ensures machine { exec numeric (ops (Bitfield sf opc n immr imms rn rd)) [] (machine self.old) ≡ next (machine self.new) }
    {
        let width = numbers::width(sf);
        let a = self.register(false, rn);
        let value = if opc == 1 {
            fields::with_field(width, immr, imms, self.register(false, rd), a)
        } else {
            fields::field(opc == 0, width, immr, imms, a)
        };
        self.keep(rd, value);
    }

    /// EXTR.
    pub fn extr(&mut self, sf: u8, n: u8, rm: u8, imms: u8, rn: u8, rd: u8)
        requires inst { IsTrue (is_allowed (Extr sf n rm imms rn rd)) }
        ensures memory { self.new.memory ≡ self.old.memory }
        ensures machine { exec numeric (ops (Extr sf n rm imms rn rd)) [] (machine self.old) ≡ next (machine self.new) }
    {
        let a = self.register(false, rn);
        let value = fields::extract(numbers::width(sf), imms, a, self.register(false, rm));
        self.keep(rd, value);
    }
}
