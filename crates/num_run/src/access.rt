//! Loads and stores of one register.

ghost use Rattle.std.specs.Prelude.{◌≡◌, [], ◌<◌, ◌^◌, IsTrue, ◌==◌, if◌then◌else◌};
ghost use Rattle.a64_inst.specs.Domain.{exec, then_do};
ghost use Rattle.a64_inst.specs.Meaning.{ops};
ghost use Rattle.a64_inst.specs.Table.{is_allowed};
ghost use Rattle.a64_inst.specs.declared.inst.Inst.TheVariants.{Literal, Scaled, UnscaledPostPre, Register};
ghost use Rattle.num_run.specs.Numeric.{numeric, stored};
ghost use Rattle.num_run.specs.Access.{accessed, advanced, moved, low_bytes};
ghost use Rattle.paged_memory.specs.Mapped.{IsMemory};
ghost use Rattle.num_run.specs.Runner.{machine, Comes};

use crate::report::RunEnd;
use crate::runner::Runner;
use a64_inst::{Sum, Trap, Width};
use a64_numbers::numbers::sign_extended;
use a64_numbers::shifts::{extended_operand, loaded};
use a64_numbers::sums::sum;
use paged_memory::byte_count;

impl<'a> Runner<'a> {
    /// LDR and LDRSW of a literal.
    pub fn literal(&mut self, opc: u8, imm19: u32, rt: u8) -> RunEnd
        requires memory { IsMemory self.old.memory }
        requires inst { IsTrue (is_allowed (Literal opc imm19 rt)) }
        ensures memory { IsMemory self.new.memory }
        ensures comes { Comes (exec numeric (ops (Literal opc imm19 rt)) [] (machine self.old)) result (machine self.new) }
    {
        let offset = sign_extended(Width::X, 21, u64::from(imm19) * 4);
        let at = self.place.wrapping_add(offset);
        let size = if opc == 1 { 3 } else { 2 };
        let Some(number) = self.memory.load(at, size) else {
            return RunEnd::Trap(Trap::Fault);
        };
        let number = if opc == 2 {
            sign_extended(Width::X, 32, number)
        } else {
            number
        };
        self.set_register(false, rt, number);
        self.advance();
        RunEnd::Running
    }

    /// Loads and stores with an unsigned offset in units of their size.
    pub fn scaled(&mut self, size: u8, opc: u8, imm12: u16, rn: u8, rt: u8) -> RunEnd
        requires memory { IsMemory self.old.memory }
        requires inst { IsTrue (is_allowed (Scaled size opc imm12 rn rt)) }
        ensures memory { IsMemory self.new.memory }
        ensures comes { Comes (exec numeric (ops (Scaled size opc imm12 rn rt)) [] (machine self.old)) result (machine self.new) }
    {
        let offset = u64::from(imm12) * byte_count(size);
        let at = sum(Sum::Add, Width::X, self.register(true, rn), offset);
        self.access_only(size, opc, rt, at)
    }

    /// Loads and stores with a signed offset: unscaled, post-indexed and pre-indexed.
    pub fn unscaled_post_pre(
        &mut self,
        size: u8,
        opc: u8,
        imm9: u16,
        idx: u8,
        rn: u8,
        rt: u8,
    ) -> RunEnd
        requires memory { IsMemory self.old.memory }
        requires inst { IsTrue (is_allowed (UnscaledPostPre size opc imm9 idx rn rt)) }
        ensures memory { IsMemory self.new.memory }
        ensures comes { Comes (exec numeric (ops (UnscaledPostPre size opc imm9 idx rn rt)) [] (machine self.old)) result (machine self.new) }
    {
        let base = self.register(true, rn);
        let moved = sum(
            Sum::Add,
            Width::X,
            base,
            sign_extended(Width::X, 9, u64::from(imm9)),
        );
        match idx {
            0 => self.access_only(size, opc, rt, moved),
            1 => self.access_and_move(size, opc, rt, base, rn, moved),
            _ => self.access_and_move(size, opc, rt, moved, rn, moved),
        }
    }

    /// Loads and stores with an offset in a register.
    pub fn register_offset(
        &mut self,
        size: u8,
        opc: u8,
        rm: u8,
        option: u8,
        s: u8,
        rn: u8,
        rt: u8,
    ) -> RunEnd
        requires memory { IsMemory self.old.memory }
        requires inst { IsTrue (is_allowed (Register size opc rm option s rn rt)) }
        ensures memory { IsMemory self.new.memory }
        ensures comes { Comes (exec numeric (ops (Register size opc rm option s rn rt)) [] (machine self.old)) result (machine self.new) }
    {
        let offset = extended_operand(Width::X, option, s * size, self.register(false, rm));
        let at = sum(Sum::Add, Width::X, self.register(true, rn), offset);
        self.access_only(size, opc, rt, at)
    }

    /// An access, and on to the next instruction.
    #[inline(always)]
    fn access_only(&mut self, size: u8, opc: u8, rt: u8, at: u64) -> RunEnd
        requires memory { IsMemory self.old.memory }
        requires size { size < 4 }
        ensures memory { IsMemory self.new.memory }
        ensures comes { Comes (then_do (accessed size opc rt at (machine self.old)) advanced) result (machine self.new) }
    {
        match self.access(size, opc, rt, at) {
            RunEnd::Running => {
                self.advance();
                RunEnd::Running
            }
            end => end,
        }
    }

    /// An access, then the new base, and on to the next instruction.
    #[inline(always)]
    fn access_and_move(&mut self, size: u8, opc: u8, rt: u8, at: u64, rn: u8, base: u64) -> RunEnd
        requires memory { IsMemory self.old.memory }
        requires size { size < 4 }
        ensures memory { IsMemory self.new.memory }
        ensures comes { Comes (then_do (accessed size opc rt at (machine self.old)) (moved rn base)) result (machine self.new) }
    {
        let end = self.access_only(size, opc, rt, at);
        if let RunEnd::Running = end {
            self.set_register(true, rn, base);
        }
        end
    }

    /// The access that size and opc name, of a register at an address.
    #[inline(always)]
    fn access(&mut self, size: u8, opc: u8, rt: u8, at: u64) -> RunEnd
        requires memory { IsMemory self.old.memory }
        requires size { size < 4 }
        ensures memory { IsMemory self.new.memory }
        ensures comes { Comes (accessed size opc rt at (machine self.old)) result (machine self.new) }
    {
        if opc == 0 {
            self.store_register(size, rt, at)
        } else {
            self.load_register(size, opc, rt, at)
        }
    }

    /// Stores the low bytes of a register.
    #[inline(always)]
    pub fn store_register(&mut self, size: u8, rt: u8, at: u64) -> RunEnd
        requires memory { IsMemory self.old.memory }
        requires size { size < 4 }
        ensures memory { IsMemory self.new.memory }
        ensures comes { Comes (stored (2 ^ size) (low_bytes size rt (machine self.old)) at (machine self.old)) result (machine self.new) }
    {
        let number = extended_operand(Width::X, size, 0, self.register(false, rt));
        if self.memory.store(at, size, number) {
            RunEnd::Running
        } else {
            RunEnd::Trap(Trap::Fault)
        }
    }

    /// Loads a register.
    #[inline(always)]
    fn load_register(&mut self, size: u8, opc: u8, rt: u8, at: u64) -> RunEnd
        requires memory { IsMemory self.old.memory }
        requires size { size < 4 }
        requires opc { 0 < opc }
        ensures memory { IsMemory self.new.memory }
        ensures comes { Comes (accessed size opc rt at (machine self.old)) result (machine self.new) }
    {
        let Some(number) = self.memory.load(at, size) else {
            return RunEnd::Trap(Trap::Fault);
        };
        let width = if opc == 3 { Width::W } else { Width::X };
        self.set_register(false, rt, loaded(size, opc >= 2, width, number));
        RunEnd::Running
    }
}
