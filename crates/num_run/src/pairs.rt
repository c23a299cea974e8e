//! Loads and stores of two registers.

ghost use Rattle.std.specs.Prelude.{◌≡◌, [], ◌<◌, ◌*◌, ◌^◌, IsTrue};
ghost use Rattle.a64_inst.specs.Domain.{exec, then_do};
ghost use Rattle.a64_inst.specs.Meaning.{ops, pair_size};
ghost use Rattle.a64_inst.specs.Table.{is_allowed};
ghost use Rattle.a64_inst.specs.declared.inst.Inst.TheVariants.{Pair};
ghost use Rattle.a64_inst.specs.Numbers.{low, sign_extended};
ghost use Rattle.num_run.specs.Numeric.{numeric};
ghost use Rattle.num_run.specs.Access.{pair_accessed, pair_loaded, pair_stored, advanced, moved};
ghost use Rattle.paged_memory.specs.Mapped.{IsMemory};
ghost use Rattle.num_run.specs.Runner.{machine, Comes};

use crate::report::RunEnd;
use crate::runner::Runner;
use a64_inst::{Sum, Trap, Width};
use a64_numbers::numbers::sign_extended;
use a64_numbers::shifts::{extended_operand, loaded};
use a64_numbers::sums::sum;
use paged_memory::byte_count;

/// The bytes of each register of a pair, as a power of 2.
#[inline(always)]
fn size_of_each(opc: u8) -> u8
    ensures size { result ≡ pair_size opc }
    ensures most { result < 4 }
{
    if opc == 2 { 3 } else { 2 }
}

/// The signed offset of a pair, in units of that.
#[inline(always)]
fn pair_offset(opc: u8, imm7: u8) -> u64
    ensures { result ≡ low 64 (sign_extended 7 64 imm7 * 2 ^ pair_size opc) }
{
    sign_extended(Width::X, 7, u64::from(imm7)).wrapping_mul(byte_count(size_of_each(opc)))
}

impl<'a> Runner<'a> {
    /// LDP, LDPSW, STP.
    pub fn pair(&mut self, opc: u8, idx: u8, l: u8, imm7: u8, rt2: u8, rn: u8, rt: u8) -> RunEnd
        requires memory { IsMemory self.old.memory }
        requires inst { IsTrue (is_allowed (Pair opc idx l imm7 rt2 rn rt)) }
        ensures memory { IsMemory self.new.memory }
        ensures comes { Comes (exec numeric (ops (Pair opc idx l imm7 rt2 rn rt)) [] (machine self.old)) result (machine self.new) }
    {
        let base = self.register(true, rn);
        let moved = sum(Sum::Add, Width::X, base, pair_offset(opc, imm7));
        match idx {
            1 => self.pair_and_move(opc, l, rt, rt2, base, rn, moved),
            2 => self.pair_only(opc, l, rt, rt2, moved),
            _ => self.pair_and_move(opc, l, rt, rt2, moved, rn, moved),
        }
    }

    /// The accesses of a pair, and on to the next instruction.
    #[inline(always)]
    fn pair_only(&mut self, opc: u8, l: u8, rt: u8, rt2: u8, at: u64) -> RunEnd
        requires { IsMemory self.old.memory }
        ensures memory { IsMemory self.new.memory }
        ensures comes { Comes (then_do (pair_accessed opc l rt rt2 at (machine self.old)) advanced) result (machine self.new) }
    {
        match self.pair_access(opc, l, rt, rt2, at) {
            RunEnd::Running => {
                self.advance();
                RunEnd::Running
            }
            end => end,
        }
    }

    /// The accesses of a pair, then the new base, and on to the next instruction.
    #[inline(always)]
    fn pair_and_move(
        &mut self,
        opc: u8,
        l: u8,
        rt: u8,
        rt2: u8,
        at: u64,
        rn: u8,
        base: u64,
    ) -> RunEnd
        requires { IsMemory self.old.memory }
        ensures memory { IsMemory self.new.memory }
        ensures comes { Comes (then_do (pair_accessed opc l rt rt2 at (machine self.old)) (moved rn base)) result (machine self.new) }
    {
        let end = self.pair_only(opc, l, rt, rt2, at);
        if let RunEnd::Running = end {
            self.set_register(true, rn, base);
        }
        end
    }

    /// The accesses of a pair.
    fn pair_access(&mut self, opc: u8, l: u8, rt: u8, rt2: u8, at: u64) -> RunEnd
        requires { IsMemory self.old.memory }
        ensures memory { IsMemory self.new.memory }
        ensures comes { Comes (pair_accessed opc l rt rt2 at (machine self.old)) result (machine self.new) }
    {
        let size = size_of_each(opc);
        if l == 1 {
            self.load_pair(size, opc == 1, rt, rt2, at)
        } else {
            self.store_pair(size, rt, rt2, at)
        }
    }

    /// Two loads one behind the other, and then both registers.
    #[inline(always)]
    fn load_pair(&mut self, size: u8, signed: bool, rt: u8, rt2: u8, at: u64) -> RunEnd
        requires memory { IsMemory self.old.memory }
        requires size { size < 4 }
        ensures memory { IsMemory self.new.memory }
        ensures comes { Comes (pair_loaded (2 ^ size) signed rt rt2 at (machine self.old)) result (machine self.new) }
    {
        let Some(first) = self.memory.load(at, size) else {
            return RunEnd::Trap(Trap::Fault);
        };
        let Some(second) = self
            .memory
            .load(sum(Sum::Add, Width::X, at, byte_count(size)), size)
        else {
            return RunEnd::Trap(Trap::Fault);
        };
        self.set_register(false, rt, loaded(size, signed, Width::X, first));
        self.set_register(false, rt2, loaded(size, signed, Width::X, second));
        RunEnd::Running
    }

    /// Two stores one behind the other; where the second faults, the first stays.
    #[inline(always)]
    fn store_pair(&mut self, size: u8, rt: u8, rt2: u8, at: u64) -> RunEnd
        requires memory { IsMemory self.old.memory }
        requires size { size < 4 }
        ensures memory { IsMemory self.new.memory }
        ensures comes { Comes (pair_stored size rt rt2 at (machine self.old)) result (machine self.new) }
    {
        let first = extended_operand(Width::X, size, 0, self.register(false, rt));
        let second = extended_operand(Width::X, size, 0, self.register(false, rt2));
        if !self.memory.store(at, size, first) {
            return RunEnd::Trap(Trap::Fault);
        }
        if !self.memory.store(sum(Sum::Add, Width::X, at, byte_count(size)), size, second) {
            return RunEnd::Trap(Trap::Fault);
        }
        RunEnd::Running
    }
}
