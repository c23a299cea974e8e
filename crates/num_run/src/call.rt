//! System calls.

ghost use Rattle.std.specs.Prelude.{◌≡◌, ◌≤◌, length};
ghost use Rattle.num_run.specs.Numeric.{called, written, received};
ghost use Rattle.paged_memory.specs.Mapped.{IsMemory};
ghost use Rattle.num_run.specs.Runner.{machine, Comes};

use crate::report::RunEnd;
use crate::runner::Runner;
use a64_inst::Trap;

impl<'a> Runner<'a> {
    /// Does the system call that X8 names.
    pub fn call(&mut self, immediate: u16) -> RunEnd
        requires { IsMemory self.old.memory }
        ensures memory { IsMemory self.new.memory }
        ensures comes { Comes (called immediate (machine self.old)) result (machine self.new) }
    {
        if immediate != 0 {
            return RunEnd::Trap(Trap::BadCall);
        }
        match self.registers[8] {
            93 => RunEnd::Exit((self.registers[0] % 256) as u8),
            64 if self.registers[0] == 1 => self.write(self.registers[1], self.registers[2]),
            63 if self.registers[0] == 0 => {
                let count = self.registers[2].min(self.input.len() as u64);
                self.read(self.registers[1], count)
            }
            _ => RunEnd::Trap(Trap::BadCall),
        }
    }

    /// Writes so many bytes from an address on.
    fn write(&mut self, at: u64, count: u64) -> RunEnd
        requires { IsMemory self.old.memory }
        ensures memory { IsMemory self.new.memory }
        ensures comes { Comes (written at count (machine self.old)) result (machine self.new) }
    {
        if count == 0 {
            self.set_register(false, 0, count);
            return RunEnd::Running;
        }
        if !self.memory.is_mapped(at, count) {
            return RunEnd::Trap(Trap::Fault);
        }
        if !self.output.has_room(count) {
            return RunEnd::Trap(Trap::OutputFull);
        }
        self.output.write(&self.memory, at, count);
        self.set_register(false, 0, count);
        RunEnd::Running
    }

    /// Puts so many bytes of the input at an address.
    fn read(&mut self, at: u64, count: u64) -> RunEnd
        requires memory { IsMemory self.old.memory }
        requires input { count ≤ length self.old.input.now }
        ensures memory { IsMemory self.new.memory }
        ensures comes { Comes (received at count (machine self.old)) result (machine self.new) }
    {
        if count == 0 {
            self.set_register(false, 0, 0);
            return RunEnd::Running;
        }
        if !self.memory.is_mapped(at, count) {
            return RunEnd::Trap(Trap::Fault);
        }
        let (bytes, rest) = self.input.split_at(count as usize);
        self.memory.put(at, bytes);
        self.input = rest;
        self.set_register(false, 0, count);
        RunEnd::Running
    }
}
