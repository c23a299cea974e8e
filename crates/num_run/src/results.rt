//! Where results go.

ghost use Rattle.std.specs.Prelude.{◌≡◌};
ghost use Rattle.a64_inst.specs.Numbers.{bits_of};
ghost use Rattle.num_run.specs.Results.{kept, put, with_flags, summed, summed_or_stack};
ghost use Rattle.num_run.specs.Runner.{machine};

use crate::runner::Runner;
use a64_inst::{Flags, Sum, Width};
use a64_numbers::sums;

impl<'a> Runner<'a> {
    /// Keeps a result, where register 31 keeps none, and goes on.
    pub fn keep(&mut self, rd: u8, n: u64)
        ensures machine { machine self.new ≡ kept rd n (machine self.old) }
        ensures memory { self.new.memory ≡ self.old.memory }
    {
        self.set_register(false, rd, n);
        self.advance();
    }

    /// Puts a result in a register, where 31 is for true the stack pointer and for false zero, and goes on.
    pub fn put(&mut self, stack: bool, rd: u8, n: u64)
        ensures machine { machine self.new ≡ put stack rd n (machine self.old) }
        ensures memory { self.new.memory ≡ self.old.memory }
    {
        self.set_register(stack, rd, n);
        self.advance();
    }

    /// Sets the flags.
    pub fn set_flags(&mut self, flags: Flags)
        ensures machine { machine self.new ≡ with_flags flags (machine self.old) }
        ensures memory { self.new.memory ≡ self.old.memory }
    {
        self.flags = flags;
    }

    /// Keeps a sum or a difference, and where s is 1 its flags.
    pub fn keep_sum(&mut self, sum: Sum, width: Width, s: u8, a: u64, b: u64, rd: u8)
        ensures machine { machine self.new ≡ summed sum (bits_of width) s a b rd (machine self.old) }
        ensures memory { self.new.memory ≡ self.old.memory }
    {
        if s == 1 {
            self.set_flags(sums::flags_of_sum(sum, width, a, b));
        }
        self.keep(rd, sums::sum(sum, width, a, b));
    }

    /// The same, where without flags register 31 is the stack pointer.
    pub fn put_sum(&mut self, sum: Sum, width: Width, s: u8, a: u64, b: u64, rd: u8)
        ensures machine { machine self.new ≡ summed_or_stack sum (bits_of width) s a b rd (machine self.old) }
        ensures memory { self.new.memory ≡ self.old.memory }
    {
        if s == 1 {
            self.keep_sum(sum, width, s, a, b, rd);
        } else {
            self.put(true, rd, sums::sum(sum, width, a, b));
        }
    }
}
