ghost use Rattle.std.specs.Prelude.{◌≡◌, ◌+◌, ◌%◌, ◌^◌, OnOk, IfOk};
ghost use Rattle.bare_image.specs.Valid.{image_ok};
ghost use Rattle.num_run.specs.Machine.{register, with_register};
ghost use Rattle.num_run.specs.Numeric.{at_place};
ghost use Rattle.num_run.specs.Run.{start};
ghost use Rattle.paged_memory.specs.Mapped.{IsMemory};
ghost use Rattle.num_run.specs.Runner.{machine};

use crate::output::Output;
use a64_inst::Flags;
use bare_image::Image;
use paged_memory::Memory;
use std::alloc::{AllocError, Global};

/// The machine while it runs.
#[derive(Drop)]
pub struct Runner<'a> {
    /// X0 to X30.
    pub registers: [u64; 31],
    pub stack_pointer: u64,
    pub flags: Flags,
    pub memory: Memory,
    /// The address of the next instruction.
    pub place: u64,
    /// What is left of the input.
    pub input: &'a [u8],
    pub output: Output,
}

impl<'a> Runner<'a> {
    /// The machine before the first instruction of an image.
    pub fn new(alloc: Global, image: &Image, input: &'a [u8]) -> Result<Runner<'a>, AllocError>
        requires { image_ok image.now }
        ensures machine { IfOk result (λ runner. machine runner ≡ start image.now input.now) }
        ensures memory { IfOk result (λ runner. IsMemory runner.memory) }
    {
        Ok(Runner {
            registers: [0; 31],
            stack_pointer: image.stack_at + image.stack_size,
            flags: Flags {
                n: false,
                z: false,
                c: false,
                v: false,
            },
            memory: Memory::new(alloc, image)?,
            place: image.entry,
            input,
            output: Output::new(alloc)?,
        })
    }

    /// A register, where 31 is for true the stack pointer and for false zero.
    pub fn register(&self, stack: bool, r: u8) -> u64
        ensures { result ≡ register stack r (machine self.now) }
    {
        if r < 31 {
            self.registers[r as usize]
        } else if stack {
            self.stack_pointer
        } else {
            0
        }
    }

    /// Keeps a number in a register, as for `register`; zero keeps none.
    pub fn set_register(&mut self, stack: bool, r: u8, n: u64)
        ensures machine { machine self.new ≡ with_register stack r n (machine self.old) }
        ensures memory { self.new.memory ≡ self.old.memory }
    {
        if r < 31 {
            self.registers[r as usize] = n;
        } else if stack {
            self.stack_pointer = n;
        }
    }

    /// On to the next instruction.
    pub fn advance(&mut self)
        ensures machine { machine self.new ≡ at_place ((self.old.place + 4) % 2 ^ 64) (machine self.old) }
        ensures memory { self.new.memory ≡ self.old.memory }
    {
        self.place = self.place.wrapping_add(4);
    }
}
