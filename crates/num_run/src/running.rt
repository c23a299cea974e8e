//! Machines that run step by step.

use crate::cache::Cache;
use crate::report::RunEnd;
use crate::runner::Runner;
use crate::steps::go_on;
use bare_image::Image;
use std::alloc::{AllocError, Global};
use std::marker::Model;

/// A machine that runs an image. All its memory is taken when it is opened.
#[derive(Drop)]
pub struct Machine<'a> {
    image: &'a Image,
    input: &'a [u8],
    runner: Runner<'a>,
    cache: Cache,
    /// How many steps were asked for.
    count: u64,
    /// How many of them were done.
    done: u64,
    end: RunEnd,
}

impl<'a> Model for Machine<'a> {
    ghost use Rattle.num_run.specs.Opened.{Opened};

    ghost Value = { Opened };

    ghost use Rattle.num_run.specs.Running.{opened, Stands};

    ghost view = { opened };

    ghost invariant = { Stands };
}

impl<'a> Machine<'a> {
    ghost use Rattle.std.specs.Prelude.{◌≡◌, ◌≤◌, ◌+◌, IfOk};
    ghost use Rattle.bare_image.specs.Valid.{image_ok};
    ghost use Rattle.num_run.specs.Opened.{report, held};

    /// The machine before the first instruction of an image.
    pub fn open(alloc: Global, image: &'a Image, input: &'a [u8]) -> Result<Machine<'a>, AllocError>
        requires { image_ok image.now }
        ensures { IfOk result (λ machine. machine ≡ record { image = image.now; input = input.now; count = 0 }) }
    {
        Ok(Machine {
            image,
            input,
            runner: Runner::new(alloc, image, input)?,
            cache: Cache::new(alloc)?,
            count: 0,
            done: 0,
            end: RunEnd::Running,
        })
    }

    /// Runs for so many steps more, or fewer where the run ends before, and answers how it stands.
    pub fn go(&mut self, steps: u64) -> RunEnd
        requires { self.old.count + steps ≤ 10000000 }
        ensures machine { self.new ≡ record self.old { count = self.old.count + steps } }
        ensures end { result ≡ (report self.new).end }
    {
        let stop = go_on(&mut self.runner, &mut self.cache, self.end, steps);
        self.done += stop.done;
        self.end = stop.end;
        self.count += steps;
        self.end
    }

    /// The bytes that were written.
    pub fn output(&self) -> &[u8]
        ensures { result.now ≡ (report self.now).output }
    {
        self.runner.output.bytes.as_slice()
    }

    /// How many instructions were done, an exit or a trap being one.
    pub fn done(&self) -> u64
        ensures { result ≡ (report self.now).steps }
    {
        self.done
    }

    /// The byte at an address, where one is mapped.
    pub fn byte_at(&self, at: u64) -> Option<u8>
        ensures { result ≡ (held self.now).memory at }
    {
        self.runner.memory.byte(at)
    }
}
