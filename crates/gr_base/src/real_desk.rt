ghost use Rattle.std.specs.Prelude.{◌≡◌, ◌≤◌, length, IfOk};

use crate::counts::Counts;
use crate::desk::{Desk, DeskFault};
use std::alloc::Global;
use std::io::{Read, Seek, SeekFrom, Write};
use std::rt::Files;
use std::{fs, io};

/// The name of standard input and output.
const STANDARD: &str = "-";

// A reader, and how many bytes were read of it.
#[derive(Drop)]
struct Source<T> {
    reader: T,
    at: u64,
}

impl<T: Read> Source<T> {
    fn read(&mut self, buf: &mut [u8]) -> io::Result<usize>
        ensures { IfOk result (λ n. n ≤ length buf.old) }
    {
        let count = self.reader.read(buf)?;
        self.at = self.at.saturating_add(count as u64);
        Ok(count)
    }
}

// A file that stays open between fetches.
#[derive(Drop)]
struct OpenInput<F> {
    name: String,
    source: Source<F>,
}

impl<F: Read + Seek> OpenInput<F> {
    // A pipe can't seek, and needn't where it is read in order.
    fn read_at(&mut self, at: u64, buf: &mut [u8]) -> io::Result<usize>
        ensures { IfOk result (λ n. n ≤ length buf.old) }
    {
        if self.source.at != at {
            self.source.reader.seek(SeekFrom::Start(at))?;
            self.source.at = at;
        }
        self.source.read(buf)
    }
}

/// The files of the system, and for the name `-` standard input and output.
///
/// It is the one place where the program reaches outside, and tells nothing of what the files hold.
/// A fetch from a file's start opens it anew; later ones go on reading it. Each write goes to the
/// system at once, so that a device that is full is noticed in the call.
#[derive(Drop)]
pub struct RealDesk<R: Files + Input + Print + Drop> {
    alloc: Global,
    rt: R,
    counts: Counts,
    standard: Source<R::Reader>,
    input: Option<OpenInput<R::File>>,
    made: Option<String>,
    // None is standard output.
    output: Option<R::File>,
}

impl<R: Files + Input + Print + Drop> RealDesk<R> {
    /// A desk that has read and made nothing yet. It takes no memory.
    pub fn new(alloc: Global, rt: R) -> RealDesk<R>
        ensures made { ⟦<RealDesk<R> as Desk>⟧.made result ≡ None }
        ensures read_faults { ⟦<RealDesk<R> as Desk>⟧.read_faults result ≡ 0 }
        ensures write_faults { ⟦<RealDesk<R> as Desk>⟧.write_faults result ≡ 0 }
        ensures taken { ⟦<RealDesk<R> as Desk>⟧.taken result ≡ 0 }
    {
        let reader = rt.reader();
        RealDesk {
            alloc,
            rt,
            counts: Counts::new(),
            standard: Source { reader, at: 0 },
            input: None,
            made: None,
            output: None,
        }
    }
}

// Reads a file from a place, and keeps it open where that succeeds.
fn read_file<R: Files>(
    rt: &R,
    alloc: Global,
    open: &mut Option<OpenInput<R::File>>,
    name: &str,
    at: u64,
    buf: &mut [u8],
) -> Result<usize, DeskFault>
    ensures { IfOk result (λ n. n ≤ length buf.old) }
{
    let mut input = match open.take() {
        Some(input) if at != 0 && input.name.as_str() == name => input,
        _ => OpenInput {
            name: String::from_str(alloc, name)?,
            source: Source {
                reader: fs::open(rt, name)?,
                at: 0,
            },
        },
    };
    let count = input.read_at(at, buf)?;
    *open = Some(input);
    Ok(count)
}

// Reads on from where the last read of standard input ended.
fn read_standard<T: Read>(
    standard: &mut Source<T>,
    at: u64,
    buf: &mut [u8],
) -> Result<usize, DeskFault>
    ensures { IfOk result (λ n. n ≤ length buf.old) }
{
    if at != standard.at {
        return Err(DeskFault::Failed);
    }
    Ok(standard.read(buf)?)
}

impl<R: Files + Input + Print + Drop> Desk for RealDesk<R> {
    ghost use Rattle.std.specs.Prelude.{◌≡◌, ◌≤◌, ◌<◌, None, Some, Err, false, length, IfOk, OnOk, OnErr};
    ghost use Rattle.std.specs.Result.{result_unwrap_or};
    ghost use Rattle.std.proofs.Common.{arith};
    ghost use Rattle.gr_base.specs.declared.desk.DeskFault.TheVariants.{Failed};
    ghost use Rattle.gr_base.specs.Desk.{counted, after_call, HasCause};
    ghost use Rattle.gr_base.specs.Held.{name_of};

    ghost files = { λ _. None };

    ghost read_faults = { λ desk. desk.counts.read_faults };

    ghost write_faults = { λ desk. desk.counts.write_faults };

    ghost made = { λ desk. name_of desk.made };

    ghost steady = { λ _. false };

    ghost taken = { λ desk. counted desk.counts.taken 0 };

    ghost made_is_held = { λ desk. tt };

    ghost steady_tells = { λ desk steady. Prim.cc };

    ghost taken_fits = { λ desk. Prim.omega arith };

    fn fetch(&mut self, name: &str, at: u64, buf: &mut [u8]) -> Result<usize, DeskFault>
        ensures bound { IfOk result (λ n. n ≤ length buf.old) }
        ensures read_faults { self.new.counts.read_faults ≡ after_call self.old.counts.read_faults result }
        ensures write_faults { self.new.counts.write_faults ≡ self.old.counts.write_faults }
        ensures taken { counted self.new.counts.taken 0 ≡ counted (counted self.old.counts.taken 0) (result_unwrap_or result 0) }
        ensures made { name_of self.new.made ≡ name_of self.old.made }
        ensures read_cause { HasCause self.old.counts.read_faults self.new.counts.read_faults result }
    {
        let read = if name == STANDARD {
            read_standard(&mut self.standard, at, buf)
        } else {
            read_file(&self.rt, self.alloc, &mut self.input, name, at, buf)
        };
        match read {
            Ok(count) => self.counts.take(count),
            Err(DeskFault::Failed) => self.counts.refuse_read(),
            Err(DeskFault::Memory) => {}
        }
        read
    }

    fn create(&mut self, name: &str) -> Result<(), DeskFault>
        ensures made { OnOk result (name_of self.new.made ≡ Some name.now) }
        ensures same_made { OnErr result (name_of self.new.made ≡ name_of self.old.made) }
        ensures read_faults { self.new.counts.read_faults ≡ self.old.counts.read_faults }
        ensures write_faults { self.new.counts.write_faults ≡ after_call self.old.counts.write_faults result }
        ensures taken { self.new.counts.taken ≡ self.old.counts.taken }
        ensures write_cause { HasCause self.old.counts.write_faults self.new.counts.write_faults result }
    {
        let made = String::from_str(self.alloc, name)?;
        if name == STANDARD {
            self.output = None;
        } else {
            match fs::create(&self.rt, name) {
                Ok(file) => self.output = Some(file),
                Err(_) => {
                    self.counts.refuse_write();
                    return Err(DeskFault::Failed);
                }
            }
        }
        self.made = Some(made);
        Ok(())
    }

    fn append(&mut self, _name: &str, piece: &[u8]) -> Result<usize, DeskFault>
        ensures some { IfOk result (λ n. 0 < n) }
        ensures bound { IfOk result (λ n. n ≤ length piece.now) }
        ensures failed { OnErr result (result ≡ Err Failed) }
        ensures made { name_of self.new.made ≡ name_of self.old.made }
        ensures read_faults { self.new.counts.read_faults ≡ self.old.counts.read_faults }
        ensures write_faults { self.new.counts.write_faults ≡ after_call self.old.counts.write_faults result }
        ensures taken { self.new.counts.taken ≡ self.old.counts.taken }
        ensures write_cause { HasCause self.old.counts.write_faults self.new.counts.write_faults result }
    {
        let written = match &mut self.output {
            Some(file) => file.write(piece),
            None => self.rt.write_some(piece),
        };
        match written {
            Ok(count) if count > 0 => Ok(count),
            _ => {
                self.counts.refuse_write();
                Err(DeskFault::Failed)
            }
        }
    }
}
