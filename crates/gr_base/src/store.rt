ghost use Rattle.std.specs.Prelude.{Some, OnOk, OnErr, IsSome};
ghost use Rattle.gr_base.specs.Desk.{MadeIsHeld, Leaves, SameFiles, Adds};
ghost use Rattle.gr_base.specs.Held.{held_in, name_of, KeepsNames};

use std::alloc::{AllocError, Global};
use std::collections::BTreeMap;

/// Files in memory, and which of them may be appended to.
#[derive(Drop)]
pub struct Store {
    alloc: Global,
    files: BTreeMap<String, Vec<u8>>,
    made: Option<String>,
    ghost made_is_held: { MadeIsHeld (Some (held_in files)) (name_of made) },
}

impl Store {
    ghost use Rattle.std.specs.Prelude.{◌≡◌, ℕ, List, [], Some, None, length, OnOk, OnErr, MatchOption};
    ghost use Rattle.std.specs.Option.{option_copied};
    ghost use Rattle.gr_base.specs.Desk.{Leaves, SameFiles, Adds};
    ghost use Rattle.gr_base.specs.Store.{files_of, made_of, ReadsPiece};

    /// No files. It takes no memory.
    pub fn new(alloc: Global) -> Store
        ensures files { (name : List ℕ) → files_of result name ≡ None }
        ensures made { made_of result ≡ None }
    {
        Store {
            alloc,
            files: BTreeMap::new(alloc),
            made: None,
        }
    }

    pub fn get(&self, name: &str) -> Option<&[u8]>
        ensures { option_copied result ≡ files_of self.now name.now }
    {
        match self.files.get(name) {
            Some(bytes) => Some(bytes.as_slice()),
            None => None,
        }
    }

    /// Puts bytes in the place of what the name holds, if anything.
    pub fn put(&mut self, name: &str, bytes: &[u8]) -> Result<(), AllocError>
        ensures ok { OnOk result (Leaves name.now bytes.now (files_of self.old) (files_of self.new)) }
        ensures err { OnErr result (SameFiles (files_of self.old) (files_of self.new)) }
        ensures made { made_of self.new ≡ made_of self.old }
    {
        replace(self.alloc, &mut self.files, name, bytes)
    }

    /// Makes the file empty, and the one that may be appended to.
    pub fn create(&mut self, name: &str) -> Result<(), AllocError>
        ensures ok { OnOk result (Leaves name.now [] (files_of self.old) (files_of self.new)) }
        ensures made { OnOk result (made_of self.new ≡ Some name.now) }
        ensures err { OnErr result (SameFiles (files_of self.old) (files_of self.new)) }
        ensures same_made { OnErr result (made_of self.new ≡ made_of self.old) }
    {
        let made = String::from_str(self.alloc, name)?;
        self.put(name, &[])?;
        self.made = Some(made);
        Ok(())
    }

    /// Adds bytes at the end of the file that was made.
    pub fn append(&mut self, name: &str, more: &[u8]) -> Result<(), AllocError>
        requires { made_of self.old ≡ Some name.now }
        ensures ok { OnOk result (Adds name.now more.now (files_of self.old) (files_of self.new)) }
        ensures err { OnErr result (SameFiles (files_of self.old) (files_of self.new)) }
        ensures made { made_of self.new ≡ made_of self.old }
    {
        extend(&mut self.files, name, more)
    }

    /// Reads bytes of a file from a place into the front of the buffer, and answers how many.
    pub fn fetch(&self, name: &str, at: u64, most: usize, buf: &mut [u8]) -> Option<usize>
        ensures { MatchOption result (files_of self.now name.now ≡ None) (λ n. ReadsPiece name.now at most (length buf.old) buf.new n (files_of self.now)) }
    {
        let bytes = self.get(name)?;
        let start = bytes.len().min(at as usize);
        let count = (bytes.len() - start).min(most.min(buf.len()));
        buf[..count].copy_from_slice(&bytes[start..start + count]);
        Some(count)
    }
}

// Puts bytes in the place of what the name holds, if anything.
fn replace(
    alloc: Global,
    files: &mut BTreeMap<String, Vec<u8>>,
    name: &str,
    bytes: &[u8],
) -> Result<(), AllocError>
    ensures ok { OnOk result (Leaves name.now bytes.now (held_in files.old) (held_in files.new)) }
    ensures err { OnErr result (SameFiles (held_in files.old) (held_in files.new)) }
    ensures kept { KeepsNames (held_in files.old) (held_in files.new) }
{
    let key = String::from_str(alloc, name)?;
    let content = Vec::from_slice(alloc, bytes)?;
    files.insert(key, content)?;
    Ok(())
}

// Adds bytes at the end of a file that is held.
fn extend(files: &mut BTreeMap<String, Vec<u8>>, name: &str, more: &[u8]) -> Result<(), AllocError>
    requires { IsSome (held_in files.old name.now) }
    ensures ok { OnOk result (Adds name.now more.now (held_in files.old) (held_in files.new)) }
    ensures err { OnErr result (SameFiles (held_in files.old) (held_in files.new)) }
    ensures kept { KeepsNames (held_in files.old) (held_in files.new) }
{
    match files.get_mut(name) {
        Some(bytes) => bytes.extend_from_slice(more),
        None => Ok(()),
    }
}
