ghost use Rattle.std.specs.Prelude.{◌≡◌, [], ◌||◌, ℕ, List, map, not, IfOk, OnOk};
ghost use Rattle.std.specs.List.{list_any};
ghost use Rattle.std.specs.Str.{bytes_eq};
ghost use Rattle.std.proofs.lemmas.Map.Keys.{IsStrictlySortedBy-prop};
ghost use Rattle.aux_codec.specs.Order.{by_rank, Ascend};

use crate::order::is_behind;
use std::alloc::{AllocError, Global};
use std::collections::BTreeSet;
use std::marker::Model;

/// The bytes of the members or keys that were read. While each stands behind those before it, as writers sort
/// them, a list has them, and a look at its last tells that the next is new. From the first that doesn't they
/// are in an ordered set.
#[derive(Drop)]
pub struct Seen<'a> {
    ascending: Vec<&'a [u8]>,
    others: BTreeSet<&'a [u8]>,
    ghost ascend: { Ascend (map (λ k. k.now) ascending.items) } by { IsStrictlySortedBy-prop by_rank _ },
}

impl<'a> Model for Seen<'a> {
    ghost use Rattle.std.specs.Prelude.{List, ℕ, ◌++◌, map};

    ghost Value = { List (List ℕ) };

    ghost view = { λ s. map (λ k. k.now) (s.ascending.items ++ s.others.keys) };
}

/// Puts keys into a set.
fn put_all<'a>(set: &mut BTreeSet<&'a [u8]>, keys: &[&'a [u8]]) -> Result<(), AllocError>
    ensures { OnOk result ((q : List ℕ) → list_any (bytes_eq q) (map (λ k. k.now) set.new.keys) ≡ (list_any (bytes_eq q) (map (λ k. k.now) keys.now) || list_any (bytes_eq q) (map (λ k. k.now) set.old.keys))) }
{
    for key in keys {
        set.insert(*key)?;
    }
    Ok(())
}

impl<'a> Seen<'a> {
    pub fn new(alloc: Global) -> Seen<'a>
        ensures { result ≡ [] }
    {
        Seen {
            ascending: Vec::new(alloc),
            others: BTreeSet::new(alloc),
        }
    }

    /// Adds bytes, and answers whether they are new.
    pub fn insert(&mut self, bytes: &'a [u8]) -> Result<bool, AllocError>
        ensures added { IfOk result (λ added. added ≡ not (list_any (bytes_eq bytes.now) self.old)) }
        ensures has { OnOk result ((q : List ℕ) → list_any (bytes_eq q) self.new ≡ (bytes_eq q bytes.now || list_any (bytes_eq q) self.old)) }
    {
        if self.others.is_empty() && is_behind(bytes, self.ascending.as_slice()) {
            self.ascending.push(bytes)?;
            return Ok(true);
        }
        put_all(&mut self.others, self.ascending.as_slice())?;
        self.ascending.clear();
        Ok(self.others.insert(bytes)?)
    }
}
