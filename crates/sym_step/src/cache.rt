//! What was found of the places of the last steps.

ghost use Rattle.std.specs.Prelude.{◌≡◌, ◌<◌, Some, IfOk, IfSome, IsTrue};
ghost use Rattle.a64_inst.specs.Table.{is_allowed, row};
ghost use Rattle.sym_expr.specs.declared.program.Program.{Program as ProgramOf};
ghost use Rattle.sym_expr.specs.Points.{after, reached, word_at};
ghost use Rattle.sym_step.specs.Found.{IsCache, IsFound};

use crate::common::{Common, common_of};
use a64_inst::Inst;
use a64_ops::{OpList, ops};
use std::alloc::{AllocError, Global};
use sym_expr::{Point, Target, Word};

/// How many places are kept.
const SLOTS: usize = 1024;

/// What a step finds of its place: the point that has the word and the one after it, what the word's expression names,
/// and the operations of its instruction, which may be a common one.
#[derive(Drop)]
pub struct Found {
    pub place: Point,
    pub at: Point,
    /// The point after the instruction.
    pub after: Point,
    pub named: Option<Target>,
    pub ops: OpList,
    pub common: Option<Common>,
}

impl Found {
    /// What a step finds of a place that goes on to a point, where the word of an instruction is.
    pub fn new(place: &Point, at: &Point, onward: &Point, word: &Word, inst: &Inst) -> Found
        requires allowed { IsTrue (is_allowed inst.now) }
        requires row { row word.now.word ≡ Some inst.now }
        ensures place { result.place ≡ place.now }
        ensures is { (g : ProgramOf) → reached g place.now ≡ at.now → word_at g at.now ≡ Some word.now → onward.now ≡ after g at.now → IsFound g result }
    {
        a64_ops::laws::operations_are_sound();
        crate::laws::stores_come_early();
        let list = ops(inst);
        let slice = list.as_slice();
        let common = common_of(slice);
        Found {
            place: *place,
            at: *at,
            after: *onward,
            named: word.target,
            ops: list,
            common,
        }
    }
}

/// What was found of the places of the last steps, each in the slot of its place.
#[derive(Drop)]
pub struct Cache {
    pub slots: Vec<Option<Found>>,
}

/// The slot of a place, among all.
fn slot_of(place: &Point) -> usize
    ensures { result < 1024 }
{
    let id = place.block.as_bytes();
    let first = u64::from_le_bytes([id[0], id[1], id[2], id[3], id[4], id[5], id[6], id[7]]);
    (first.wrapping_add(place.offset / 4) % SLOTS as u64) as usize
}

impl Cache {
    /// No places.
    pub fn new(alloc: Global) -> Result<Cache, AllocError>
        ensures { IfOk result (λ cache. (g : ProgramOf) → IsCache g cache) }
    {
        let mut slots = Vec::new(alloc);
        for _ in 0..SLOTS {
            slots.push(None)?;
        }
        Ok(Cache { slots })
    }

    /// What was found of a place, if it is kept.
    #[tactic(auto, using(crate::proofs::Finding::kept_is))]
    pub fn get(&self, place: &Point) -> Option<&Found>
        ensures { IfSome result (λ found. (found.now.place ≡ place.now) × ((g : ProgramOf) → IsCache g self.now → IsFound g found.now)) }
    {
        match self.slots.get(slot_of(place)) {
            Some(Some(found)) if found.place == *place => Some(found),
            _ => None,
        }
    }

    /// Keeps what was found of a place.
    pub fn put(&mut self, found: Found)
        ensures { (g : ProgramOf) → IsFound g found → IsCache g self.old → IsCache g self.new }
    {
        let slot = slot_of(&found.place);
        if slot < self.slots.len() {
            self.slots[slot] = Some(found);
        }
    }
}
