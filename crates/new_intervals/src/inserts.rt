//! The words that patches insert, by their blocks.

ghost use Rattle.std.specs.Prelude.{◌≡◌, ◌++◌, ℕ, List, [], ◌∷◌, if◌then◌else◌, map, unwrap_or, IfOk, OnOk};
ghost use Rattle.std.specs.Str.{bytes_eq};
ghost use Rattle.indexmap.specs.IndexMap.{get};
ghost use Rattle.new_intervals.specs.Bringing.{word_value};
ghost use Rattle.new_intervals.specs.Inserting.{values_among, values_in};

use crate::values::word_value;
use gr_base::Seq;
use gt_model::{ExprValue, Module};
use indexmap::IndexMap;
use std::alloc::{AllocError, Global};
use sym_expr::{Insert, PatchTable};
use uuid::Uuid;

/// A module and its patches, with what the words bring that are inserted in each block.
#[derive(Drop)]
pub struct Inserts<'a> {
    pub module: &'a Module,
    pub patches: &'a PatchTable,
    pub values: IndexMap<Uuid, Seq<Option<ExprValue>>>,
}

/// Adds what a word brings behind what those before it bring in its block.
fn add_value(
    alloc: Global,
    values: &mut IndexMap<Uuid, Seq<Option<ExprValue>>>,
    block: Uuid,
    value: Option<ExprValue>,
) -> Result<(), AllocError>
    ensures { OnOk result ((id : List ℕ) → unwrap_or (get bytes_eq values.new id) [] ≡ unwrap_or (get bytes_eq values.old id) [] ++ (if bytes_eq block id then value ∷ [] else [])) }
{
    match values.get_mut(&block) {
        Some(words) => words.push(value),
        None => {
            values.insert(block, Seq::from_slice(alloc, &[value])?)?;
            Ok(())
        }
    }
}

/// Adds what the words of an insert bring.
fn add_insert(
    alloc: Global,
    values: &mut IndexMap<Uuid, Seq<Option<ExprValue>>>,
    module: &Module,
    insert: &Insert,
) -> Result<(), AllocError>
    ensures { OnOk result ((id : List ℕ) → unwrap_or (get bytes_eq values.new id) [] ≡ unwrap_or (get bytes_eq values.old id) [] ++ (if bytes_eq insert.now.block id then map (word_value «module».now) insert.now.body else [])) }
{
    for word in insert.body.as_slice() {
        let value = word_value(alloc, module, word)?;
        add_value(alloc, values, insert.block, value)?;
    }
    Ok(())
}

/// What the words of inserts bring, by their blocks.
fn values_by_block(
    alloc: Global,
    module: &Module,
    inserts: &[Insert],
) -> Result<IndexMap<Uuid, Seq<Option<ExprValue>>>, AllocError>
    ensures { IfOk result (λ values. (id : List ℕ) → unwrap_or (get bytes_eq values id) [] ≡ values_among «module».now inserts.now id) }
{
    let mut values = IndexMap::new(alloc);
    for insert in inserts {
        add_insert(alloc, &mut values, module, insert)?;
    }
    Ok(values)
}

impl<'a> Inserts<'a> {
    ghost use Rattle.new_intervals.specs.Knowing.{Knows};

    /// Each word's expression is named once, here.
    pub fn new(
        alloc: Global,
        module: &'a Module,
        patches: &'a PatchTable,
    ) -> Result<Inserts<'a>, AllocError>
        ensures known { IfOk result Knows }
        ensures from { IfOk result (λ made. (made.module.now ≡ «module».now) × (made.patches.now ≡ patches.now)) }
    {
        let inserts = patches.inserts.as_slice();
        let values = values_by_block(alloc, module, inserts)?;
        Ok(Inserts {
            module,
            patches,
            values,
        })
    }

    /// What the words bring that are inserted in a block, in the order of the patches.
    pub(crate) fn values_in(&self, block: &Uuid) -> &[Option<ExprValue>]
        ensures { result.now ≡ values_in self.now block.now }
    {
        match self.values.get(block) {
            Some(values) => values.as_slice(),
            None => &[],
        }
    }
}
