//! What a table of functions holds once its module is repaired.

ghost use Rattle.std.specs.Prelude.{◌≡◌, map, IfOk, OnOk};
ghost use Rattle.aux_codec.specs.Spelling.{HasType};
ghost use Rattle.aux_codec.specs.Value.{Entries, Pairs, entries, entry_of, value_of};
ghost use Rattle.function_tables.specs.Functions.{entries_in, split_in, type_of, HasFewEntries, IsSplit};
ghost use Rattle.function_tables.specs.Later.{later_of};

use crate::entries::push_functions;
use crate::kinds::TableKind;
use crate::later::LaterParts;
use crate::sets::split_sets;
use aux_codec::{AuxPair, AuxValue};
use gt_model::Module;
use std::alloc::{AllocError, Global};
use sym_expr::Function;

/// The entries that were there, with the new parts of blocks where the table has sets of these.
fn split(
    alloc: Global,
    kind: TableKind,
    later: &LaterParts,
    pairs: Vec<AuxPair>,
) -> Result<Vec<AuxPair>, AllocError>
    requires { HasType (type_of kind) (Pairs (entries (map entry_of pairs.items))) }
    ensures entries { IfOk result (λ made. entries (map entry_of made.items) ≡ split_in kind (later_of later.now) (entries (map entry_of pairs.items))) }
    ensures few { OnOk result (IsSplit kind (later_of later.now) (entries (map entry_of pairs.items))) }
{
    match kind {
        TableKind::Blocks => split_sets(alloc, later, pairs.as_slice()),
        TableKind::Entries => Ok(pairs),
        TableKind::Names => Ok(pairs),
    }
}

/// All entries, those of functions last.
fn new_entries(
    alloc: Global,
    kind: TableKind,
    module: &Module,
    later: &LaterParts,
    functions: &[Function],
    pairs: Vec<AuxPair>,
) -> Result<Vec<AuxPair>, AllocError>
    requires { HasType (type_of kind) (Pairs (entries (map entry_of pairs.items))) }
    ensures entries { IfOk result (λ made. entries (map entry_of made.items) ≡ entries_in kind «module».now (later_of later.now) functions.now (entries (map entry_of pairs.items))) }
    ensures few { OnOk result (HasFewEntries kind «module».now (later_of later.now) functions.now (entries (map entry_of pairs.items))) }
{
    let mut made = split(alloc, kind, later, pairs)?;
    push_functions(alloc, &mut made, kind, module, functions)?;
    Ok(made)
}

/// What a table of functions holds, with new parts and functions.
pub fn with_functions(
    alloc: Global,
    kind: TableKind,
    module: &Module,
    later: &LaterParts,
    functions: &[Function],
    value: AuxValue,
) -> Result<AuxValue, AllocError>
    requires { HasType (type_of kind) (value_of value) }
    ensures value { IfOk result (λ made. (es : Entries) → value_of value ≡ Pairs es → value_of made ≡ Pairs (entries_in kind «module».now (later_of later.now) functions.now es)) }
    ensures few { OnOk result ((es : Entries) → value_of value ≡ Pairs es → HasFewEntries kind «module».now (later_of later.now) functions.now es) }
{
    match value {
        AuxValue::Pairs(pairs) => {
            let made = new_entries(alloc, kind, module, later, functions, pairs)?;
            Ok(AuxValue::Pairs(made))
        }
        _ => unreachable!(),
    }
}
