//! What is found in tables, each of which is decoded once.

ghost use Rattle.std.specs.Prelude.{◌≡◌, List, [], ◌∷◌, ◌++◌, if◌then◌else◌, unwrap_or, Some, None, IfOk, IfSome, OnOk};
ghost use Rattle.std.specs.Option.{option_map, option_or};
ghost use Rattle.gt_model.specs.declared.tables.Aux.{Aux as AuxOf};
ghost use Rattle.aux_types.specs.Gives.{Gives};
ghost use Rattle.aux_codec.specs.Value.{value_of};
ghost use Rattle.aux_tables.specs.Found.{entries_of, is_alignment, is_sizes, numbers_at, places_held, sizes_at, IsFound};
ghost use Rattle.aux_tables.specs.ModuleTables.{held_places, table_value, tables_among, HasOwnKeys};

use crate::entries::{numbers_if, sizes_if};
use crate::named::{is_alignment, is_sizes};
use crate::places::places_in;
use crate::reading::read_table;
use crate::tables::ProgramTables;
use aux_codec::{AuxFault, AuxValue, Place};
use gr_base::{End, Seq};
use gt_model::Aux;
use indexmap::IndexMap;
use std::alloc::{AllocError, Global};
use std::hash::Hash;
use uuid::Uuid;

/// What is found in tables: the Places in each, nothing for one whose type isn't parsed, and the entries of the two
/// tables that say something of a program, where there are such.
#[derive(Drop)]
pub struct Found {
    pub places: Vec<Option<Seq<Place>>>,
    pub alignment: Option<IndexMap<Uuid, u64>>,
    pub sizes: Option<IndexMap<(Uuid, u64), u64>>,
}

/// The numbers of a table of alignments; nothing for another table.
fn alignment_in(
    alloc: Global,
    table: &Aux,
    value: &Option<AuxValue>,
) -> Result<Option<IndexMap<Uuid, u64>>, AllocError>
    requires held { option_map value_of value.now ≡ table_value table.now }
    requires keys { IfSome value.now (λ x. HasOwnKeys (value_of x)) }
    ensures { IfOk result (λ numbers. option_map entries_of numbers ≡ (if is_alignment table.now then Some (numbers_at table.now) else None)) }
{
    if !is_alignment(table) {
        return Ok(None);
    }
    Ok(Some(numbers_if(alloc, value)?))
}

/// The sizes of a table of expressions' sizes; nothing for another table.
fn sizes_in(
    alloc: Global,
    table: &Aux,
    value: &Option<AuxValue>,
) -> Result<Option<IndexMap<(Uuid, u64), u64>>, AllocError>
    requires held { option_map value_of value.now ≡ table_value table.now }
    requires keys { IfSome value.now (λ x. HasOwnKeys (value_of x)) }
    ensures { IfOk result (λ sizes. option_map entries_of sizes ≡ (if is_sizes table.now then Some (sizes_at table.now) else None)) }
{
    if !is_sizes(table) {
        return Ok(None);
    }
    Ok(Some(sizes_if(alloc, value)?))
}

/// Keeps entries, unless some came before.
fn keep_first<K: Eq + Hash + Drop>(
    kept: &mut Option<IndexMap<K, u64>>,
    entries: Option<IndexMap<K, u64>>,
)
    ensures { option_map entries_of kept.new ≡ option_or (option_map entries_of kept.old) (option_map entries_of entries) }
{
    if kept.is_none() {
        *kept = entries;
    }
}

/// The entries that were kept, if any. It takes no memory.
fn or_none<K: Eq + Hash>(alloc: Global, kept: Option<IndexMap<K, u64>>) -> IndexMap<K, u64>
    ensures { result.entries ≡ unwrap_or (option_map entries_of kept) [] }
{
    match kept {
        Some(entries) => entries,
        None => IndexMap::new(alloc),
    }
}

impl Found {
    /// What is found in no tables. It takes no memory.
    pub fn new(alloc: Global) -> Found
        ensures { IsFound [] result }
    {
        Found {
            places: Vec::new(alloc),
            alignment: None,
            sizes: None,
        }
    }

    /// Decodes one table more, or tells its first fault. After an error nothing is known of what was found.
    pub fn add(&mut self, alloc: Global, table: &Aux) -> Result<(), End<AuxFault>>
        ensures fault { Gives (λ _. places_held table.now) result (held_places table.now) }
        ensures found { OnOk result ((before : List AuxOf) → IsFound before self.old → IsFound (before ++ table.now ∷ []) self.new) }
    {
        let value = read_table(alloc, table)?;
        let alignment = alignment_in(alloc, table, &value)?;
        let sizes = sizes_in(alloc, table, &value)?;
        keep_first(&mut self.alignment, alignment);
        keep_first(&mut self.sizes, sizes);
        self.places.push(places_in(alloc, &value)?)?;
        Ok(())
    }

    /// The Places in each table, and what the tables say of a program.
    pub fn parts(self, alloc: Global) -> (Vec<Option<Seq<Place>>>, ProgramTables)
        ensures places { result.0 ≡ self.places }
        ensures tables { (tables : List AuxOf) → IsFound tables self → result.1 ≡ tables_among tables }
    {
        let Found {
            places,
            alignment,
            sizes,
        } = self;
        let tables = ProgramTables {
            alignment: or_none(alloc, alignment),
            sizes: or_none(alloc, sizes),
        };
        (places, tables)
    }
}
