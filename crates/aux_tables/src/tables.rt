//! The two tables that say something of a program, to be looked up in.

ghost use Rattle.std.specs.Prelude.{◌≡◌, find, IfOk, IfSome};
ghost use Rattle.std.specs.Option.{option_and_then, option_copied, option_map};
ghost use Rattle.aux_codec.specs.Value.{value_of};
ghost use Rattle.sym_expr.specs.Tables.{alignment_entry, expr_size};
ghost use Rattle.aux_tables.specs.Found.{is_alignment, is_sizes};
ghost use Rattle.aux_tables.specs.ModuleTables.{alignments, expr_sizes, table_value, tables_among, HasOwnKeys};

use crate::entries::{numbers_if, sizes_if};
use crate::named::{is_alignment, is_sizes};
use crate::reading::read_table;
use aux_codec::AuxValue;
use gr_base::End;
use gt_model::Aux;
use indexmap::IndexMap;
use std::alloc::{AllocError, Global};
use std::marker::Model;
use uuid::Uuid;

/// The size of an expression of which the tables say nothing.
const ADDRESS_SIZE: u64 = 8;

/// The alignments of blocks, and the sizes of expressions by interval and offset.
///
/// Contracts see it as the entries of the two tables.
#[derive(Drop)]
pub struct ProgramTables {
    pub(crate) alignment: IndexMap<Uuid, u64>,
    pub(crate) sizes: IndexMap<(Uuid, u64), u64>,
}

impl Model for ProgramTables {
    ghost use Rattle.sym_expr.specs.Tables.{Tables};

    ghost Value = { Tables };

    ghost view = { λ t. record { alignment = t.alignment.entries; sizes = t.sizes.entries } };
}

impl ProgramTables {
    /// The alignment that the tables give a block. It takes no memory.
    pub fn alignment(&self, id: &Uuid) -> Option<u64>
        ensures { result ≡ alignment_entry self.now id.now }
    {
        self.alignment.get(id).copied()
    }

    /// The size of the expression at an offset of an interval. It takes no memory.
    pub fn size_at(&self, interval: &Uuid, at: u64) -> u64
        ensures { result ≡ expr_size self.now interval.now at }
    {
        self.sizes
            .get(&(*interval, at))
            .copied()
            .unwrap_or(ADDRESS_SIZE)
    }
}

/// What a table holds, if it is decoded.
fn table_value(alloc: Global, table: &Aux) -> Result<Option<AuxValue>, AllocError>
    ensures value { IfOk result (λ value. option_map value_of value ≡ table_value table.now) }
    ensures keys { IfOk result (λ value. IfSome value (λ x. HasOwnKeys (value_of x))) }
{
    match read_table(alloc, table) {
        Ok(value) => Ok(value),
        Err(End::Fault(_)) => Ok(None),
        Err(End::Memory) => Err(AllocError),
    }
}

/// What a table holds, if there is one and it is decoded.
fn value_if(alloc: Global, table: Option<&Aux>) -> Result<Option<AuxValue>, AllocError>
    ensures value { IfOk result (λ value. option_map value_of value ≡ option_and_then table_value (option_copied table.entry)) }
    ensures keys { IfOk result (λ value. IfSome value (λ x. HasOwnKeys (value_of x))) }
{
    match table {
        None => Ok(None),
        Some(table) => table_value(alloc, table),
    }
}

fn alignment_table(tables: &[Aux]) -> Option<&Aux>
    ensures { option_copied result ≡ find is_alignment tables.now }
{
    tables.iter().find(|table| is_alignment(table))
}

fn sizes_table(tables: &[Aux]) -> Option<&Aux>
    ensures { option_copied result ≡ find is_sizes tables.now }
{
    tables.iter().find(|table| is_sizes(table))
}

fn alignments(alloc: Global, tables: &[Aux]) -> Result<IndexMap<Uuid, u64>, AllocError>
    ensures { IfOk result (λ numbers. numbers.entries ≡ alignments tables.now) }
{
    let value = value_if(alloc, alignment_table(tables))?;
    numbers_if(alloc, &value)
}

fn expr_sizes(alloc: Global, tables: &[Aux]) -> Result<IndexMap<(Uuid, u64), u64>, AllocError>
    ensures { IfOk result (λ sizes. sizes.entries ≡ expr_sizes tables.now) }
{
    let value = value_if(alloc, sizes_table(tables))?;
    sizes_if(alloc, &value)
}

/// What the tables of a module say of a program. A table that is absent, of another type or not
/// decoded says nothing.
pub fn program_tables(alloc: Global, tables: &[Aux]) -> Result<ProgramTables, AllocError>
    ensures { IfOk result (λ t. t ≡ tables_among tables.now) }
{
    let alignment = alignments(alloc, tables)?;
    let sizes = expr_sizes(alloc, tables)?;
    Ok(ProgramTables { alignment, sizes })
}
