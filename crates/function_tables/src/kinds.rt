//! The three tables of functions, by their names and types.

ghost use Rattle.std.specs.Prelude.{◌≡◌};
ghost use Rattle.aux_tables.specs.ModuleTables.{is_table};
ghost use Rattle.edge_repair.specs.Sets.{is_blocks_table, is_entries_table, is_names_table};
ghost use Rattle.function_tables.specs.Functions.{kind_in};

use gt_model::Aux;

/// A table that has something of each function.
#[derive(Clone, Copy, Debug, PartialEq, Eq)]
pub enum TableKind {
    /// The blocks of each.
    Blocks,
    /// The blocks where each is entered.
    Entries,
    /// The symbol of each.
    Names,
}

fn is_table(name: &str, type_name: &str, table: &Aux) -> bool
    ensures { result ≡ is_table name.now type_name.now table.now }
{
    name == table.name.as_str() && type_name == table.type_name.as_str()
}

fn is_blocks_table(table: &Aux) -> bool
    ensures { result ≡ is_blocks_table table.now }
{
    is_table("functionBlocks", "mapping<UUID,set<UUID>>", table)
}

fn is_entries_table(table: &Aux) -> bool
    ensures { result ≡ is_entries_table table.now }
{
    is_table("functionEntries", "mapping<UUID,set<UUID>>", table)
}

fn is_names_table(table: &Aux) -> bool
    ensures { result ≡ is_names_table table.now }
{
    is_table("functionNames", "mapping<UUID,UUID>", table)
}

/// Which of the three a table is, if it is one.
pub fn kind_of(table: &Aux) -> Option<TableKind>
    ensures { result ≡ kind_in table.now }
{
    if is_blocks_table(table) {
        return Some(TableKind::Blocks);
    }
    if is_entries_table(table) {
        return Some(TableKind::Entries);
    }
    if is_names_table(table) {
        return Some(TableKind::Names);
    }
    None
}
