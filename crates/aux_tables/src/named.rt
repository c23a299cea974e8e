//! The two tables that say something of a program, by their names and types.

ghost use Rattle.std.specs.Prelude.{◌≡◌};
ghost use Rattle.aux_tables.specs.Found.{is_alignment, is_sizes};
ghost use Rattle.aux_tables.specs.ModuleTables.{is_table};

use gt_model::Aux;

fn is_table(name: &str, type_name: &str, table: &Aux) -> bool
    ensures { result ≡ is_table name.now type_name.now table.now }
{
    name == table.name.as_str() && type_name == table.type_name.as_str()
}

pub(crate) fn is_alignment(table: &Aux) -> bool
    ensures { result ≡ is_alignment table.now }
{
    is_table("alignment", "mapping<UUID,uint64_t>", table)
}

pub(crate) fn is_sizes(table: &Aux) -> bool
    ensures { result ≡ is_sizes table.now }
{
    let name = "symbolicExpressionSizes";
    is_table(name, "mapping<Offset,uint64_t>", table)
}
