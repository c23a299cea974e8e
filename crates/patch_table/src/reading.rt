//! Patch text as a table of patches for a module of a graph.

ghost use Rattle.std.specs.Prelude.{◌≡◌, ◌<◌, IfOk, IfErr, length};
ghost use Rattle.std.specs.List.{AllByRecursion};
ghost use Rattle.gr_base.specs.declared.end.End.TheVariants.{Memory};
ghost use Rattle.module_program.specs.Graphs.{formed_at};
ghost use Rattle.node_arena.specs.Arenas.{module_at};
ghost use Rattle.node_arena.specs.Plain.{plain_module};
ghost use Rattle.patch_lines.specs.Values.{typed_line};
ghost use Rattle.sym_expr.specs.TableOk.{table_ok};
ghost use Rattle.patch_table.specs.PatchText.{GivesBy, Say, lines_of, patch_text};

use crate::line::read_patch_line;
use crate::text::split_line;
use gr_base::{End, Seq};
use node_arena::{Graph, ModuleId};
use patch_lines::laws::tables_fit;
use patch_lines::{Index, PatchFault, PatchLine, build_table};
use std::alloc::Global;
use sym_expr::PatchTable;

/// What the lines of a text say, one after another.
fn read_lines(alloc: Global, text: &[u8]) -> Result<Seq<PatchLine>, End<PatchFault>>
    ensures says { IfOk result (Say (lines_of text.now)) }
    ensures typed { IfOk result (AllByRecursion typed_line) }
    ensures memory { IfErr result (λ e. e ≡ Memory) }
{
    let mut lines = Seq::new(alloc);
    let mut rest = text;
    while !rest.is_empty() {
        let (line, behind) = split_line(rest);
        let said = read_patch_line(alloc, line)?;
        lines.push(said)?;
        rest = behind;
    }
    Ok(lines)
}

/// The table that a text gives for a module, or the first line at fault.
pub fn read_patches(
    alloc: Global,
    text: &[u8],
    graph: &Graph,
    id: ModuleId,
) -> Result<PatchTable, End<PatchFault>>
    requires live { id.index < length graph.now.modules }
    requires formed { formed_at graph.now id }
    // What is answered is what the text gives.
    ensures given { GivesBy result (patch_text text.now (plain_module graph.now (module_at graph.now id))) }
    // The module can take the table.
    ensures accepted { IfOk result (table_ok (plain_module graph.now (module_at graph.now id))) }
{
    tables_fit();
    let plain = graph.plain_module(alloc, id)?;
    let index = Index::new(alloc, plain)?;
    let lines = read_lines(alloc, text)?;
    build_table(alloc, &index, lines.as_slice())
}
