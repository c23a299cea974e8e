//! How much there is of everything.

ghost use Rattle.std.specs.Prelude.{◌≡◌, ◌+◌, ◌<◌, length, count_by, is_none, sum_by, map, IfOk};
ghost use Rattle.aux_tables.specs.Found.{places_held};
ghost use Rattle.node_arena.specs.Arenas.{interval_at, module_at};
ghost use Rattle.node_arena.specs.Plain.{ir_of, plain_module};
ghost use Rattle.ir_check.specs.Report.{report_of};
ghost use Rattle.ir_check.specs.Spans.{AreIntervals};

use crate::loaded::intervals_of;
use crate::report::CheckReport;
use aux_codec::Place;
use gr_base::Seq;
use node_arena::{Graph, IntervalId, ModuleId};
use std::alloc::{AllocError, Global};

/// A sum; no memory has as much as one that is no u64.
fn sum(a: u64, b: usize) -> Result<u64, AllocError>
    ensures { IfOk result (λ n. n ≡ a + b) }
{
    match a.checked_add(b as u64) {
        Some(n) => Ok(n),
        None => Err(AllocError),
    }
}

fn count_blocks(graph: &Graph, ids: &[IntervalId]) -> Result<u64, AllocError>
    requires { AreIntervals graph.now ids.now }
    ensures { IfOk result (λ n. n ≡ sum_by (λ id. length (interval_at graph.now id).blocks) ids.now) }
{
    let mut total = 0;
    for id in ids {
        total = sum(total, graph.interval(*id).blocks.len())?;
    }
    Ok(total)
}

fn count_exprs(graph: &Graph, ids: &[IntervalId]) -> Result<u64, AllocError>
    requires { AreIntervals graph.now ids.now }
    ensures { IfOk result (λ n. n ≡ sum_by (λ id. length (interval_at graph.now id).exprs) ids.now) }
{
    let mut total = 0;
    for id in ids {
        total = sum(total, graph.interval(*id).exprs.len())?;
    }
    Ok(total)
}

fn count_opaque(all: &[Option<Seq<Place>>]) -> u64
    ensures { result ≡ count_by (λ places. is_none places) all.now }
{
    all.iter().filter(|places| places.is_none()).count() as u64
}

/// How much there is of everything, with the Places of each table that is decoded.
pub(crate) fn report_of(
    alloc: Global,
    graph: &Graph,
    module: ModuleId,
    all: &[Option<Seq<Place>>],
) -> Result<CheckReport, AllocError>
    requires live { «module».index < length graph.now.modules }
    requires read { all.now ≡ map places_held (module_at graph.now «module»).aux }
    ensures { IfOk result (λ report. report ≡ report_of (ir_of graph.now) (plain_module graph.now (module_at graph.now «module»))) }
{
    let node = graph.module(module);
    let intervals = intervals_of(alloc, graph, node.sections.as_slice())?;
    let blocks = count_blocks(graph, intervals.as_slice())?;
    let exprs = count_exprs(graph, intervals.as_slice())?;
    Ok(CheckReport {
        sections: node.sections.len() as u64,
        intervals: intervals.len() as u64,
        blocks,
        symbols: node.symbols.len() as u64,
        exprs,
        edges: graph.edges().len() as u64,
        tables: node.aux.len() as u64,
        opaque: count_opaque(all),
    })
}
