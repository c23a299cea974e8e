use crate::edges::{add_edge, add_vertex, has_cfg, move_edge_source, remove_edge, remove_edges};
use crate::nodes::{add_block, add_block_behind, add_interval, add_symbol, copy, has_module};
use crate::settings::{set_block, set_contents, set_no_exprs, set_referent, set_table};
use crate::stop::Stop;
use crate::trial::Trial;
use crate::words::words_of;
use std::alloc::Global;

/// Does what the words of an action to nodes say, if it is one.
fn change(alloc: Global, trial: &mut Trial, words: &[&str], name: &str) -> Result<(), Stop> {
    let graph = &mut trial.graph;
    match name {
        "add_symbol" => add_symbol(alloc, graph, words),
        "add_interval" => add_interval(graph, words),
        "add_block" => add_block(graph, words),
        "add_block_behind" => add_block_behind(graph, words),
        "set_block" => set_block(graph, words),
        "set_contents" => set_contents(alloc, graph, words),
        "set_no_exprs" => set_no_exprs(alloc, graph, words),
        "set_table" => set_table(alloc, graph, words),
        "set_referent" => set_referent(graph, words),
        "copy" => copy(alloc, graph),
        "module" => has_module(graph, words),
        _ => Err(Stop::Words),
    }
}

/// Does what an action says.
fn act(alloc: Global, trial: &mut Trial, action: &str) -> Result<(), Stop> {
    let words = words_of(alloc, action)?;
    let words = words.as_slice();
    let name = words.first().copied().unwrap_or("");
    match name {
        "add_edge" => add_edge(trial, words),
        "add_vertex" => add_vertex(&mut trial.graph, words),
        "remove_edge" => remove_edge(&mut trial.graph, words),
        "remove_edges" => remove_edges(alloc, &mut trial.graph, words),
        "move_edge_source" => move_edge_source(&mut trial.graph, words),
        "cfg" => has_cfg(&trial.graph),
        _ => change(alloc, trial, words, name),
    }
}

/// Does what actions between semicolons say, up to the first that isn't done. A row without actions does nothing.
pub fn act_all(alloc: Global, trial: &mut Trial, actions: &str) -> Result<(), Stop> {
    if actions.is_empty() {
        return Ok(());
    }
    for action in actions.split(';') {
        act(alloc, trial, action)?;
    }
    Ok(())
}
