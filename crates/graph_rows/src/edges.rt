use crate::find::{edge_at, vertex_of};
use crate::stop::Stop;
use crate::trial::Trial;
use crate::words::{identifier, number};
use gt_model::Label;
use node_arena::Graph;
use std::alloc::Global;

/// `add_edge SOURCE TARGET`, of a direct call without condition.
pub fn add_edge(trial: &mut Trial, words: &[&str]) -> Result<(), Stop> {
    let source = vertex_of(&trial.graph, &identifier(words, 1)?)?;
    let target = vertex_of(&trial.graph, &identifier(words, 2)?)?;
    let label = Label {
        conditional: false,
        direct: true,
        kind: 1,
    };
    let edge = trial.graph.add_edge(source, target, Some(label))?;
    trial.know(edge)
}

/// `add_vertex BLOCK`.
pub fn add_vertex(graph: &mut Graph, words: &[&str]) -> Result<(), Stop> {
    let vertex = vertex_of(graph, &identifier(words, 1)?)?;
    Ok(graph.add_vertex(vertex)?)
}

/// `remove_edge PLACE`.
pub fn remove_edge(graph: &mut Graph, words: &[&str]) -> Result<(), Stop> {
    let edge = edge_at(graph, number(words, 1)?)?;
    graph.remove_edge(edge);
    Ok(())
}

/// `remove_edges PLACE PLACE`, at once.
pub fn remove_edges(alloc: Global, graph: &mut Graph, words: &[&str]) -> Result<(), Stop> {
    let left = edge_at(graph, number(words, 1)?)?;
    let right = edge_at(graph, number(words, 2)?)?;
    Ok(graph.remove_edges(alloc, &[left, right])?)
}

/// `move_edge_source PLACE BLOCK`.
pub fn move_edge_source(graph: &mut Graph, words: &[&str]) -> Result<(), Stop> {
    let edge = edge_at(graph, number(words, 1)?)?;
    let source = vertex_of(graph, &identifier(words, 2)?)?;
    graph.move_edge_source(edge, source);
    Ok(())
}

/// `cfg`: there is a cfg.
pub fn has_cfg(graph: &Graph) -> Result<(), Stop> {
    if graph.has_cfg() {
        Ok(())
    } else {
        Err(Stop::Refused)
    }
}
