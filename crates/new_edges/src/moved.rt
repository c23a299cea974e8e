//! Old edges, each from the part that it left.

ghost use Rattle.std.specs.Prelude.{◌≡◌, ◌++◌, ◌∷◌, [], IfOk, OnOk};
ghost use Rattle.std.specs.List.{filter_map};
ghost use Rattle.std.specs.Str.{bytes_eq};
ghost use Rattle.edge_repair.specs.Edges.{is_fallthrough};
ghost use Rattle.indexmap.specs.IndexMap.{get};
ghost use Rattle.new_edges.specs.Leaving.{edge_left, edge_moved, from_block};

use crate::leaving::Leaving;
use crate::rows::FALLTHROUGH;
use gt_model::Edge;
use indexmap::IndexMap;
use std::alloc::{AllocError, Global};
use uuid::Uuid;

/// An edge without a label is none.
fn is_fallthrough(edge: &Edge) -> bool
    ensures { result ≡ is_fallthrough edge.now }
{
    match edge.label {
        Some(label) => label.kind == FALLTHROUGH,
        None => false,
    }
}

fn from_block(edge: &Edge, source: &Uuid) -> Edge
    ensures { result ≡ from_block edge.now source.now }
{
    Edge {
        source: *source,
        target: edge.target,
        label: edge.label,
    }
}

/// An edge that leaves a block in which words are inserted.
fn edge_left(edge: &Edge, leaving: &Leaving) -> Option<Edge>
    ensures { result ≡ edge_left edge.now leaving.now }
{
    if !is_fallthrough(edge) {
        return Some(from_block(edge, &leaving.jumps));
    }
    match &leaving.falls {
        Some(source) => Some(from_block(edge, source)),
        None => None,
    }
}

fn edge_moved(leaving: &IndexMap<Uuid, Option<Leaving>>, edge: &Edge) -> Option<Edge>
    ensures { result ≡ edge_moved (get bytes_eq leaving.now) edge.now }
{
    match leaving.get(&edge.source) {
        Some(Some(leaving)) => edge_left(edge, leaving),
        _ => Some(*edge),
    }
}

fn push_moved(
    moved: &mut Vec<Edge>,
    leaving: &IndexMap<Uuid, Option<Leaving>>,
    edge: &Edge,
) -> Result<(), AllocError>
    ensures { OnOk result (moved.new.items ≡ moved.old.items ++ filter_map (edge_moved (get bytes_eq leaving.now)) (edge.now ∷ [])) }
{
    match edge_moved(leaving, edge) {
        Some(edge) => {
            moved.push(edge)?;
            Ok(())
        }
        None => Ok(()),
    }
}

/// The edges that are left of old ones, in order.
pub(crate) fn moved_edges(
    alloc: Global,
    leaving: &IndexMap<Uuid, Option<Leaving>>,
    edges: &[Edge],
) -> Result<Vec<Edge>, AllocError>
    ensures { IfOk result (λ moved. moved.items ≡ filter_map (edge_moved (get bytes_eq leaving.now)) edges.now) }
{
    let mut moved = Vec::new(alloc);
    for edge in edges {
        push_moved(&mut moved, leaving, edge)?;
    }
    Ok(moved)
}
