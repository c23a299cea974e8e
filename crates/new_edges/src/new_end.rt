//! How new blocks end, and the edges that leave them there.

ghost use Rattle.std.specs.Prelude.{◌≡◌, ◌++◌, false, OnOk};
ghost use Rattle.std.specs.Option.{option_map, option_map_or, option_to_list};
ghost use Rattle.edge_repair.specs.Jumps.{has_row, is_last};
ghost use Rattle.new_edges.specs.NewEnds.{branch_from, edges_of, next_edge};

use crate::rows::{fallthrough_label, never_goes_on};
use gt_model::{Edge, Label};
use std::alloc::AllocError;
use uuid::Uuid;

/// Where a direct branch or call of the patches leads, and how.
#[derive(Clone, Copy, Debug, PartialEq, Eq)]
pub(crate) struct Branch {
    pub label: Label,
    pub target: Uuid,
}

/// The last word of a block of a function, and where it leads.
#[derive(Clone, Copy, Debug, PartialEq, Eq)]
pub(crate) struct LastWord {
    pub word: u32,
    pub branch: Option<Branch>,
}

/// The end of a new block: its last word, where that leads if patches brought it, and the part or
/// block of the function that follows.
#[derive(Clone, Copy, Debug, PartialEq, Eq)]
pub(crate) struct NewEnd {
    pub id: Uuid,
    pub word: Option<u32>,
    pub branch: Option<Branch>,
    pub next: Option<Uuid>,
}

/// Control never goes on behind the word, if there is one.
fn stops(word: Option<u32>) -> bool
    ensures { result ≡ option_map_or (has_row is_last) word false }
{
    match word {
        Some(word) => never_goes_on(word),
        None => false,
    }
}

fn push_branch(edges: &mut Vec<Edge>, end: &NewEnd) -> Result<(), AllocError>
    ensures { OnOk result (edges.new.items ≡ edges.old.items ++ option_to_list (option_map (branch_from end.now.id) end.now.branch)) }
{
    match end.branch {
        Some(branch) => {
            edges.push(Edge {
                source: end.id,
                target: branch.target,
                label: Some(branch.label),
            })?;
            Ok(())
        }
        None => Ok(()),
    }
}

fn push_fall(edges: &mut Vec<Edge>, end: &NewEnd) -> Result<(), AllocError>
    ensures { OnOk result (edges.new.items ≡ edges.old.items ++ option_to_list (next_edge end.now)) }
{
    if stops(end.word) {
        return Ok(());
    }
    match end.next {
        Some(target) => {
            edges.push(Edge {
                source: end.id,
                target,
                label: Some(fallthrough_label()),
            })?;
            Ok(())
        }
        None => Ok(()),
    }
}

/// The edges from an end, behind those before.
pub(crate) fn push_edges(edges: &mut Vec<Edge>, end: &NewEnd) -> Result<(), AllocError>
    ensures { OnOk result (edges.new.items ≡ edges.old.items ++ edges_of end.now) }
{
    push_branch(edges, end)?;
    push_fall(edges, end)
}
