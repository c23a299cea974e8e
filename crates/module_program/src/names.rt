//! The points of the names that the functions of patches bring.

ghost use Rattle.std.specs.Prelude.{◌≡◌, ◌<◌, ◌^◌, ℕ, List, [], ◌∷◌, None, Some, if◌then◌else◌, IfOk, OnOk};
ghost use Rattle.std.specs.HashMap.{get_by_text};
ghost use Rattle.std.specs.Option.{option_or};
ghost use Rattle.std.specs.Str.{bytes_eq};
ghost use Rattle.module_program.specs.Cutting.{first_cut, label_entries, label_point, name_entries, point_among, point_in, whole_cut};
ghost use Rattle.sym_expr.specs.Targets.{function_block_id, start_of};

use crate::cut::{Cut, whole_cut};
use derived_ids::block_id;
use gt_model::Module;
use indexmap::IndexMap;
use std::alloc::{AllocError, Global};
use sym_expr::{FunLine, Function, Point};

/// The start of a block of a function.
fn block_start(
    alloc: Global,
    module: &Module,
    function: &Function,
    k: u64,
) -> Result<Point, AllocError>
    ensures { IfOk result (λ at. at ≡ start_of (function_block_id «module».now function.now k)) }
{
    let block = block_id(alloc, &module.uuid, function.name.as_str(), k)?;
    Ok(Point {
        block,
        offset: 0,
        j: 0,
    })
}

/// The point of a label behind which a block of a function begins, or none.
fn label_point(
    alloc: Global,
    module: &Module,
    function: &Function,
    whole: Cut,
    k: u64,
) -> Result<Point, AllocError>
    requires whole { whole ≡ whole_cut function.now }
    requires last { whole.last < 2 ^ 60 }
    ensures { IfOk result (λ at. at ≡ label_point «module».now function.now k) }
{
    if k < whole.blocks {
        return block_start(alloc, module, function, k);
    }
    let last = whole.blocks.saturating_sub(1);
    let block = block_id(alloc, &module.uuid, function.name.as_str(), last)?;
    Ok(Point {
        block,
        offset: 4 * whole.last,
        j: 0,
    })
}

/// Keeps the point of a name, unless one of that name is kept.
#[tactic(auto, using(std::proofs::lemmas::Map::Text::text_keys))]
fn add_name(
    alloc: Global,
    names: &mut IndexMap<String, Point>,
    name: &str,
    at: Point,
) -> Result<(), AllocError>
    ensures { OnOk result ((q : List ℕ) → get_by_text names.new q ≡ option_or (get_by_text names.old q) (if bytes_eq q name.now then Some at else None)) }
{
    if names.contains_key(name) {
        return Ok(());
    }
    let name = String::from_str(alloc, name)?;
    names.insert(name, at)?;
    Ok(())
}

/// Keeps the point of a line's label, if it is one.
fn add_label(
    alloc: Global,
    names: &mut IndexMap<String, Point>,
    module: &Module,
    function: &Function,
    cut: (Cut, Cut),
    line: &FunLine,
) -> Result<(), AllocError>
    requires whole { cut.0 ≡ whole_cut function.now }
    requires last { cut.0.last < 2 ^ 60 }
    ensures { OnOk result ((q : List ℕ) → get_by_text names.new q ≡ option_or (get_by_text names.old q) (point_in q (label_entries «module».now function.now cut.1 (line.now ∷ [])))) }
{
    let (whole, cut) = cut;
    match line {
        FunLine::Label(name) => {
            let at = label_point(alloc, module, function, whole, cut.blocks)?;
            add_name(alloc, names, name.as_str(), at)
        }
        FunLine::Word(_) => Ok(()),
    }
}

/// Keeps the points of the labels of a function.
#[tactic(auto, using(crate::proofs::Cuts::last_most, crate::proofs::Cuts::next_small))]
fn add_labels(
    alloc: Global,
    names: &mut IndexMap<String, Point>,
    module: &Module,
    function: &Function,
) -> Result<(), AllocError>
    ensures { OnOk result ((q : List ℕ) → get_by_text names.new q ≡ option_or (get_by_text names.old q) (point_in q (label_entries «module».now function.now first_cut function.now.body))) }
{
    let whole = whole_cut(function);
    let mut cut = Cut::first();
    for line in function.body.as_slice() {
        add_label(alloc, names, module, function, (whole, cut), line)?;
        cut = cut.next(line);
    }
    Ok(())
}

/// Keeps the points of the names that a function brings.
fn add_names(
    alloc: Global,
    names: &mut IndexMap<String, Point>,
    module: &Module,
    function: &Function,
) -> Result<(), AllocError>
    ensures { OnOk result ((q : List ℕ) → get_by_text names.new q ≡ option_or (get_by_text names.old q) (point_in q (name_entries «module».now function.now))) }
{
    let start = block_start(alloc, module, function, 0)?;
    add_name(alloc, names, function.name.as_str(), start)?;
    add_labels(alloc, names, module, function)
}

/// The points of the names that functions bring.
#[tactic(auto, using(crate::proofs::Labels::names_next))]
pub(crate) fn name_points(
    alloc: Global,
    module: &Module,
    functions: &[Function],
) -> Result<IndexMap<String, Point>, AllocError>
    ensures { IfOk result (λ names. (q : List ℕ) → get_by_text names q ≡ point_among «module».now functions.now q) }
{
    let mut names = IndexMap::new(alloc);
    for function in functions {
        add_names(alloc, &mut names, module, function)?;
    }
    Ok(names)
}
