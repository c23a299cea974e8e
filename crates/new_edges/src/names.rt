//! The blocks at whose starts the names are that the functions of patches bring.

ghost use Rattle.std.specs.Prelude.{◌≡◌, ◌<◌, ◌^◌, ℕ, List, [], ◌∷◌, None, Some, if◌then◌else◌, IfOk, OnOk};
ghost use Rattle.std.specs.HashMap.{get_by_text};
ghost use Rattle.std.specs.Option.{option_or};
ghost use Rattle.std.specs.Str.{bytes_eq};
ghost use Rattle.edge_repair.specs.Ends.{name_start};
ghost use Rattle.new_edges.specs.Names.{first_walk, label_entries, name_entries, next_walk, start_among, start_in, word_count};
ghost use Rattle.sym_expr.specs.Patches.{is_control};

use crate::rows::is_control;
use derived_ids::block_id;
use gt_model::Module;
use indexmap::IndexMap;
use std::alloc::{AllocError, Global};
use sym_expr::{FunLine, Function};
use uuid::Uuid;

/// How far a function is walked: the blocks that began, whether the next word begins one, and the
/// words that are left.
#[derive(Clone, Copy, Debug, PartialEq, Eq)]
pub(crate) struct Walk {
    pub blocks: u64,
    pub fresh: bool,
    pub left: u64,
}

/// How many words a function has.
fn word_count(function: &Function) -> u64
    ensures { result ≡ word_count function.now.body }
{
    let mut count = 0;
    for line in function.body.as_slice() {
        if matches!(line, FunLine::Word(_)) {
            count += 1;
        }
    }
    count
}

impl Walk {
    /// Before the first line.
    fn first(function: &Function) -> Walk
        ensures { result ≡ first_walk function.now }
    {
        Walk {
            blocks: 0,
            fresh: true,
            left: word_count(function),
        }
    }

    /// One line further.
    fn next(self, line: &FunLine) -> Walk
        requires { self.blocks < 2 ^ 63 }
        ensures { result ≡ next_walk self line.now }
    {
        match line {
            FunLine::Label(_) => Walk {
                fresh: true,
                ..self
            },
            FunLine::Word(word) => Walk {
                blocks: if self.fresh {
                    self.blocks + 1
                } else {
                    self.blocks
                },
                fresh: is_control(word.word),
                left: self.left.saturating_sub(1),
            },
        }
    }
}

/// Keeps the block of a name, unless one of that name is kept.
#[tactic(auto, using(std::proofs::lemmas::Map::Text::text_keys))]
fn add_name(
    alloc: Global,
    names: &mut IndexMap<String, Uuid>,
    name: &str,
    block: Uuid,
) -> Result<(), AllocError>
    ensures { OnOk result ((q : List ℕ) → get_by_text names.new q ≡ option_or (get_by_text names.old q) (if bytes_eq q name.now then Some block else None)) }
{
    if names.contains_key(name) {
        return Ok(());
    }
    let name = String::from_str(alloc, name)?;
    names.insert(name, block)?;
    Ok(())
}

/// Keeps the block of a line's label, if it is one that words follow.
fn add_label(
    alloc: Global,
    names: &mut IndexMap<String, Uuid>,
    module: &Module,
    function: &Function,
    walk: Walk,
    line: &FunLine,
) -> Result<(), AllocError>
    ensures { OnOk result ((q : List ℕ) → get_by_text names.new q ≡ option_or (get_by_text names.old q) (start_in q (label_entries «module».now function.now walk (line.now ∷ [])))) }
{
    if walk.left == 0 {
        return Ok(());
    }
    match line {
        FunLine::Label(name) => {
            let block = block_id(alloc, &module.uuid, function.name.as_str(), walk.blocks)?;
            add_name(alloc, names, name.as_str(), block)
        }
        FunLine::Word(_) => Ok(()),
    }
}

/// Keeps the blocks of the labels of a function.
fn add_labels(
    alloc: Global,
    names: &mut IndexMap<String, Uuid>,
    module: &Module,
    function: &Function,
) -> Result<(), AllocError>
    ensures { OnOk result ((q : List ℕ) → get_by_text names.new q ≡ option_or (get_by_text names.old q) (start_in q (label_entries «module».now function.now (first_walk function.now) function.now.body))) }
{
    let mut walk = Walk::first(function);
    for line in function.body.as_slice() {
        add_label(alloc, names, module, function, walk, line)?;
        walk = walk.next(line);
    }
    Ok(())
}

/// Keeps the blocks of the names that a function brings.
fn add_names(
    alloc: Global,
    names: &mut IndexMap<String, Uuid>,
    module: &Module,
    function: &Function,
) -> Result<(), AllocError>
    ensures { OnOk result ((q : List ℕ) → get_by_text names.new q ≡ option_or (get_by_text names.old q) (start_in q (name_entries «module».now function.now))) }
{
    let first = block_id(alloc, &module.uuid, function.name.as_str(), 0)?;
    add_name(alloc, names, function.name.as_str(), first)?;
    add_labels(alloc, names, module, function)
}

/// The blocks at whose starts the names of functions are.
#[tactic(auto, using(crate::proofs::Labels::names_next))]
pub(crate) fn name_starts(
    alloc: Global,
    module: &Module,
    functions: &[Function],
) -> Result<IndexMap<String, Uuid>, AllocError>
    ensures { IfOk result (λ names. (q : List ℕ) → get_by_text names q ≡ start_among «module».now functions.now q) }
{
    let mut names = IndexMap::new(alloc);
    for function in functions {
        add_names(alloc, &mut names, module, function)?;
    }
    Ok(names)
}
