//! The labels of symbols.

ghost use Rattle.std.specs.Prelude.{◌≡◌, ◌+◌, ◌<◌, ◌^◌, [], ℕ, List, suc, if◌then◌else◌, unwrap_or, IfOk, OnOk, Some, None};
ghost use Rattle.std.specs.HashMap.{get_by_text};
ghost use Rattle.std.specs.Option.{option_or};
ghost use Rattle.std.specs.Str.{bytes_eq};
ghost use Rattle.indexmap.specs.IndexMap.{get};
ghost use Rattle.asm_print.specs.Names.{labels_behind, value_at};

use asm_spelling::label_text;
use gr_base::Bytes;
use gt_model::Symbol;
use indexmap::IndexMap;
use std::alloc::{AllocError, Global};
use uuid::Uuid;

fn count_of(counts: &IndexMap<String, u64>, name: &str) -> u64
    ensures { result ≡ unwrap_or (get_by_text counts.now name.now) 0 }
{
    counts.get(name).copied().unwrap_or(0)
}

/// One symbol of a name more, which is this one of that name.
#[tactic(auto, using(std::proofs::lemmas::Map::Text::text_keys))]
fn next_ordinal(
    alloc: Global,
    counts: &mut IndexMap<String, u64>,
    name: &str,
) -> Result<u64, AllocError>
    requires { unwrap_or (get_by_text counts.old name.now) 0 < 2 ^ 63 }
    ensures ordinal { IfOk result (λ k. k ≡ suc (unwrap_or (get_by_text counts.old name.now) 0)) }
    ensures counts { OnOk result ((q : List ℕ) → unwrap_or (get_by_text counts.new q) 0 ≡ unwrap_or (get_by_text counts.old q) 0 + (if bytes_eq name.now q then 1 else 0)) }
{
    let ordinal = count_of(counts, name) + 1;
    let key = String::from_str(alloc, name)?;
    counts.insert(key, ordinal)?;
    Ok(ordinal)
}

/// Keeps the label of a symbol, unless one of its identifier is there.
fn add_label(labels: &mut IndexMap<Uuid, Bytes>, id: Uuid, label: Bytes) -> Result<(), AllocError>
    ensures { OnOk result ((q : List ℕ) → get bytes_eq labels.new q ≡ option_or (get bytes_eq labels.old q) (if bytes_eq id q then Some label else None)) }
{
    if !labels.contains_key(&id) {
        labels.insert(id, label)?;
    }
    Ok(())
}

/// The label of each symbol, by its identifier.
#[tactic(auto, using(crate::proofs::Counted::few_so_far, crate::proofs::Counted::label_next, crate::proofs::Counted::named_next))]
pub(crate) fn labels(alloc: Global, symbols: &[Symbol]) -> Result<IndexMap<Uuid, Bytes>, AllocError>
    ensures { IfOk result (λ labels. (q : List ℕ) → get bytes_eq labels q ≡ value_at bytes_eq q (labels_behind [] symbols.now)) }
{
    let mut counts = IndexMap::new(alloc);
    let mut labels = IndexMap::new(alloc);
    for symbol in symbols {
        let ordinal = next_ordinal(alloc, &mut counts, symbol.name.as_str())?;
        let label = label_text(alloc, symbol.name.as_str().as_bytes(), ordinal)?;
        add_label(&mut labels, symbol.uuid, label)?;
    }
    Ok(labels)
}
