//! The names that patch text brings.

ghost use Rattle.std.specs.Prelude.{◌≡◌, ℕ, List, IfOk, OnOk, ◌||◌, is_some, [], ◌∷◌};
ghost use Rattle.std.specs.Str.{bytes_eq};
ghost use Rattle.std.specs.HashMap.{get_by_text};
ghost use Rattle.patch_lines.specs.Faults.{is_name_in, line_names};

use crate::line::PatchLine;
use indexmap::IndexMap;
use std::alloc::{AllocError, Global};

/// Keeps a name.
#[tactic(auto, using(std::proofs::lemmas::Map::Text::text_keys))]
fn add_name(alloc: Global, names: &mut IndexMap<String, ()>, name: &str) -> Result<(), AllocError>
    ensures { OnOk result ((q : List ℕ) → is_some (get_by_text names.new q) ≡ is_some (get_by_text names.old q) || bytes_eq q name.now) }
{
    let name = String::from_str(alloc, name)?;
    names.insert(name, ())?;
    Ok(())
}

/// Keeps the name that a line brings, if it brings one.
pub(crate) fn add_names(
    alloc: Global,
    names: &mut IndexMap<String, ()>,
    line: &PatchLine,
) -> Result<(), AllocError>
    ensures { OnOk result ((q : List ℕ) → is_some (get_by_text names.new q) ≡ is_some (get_by_text names.old q) || is_name_in (line.now ∷ []) q) }
{
    match line {
        PatchLine::Function(name) => add_name(alloc, names, name.as_str()),
        PatchLine::Label(name) => add_name(alloc, names, name.as_str()),
        _ => Ok(()),
    }
}
