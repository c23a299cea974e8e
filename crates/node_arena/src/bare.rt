ghost use Rattle.std.specs.Prelude.{◌≡◌, find};
ghost use Rattle.std.specs.List.{flat_map, list_any};
ghost use Rattle.gt_model.specs.declared.intervals.Interval.{Interval};
ghost use Rattle.gt_model.specs.declared.modules.Module.{Module};
ghost use Rattle.gt_model.specs.declared.modules.Section.{Section};
ghost use Rattle.gt_model.specs.Linked.{is_bare};
ghost use Rattle.node_arena.specs.Checking.{bare_id};

use gt_model::{Block, Body, Interval, Module, Section};
use uuid::Uuid;

fn is_bare(block: &Block) -> bool
    ensures { result ≡ is_bare block.now }
{
    match block.body {
        Body::Bare => true,
        _ => false,
    }
}

fn has_bare(interval: &Interval) -> bool
    ensures { result ≡ list_any is_bare interval.now.blocks }
{
    interval
        .blocks
        .as_slice()
        .iter()
        .any(|block| is_bare(block))
}

fn bare_in_section(section: &Section) -> Option<Uuid>
    ensures { result ≡ bare_id section.now.intervals }
{
    for interval in section.intervals.as_slice() {
        if has_bare(interval) {
            return Some(interval.uuid);
        }
    }
    None
}

fn bare_in_module(module: &Module) -> Option<Uuid>
    ensures { result ≡ bare_id (flat_map (λ (s : Section). s.intervals) «module».now.sections) }
{
    for section in module.sections.as_slice() {
        if let Some(id) = bare_in_section(section) {
            return Some(id);
        }
    }
    None
}

/// The identifier of the first interval with a bare block.
pub fn bare_in(modules: &[Module]) -> Option<Uuid>
    ensures { result ≡ bare_id (flat_map (λ (m : Module). flat_map (λ (s : Section). s.intervals) m.sections) modules.now) }
{
    for module in modules {
        if let Some(id) = bare_in_module(module) {
            return Some(id);
        }
    }
    None
}
