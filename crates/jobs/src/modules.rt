//! The module that a job is about: its file linked up to a graph, the module picked and checked.

ghost use Rattle.std.specs.Prelude.{◌≡◌, ◌<◌, length, IfOk};
ghost use Rattle.std.specs.Option.{option_map};
ghost use Rattle.aux_types.specs.Gives.{Gives};
ghost use Rattle.gt_model.specs.Ordered.{ordered};
ghost use Rattle.ir_check.specs.Report.{report_of};
ghost use Rattle.node_arena.specs.Arenas.{module_at};
ghost use Rattle.node_arena.specs.Plain.{ir_of, plain_module};
ghost use Rattle.jobs.specs.Modules.{checked_module, linked_up, module_in, passing_module, plain_of, profile_of, program_module};
ghost use Rattle.command_words.specs.Picked.{picked_view, InBounds};

use crate::verdict::Refusal;
use command_words::{Picked, flags_of, is_every};
use gr_base::{End, Seq};
use gt_model::Ir;
use gt_model::laws::linked_without_fault;
use ir_check::{CheckReport, Plain, Profile, check_program, pick_module};
use node_arena::laws::modules_are_at_their_ordinals;
use node_arena::{Graph, ModuleId};
use std::alloc::{AllocError, Global};

/// A module that has a program, in its graph.
#[derive(Drop)]
pub struct Loaded {
    pub graph: Graph,
    pub id: ModuleId,
    pub report: CheckReport,
}

/// The flags that a word says are plain.
fn plain_of(alloc: Global, word: Option<&str>) -> Result<Plain, AllocError>
    ensures { IfOk result (λ plain. plain ≡ plain_of (option_map (λ text. text.now) word.entry)) }
{
    match word {
        None => Ok(Plain::These(Seq::new(alloc))),
        Some(text) if is_every(text) => Ok(Plain::All),
        Some(text) => Ok(Plain::These(flags_of(alloc, text)?)),
    }
}

/// What the module must be.
fn profile_of(alloc: Global, asked: &Picked<'_>) -> Result<Profile, AllocError>
    requires { InBounds asked.now.settings }
    ensures { IfOk result (λ profile. profile ≡ profile_of (picked_view asked.now)) }
{
    let plain = plain_of(alloc, asked.plain())?;
    Ok(Profile {
        isa: asked.settings.isa as i32,
        plain,
    })
}

/// The graph of an IR that is well linked.
pub fn linked_up(alloc: Global, ir: &Ir) -> Result<Graph, End<Refusal>>
    requires { ordered ir.now }
    ensures made { Gives (λ g. ir_of g) result (linked_up ir.now) }
    ensures same { IfOk result (λ g. ir_of g ≡ ir.now) }
{
    linked_without_fault();
    match Graph::from_ir(alloc, ir) {
        Ok(graph) => Ok(graph),
        Err(End::Fault(fault)) => Err(End::Fault(Refusal::Check(fault))),
        Err(End::Memory) => Err(End::Memory),
    }
}

fn picked(graph: &Graph, ordinal: u64) -> Result<ModuleId, End<Refusal>>
    ensures made { Gives (λ id. plain_module graph.now (module_at graph.now id)) result (module_in ordinal (ir_of graph.now)) }
    ensures live { IfOk result (λ id. id.index < length graph.now.modules) }
{
    modules_are_at_their_ordinals();
    match pick_module(graph, ordinal) {
        Ok(id) => Ok(id),
        Err(fault) => Err(End::Fault(Refusal::Check(fault))),
    }
}

fn checked(
    alloc: Global,
    graph: &Graph,
    id: ModuleId,
    profile: &Profile,
) -> Result<CheckReport, End<Refusal>>
    requires { id.index < length graph.now.modules }
    ensures made { let m = plain_module graph.now (module_at graph.now id) in Gives (λ report. m) result (checked_module profile.now m) }
    ensures report { IfOk result (λ report. report ≡ report_of (ir_of graph.now) (plain_module graph.now (module_at graph.now id))) }
{
    match check_program(alloc, graph, id, profile) {
        Ok(report) => Ok(report),
        Err(End::Fault(fault)) => Err(End::Fault(Refusal::Check(fault))),
        Err(End::Memory) => Err(End::Memory),
    }
}

/// A module that passed its checks.
#[derive(Drop)]
struct Passed {
    id: ModuleId,
    report: CheckReport,
}

/// The module of a graph that the words ask for, where nothing is wrong with it.
fn pass_module(alloc: Global, asked: &Picked<'_>, graph: &Graph) -> Result<Passed, End<Refusal>>
    requires { InBounds asked.now.settings }
    ensures made { Gives (λ p. plain_module graph.now (module_at graph.now p.id)) result (passing_module (picked_view asked.now) (ir_of graph.now)) }
    ensures live { IfOk result (λ p. p.id.index < length graph.now.modules) }
    ensures report { IfOk result (λ p. p.report ≡ report_of (ir_of graph.now) (plain_module graph.now (module_at graph.now p.id))) }
{
    let profile = profile_of(alloc, asked)?;
    let id = picked(graph, asked.settings.ordinal)?;
    let report = checked(alloc, graph, id, &profile)?;
    Ok(Passed { id, report })
}

/// The module that the words ask for, where it has a program.
pub fn load(alloc: Global, asked: &Picked<'_>, ir: &Ir) -> Result<Loaded, End<Refusal>>
    requires bounds { InBounds asked.now.settings }
    requires order { ordered ir.now }
    ensures made { Gives (λ l. plain_module l.graph (module_at l.graph l.id)) result (program_module (picked_view asked.now) ir.now) }
    ensures live { IfOk result (λ l. l.id.index < length l.graph.modules) }
    ensures same { IfOk result (λ l. ir_of l.graph ≡ ir.now) }
    ensures report { IfOk result (λ l. l.report ≡ report_of ir.now (plain_module l.graph (module_at l.graph l.id))) }
{
    let graph = linked_up(alloc, ir)?;
    let Passed { id, report } = pass_module(alloc, asked, &graph)?;
    Ok(Loaded { graph, id, report })
}
