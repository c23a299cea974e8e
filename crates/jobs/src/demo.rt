ghost use Rattle.std.specs.Prelude.{◌≡◌, ◌<◌, ◌≤◌, ◌^◌, IfOk};
ghost use Rattle.gt_model.specs.Ordered.{ordered};
ghost use Rattle.demo_ir.specs.Demo.{demo_ir};
ghost use Rattle.jobs.specs.Demo.{Demos, demonstrated, summary};
ghost use Rattle.command_words.specs.Picked.{InBounds};
ghost use Rattle.jobs.specs.Stages.{Answers};

use crate::modules::linked_up;
use crate::verdict::{Finished, Refusal};
use command_words::Settings;
use demo_ir::laws::the_demo_is_ordered;
use demo_ir::{demo_bytes, demo_exit, demo_ir};
use gr_base::{Bytes, End, Text};
use gt_model::Ir;
use gt_write::write_file;
use note_texts::state_note;
use num_run::{RunEnd, RunReport};
use std::alloc::{AllocError, Global};

/// What is told of a generated program.
fn summary(alloc: Global, seed: u64, blocks: u64) -> Result<Text, AllocError>
    requires seed { seed < 2 ^ 32 }
    requires blocks { blocks ≤ 100000 }
    ensures { IfOk result (λ text. text ≡ summary seed blocks) }
{
    let report = RunReport {
        steps: 2 * blocks + 3,
        end: RunEnd::Exit(demo_exit(seed, blocks)),
        output: Bytes::new(alloc),
    };
    let state = state_note(alloc, &report)?;
    let bytes = demo_bytes(blocks);
    let text = format!(in alloc; "blocks={blocks} bytes={bytes} {state}")?;
    Ok(Text::from_string(text))
}

/// The canonical file of the generated IR.
fn demonstrated(alloc: Global, seed: u64, blocks: u64, ir: &Ir) -> Result<Finished, AllocError>
    requires seed { seed < 2 ^ 32 }
    requires blocks { blocks ≤ 100000 }
    requires ir { ir.now ≡ demo_ir seed blocks }
    requires order { ordered ir.now }
    requires version { ir.now.version < 256 }
    ensures { IfOk result (λ made. made ≡ demonstrated seed blocks) }
{
    let text = summary(alloc, seed, blocks)?;
    let out = write_file(alloc, ir)?;
    Ok(Finished {
        text,
        out: Some(out),
    })
}

/// Makes a program of so many blocks, and writes its IR.
pub fn demo(alloc: Global, settings: Settings) -> Result<Finished, End<Refusal>>
    requires { InBounds settings }
    ensures { Answers (Demos settings) result }
{
    the_demo_is_ordered();
    let Settings { seed, blocks, .. } = settings;
    let ir = demo_ir(alloc, seed, blocks)?;
    let _graph = linked_up(alloc, &ir)?;
    Ok(demonstrated(alloc, seed, blocks, &ir)?)
}
