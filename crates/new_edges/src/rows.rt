//! What a word does to the place where control goes on.

ghost use Rattle.std.specs.Prelude.{◌≡◌};
ghost use Rattle.edge_repair.specs.Jumps.{branch_label, fallthrough_label, has_row, is_call, is_conditional, is_last};
ghost use Rattle.sym_expr.specs.Patches.{is_control, is_jump_row};

use a64_decode::decode;
use a64_inst::{Inst, is_branch};
use gt_model::Label;

/// GTIRB's numbers of kinds of edges.
const BRANCH: i32 = 0;

const CALL: i32 = 1;

pub(crate) const FALLTHROUGH: i32 = 2;

fn is_call(inst: &Inst) -> bool
    ensures { result ≡ is_call inst.now }
{
    match inst {
        Inst::BBl { op, .. } => *op == 1,
        _ => false,
    }
}

fn is_conditional(inst: &Inst) -> bool
    ensures { result ≡ is_conditional inst.now }
{
    matches!(
        inst,
        Inst::BCond { .. } | Inst::CbzCbnz { .. } | Inst::TbzTbnz { .. }
    )
}

fn is_last(inst: &Inst) -> bool
    ensures { result ≡ is_last inst.now }
{
    match inst {
        Inst::BBl { op, .. } => *op == 0,
        Inst::BrBlrRet { which, .. } => *which != 1,
        _ => false,
    }
}

/// The instruction is BR, BLR or RET.
fn is_jump_row(inst: &Inst) -> bool
    ensures { result ≡ is_jump_row inst.now }
{
    matches!(inst, Inst::BrBlrRet { .. })
}

/// The word is one behind which control may be elsewhere.
pub(crate) fn is_control(word: u32) -> bool
    ensures { result ≡ is_control word }
{
    match decode(word) {
        Some(inst) => is_branch(word) || is_jump_row(&inst),
        None => is_branch(word),
    }
}

/// The word is one behind which control never goes on.
pub(crate) fn never_goes_on(word: u32) -> bool
    ensures { result ≡ has_row is_last word }
{
    match decode(word) {
        Some(inst) => is_last(&inst),
        None => false,
    }
}

fn calls(word: u32) -> bool
    ensures { result ≡ has_row is_call word }
{
    match decode(word) {
        Some(inst) => is_call(&inst),
        None => false,
    }
}

fn has_condition(word: u32) -> bool
    ensures { result ≡ has_row is_conditional word }
{
    match decode(word) {
        Some(inst) => is_conditional(&inst),
        None => false,
    }
}

/// The label of the edge of a branch or call.
pub(crate) fn branch_label(word: u32) -> Label
    ensures { result ≡ branch_label word }
{
    Label {
        conditional: has_condition(word),
        direct: true,
        kind: if calls(word) { CALL } else { BRANCH },
    }
}

/// The label of the edge to what follows.
pub(crate) fn fallthrough_label() -> Label
    ensures { result ≡ fallthrough_label }
{
    Label {
        conditional: false,
        direct: true,
        kind: FALLTHROUGH,
    }
}
