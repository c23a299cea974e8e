//! Words behind which control may be elsewhere.

ghost use Rattle.std.specs.Prelude.{◌≡◌};
ghost use Rattle.sym_expr.specs.Patches.{is_control, is_jump_row};

use a64_decode::decode;
use a64_inst::{Inst, is_branch};

/// The instruction is BR, BLR or RET.
fn is_jump_row(inst: &Inst) -> bool
    ensures { result ≡ is_jump_row inst.now }
{
    matches!(inst, Inst::BrBlrRet { .. })
}

/// The word is a direct branch, or BR, BLR or RET.
pub(crate) fn is_control(word: u32) -> bool
    ensures { result ≡ is_control word }
{
    match decode(word) {
        Some(inst) => is_branch(word) || is_jump_row(&inst),
        None => is_branch(word),
    }
}
