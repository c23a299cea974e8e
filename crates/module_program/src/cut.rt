//! Functions of patches, cut into blocks line by line.

ghost use Rattle.std.specs.Prelude.{◌≡◌, ◌<◌, ◌^◌};
ghost use Rattle.a64_inst.specs.Table.{row};
ghost use Rattle.module_program.specs.Cutting.{first_cut, next_cut, whole_cut};
ghost use Rattle.sym_expr.specs.Patches.{is_control, is_jump_row};

use a64_decode::decode;
use a64_inst::{Inst, is_branch};
use sym_expr::{FunLine, Function};

/// How the lines so far are cut: the blocks that began, the words of the last of them, and whether the
/// next word begins one.
#[derive(Clone, Copy, Debug, PartialEq, Eq)]
pub(crate) struct Cut {
    pub blocks: u64,
    pub last: u64,
    pub fresh: bool,
}

/// The instruction is BR, BLR or RET.
fn is_jump_row(inst: &Inst) -> bool
    ensures { result ≡ is_jump_row inst.now }
{
    matches!(inst, Inst::BrBlrRet { .. })
}

/// The word is one behind which control may be elsewhere.
pub(crate) fn is_control(word: u32) -> bool
    ensures { result ≡ is_control word }
{
    match decode(word) {
        Some(inst) => is_branch(word) || is_jump_row(&inst),
        None => is_branch(word),
    }
}

impl Cut {
    /// Before the first line.
    pub(crate) fn first() -> Cut
        ensures { result ≡ first_cut }
    {
        Cut {
            blocks: 0,
            last: 0,
            fresh: true,
        }
    }

    /// One line further.
    pub(crate) fn next(self, line: &FunLine) -> Cut
        requires blocks { self.blocks < 2 ^ 63 }
        requires last { self.last < 2 ^ 63 }
        ensures { result ≡ next_cut self line.now }
    {
        match line {
            FunLine::Label(_) => Cut {
                fresh: true,
                ..self
            },
            FunLine::Word(word) => {
                let fresh = is_control(word.word);
                if self.fresh {
                    Cut {
                        blocks: self.blocks + 1,
                        last: 1,
                        fresh,
                    }
                } else {
                    Cut {
                        blocks: self.blocks,
                        last: self.last + 1,
                        fresh,
                    }
                }
            }
        }
    }
}

/// How the whole function is cut.
#[tactic(auto, using(crate::proofs::Cuts::next_small))]
pub(crate) fn whole_cut(function: &Function) -> Cut
    ensures { result ≡ whole_cut function.now }
{
    let mut cut = Cut::first();
    for line in function.body.as_slice() {
        cut = cut.next(line);
    }
    cut
}
