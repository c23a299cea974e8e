//! How many blocks a function of patches is cut into.

ghost use Rattle.std.specs.Prelude.{◌≡◌, ◌<◌, ◌≤◌, ◌+◌, ◌^◌, List, ◌∷◌, length};
ghost use Rattle.sym_expr.specs.declared.patches.FunLine.{FunLine as FunLineOf};
ghost use Rattle.sym_expr.specs.Patches.{function_blocks, is_control, is_jump_row};
ghost use Rattle.taken_ids.specs.Functions.{starts_in};

use a64_decode::decode;
use a64_inst::{Inst, is_branch};
use sym_expr::{FunLine, Function};

/// The instruction is BR, BLR or RET.
fn is_jump_row(inst: &Inst) -> bool
    ensures { result ≡ is_jump_row inst.now }
{
    matches!(inst, Inst::BrBlrRet { .. })
}

/// The word is a direct branch, or BR, BLR or RET.
fn is_control(word: u32) -> bool
    ensures { result ≡ is_control word }
{
    match decode(word) {
        Some(inst) => is_branch(word) || is_jump_row(&inst),
        None => is_branch(word),
    }
}

/// How many blocks began, and whether the next word begins one.
#[derive(Clone, Copy, Debug, PartialEq, Eq)]
struct Begun {
    count: u64,
    fresh: bool,
}

impl Begun {
    /// One line further.
    fn next(self, line: &FunLine) -> Begun
        requires { self.count < 2 ^ 63 }
        ensures count { (rest : List FunLineOf) → result.count + starts_in result.fresh rest ≡ self.count + starts_in self.fresh (line.now ∷ rest) }
        ensures room { result.count ≤ self.count + 1 }
    {
        match line {
            FunLine::Label(_) => Begun {
                fresh: true,
                ..self
            },
            FunLine::Word(word) => Begun {
                count: if self.fresh {
                    self.count + 1
                } else {
                    self.count
                },
                fresh: is_control(word.word),
            },
        }
    }
}

/// How many blocks a function has.
pub fn block_count(function: &Function) -> u64
    ensures { result ≡ length (function_blocks function.now) }
{
    let mut begun = Begun {
        count: 0,
        fresh: true,
    };
    for line in function.body.as_slice() {
        begun = begun.next(line);
    }
    begun.count
}
