//! The identifiers of the functions that patches bring.

ghost use Rattle.std.specs.Prelude.{◌≡◌, ◌<◌, ◌≤◌, ◌+◌, ◌^◌, ◌++◌, List, ◌∷◌, length, map, OnOk};
ghost use Rattle.sym_expr.specs.declared.patches.FunLine.{FunLine as FunLineOf};
ghost use Rattle.std.specs.List.{flat_map};
ghost use Rattle.sym_expr.specs.Patches.{function_blocks};
ghost use Rattle.sym_expr.specs.TableOk.{line_labels};
ghost use Rattle.taken_ids.specs.Functions.{starts_in};
ghost use Rattle.taken_ids.specs.Identifiers.{block_ids, function_ids, labels, symbol_id};

use crate::control::is_control;
use derived_ids::{block_id, function_id, interval_id, symbol_id};
use std::alloc::{AllocError, Global};
use sym_expr::{FunLine, Function};
use uuid::Uuid;

/// How many blocks began, and whether the next word begins one.
#[derive(Clone, Copy, Debug, PartialEq, Eq)]
struct Begun {
    count: u64,
    fresh: bool,
}

impl Begun {
    /// One line further.
    fn next(self, line: &FunLine) -> Begun
        requires { self.count < 2 ^ 63 }
        ensures count { (rest : List FunLineOf) → result.count + starts_in result.fresh rest ≡ self.count + starts_in self.fresh (line.now ∷ rest) }
        ensures room { result.count ≤ self.count + 1 }
    {
        match line {
            FunLine::Label(_) => Begun {
                fresh: true,
                ..self
            },
            FunLine::Word(word) => Begun {
                count: if self.fresh {
                    self.count + 1
                } else {
                    self.count
                },
                fresh: is_control(word.word),
            },
        }
    }
}

/// How many blocks a function has.
fn block_count(function: &Function) -> u64
    ensures { result ≡ length (function_blocks function.now) }
{
    let mut begun = Begun {
        count: 0,
        fresh: true,
    };
    for line in function.body.as_slice() {
        begun = begun.next(line);
    }
    begun.count
}

/// The identifiers of so many blocks of a function.
fn push_blocks(
    alloc: Global,
    out: &mut Vec<Uuid>,
    module: &Uuid,
    name: &str,
    count: u64,
) -> Result<(), AllocError>
    ensures { OnOk result (out.new.items ≡ out.old.items ++ block_ids «module».now name.now 0 count) }
{
    for k in 0..count {
        let id = block_id(alloc, module, name, k)?;
        out.push(id)?;
    }
    Ok(())
}

/// The identifier of the symbol of a line's label, if it is one.
fn push_label(
    alloc: Global,
    out: &mut Vec<Uuid>,
    module: &Uuid,
    line: &FunLine,
) -> Result<(), AllocError>
    ensures { OnOk result (out.new.items ≡ out.old.items ++ map (symbol_id «module».now) (line_labels line.now)) }
{
    match line {
        FunLine::Label(name) => {
            let id = symbol_id(alloc, module, name.as_str())?;
            out.push(id)?;
            Ok(())
        }
        FunLine::Word(_) => Ok(()),
    }
}

/// The identifiers of the symbols of a function's labels.
fn push_labels(
    alloc: Global,
    out: &mut Vec<Uuid>,
    module: &Uuid,
    function: &Function,
) -> Result<(), AllocError>
    ensures { OnOk result (out.new.items ≡ out.old.items ++ map (symbol_id «module».now) (labels function.now)) }
{
    for line in function.body.as_slice() {
        push_label(alloc, out, module, line)?;
    }
    Ok(())
}

/// The identifiers of a function: its interval, its blocks, its symbols, and itself.
fn push_function(
    alloc: Global,
    out: &mut Vec<Uuid>,
    module: &Uuid,
    function: &Function,
) -> Result<(), AllocError>
    ensures { OnOk result (out.new.items ≡ out.old.items ++ function_ids «module».now function.now) }
{
    let name = function.name.as_str();
    let interval = interval_id(alloc, module, name)?;
    let symbol = symbol_id(alloc, module, name)?;
    let itself = function_id(alloc, module, name)?;
    out.push(interval)?;
    push_blocks(alloc, out, module, name, block_count(function))?;
    out.push(symbol)?;
    push_labels(alloc, out, module, function)?;
    out.push(itself)?;
    Ok(())
}

/// The identifiers of functions, one after another.
pub(crate) fn push_functions(
    alloc: Global,
    out: &mut Vec<Uuid>,
    module: &Uuid,
    functions: &[Function],
) -> Result<(), AllocError>
    ensures { OnOk result (out.new.items ≡ out.old.items ++ flat_map (function_ids «module».now) functions.now) }
{
    for function in functions {
        push_function(alloc, out, module, function)?;
    }
    Ok(())
}
