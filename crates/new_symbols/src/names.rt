//! The symbols of the names that functions of patches bring.

ghost use Rattle.std.specs.Prelude.{true, ◌≡◌, ◌≢◌, ◌<◌, ◌≤◌, ◌+◌, ◌^◌, ◌++◌, List, ◌∷◌, AllPairs, length, IfOk, OnOk};
ghost use Rattle.std.specs.List.{flat_map, AllByRecursion};
ghost use Rattle.gt_model.specs.declared.symbols.Payload.TheVariants.{Referent};
ghost use Rattle.new_symbols.specs.Naming.{label_symbols, line_symbols, next_begun, place_of};
ghost use Rattle.rewrite.specs.Identifiers.{new_symbol_id};
ghost use Rattle.rewrite.specs.Symbols.{function_symbols, name_symbol, names_of};
ghost use Rattle.sym_expr.specs.declared.patches.FunLine.{FunLine as FunLineOf};
ghost use Rattle.sym_expr.specs.declared.patches.Function.{Function as FunctionOf};
ghost use Rattle.sym_expr.specs.Patches.{function_blocks};
ghost use Rattle.sym_expr.specs.TableOk.{line_labels};
ghost use Rattle.sym_expr.specs.Targets.{function_block_id};
ghost use Rattle.taken_ids.specs.Functions.{starts_in};

use crate::control::is_control;
use derived_ids::{block_id, symbol_id};
use gr_base::Text;
use gt_model::{Module, Payload, Symbol};
use std::alloc::{AllocError, Global};
use sym_expr::{FunLine, Function};

/// How many blocks of a function began, and whether the next word begins one.
#[derive(Clone, Copy, Debug, PartialEq, Eq)]
struct Begun {
    count: u64,
    fresh: bool,
}

impl Begun {
    /// Before the first line.
    fn first() -> Begun
        ensures { (result.count ≡ 0) × (result.fresh ≡ true) }
    {
        Begun {
            count: 0,
            fresh: true,
        }
    }

    /// One line further.
    fn next(self, line: &FunLine) -> Begun
        requires { self.count < 2 ^ 63 }
        ensures { result ≡ next_begun self line.now }
    {
        match line {
            FunLine::Label(_) => Begun {
                fresh: true,
                ..self
            },
            FunLine::Word(word) => Begun {
                count: if self.fresh {
                    self.count + 1
                } else {
                    self.count
                },
                fresh: is_control(word.word),
            },
        }
    }
}

/// How many blocks a function of patches has.
pub fn block_count(function: &Function) -> u64
    ensures { result ≡ length (function_blocks function.now) }
{
    let mut begun = Begun::first();
    for line in function.body.as_slice() {
        begun = begun.next(line);
    }
    begun.count
}

/// The symbol of a name on a block of a function.
fn symbol_on(
    alloc: Global,
    module: &Module,
    function: &Function,
    name: &Text,
    at_end: bool,
    k: u64,
) -> Result<Symbol, AllocError>
    ensures { IfOk result (λ s. s ≡ record { uuid = new_symbol_id «module».now name.now; name = name.now; at_end = at_end; payload = Referent (function_block_id «module».now function.now k) }) }
{
    let uuid = symbol_id(alloc, &module.uuid, name.as_str())?;
    let block = block_id(alloc, &module.uuid, function.name.as_str(), k)?;
    let name = Text::from_str(alloc, name.as_str())?;
    Ok(Symbol {
        uuid,
        name,
        at_end,
        payload: Payload::Referent(block),
    })
}

/// The symbol of a label of a function of so many blocks, behind which the k-th begins, if there is one.
fn label_symbol(
    alloc: Global,
    module: &Module,
    function: &Function,
    name: &Text,
    blocks: u64,
    k: u64,
) -> Result<Symbol, AllocError>
    requires { blocks ≡ length (function_blocks function.now) }
    ensures { IfOk result (λ s. s ≡ name_symbol «module».now function.now name.now (place_of function.now k)) }
{
    if k < blocks {
        return symbol_on(alloc, module, function, name, false, k);
    }
    symbol_on(
        alloc,
        module,
        function,
        name,
        true,
        blocks.saturating_sub(1),
    )
}

/// The symbol of a line's label, if it is one, behind those before.
fn push_line(
    alloc: Global,
    symbols: &mut Vec<Symbol>,
    module: &Module,
    function: &Function,
    line: &FunLine,
    blocks: u64,
    k: u64,
) -> Result<(), AllocError>
    requires { blocks ≡ length (function_blocks function.now) }
    ensures { OnOk result (symbols.new.items ≡ symbols.old.items ++ line_symbols «module».now function.now k line.now) }
{
    match line {
        FunLine::Label(name) => {
            let symbol = label_symbol(alloc, module, function, name, blocks, k)?;
            symbols.push(symbol)?;
            Ok(())
        }
        FunLine::Word(_) => Ok(()),
    }
}

/// The symbols of a function's labels.
fn push_labels(
    alloc: Global,
    symbols: &mut Vec<Symbol>,
    module: &Module,
    function: &Function,
) -> Result<(), AllocError>
    requires { AllPairs (λ a b. a ≢ b) (flat_map line_labels function.now.body) }
    ensures { OnOk result (symbols.new.items ≡ symbols.old.items ++ label_symbols «module».now function.now) }
{
    let blocks = block_count(function);
    let mut begun = Begun::first();
    for line in function.body.as_slice() {
        push_line(alloc, symbols, module, function, line, blocks, begun.count)?;
        begun = begun.next(line);
    }
    Ok(())
}

/// The symbols of a function's names.
fn push_function(
    alloc: Global,
    symbols: &mut Vec<Symbol>,
    module: &Module,
    function: &Function,
) -> Result<(), AllocError>
    requires { AllPairs (λ a b. a ≢ b) (names_of function.now) }
    ensures { OnOk result (symbols.new.items ≡ symbols.old.items ++ function_symbols «module».now function.now) }
{
    let own = symbol_on(alloc, module, function, &function.name, false, 0)?;
    symbols.push(own)?;
    push_labels(alloc, symbols, module, function)?;
    Ok(())
}

/// The symbols of the names of functions, one function after another.
pub(crate) fn push_functions(
    alloc: Global,
    symbols: &mut Vec<Symbol>,
    module: &Module,
    functions: &[Function],
) -> Result<(), AllocError>
    requires { AllByRecursion (λ (f : FunctionOf). AllPairs (λ a b. a ≢ b) (names_of f)) functions.now }
    ensures { OnOk result (symbols.new.items ≡ symbols.old.items ++ flat_map (function_symbols «module».now) functions.now) }
{
    for function in functions {
        push_function(alloc, symbols, module, function)?;
    }
    Ok(())
}
