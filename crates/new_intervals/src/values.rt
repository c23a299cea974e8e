//! The expressions that words of patches bring.

ghost use Rattle.std.specs.Prelude.{◌≡◌, ◌++◌, IfOk, OnOk};
ghost use Rattle.std.specs.Option.{option_map, option_to_list};
ghost use Rattle.new_intervals.specs.Bringing.{origin_value, value_expr, word_value};
ghost use Rattle.rewrite.specs.Exprs.{patch_expr};
ghost use Rattle.rewrite.specs.Identifiers.{symbol_id};

use block_parts::Origin;
use derived_ids::symbol_id;
use gr_base::Seq;
use gt_model::{Expr, ExprValue, Module};
use std::alloc::{AllocError, Global};
use sym_expr::{PatchWord, SymbolName};
use uuid::Uuid;

/// The symbol that a word of the patches names.
fn symbol_of(alloc: Global, module: &Module, name: &SymbolName) -> Result<Uuid, AllocError>
    ensures { IfOk result (λ id. id ≡ symbol_id «module».now name.now) }
{
    match name {
        SymbolName::Old(id) => Ok(*id),
        SymbolName::New(name) => {
            let id = symbol_id(alloc, &module.uuid, name.as_str())?;
            Ok(id)
        }
    }
}

/// What the expression stands for that a word of the patches brings, if it brings one.
pub(crate) fn word_value(
    alloc: Global,
    module: &Module,
    word: &PatchWord,
) -> Result<Option<ExprValue>, AllocError>
    ensures { IfOk result (λ value. value ≡ word_value «module».now word.now) }
{
    match &word.target {
        Some(target) => {
            let symbol = symbol_of(alloc, module, &target.symbol)?;
            Ok(Some(ExprValue::AddrConst {
                offset: target.offset,
                symbol: Some(symbol),
            }))
        }
        None => Ok(None),
    }
}

/// Adds the expression of a value at an offset, if there is one.
fn push_value(
    alloc: Global,
    out: &mut Vec<Expr>,
    at: u64,
    value: Option<ExprValue>,
) -> Result<(), AllocError>
    ensures { OnOk result (out.new.items ≡ out.old.items ++ option_to_list (option_map (value_expr at) value)) }
{
    match value {
        Some(value) => {
            out.push(Expr {
                at,
                value,
                flags: Seq::new(alloc),
            })?;
            Ok(())
        }
        None => Ok(()),
    }
}

/// Adds what a word of the patches brings at an offset.
pub(crate) fn push_word(
    alloc: Global,
    out: &mut Vec<Expr>,
    module: &Module,
    at: u64,
    word: &PatchWord,
) -> Result<(), AllocError>
    ensures { OnOk result (out.new.items ≡ out.old.items ++ option_to_list (patch_expr «module».now at word.now)) }
{
    match &word.target {
        Some(target) => {
            let symbol: Uuid = symbol_of(alloc, module, &target.symbol)?;
            let value = ExprValue::AddrConst {
                offset: target.offset,
                symbol: Some(symbol),
            };
            let flags = Seq::new(alloc);
            out.push(Expr { at, value, flags })?;
            Ok(())
        }
        None => Ok(()),
    }
}

/// What a word of a block brings, where inserted words bring these.
fn origin_value(values: &[Option<ExprValue>], origin: Origin) -> Option<ExprValue>
    ensures { result ≡ origin_value values.now origin }
{
    match origin {
        Origin::Own(_) => None,
        Origin::Inserted(k) => match values.get(k as usize) {
            Some(value) => *value,
            None => None,
        },
    }
}

/// Adds what a word of a block brings at an offset.
pub(crate) fn push_origin(
    alloc: Global,
    out: &mut Vec<Expr>,
    values: &[Option<ExprValue>],
    at: u64,
    origin: Origin,
) -> Result<(), AllocError>
    ensures { OnOk result (out.new.items ≡ out.old.items ++ option_to_list (option_map (value_expr at) (origin_value values.now origin))) }
{
    let value = origin_value(values, origin);
    push_value(alloc, out, at, value)?;
    Ok(())
}
