//! What an expression may name.

ghost use Rattle.std.specs.Prelude.{◌≡◌, unwrap_or};
ghost use Rattle.std.specs.Str.{bytes_eq};
ghost use Rattle.indexmap.specs.IndexMap.{get};
ghost use Rattle.sym_expr.specs.declared.aim.Aim.TheVariants.{Undefined};
ghost use Rattle.sym_expr.specs.Differences.{form_of};
ghost use Rattle.sym_expr.specs.Expressions.{are_apart, are_mixed, is_bad_difference, is_bad_sum, is_no_code, names_bad};
ghost use Rattle.ir_check.specs.Sites.{aim_in};

use a64_inst::is_branch;
use gt_model::ExprValue;
use indexmap::IndexMap;
use sym_expr::{Aim, DifferenceForm, difference_form};
use uuid::Uuid;

fn aim_in(aims: &IndexMap<Uuid, Aim>, symbol: Uuid) -> Aim
    ensures { result ≡ aim_in (get bytes_eq aims.now) symbol }
{
    match aims.get(&symbol) {
        Some(aim) => *aim,
        None => Aim::Undefined,
    }
}

fn is_bad_sum(word: u32, offset: i64, aim: &Aim) -> bool
    ensures { result ≡ is_bad_sum word offset aim.now }
{
    match aim {
        Aim::Number => is_branch(word),
        Aim::Data => is_branch(word),
        Aim::Code(_) => offset != 0,
        Aim::Undefined => false,
    }
}

fn are_mixed(a: &Aim, b: &Aim) -> bool
    ensures { result ≡ are_mixed a.now b.now }
{
    match a {
        Aim::Number => matches!(b, Aim::Data | Aim::Code(_)),
        Aim::Data => matches!(b, Aim::Number),
        Aim::Code(_) => matches!(b, Aim::Number),
        Aim::Undefined => false,
    }
}

/// Whether it is defined, and no code.
fn is_no_code(aim: &Aim) -> bool
    ensures { result ≡ is_no_code aim.now }
{
    matches!(aim, Aim::Number | Aim::Data)
}

/// Whether both are code, in different intervals.
fn are_apart(a: &Aim, b: &Aim) -> bool
    ensures { result ≡ are_apart a.now b.now }
{
    match a {
        Aim::Code(i) => match b {
            Aim::Code(j) => i != j,
            _ => false,
        },
        _ => false,
    }
}

fn is_bad_difference(offset: i64, a: &Aim, b: &Aim, form: DifferenceForm) -> bool
    ensures { result ≡ is_bad_difference offset a.now b.now form }
{
    is_bad_sum(0, offset, a)
        || are_mixed(a, b)
        || form.is_entry && (is_no_code(a) || is_no_code(b) || are_apart(a, b))
}

/// The form of a difference of so many bytes and this scale.
pub(crate) fn form_of(size: u64, scale: i64) -> Option<DifferenceForm>
    ensures { result ≡ form_of size scale }
{
    match u64::try_from(scale) {
        Ok(scale) => difference_form(size, scale),
        Err(_) => None,
    }
}

/// Whether an expression of so many bytes, or of the operand of a word, names what it may not.
pub(crate) fn names_bad(aims: &IndexMap<Uuid, Aim>, size: u64, word: u32, value: ExprValue) -> bool
    ensures { result ≡ names_bad (aim_in (get bytes_eq aims.now)) size word value }
{
    match value {
        ExprValue::AddrConst {
            offset,
            symbol: Some(symbol),
        } => is_bad_sum(word, offset, &aim_in(aims, symbol)),
        ExprValue::AddrAddr {
            scale,
            offset,
            first: Some(a),
            second: Some(b),
        } => match form_of(size, scale) {
            Some(form) => is_bad_difference(offset, &aim_in(aims, a), &aim_in(aims, b), form),
            None => false,
        },
        _ => false,
    }
}
