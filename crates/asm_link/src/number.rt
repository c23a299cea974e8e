//! Items as numbers.

ghost use Rattle.std.specs.Prelude.{◌≡◌, ◌^◌, ◌-◌, pos, negsuc, ◌<ℤ◌};
ghost use Rattle.asm_modules.specs.Valid.{IsItem};
ghost use Rattle.sym_expr.specs.Targets.{plus_offset};
ghost use Rattle.asm_link.specs.Ready.{IsReady};
ghost use Rattle.asm_link.specs.Values.{distance, expr_value, item_value, operand_of};

use crate::index::Index;
use a64_inst::{FitFault, fit, operand_kind};
use asm_lines::{AsmExpr, AsmItem, AsmName};
use sym_expr::diff_fit;

/// A number plus an offset, modulo 2^64.
fn plus_offset(number: u64, offset: i64) -> u64
    ensures { result ≡ plus_offset number offset }
{
    let sum = i128::from(number) + i128::from(offset);
    sum.rem_euclid(1 << 64).unsigned_abs() as u64
}

impl Index<'_> {
    fn expr_value(&self, expr: &AsmExpr) -> u64
        requires { IsReady self.now }
        ensures { result ≡ expr_value self.now.layout.now self.now.asm.now.labels expr.now }
    {
        plus_offset(self.label_value(&expr.label), expr.offset)
    }

    fn distance(&self, first: &AsmName, second: &AsmName, offset: i64) -> i128
        requires { IsReady self.now }
        ensures distance { result ≡ distance self.now.layout.now self.now.asm.now.labels first.now second.now offset }
        ensures least { negsuc (2 ^ 65 - 1) <ℤ result }
        ensures most { result <ℤ pos (2 ^ 65) }
    {
        let start = plus_offset(self.label_value(first), offset);
        i128::from(start) - i128::from(self.label_value(second))
    }

    /// The word at an address with its operand.
    fn filled_word(&self, at: u64, word: u32, expr: &AsmExpr) -> Result<u64, FitFault>
        requires { IsReady self.now }
        ensures { result ≡ operand_of self.now.layout.now self.now.asm.now.labels at word expr.now }
    {
        match operand_kind(word) {
            Some(kind) => {
                let filled = fit(kind, at, self.expr_value(expr), word)?;
                Ok(u64::from(filled))
            }
            None => Ok(u64::from(word)),
        }
    }

    /// The number that an item at an address stands for; bytes and zeros stand for themselves.
    pub(crate) fn item_value(&self, at: u64, item: &AsmItem) -> Result<u64, FitFault>
        requires ready { IsReady self.now }
        requires item { IsItem item.now }
        ensures { result ≡ item_value self.now.layout.now self.now.asm.now.labels at item.now }
    {
        match item {
            AsmItem::Bytes(_) | AsmItem::Zero(_) => Ok(0),
            AsmItem::Quad(expr) => Ok(self.expr_value(expr)),
            AsmItem::QuadDiff(first, second, offset) => {
                diff_fit(8, 1, self.distance(first, second, *offset))
            }
            AsmItem::WordDiff(first, second, offset) => {
                diff_fit(4, 1, self.distance(first, second, *offset))
            }
            AsmItem::Entry(size, scale, first, second) => {
                diff_fit(*size, *scale, self.distance(first, second, 0))
            }
            AsmItem::Word(word, None) => Ok(u64::from(*word)),
            AsmItem::Word(word, Some(expr)) => self.filled_word(at, *word, expr),
        }
    }
}
