//! The words of a code block.

ghost use Rattle.std.specs.Prelude.{◌≡◌, ◌<◌, ◌^◌, find, IfOk};
ghost use Rattle.gt_model.specs.Ordered.{ordered_exprs};
ghost use Rattle.module_program.specs.Between.{is_at};
ghost use Rattle.module_program.specs.Knowing.{Knows};
ghost use Rattle.sym_expr.specs.Program.{own_word, own_words};

use crate::bytes::word_of;
use crate::context::Context;
use crate::expressions::{between, expression_at};
use gr_base::Seq;
use gt_model::{Expr, Interval};
use std::alloc::{AllocError, Global};
use sym_expr::{Target, Word};

/// What the operand of the word at an offset names, by the expressions near it.
fn target_at(context: &Context<'_>, interval: &Interval, near: &[Expr], at: u128) -> Option<Target>
    requires known { Knows context.now }
    requires ordered { ordered_exprs near.now }
    requires near { find (is_at at) near.now ≡ find (is_at at) interval.now.exprs }
    requires bound { at < 2 ^ 100 }
    ensures { result ≡ (own_word context.now.module context.now.patches.now interval.now at).target }
{
    match expression_at(near, at) {
        Some(expr) => context.code_target(expr.value),
        None => None,
    }
}

/// So many words of an interval from an offset on.
pub(crate) fn own_words(
    alloc: Global,
    context: &Context<'_>,
    interval: &Interval,
    at: u64,
    count: u64,
) -> Result<Seq<Word>, AllocError>
    requires known { Knows context.now }
    requires ordered { ordered_exprs interval.now.exprs }
    ensures { IfOk result (λ words. words ≡ own_words context.now.module context.now.patches.now interval.now at count) }
{
    let start = u128::from(at);
    let end = start + 4 * u128::from(count);
    let near = between(interval.exprs.as_slice(), start, end);
    let mut words = Vec::with_capacity(alloc, count as usize)?;
    for k in 0..count {
        let place = start + 4 * u128::from(k);
        let target = target_at(context, interval, near, place);
        words.push(Word {
            word: word_of(interval, place),
            target,
        })?;
    }
    Ok(Seq::from_vec(words))
}
