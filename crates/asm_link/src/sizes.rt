//! How many bytes items and intervals have.

ghost use Rattle.std.specs.Prelude.{◌≡◌, ◌≤◌, ◌<◌, ◌+◌, ◌^◌, sum_by};
ghost use Rattle.asm_modules.specs.Places.{item_size};
ghost use Rattle.asm_modules.specs.Valid.{interval_size};

use asm_lines::AsmItem;
use asm_modules::{AsmInterval, AsmModule};
use sym_expr::Layout;

pub(crate) fn item_size(item: &AsmItem) -> u64
    ensures { result ≡ item_size item.now }
{
    match item {
        AsmItem::Bytes(bytes) => bytes.len() as u64,
        AsmItem::Zero(count) => *count,
        AsmItem::Quad(_) | AsmItem::QuadDiff(_, _, _) => 8,
        AsmItem::WordDiff(_, _, _) | AsmItem::Word(_, _) => 4,
        AsmItem::Entry(size, _, _, _) => u64::from(*size),
    }
}

pub(crate) fn interval_size(interval: &AsmInterval) -> u64
    requires { interval_size interval.now < 2 ^ 62 }
    ensures { result ≡ interval_size interval.now }
{
    let mut size = 0;
    for item in interval.items.as_slice() {
        size += item_size(item);
    }
    size
}

/// The bytes of all intervals and of the stack.
pub(crate) fn total_size(asm: &AsmModule, layout: &Layout) -> u64
    requires sizes { sum_by interval_size asm.now.intervals < 2 ^ 62 }
    requires stack { layout.now.stack_size ≤ 2 ^ 24 }
    ensures { result ≡ sum_by interval_size asm.now.intervals + layout.now.stack_size }
{
    let mut total = 0;
    for interval in asm.intervals.as_slice() {
        total += interval_size(interval);
    }
    total + layout.stack_size
}
