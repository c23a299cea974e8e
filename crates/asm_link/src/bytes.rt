//! The bytes of items.

ghost use Rattle.std.specs.Prelude.{◌≡◌, ◌≤◌, ◌+◌, ◌^◌, ◌++◌, Some, Err, replicate, sum_by, take, OnOk};
ghost use Rattle.std.specs.List.{AllByRecursion, filter_map};
ghost use Rattle.asm_modules.specs.Places.{item_size};
ghost use Rattle.asm_modules.specs.Valid.{IsItem};
ghost use Rattle.sym_expr.specs.Images.{bytes_of, first_fault, misfit};
ghost use Rattle.sym_expr.specs.Layouts.{address_of};
ghost use Rattle.asm_link.specs.Answers.{Tells};
ghost use Rattle.asm_link.specs.Linked.{bytes_with, item_fault, items_at, items_bytes};
ghost use Rattle.asm_link.specs.Ready.{IsReady};

use crate::index::Index;
use crate::sizes::item_size;
use a64_inst::FitFault;
use asm_lines::AsmItem;
use gr_base::End;
use std::alloc::AllocError;
use sym_expr::LinkFault;
use uuid::Uuid;

fn misfit(interval: Uuid, offset: u64, fault: FitFault) -> LinkFault
    ensures { misfit interval offset (Err fault) ≡ Some result }
{
    match fault {
        FitFault::Range(value) => LinkFault::Range(interval, offset, value),
        FitFault::Unaligned(value) => LinkFault::Unaligned(interval, offset, value),
    }
}

fn push_zeros(out: &mut Vec<u8>, count: u64) -> Result<(), AllocError>
    ensures { OnOk result (out.new.items ≡ out.old.items ++ replicate count 0) }
{
    for _ in 0..count {
        out.push(0)?;
    }
    Ok(())
}

/// Adds so many low bytes of a number, the low one first.
fn push_number(out: &mut Vec<u8>, size: u64, value: u64) -> Result<(), AllocError>
    requires { size ≤ 8 }
    ensures { OnOk result (out.new.items ≡ out.old.items ++ bytes_of size value) }
{
    out.extend_from_slice(&value.to_le_bytes()[..size as usize])
}

/// Adds the bytes of an item whose number is known.
fn push_item(out: &mut Vec<u8>, item: &AsmItem, value: u64) -> Result<(), AllocError>
    requires { IsItem item.now }
    ensures { OnOk result (out.new.items ≡ out.old.items ++ bytes_with item.now value) }
{
    match item {
        AsmItem::Bytes(bytes) => out.extend_from_slice(bytes.as_slice()),
        AsmItem::Zero(count) => push_zeros(out, *count),
        AsmItem::Quad(_) | AsmItem::QuadDiff(_, _, _) => push_number(out, 8, value),
        AsmItem::WordDiff(_, _, _) | AsmItem::Word(_, _) => push_number(out, 4, value),
        AsmItem::Entry(size, _, _, _) => push_number(out, u64::from(*size), value),
    }
}

impl Index<'_> {
    /// Adds the bytes of items that stand from the start of an interval on, which lies at an address.
    pub(crate) fn push_items(
        &self,
        out: &mut Vec<u8>,
        interval: Uuid,
        start: u64,
        items: &[AsmItem],
    ) -> Result<(), End<LinkFault>>
        requires ready { IsReady self.now }
        requires start { start ≡ address_of self.now.layout.now interval }
        requires fits { start + sum_by item_size items.now ≤ 2 ^ 47 }
        requires items { AllByRecursion IsItem items.now }
        ensures fault { Tells result (first_fault (filter_map (item_fault self.now.layout.now self.now.asm.now.labels interval) (items_at 0 items.now))) }
        ensures bytes { OnOk result (out.new.items ≡ out.old.items ++ items_bytes self.now.layout.now self.now.asm.now.labels start items.now) }
    {
        let mut offset = 0;
        for item in items {
            match self.item_value(start + offset, item) {
                Ok(value) => push_item(out, item, value)?,
                Err(fault) => return Err(End::Fault(misfit(interval, offset, fault))),
            }
            offset += item_size(item);
        }
        Ok(())
    }
}
