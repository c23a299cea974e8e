//! What the parts of the text look up.

ghost use Rattle.std.specs.Prelude.{◌≡◌, IfOk};

use crate::expressions::values_by_offset;
use crate::labels::labels;
use crate::marks::{Lines, lines_of};
use gr_base::Bytes;
use gt_model::{ExprValue, Interval, Module};
use indexmap::IndexMap;
use std::alloc::{AllocError, Global};
use uuid::Uuid;

/// A module, the labels of its symbols, and what stands at each place before its item.
#[derive(Drop)]
pub(crate) struct Context {
    pub module: Module,
    pub labels: IndexMap<Uuid, Bytes>,
    pub lines: Lines,
}

impl Context {
    ghost use Rattle.asm_print.specs.Items.{marks_at};
    ghost use Rattle.asm_print.specs.Names.{label_of};
    ghost use Rattle.asm_print.specs.Marking.{Knows};

    pub(crate) fn new(alloc: Global, plain: Module) -> Result<Context, AllocError>
        ensures known { IfOk result Knows }
        ensures from { IfOk result (λ made. made.module ≡ plain) }
    {
        let labels = labels(alloc, plain.symbols.as_slice())?;
        let lines = lines_of(alloc, &plain, &labels)?;
        Ok(Context {
            module: plain,
            labels,
            lines,
        })
    }

    /// The label of a symbol.
    pub(crate) fn label_of(&self, id: &Uuid) -> &[u8]
        requires { Knows self.now }
        ensures { result.now ≡ label_of self.now.module id.now }
    {
        match self.labels.get(id) {
            Some(label) => label.as_slice(),
            None => &[],
        }
    }

    /// What stands at a place before its item.
    fn marks_at(&self, place: (Uuid, u128)) -> &[u8]
        requires { Knows self.now }
        ensures { result.now ≡ marks_at self.now.module place }
    {
        match self.lines.get(&place) {
            Some(lines) => lines.as_slice(),
            None => &[],
        }
    }
}

/// One interval of a module, with its expressions by their offsets.
#[derive(Drop)]
pub(crate) struct Here<'a> {
    pub context: &'a Context,
    pub interval: &'a Interval,
    pub values: IndexMap<u128, ExprValue>,
}

impl<'a> Here<'a> {
    ghost use Rattle.asm_print.specs.Items.{marks, value_in};
    ghost use Rattle.asm_print.specs.Marking.{IsHere, Knows};

    pub(crate) fn new(
        alloc: Global,
        context: &'a Context,
        interval: &'a Interval,
    ) -> Result<Here<'a>, AllocError>
        requires { Knows context.now }
        ensures known { IfOk result IsHere }
        ensures from { IfOk result (λ made. (made.context.now ≡ context.now) × (made.interval.now ≡ interval.now)) }
    {
        let values = values_by_offset(alloc, interval.exprs.as_slice())?;
        Ok(Here {
            context,
            interval,
            values,
        })
    }

    /// What stands at an offset before its item.
    pub(crate) fn marks(&self, at: u128) -> &[u8]
        requires { IsHere self.now }
        ensures { result.now ≡ marks self.now.context.now.module self.now.interval.now at }
    {
        self.context.marks_at((self.interval.uuid, at))
    }

    /// The expression at an offset.
    #[tactic(auto, using(crate::proofs::Valued::value_found))]
    pub(crate) fn value_at(&self, at: u128) -> ExprValue
        requires { IsHere self.now }
        ensures { result ≡ value_in self.now.interval.now at }
    {
        match self.values.get(&at) {
            Some(value) => *value,
            None => ExprValue::Nothing,
        }
    }
}
