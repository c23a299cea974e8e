//! Laws of the definitions that contracts cite: each function is its contract.

ghost use Rattle.std.specs.Prelude.{◌≡◌, ◌↔◌, None};
ghost use Rattle.gt_model.specs.declared.ir.Ir.{Ir};
ghost use Rattle.gt_model.specs.Linked.{linked, link_fault};
ghost use Rattle.gt_model.specs.Views.{ir_value};

/// An IR is determined by its value as a message.
pub fn one_value()
    ensures { (a b : Ir) → ir_value a ≡ ir_value b → a ≡ b }
{}

/// An IR has no fault exactly where it is linked.
pub fn linked_without_fault()
    ensures { (ir : Ir) → (link_fault ir ≡ None) ↔ linked ir }
{}
