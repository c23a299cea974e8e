//! Laws of the generated IR: each function is its contract.

ghost use Rattle.std.specs.Prelude.{ℕ};
ghost use Rattle.gt_model.specs.Ordered.{ordered};
ghost use Rattle.demo_ir.specs.Demo.{demo_ir};

/// The expressions of the generated IR ascend.
pub fn the_demo_is_ordered()
    ensures { (seed blocks : ℕ) → ordered (demo_ir seed blocks) }
{}
