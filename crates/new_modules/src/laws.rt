//! Laws of the definitions that contracts cite: each function is its contract.

ghost use Rattle.std.specs.Prelude.{◌≡◌, ℕ, Some, map, position, slice_get, slice_set, if◌then◌else◌};
ghost use Rattle.std.specs.Str.{bytes_eq};
ghost use Rattle.gt_model.specs.declared.ir.Ir.{Ir};
ghost use Rattle.gt_model.specs.declared.modules.Module.{Module};
ghost use Rattle.gt_model.specs.Linked.{linked};

/// A module of a well-linked IR is the only one of its identifier.
pub fn one_module_is_set()
    ensures set { (ir : Ir) (k : ℕ) (m : Module) (f : Module → Module) → linked ir → slice_get ir.modules k ≡ Some m → slice_set ir.modules k (f m) ≡ map (λ (x : Module). if bytes_eq x.uuid m.uuid then f x else x) ir.modules }
    ensures place { (ir : Ir) (k : ℕ) (m : Module) → linked ir → slice_get ir.modules k ≡ Some m → position (λ (x : Module). bytes_eq x.uuid m.uuid) ir.modules ≡ Some k }
{}
