//! Laws of the definitions that contracts cite: each function is its contract.

ghost use Rattle.std.specs.Prelude.{◌≡◌, ℕ, List};
ghost use Rattle.gr_base.specs.declared.aux_fault.AuxFault.{AuxFault};
ghost use Rattle.aux_types.specs.declared.aux_type.AuxType.{AuxType};
ghost use Rattle.aux_types.specs.Shape.{Shape, HasParts, shape_of};
ghost use Rattle.aux_codec.specs.Faults.{AreBytes, Stands};
ghost use Rattle.aux_codec.specs.Reading.{aux_fault};
ghost use Rattle.aux_codec.specs.Spelling.{aux_bytes};
ghost use Rattle.aux_codec.specs.Value.{Value};

/// A value has one spelling, and no other value of the type has it.
pub fn one_spelling()
    ensures bytes { (t : AuxType) (x : Value) (a b : List ℕ) → aux_bytes t x a → aux_bytes t x b → a ≡ b }
    ensures value { (t : AuxType) (x y : Value) (bytes : List ℕ) → aux_bytes t x bytes → aux_bytes t y bytes → x ≡ y }
{}

/// The bytes before a fault's place are sound: they call for more, or are a value's where bytes are
/// left over. A fault of bytes that are there stays whatever follows.
pub fn a_fault_stands()
    ensures { (t : Shape) (bytes : List ℕ) (fault : AuxFault) → HasParts t → AreBytes bytes → aux_fault t bytes fault → Stands t bytes fault }
{}

/// Bytes that have a fault are those of no value.
pub fn a_fault_excludes_values()
    ensures { (t : AuxType) (x : Value) (bytes : List ℕ) (fault : AuxFault) → aux_fault (shape_of t) bytes fault → aux_bytes t x bytes → ⊥ }
{}
