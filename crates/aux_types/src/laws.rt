//! Laws of the definitions that contracts cite: each function is its contract.

ghost use Rattle.std.specs.Prelude.{ℕ, List};
ghost use Rattle.aux_types.specs.declared.aux_type.AuxType.{AuxType};
ghost use Rattle.aux_types.specs.declared.fault.TypeFault.{TypeFault};
ghost use Rattle.aux_types.specs.Faults.{Stands};
ghost use Rattle.aux_types.specs.Reading.{type_fault};
ghost use Rattle.aux_types.specs.Shape.{type_text};

/// The text before a fault's place begins the name of a type, and with the word or byte that stands
/// there it can't go on to be one, whatever follows.
pub fn a_fault_stands()
    ensures { (text : List ℕ) (fault : TypeFault) → type_fault text fault → Stands text fault }
{}

/// A text that has a fault is the name of no type.
pub fn a_fault_excludes_types()
    ensures { (text : List ℕ) (fault : TypeFault) (t : AuxType) → type_fault text fault → type_text text t → ⊥ }
{}
