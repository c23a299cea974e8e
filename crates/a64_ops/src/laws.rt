//! What follows from the definition of the operations alone.

ghost use Rattle.std.specs.Prelude.{IsTrue};
ghost use Rattle.std.specs.List.{list_all};
ghost use Rattle.a64_inst.specs.declared.inst.Inst.{Inst};
ghost use Rattle.a64_inst.specs.Meaning.{ops};
ghost use Rattle.a64_inst.specs.Table.{is_allowed};
ghost use Rattle.a64_ops.specs.Sound.{is_sound};

/// The operations of an instruction that has a word can all be done.
pub fn operations_are_sound()
    ensures { (i : Inst) → IsTrue (is_allowed i) → IsTrue (list_all is_sound (ops i)) }
{}
