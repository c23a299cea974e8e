//! What follows from the definition of the operations alone.

ghost use Rattle.std.specs.Prelude.{IsTrue};
ghost use Rattle.a64_inst.specs.declared.inst.Inst.{Inst};
ghost use Rattle.a64_inst.specs.Meaning.{ops};
ghost use Rattle.sym_step.specs.Order.{stores_early};

/// In each instruction all stores come right behind the first values.
pub fn stores_come_early()
    ensures { (i : Inst) → IsTrue (stores_early (ops i)) }
{}
