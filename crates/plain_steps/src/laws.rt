//! What follows from the definition of a step alone.

ghost use Rattle.std.specs.Prelude.{◌≡◌, Some, None, false, IsTrue, not};
ghost use Rattle.a64_inst.specs.declared.inst.Inst.{Inst};
ghost use Rattle.a64_inst.specs.Table.{row};
ghost use Rattle.sym_expr.specs.declared.program.Program.{Program};
ghost use Rattle.sym_expr.specs.declared.program.Word.{Word};
ghost use Rattle.sym_expr.specs.Points.{reached, word_at};
ghost use Rattle.sym_expr.specs.States.{State};
ghost use Rattle.sym_expr.specs.Steps.{step};
ghost use Rattle.plain_steps.specs.Plain.{forms_target, IsPlain};
ghost use Rattle.plain_steps.specs.Stuck.{asks_nothing, is_stuck};

/// A step is never stuck where the word is no instruction, or is BRK, UDF or HINT.
pub fn what_asks_nothing_goes_on()
    ensures { (g : Program) (s : State) (w : Word) → word_at g (reached g s.place) ≡ Some w → IsTrue (asks_nothing (row w.word)) → IsTrue (not (is_stuck (step g s))) }
{}

/// A step is never stuck where the word has no expression and forms no target, all flags are known, what it reads is
/// numbers, what it accesses are known bytes of the object that an address leads to, a jump by a register leads to a
/// point of the code, and a call of the system that moves bytes finds them all known in one object.
pub fn what_is_plain_goes_on()
    ensures { (g : Program) (s : State) (w : Word) (i : Inst) → word_at g (reached g s.place) ≡ Some w → w.target ≡ None → row w.word ≡ Some i → forms_target i ≡ false → IsPlain g s i → IsTrue (not (is_stuck (step g s))) }
{}
