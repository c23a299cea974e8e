//! What the two machines have in common, for every program that is placed in memory: each function is its contract.

ghost use Rattle.std.specs.Prelude.{◌≤◌, ◌<◌, ℕ, Bool, List, All};
ghost use Rattle.a64_inst.specs.declared.operations.Binary.{Binary};
ghost use Rattle.a64_inst.specs.declared.operations.Sum.{Sum};
ghost use Rattle.a64_inst.specs.declared.operations.Unary.{Unary};
ghost use Rattle.a64_inst.specs.declared.operations.Width.{Width};
ghost use Rattle.a64_inst.specs.Runs.{run};
ghost use Rattle.num_run.specs.Machine.{Machine};
ghost use Rattle.num_run.specs.Numeric.{numeric};
ghost use Rattle.num_run.specs.Run.{step as number_step};
ghost use Rattle.paged_memory.specs.Mapping.{Mapping};
ghost use Rattle.sym_expr.specs.declared.program.Program.{Program};
ghost use Rattle.sym_expr.specs.declared.value.Value.{Value};
ghost use Rattle.sym_expr.specs.declared.value.Value.TheVariants.{Num};
ghost use Rattle.sym_expr.specs.States.{State, start as first_state};
ghost use Rattle.sym_expr.specs.Steps.{step};
ghost use Rattle.sym_expr.specs.Symbolic.{symbolic};
ghost use Rattle.simulation.specs.Placement.{Placement};
ghost use Rattle.simulation.specs.Meant.{Means};
ghost use Rattle.simulation.specs.Held.{Related};
ghost use Rattle.simulation.specs.Placed.{IsPlaced, start};
ghost use Rattle.simulation.specs.Follows.{Follows, IsNotStuck, RunAlike};

use a64_filled::{filled_word_keeps_its_row, filled_word_names_its_target, operand_is_of_its_row};
use a64_inst::laws::read_is_word;

/// Where an operation of the symbolic machine isn't stuck, that of the numeric machine gives the number of its
/// value, a state that stands for its state, or the same end.
pub fn operations_agree()
    ensures sums { (pl : Placement) (g : Program) (memory : Mapping) → IsPlaced pl g memory → (s : State) (u : Machine) → Related pl g s u → (sum : Sum) (w : Width) (a b : Value) (m n : ℕ) → Means pl g a m → Means pl g b n → Follows (Means pl g) (Related pl g) ((symbolic g).sum sum w a b s) (numeric.sum sum w m n u) }
    ensures flags { (pl : Placement) (g : Program) (memory : Mapping) → IsPlaced pl g memory → (s : State) (u : Machine) → Related pl g s u → (sum : Sum) (w : Width) (a b : Value) (m n : ℕ) → Means pl g a m → Means pl g b n → Follows (Related pl g) (Related pl g) ((symbolic g).flags_of_sum sum w a b s) (numeric.flags_of_sum sum w m n u) }
    ensures tests { (pl : Placement) (g : Program) (memory : Mapping) → IsPlaced pl g memory → (s : State) (u : Machine) → Related pl g s u → (negated : Bool) (w : Width) (a : Value) (m : ℕ) → Means pl g a m → Follows (Means pl g) (Related pl g) ((symbolic g).is_zero negated w a s) (numeric.is_zero negated w m u) }
    ensures choices { (pl : Placement) (g : Program) (memory : Mapping) → IsPlaced pl g memory → (s : State) (u : Machine) → Related pl g s u → (inverted more : Bool) (w : Width) (t : ℕ) (a b : Value) (m n : ℕ) → Means pl g a m → Means pl g b n → Follows (Means pl g) (Related pl g) ((symbolic g).choose inverted more w (Num t) a b s) (numeric.choose inverted more w t m n u) }
    ensures loads { (pl : Placement) (g : Program) (memory : Mapping) → IsPlaced pl g memory → (s : State) (u : Machine) → Related pl g s u → (bytes : ℕ) (signed : Bool) (w : Width) (at : Value) (n : ℕ) → bytes ≤ 8 → Means pl g at n → Follows (Means pl g) (Related pl g) ((symbolic g).load bytes signed w at s) (numeric.load bytes signed w n u) }
    ensures stores { (pl : Placement) (g : Program) (memory : Mapping) → IsPlaced pl g memory → (s : State) (u : Machine) → Related pl g s u → (bytes : ℕ) (a at : Value) (m n : ℕ) → Means pl g a m → Means pl g at n → Follows (Related pl g) (Related pl g) ((symbolic g).store bytes a at s) (numeric.store bytes m n u) }
    ensures calls { (pl : Placement) (g : Program) (memory : Mapping) → IsPlaced pl g memory → (s : State) (u : Machine) → Related pl g s u → (immediate : ℕ) → Follows (Related pl g) (Related pl g) ((symbolic g).call immediate s) (numeric.call immediate u) }
    ensures functions { (pl : Placement) (g : Program) (memory : Mapping) → IsPlaced pl g memory → (s : State) (u : Machine) → Related pl g s u → (f : Binary) (w : Width) (a b : Value) (m n : ℕ) → Means pl g a m → Means pl g b n → Follows (Means pl g) (Related pl g) ((symbolic g).binary f w a b s) (numeric.binary f w m n u) }
    ensures unaries { (pl : Placement) (g : Program) (memory : Mapping) → IsPlaced pl g memory → (s : State) (u : Machine) → Related pl g s u → (f : Unary) (w : Width) (a : Value) (m : ℕ) → Means pl g a m → Follows (Means pl g) (Related pl g) ((symbolic g).unary f w a s) (numeric.unary f w m u) }
    ensures conditions { (pl : Placement) (g : Program) (memory : Mapping) → IsPlaced pl g memory → (s : State) (u : Machine) → Related pl g s u → (c : ℕ) → Follows (Means pl g) (Related pl g) ((symbolic g).condition c s) (numeric.condition c u) }
    ensures carries { (pl : Placement) (g : Program) (memory : Mapping) → IsPlaced pl g memory → (s : State) (u : Machine) → Related pl g s u → Follows (Means pl g) (Related pl g) ((symbolic g).carry s) (numeric.carry u) }
    ensures carry_flags { (pl : Placement) (g : Program) (memory : Mapping) → IsPlaced pl g memory → (s : State) (u : Machine) → Related pl g s u → (sum : Sum) (w : Width) (a b c : Value) (i j k : ℕ) → Means pl g a i → Means pl g b j → Means pl g c k → Follows (Related pl g) (Related pl g) ((symbolic g).flags_of_carry sum w a b c s) (numeric.flags_of_carry sum w i j k u) }
    ensures logic_flags { (pl : Placement) (g : Program) (memory : Mapping) → IsPlaced pl g memory → (s : State) (u : Machine) → Related pl g s u → (w : Width) (a : Value) (m : ℕ) → Means pl g a m → Follows (Related pl g) (Related pl g) ((symbolic g).flags_of_logic w a s) (numeric.flags_of_logic w m u) }
    ensures chosen_flags { (pl : Placement) (g : Program) (memory : Mapping) → IsPlaced pl g memory → (s : State) (u : Machine) → Related pl g s u → (sum : Sum) (w : Width) (t : ℕ) (a b : Value) (m n nzcv : ℕ) → Means pl g a m → Means pl g b n → Follows (Related pl g) (Related pl g) ((symbolic g).flags_if sum w (Num t) a b nzcv s) (numeric.flags_if sum w t m n nzcv u) }
    ensures reads { (pl : Placement) (g : Program) (memory : Mapping) → IsPlaced pl g memory → (s : State) (u : Machine) → Related pl g s u → (stack : Bool) (r : ℕ) → Follows (Means pl g) (Related pl g) ((symbolic g).read stack r s) (numeric.read stack r u) }
    ensures writes { (pl : Placement) (g : Program) (memory : Mapping) → IsPlaced pl g memory → (s : State) (u : Machine) → Related pl g s u → (stack : Bool) (r : ℕ) (a : Value) (m : ℕ) → Means pl g a m → Follows (Related pl g) (Related pl g) ((symbolic g).write stack r a s) (numeric.write stack r m u) }
    ensures jumps { (pl : Placement) (g : Program) (memory : Mapping) → IsPlaced pl g memory → (s : State) (u : Machine) → Related pl g s u → (a : Value) (m : ℕ) → Means pl g a m → Follows (Related pl g) (Related pl g) ((symbolic g).jump a s) (numeric.jump m u) }
{}

/// The states before the first instruction stand for each other.
pub fn starts_agree()
    ensures { (pl : Placement) (g : Program) (memory : Mapping) → IsPlaced pl g memory → (input : List ℕ) → All (λ b. b < 256) input → Related pl g (first_state g pl.stack_size input) (start pl g memory input) }
{}

/// From states that stand for each other a step that isn't stuck and that of the numeric machine give such
/// states again, or the same end.
pub fn steps_agree()
    ensures { (pl : Placement) (g : Program) (memory : Mapping) → IsPlaced pl g memory → (s : State) (m : Machine) → Related pl g s m → Follows (Related pl g) (Related pl g) (step g s) (number_step m) }
{
    read_is_word();
    filled_word_keeps_its_row();
    filled_word_names_its_target();
    operand_is_of_its_row();
}

/// Where the symbolic machine of a placed program isn't stuck within n instructions, the numeric machine does as
/// many, stands alike, and holds what stands for what the symbolic one holds.
pub fn runs_agree()
    ensures { (pl : Placement) (g : Program) (memory : Mapping) → IsPlaced pl g memory → (n : ℕ) (input : List ℕ) → All (λ b. b < 256) input → IsNotStuck (run (step g) n (first_state g pl.stack_size input)).standing → RunAlike pl g (run (step g) n (first_state g pl.stack_size input)) (run number_step n (start pl g memory input)) }
{
    read_is_word();
    filled_word_keeps_its_row();
    filled_word_names_its_target();
    operand_is_of_its_row();
}
