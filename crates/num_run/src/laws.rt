//! What follows from the definition of a run alone.

ghost use Rattle.std.specs.Prelude.{◌≡◌, ◌≢◌, ◌+◌, ◌≤◌, ◌^◌, ℕ, [], List};
ghost use Rattle.a64_inst.specs.declared.inst.Inst.TheVariants.{Pair};
ghost use Rattle.a64_inst.specs.declared.trap.Trap.TheVariants.{Fault};
ghost use Rattle.a64_inst.specs.Domain.{next, ended, trapped, exec};
ghost use Rattle.a64_inst.specs.Meaning.{ops, pair_size};
ghost use Rattle.a64_inst.specs.Runs.{run, onward};
ghost use Rattle.bare_image.specs.declared.image.Image.{Image};
ghost use Rattle.num_run.specs.Machine.{Machine};
ghost use Rattle.num_run.specs.Numeric.{numeric, stored};
ghost use Rattle.num_run.specs.Access.{behind, low_bytes, pair_address};
ghost use Rattle.num_run.specs.Run.{num_run, start, step};

use crate::report::RunEnd;

/// After an exit or a trap nothing changes, neither what is seen nor what the machine holds.
pub fn nothing_follows_an_end()
    ensures run { (image : Image) (input : List ℕ) (steps more : ℕ) → (num_run image input steps).end ≢ RunEnd.Running → run step (steps + more) (start image input) ≡ run step steps (start image input) }
    ensures seen { (image : Image) (input : List ℕ) (steps more : ℕ) → (num_run image input steps).end ≢ RunEnd.Running → num_run image input (steps + more) ≡ num_run image input steps }
{}

/// A run of some steps and then of more is one run of them all.
pub fn runs_compose()
    ensures { (image : Image) (input : List ℕ) (steps more : ℕ) → run step (steps + more) (start image input) ≡ onward step more (run step steps (start image input)) }
{}

/// While a run goes on, each step that it may do is done, and never more.
pub fn steps_are_counted()
    ensures running { (image : Image) (input : List ℕ) (steps : ℕ) → (num_run image input steps).end ≡ RunEnd.Running → (num_run image input steps).steps ≡ steps }
    ensures most { (image : Image) (input : List ℕ) (steps : ℕ) → (num_run image input steps).steps ≤ steps }
{}

/// Where the second half of a stored pair faults, the machine that ends keeps the first half.
pub fn a_pair_keeps_its_first_half()
    ensures { (m first : Machine) (opc imm7 rt2 rn rt : ℕ) →
        stored (2 ^ pair_size opc) (low_bytes (pair_size opc) rt m) (pair_address opc imm7 rn m) m ≡ next first →
        stored (2 ^ pair_size opc) (low_bytes (pair_size opc) rt2 m) (behind (pair_address opc imm7 rn m) (2 ^ pair_size opc)) first ≡ ended (trapped Fault) first →
        exec numeric (ops (Pair opc 2 0 imm7 rt2 rn rt)) [] m ≡ ended (trapped Fault) first }
{}
