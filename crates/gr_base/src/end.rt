use std::alloc::{AllocError, AllocFailed};

/// The error of a call that can answer a fault of its own or want of memory.
#[derive(Clone, Copy, Debug, PartialEq, Eq, Drop)]
pub enum End<F> {
    Fault(F),
    Memory,
}

impl<F> From<AllocError> for End<F> {
    ghost use Rattle.std.specs.Prelude.{◌≡◌};
    ghost use Rattle.gr_base.specs.declared.end.End.TheVariants.{Memory};

    ghost from_gives = { λ _ e. e ≡ Memory };

    fn from(_: AllocError) -> End<F> {
        End::Memory
    }
}

impl<F, T: Drop> From<AllocFailed<T>> for End<F> {
    ghost use Rattle.std.specs.Prelude.{◌≡◌};
    ghost use Rattle.gr_base.specs.declared.end.End.TheVariants.{Memory};

    ghost from_gives = { λ _ e. e ≡ Memory };

    fn from(_: AllocFailed<T>) -> End<F> {
        End::Memory
    }
}
