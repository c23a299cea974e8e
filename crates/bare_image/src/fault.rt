use gr_base::End;

/// Why bytes are no image: the place of the first field that is cut or breaks its rule, or of the first
/// byte after the end.
#[derive(Clone, Copy, Debug, PartialEq, Eq)]
pub struct ImageFault {
    pub place: u64,
}

impl From<ImageFault> for End<ImageFault> {
    ghost use Rattle.std.specs.Prelude.{◌≡◌};
    ghost use Rattle.gr_base.specs.declared.end.End.TheVariants.{Fault};

    ghost from_gives = { λ fault e. e ≡ Fault fault };

    fn from(fault: ImageFault) -> End<ImageFault> {
        End::Fault(fault)
    }
}
