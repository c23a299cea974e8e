use gr_base::End;
use sym_expr::Spot;
use uuid::Uuid;

/// Why a text is no layout, or a layout isn't accepted.
#[derive(Clone, Copy, Debug, PartialEq, Eq)]
pub enum LayoutFault {
    /// A line of the text, from 1.
    Line(u64),
    /// An interval that the shape doesn't have.
    Unknown(Uuid),
    /// An interval with two places.
    Twice(Uuid),
    /// An interval without a place.
    Missing(Uuid),
    /// A spot that begins below 4096 or ends above 2 ^ 47.
    Outside(Spot),
    /// A spot whose place doesn't suit its alignment.
    Unaligned(Spot),
    /// Two spots that share a byte, the lower first.
    Overlap(Spot, Spot),
}

impl From<LayoutFault> for End<LayoutFault> {
    ghost use Rattle.std.specs.Prelude.{◌≡◌};
    ghost use Rattle.gr_base.specs.declared.end.End.TheVariants.{Fault};

    ghost from_gives = { λ fault e. e ≡ Fault fault };

    fn from(fault: LayoutFault) -> End<LayoutFault> {
        End::Fault(fault)
    }
}
