//! The flags that instructions set and test.

ghost use Rattle.std.specs.Prelude.{◌≡◌};

/// Negative, zero, carry and overflow.
#[derive(Clone, Copy, Debug, PartialEq, Eq)]
pub struct Flags {
    pub n: bool,
    pub z: bool,
    pub c: bool,
    pub v: bool,
}

impl Flags {
    ghost use Rattle.a64_inst.specs.Numbers.{named_flags, asked, holds};

    /// The flags that four bits name, N first.
    pub fn named(nzcv: u8) -> Flags
        ensures { result ≡ named_flags nzcv }
    {
        Flags {
            n: nzcv / 8 % 2 == 1,
            z: nzcv / 4 % 2 == 1,
            c: nzcv / 2 % 2 == 1,
            v: nzcv % 2 == 1,
        }
    }

    /// Whether a condition holds.
    pub fn hold(self, condition: u8) -> bool
        ensures { result ≡ holds condition self }
    {
        let asked = self.asked(condition / 2);
        if condition % 2 == 1 && condition != 15 {
            !asked
        } else {
            asked
        }
    }

    // What the upper three bits of a condition ask.
    fn asked(self, which: u8) -> bool
        ensures { result ≡ asked which self }
    {
        match which {
            0 => self.z,
            1 => self.c,
            2 => self.n,
            3 => self.v,
            4 => self.c && !self.z,
            5 => self.n == self.v,
            6 => self.n == self.v && !self.z,
            _ => true,
        }
    }
}
