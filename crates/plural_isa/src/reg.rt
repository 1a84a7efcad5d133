ghost use Rattle.std.specs.Prelude.{◌≡◌, ℕ, ◌<◌};

use std::marker::Model;

/// One of the 32 registers `x0` to `x31` (RV32I 2.1, "Programmers' Model for Base Integer ISA"),
/// seen by contracts as its number, which is below 32.
#[derive(Clone, Copy, Debug, PartialEq, Eq)]
pub struct Reg {
    number: u8,
}

impl Model for Reg {
    ghost Value = { ℕ };

    ghost view = { λ r. r.number };

    ghost invariant = { λ r. r.number < 32 };

    ghost inverse = { λ n. record { number = n } };
}

impl Reg {
    /// The register of number `n`, from 0 to 31.
    pub fn of(n: u32) -> Reg
        requires { n < 32 }
        ensures { result ≡ n }
    {
        Reg { number: n as u8 }
    }

    /// The number of the register, from 0 to 31.
    pub fn number(self) -> u32
        ensures value { result ≡ self }
        ensures bound { result < 32 }
    {
        u32::from(self.number)
    }
}
