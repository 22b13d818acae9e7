ghost use Rattle.std.specs.Prelude.{◌≡◌};
ghost use Rattle.transfers.specs.Signs.{sign, number};

// Whether a residue is there to be paid out, or is to be recovered.
#[derive(Clone, Copy, PartialEq, Eq)]
pub enum Sign {
    PaidOut,
    Recovered,
}

impl Sign {
    // The sign of a residue.
    pub fn of(residue: i64) -> Sign
        ensures { result ≡ sign residue }
    {
        if residue < 0 {
            Sign::Recovered
        } else {
            Sign::PaidOut
        }
    }
}

impl From<Sign> for usize {
    ghost from_gives = { λ sign n. n ≡ number sign };

    fn from(sign: Sign) -> usize {
        match sign {
            Sign::PaidOut => 0,
            Sign::Recovered => 1,
        }
    }
}
