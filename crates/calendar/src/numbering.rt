// The numbers of the bases, and their years.
ghost use Rattle.std.specs.Prelude.{◌≡◌};
ghost use Rattle.calendar.specs.DayCount.{basis_of};
ghost use Rattle.calendar.specs.Numbered.{number_of, numbered};

use crate::Basis;
use refusal::Refusal;

// The basis with a number, and refusal 6 for every other number.
impl TryFrom<u8> for Basis {
    type Error = Refusal;

    ghost try_from_gives = { λ number basis. basis ≡ numbered number };

    #[tactic(auto, unfolding(crate::specs::Numbered::numbered))]
    fn try_from(number: u8) -> Result<Basis, Refusal> {
        match number {
            0 => Ok(Basis::Actual360),
            1 => Ok(Basis::Actual365),
            2 => Ok(Basis::American),
            3 => Ok(Basis::European),
            _ => Err(Refusal::Rate),
        }
    }
}

impl Basis {
    // The days of its year.
    pub fn year(self) -> u32
        ensures { result ≡ (basis_of (number_of self)).year }
    {
        match self {
            Basis::Actual365 => 365,
            _ => 360,
        }
    }
}
