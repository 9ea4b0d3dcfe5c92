// What a call takes, once none of its rows holds, and the tax by it.
ghost use Rattle.std.specs.Prelude.{◌≡◌, ◌*◌, ◌≤◌};
ghost use Rattle.rounding.specs.Leaf.{rounded_magnitude};
ghost use Rattle.amount.specs.Amounts.{largest};
ghost use Rattle.tax.specs.Tax.{million};

use rounding::{Rule, round_product};

// A whole in parts per million, which is also the largest rate.
pub(crate) const MILLION: u64 = 1_000_000;

// The mode's rule, the amount's sign and magnitude, and the rate.
#[derive(Clone, Copy)]
pub(crate) struct Accepted {
    pub(crate) rule: Rule,
    pub(crate) negative: bool,
    pub(crate) m: u64,
    pub(crate) rate: u32,
    ghost within_l: { m ≤ largest },
    ghost within_million: { rate ≤ million },
}

impl Accepted {
    // The tax on the amount or a part of it: by the rate in a whole, which is the million, and from gross the million and the rate.
    #[tactic(auto, using(crate::proofs::Bounds::leaf, crate::proofs::Bounds::at_most_all))]
    pub(crate) fn tax(self, m: u64, whole: u64) -> u64
        requires part { m ≤ self.m }
        requires whole_covers { (million ≤ whole) × (whole ≤ 2 * million) }
        ensures value { result ≡ rounded_magnitude self.rule self.negative (m * self.rate) whole }
        ensures within { result ≤ m }
    {
        round_product(self.rule, self.negative, m, u64::from(self.rate), whole)
    }
}
