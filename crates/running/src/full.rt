// Each partner's full units of n, its share rounded down, and from which unit on a window to n may start.
ghost use Rattle.std.specs.Prelude.{◌≡◌, ℕ, ◌≤◌, ◌<◌, length, get_or};
ghost use Rattle.whole.specs.Sums.{sum_of};
ghost use Rattle.units.specs.Window.{lo, mass};
ghost use Rattle.running.specs.Limits.{partners, weight_sum, Weighed};
ghost use Rattle.running.specs.Running.{Starts};

use crate::PARTNERS;

// Sixteen weights with sum W, and n units of a cycle, with each place's full units: n x w / W rounded down.
#[derive(Drop)]
pub(crate) struct Split {
    pub(crate) weights: [u32; PARTNERS],
    pub(crate) sum: u32,
    pub(crate) n: u32,
    pub(crate) full: [u32; PARTNERS],
    pub ghost long: { length weights ≡ partners },
    pub ghost same: { sum ≡ sum_of weights },
    pub ghost some: { 1 ≤ sum },
    pub ghost most: { sum ≤ weight_sum },
    pub ghost part: { n ≤ weight_sum },
    pub ghost shares: { (i : ℕ) → i < partners → get_or full i 0 ≡ lo weights n i },
}

impl Split {
    #[tactic(auto, using(whole::proofs::Lists::fill_none, crate::proofs::Places::fill_next, crate::proofs::Fitting::product_share))]
    pub(crate) fn new(weights: [u32; PARTNERS], sum: u32, n: u32) -> Self
        requires weighed { Weighed weights sum }
        requires part { n ≤ weight_sum }
        ensures { (result.weights ≡ weights) × (result.sum ≡ sum) × (result.n ≡ n) }
    {
        let mut full = [0; PARTNERS];
        for i in 0..PARTNERS {
            full[i] = n * weights[i] / sum;
        }
        Split {
            weights,
            sum,
            n,
            full,
        }
    }

    // By how much t x w is above the full units times W, over all places.
    #[tactic(auto, using(crate::proofs::Fitting::product_reached, crate::proofs::Fitting::product_taken, crate::proofs::Fitting::mass_next, crate::proofs::Fitting::mass_is, units::proofs::Loops::sum_start))]
    fn mass(&self, t: u32) -> u32
        requires { t ≤ weight_sum }
        ensures { result ≡ mass self.now.weights self.now.n t }
    {
        let mut mass = 0;
        for i in 0..PARTNERS {
            mass += (t * self.weights[i]).saturating_sub(self.full[i] * self.sum);
        }
        mass
    }

    // A unit after which nobody is ahead: where the mass is below W, nobody is. The distance back from n is doubled until that test
    // passes, so it is no count that a `for` could make; how u is found is no part of the promise, and 0 always serves.
    #[tactic(auto, using(units::proofs::Start::mass_none))]
    pub(crate) fn start(&self) -> u32
        ensures { Starts self.now.weights self.now.n result }
    {
        let mut back = 1;
        while back < self.n {
            let u = self.n - back;
            if self.mass(u) < self.sum {
                return u;
            }
            back = 2 * back;
        }
        0
    }
}
