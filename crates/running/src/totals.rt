// The running totals at n, and the units between two net totals.
ghost use Rattle.std.specs.Prelude.{◌≡◌, ℕ, ◌≤◌, get_or};
ghost use Rattle.units.specs.Rule.{totals};
ghost use Rattle.running.specs.Limits.{Weighed};
ghost use Rattle.running.specs.Totals.{totals_at, less_of};

use crate::PARTNERS;
use crate::full::Split;
use crate::weights::weighed_sum;

// The running totals at n: the whole cycles, the full units of what is left, and one more where a place is ahead.
fn by_shares(weights: [u32; PARTNERS], sum: u32, n: u64) -> [u64; PARTNERS]
    requires { Weighed weights sum }
    ensures { result ≡ totals weights n }
{
    let cycle = u64::from(sum);
    let cycles = n / cycle;
    let left = Split::new(weights, sum, (n % cycle) as u32);
    let ahead = left.ahead();
    let mut held = [0; PARTNERS];
    for i in 0..PARTNERS {
        held[i] = cycles * u64::from(weights[i]) + u64::from(left.full[i] + ahead[i]);
    }
    held
}

// Place by place, the totals at the greater net total less those at the lesser.
#[tactic(auto, using(whole::proofs::Lists::fill_none))]
fn less(high: [u64; PARTNERS], low: [u64; PARTNERS]) -> [u64; PARTNERS]
    requires { (i : ℕ) → get_or low i 0 ≤ get_or high i 0 }
    ensures { result ≡ less_of high low }
{
    let mut rest = high;
    for i in 0..PARTNERS {
        rest[i] -= low[i];
    }
    rest
}

// Each place's running total at n; sixteen zeros where the weights' sum isn't 1 to 10,000.
#[tactic(auto, using(crate::proofs::Total::totals_kept, crate::proofs::Total::totals_broken))]
pub fn totals_at(weights: [u32; PARTNERS], n: u64) -> [u64; PARTNERS]
    ensures { result ≡ totals_at weights n }
{
    match weighed_sum(weights) {
        Some(sum) => by_shares(weights, sum, n),
        None => [0; PARTNERS],
    }
}

// Each place's units between two net totals: its running total at the greater less that at the lesser, 0 where they are exchanged.
pub fn units_between(weights: [u32; PARTNERS], low: u64, high: u64) -> [u64; PARTNERS]
    ensures { result ≡ less_of (totals_at weights high) (totals_at weights low) }
{
    let Some(sum) = weighed_sum(weights) else {
        return [0; PARTNERS];
    };
    if high < low {
        return [0; PARTNERS];
    }
    let greater = by_shares(weights, sum, high);
    let lesser = by_shares(weights, sum, low);
    less(greater, lesser)
}
