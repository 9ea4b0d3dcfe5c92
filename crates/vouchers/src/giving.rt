// Vouchers given out by highest average: from each weight's share rounded down, the vouchers left go out one at a time.
ghost use Rattle.std.specs.Prelude.{◌≡◌, ◌+◌, ◌≤◌, ◌<◌, ◌^◌, length};
ghost use Rattle.whole.specs.Sums.{sum_of};
ghost use Rattle.weights.specs.Weights.{Allowed};
ghost use Rattle.remainder.specs.Rule.{rounded_down, units_left};
ghost use Rattle.average.specs.Rule.{highest, give, give_out, vouchers_of};
ghost use Rattle.vouchers.specs.Said.{most_vouchers};

use weights::weigh;

// Each weight's share of the vouchers rounded down; answers how many are left, fewer than there are weights.
fn start(count: u32, weights: &[u32], held: &mut [u32]) -> u32
    requires count_le_most_vouchers { count ≤ most_vouchers }
    requires allowed { Allowed weights.now (length held.old) }
    requires held_len { length held.old ≡ length weights.now }
    ensures left { result ≡ units_left count weights.now }
    ensures held { held.new ≡ rounded_down count weights.now }
{
    let total = weigh(weights);
    let mut left = count;
    for (i, weight) in weights.iter().enumerate() {
        let share = (u64::from(count) * u64::from(*weight) / total) as u32;
        held[i] = share;
        left -= share;
    }
    left
}

// The place of the greatest weight / (held + 1), ties to the lower place.
fn highest_place(weights: &[u32], held: &[u32]) -> usize
    requires in_bounds { 1 ≤ length weights.now }
    requires held_len { length held.now ≡ length weights.now }
    ensures { result ≡ highest weights.now held.now (length weights.now) }
{
    let mut place = 0;
    let mut weight = u64::from(weights[0]);
    let mut next = u64::from(held[0]) + 1;
    for i in 1..weights.len() {
        let own = u64::from(weights[i]);
        let after = u64::from(held[i]) + 1;
        if weight * after < own * next {
            place = i;
            weight = own;
            next = after;
        }
    }
    place
}

// One voucher more.
fn give_one(weights: &[u32], held: &mut [u32])
    requires in_bounds { 1 ≤ length weights.now }
    requires held_len { length held.old ≡ length weights.now }
    requires held_bound { sum_of held.old + 1 < 2 ^ 32 }
    ensures { held.new ≡ give weights.now held.old }
{
    let place = highest_place(weights, held);
    held[place] += 1;
}

// So many vouchers more, one at a time.
fn give_out(vouchers: u32, weights: &[u32], held: &mut [u32])
    requires in_bounds { 1 ≤ length weights.now }
    requires held_len { length held.old ≡ length weights.now }
    requires vouchers_bound { sum_of held.old + vouchers < 2 ^ 32 }
    ensures { held.new ≡ give_out vouchers weights.now held.old }
{
    for _given in 0..vouchers {
        give_one(weights, held);
    }
}

// All vouchers, to as many places as there are weights.
pub(crate) fn give_all(count: u32, weights: &[u32], held: &mut [u32])
    requires count_le_most_vouchers { count ≤ most_vouchers }
    requires allowed { Allowed weights.now (length held.old) }
    requires held_len { length held.old ≡ length weights.now }
    ensures { held.new ≡ vouchers_of count weights.now }
{
    let left = start(count, weights, held);
    give_out(left, weights, held);
}
