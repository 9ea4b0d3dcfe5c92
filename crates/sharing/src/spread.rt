// The shares of a magnitude by a list of weights: rounded down, then the units left to the largest remainders.
ghost use Rattle.std.specs.Prelude.{◌≡◌, map, ◌++◌, ◌+◌, ◌≤◌, ◌<◌, ◌^◌, length, drop};
ghost use Rattle.whole.specs.Sums.{sum_of};
ghost use Rattle.whole.specs.Whole.{signed_of};
ghost use Rattle.weights.specs.Weights.{Allowed};
ghost use Rattle.remainder.specs.Rule.{rounded_down, remainders, units_left, largest, serve, hand_out, shares_of};

use weights::{MOST_WEIGHTS, weigh};
use whole::signed;

// So many weights are few.
const FEW: usize = 8;

// The shares rounded down and the remainders; answers the units left. Of m, whole x total + part, a weight has whole x weight and its share
// of the part, whose product fits whatever m is.
fn divide(m: u64, weights: &[u32], shares: &mut [u64], rests: &mut [u64]) -> u64
    requires allowed { Allowed weights.now (length shares.old) }
    requires shares_len { length shares.old ≡ length weights.now }
    requires rests_len { length rests.old ≡ length weights.now }
    ensures left { result ≡ units_left m weights.now }
    ensures shares { shares.new ≡ rounded_down m weights.now }
    ensures rests { rests.new ≡ remainders m weights.now }
{
    let total = weigh(weights);
    let whole = m / total;
    let part = m % total;
    let mut left = m;
    for (i, weight) in weights.iter().enumerate() {
        let weight = u64::from(*weight);
        let product = part * weight;
        let share = whole * weight + product / total;
        shares[i] = share;
        rests[i] = product % total;
        left -= share;
    }
    left
}

// The place of the largest remainder, ties to the lower place.
#[tactic(auto, using(remainder::proofs::Largest::scan_start, remainder::proofs::Largest::scan_larger, remainder::proofs::Largest::scan_past))]
fn largest_place(rests: &[u64]) -> usize
    requires { 1 ≤ length rests.now }
    ensures { result ≡ largest rests.now (length rests.now) }
{
    let mut place = 0;
    let mut top = rests[0];
    for i in 1..rests.len() {
        if top < rests[i] {
            top = rests[i];
            place = i;
        }
    }
    place
}

// One unit to the largest remainder not yet served.
fn serve_one(shares: &mut [u64], rests: &mut [u64])
    requires in_bounds { 1 ≤ length rests.old }
    requires rests_len { length rests.old ≡ length shares.old }
    requires shares_bound { sum_of shares.old + 1 < 2 ^ 64 }
    ensures shares { shares.exit.now ≡ (serve (record { shares = shares.entry.now; unserved = rests.old })).shares }
    ensures rests { rests.new ≡ (serve (record { shares = shares.entry.now; unserved = rests.old })).unserved }
{
    let place = largest_place(rests);
    shares[place] += 1;
    rests[place] = 0;
}

// So many units, one at a time.
fn hand_out(units: u64, shares: &mut [u64], rests: &mut [u64])
    requires in_bounds { 1 ≤ length rests.old }
    requires rests_len { length rests.old ≡ length shares.old }
    requires units_bound { sum_of shares.old + units < 2 ^ 64 }
    ensures { shares.exit.now ≡ (hand_out units (record { shares = shares.entry.now; unserved = rests.old })).shares }
{
    for _given in 0..units {
        serve_one(shares, rests);
    }
}

// The shares with their sign, to the places of an output of as many.
fn write(negative: bool, shares: &[u64], out: &mut [i64])
    requires shares_bound { sum_of shares.now < 2 ^ 63 }
    requires out_len { length out.old ≡ length shares.now }
    ensures { out.new ≡ map (signed_of negative) shares.now }
{
    for (i, share) in shares.iter().enumerate() {
        out[i] = signed(negative, *share);
    }
}

// The signed shares, by way of lent places for the shares and the remainders; all have as many places as there are weights.
fn spread_by(
    negative: bool,
    m: u64,
    weights: &[u32],
    shares: &mut [u64],
    rests: &mut [u64],
    out: &mut [i64],
)
    requires m_bound { m < 2 ^ 63 }
    requires allowed { Allowed weights.now (length shares.old) }
    requires shares_len { length shares.old ≡ length weights.now }
    requires rests_len { length rests.old ≡ length weights.now }
    requires out_len { length out.old ≡ length weights.now }
    ensures { out.new ≡ map (signed_of negative) (shares_of m weights.now) }
{
    let units = divide(m, weights, shares, rests);
    hand_out(units, shares, rests);
    write(negative, shares, out);
}

// With room for the shares and the remainders of at most so many weights: a short list does not wait until 64 places are cleared.
fn spread_in<const ROOM: usize>(negative: bool, m: u64, weights: &[u32], out: &mut [i64])
    requires m_bound { m < 2 ^ 63 }
    requires weights_len_bound { (length weights.now ≤ ROOM) × (ROOM ≤ 64) }
    requires allowed { Allowed weights.now (length out.old) }
    ensures { out.new ≡ map (signed_of negative) (shares_of m weights.now) ++ drop (length weights.now) out.old }
{
    let mut shares: [u64; ROOM] = [0; ROOM];
    let mut rests: [u64; ROOM] = [0; ROOM];
    let count = weights.len();
    spread_by(
        negative,
        m,
        weights,
        &mut shares[..count],
        &mut rests[..count],
        &mut out[..count],
    );
}

// The shares of m by the weights, with their sign, to the first places of the output; the others stay.
pub(crate) fn spread(negative: bool, m: u64, weights: &[u32], out: &mut [i64])
    requires m_bound { m < 2 ^ 63 }
    requires allowed { Allowed weights.now (length out.old) }
    ensures { out.new ≡ map (signed_of negative) (shares_of m weights.now) ++ drop (length weights.now) out.old }
{
    if weights.len() <= FEW {
        spread_in::<FEW>(negative, m, weights, out);
    } else {
        spread_in::<MOST_WEIGHTS>(negative, m, weights, out);
    }
}
