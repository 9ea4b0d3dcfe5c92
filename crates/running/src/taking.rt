// Who takes a unit: the due numbers, and the scan for the smallest.
ghost use Rattle.std.specs.Prelude.{◌≡◌};
ghost use Rattle.running.specs.Taking.{due_by, dues_by, number_of, first_due};

use crate::PARTNERS;

// No Option here and below: LATE and the place 16 are the promises `due_number` and `first_due`, and a comparison of numbers is all that a scan has.
// A number beyond every due number of weights that keep their rule.
pub const LATE: u32 = 1_000_000_000;

// The due number of a place that has so many units, (a + 1) x W / w rounded up, or LATE where it isn't before that; 0 where the place has
// no weight.
#[tactic(auto, using(crate::proofs::FirstDue::due_of_none, crate::proofs::FirstDue::due_before, crate::proofs::FirstDue::due_after))]
pub fn due_number(weight: u32, sum: u32, units: u32) -> u32
    ensures { result ≡ due_by sum weight units }
{
    if weight == 0 {
        return 0;
    }
    let reach = (u64::from(units) + 1) * u64::from(sum);
    let due = (reach + u64::from(weight - 1)) / u64::from(weight);
    if due < u64::from(LATE) {
        return due as u32;
    }
    LATE
}

// The due number of each place's next unit.
#[tactic(auto, using(whole::proofs::Lists::fill_none, crate::proofs::Places::fill_next), unfolding(crate::specs::Taking::dues_by))]
pub fn due_numbers(weights: [u32; PARTNERS], sum: u32, held: [u32; PARTNERS]) -> [u32; PARTNERS]
    ensures { result ≡ dues_by weights sum held }
{
    let mut due = [0; PARTNERS];
    for i in 0..PARTNERS {
        due[i] = due_number(weights[i], sum, held[i]);
    }
    due
}

// Of the places that may take unit t and are due before LATE, the one that is due first; ties go to the lower place; 16 where there is none.
#[tactic(auto, using(crate::proofs::FirstDue::start, crate::proofs::FirstDue::later, crate::proofs::FirstDue::not_yet, crate::proofs::FirstDue::sooner_due, crate::proofs::FirstDue::scan_over))]
pub fn first_due(
    weights: [u32; PARTNERS],
    sum: u32,
    held: [u32; PARTNERS],
    due: [u32; PARTNERS],
    t: u32,
) -> usize
    ensures { result ≡ number_of (first_due weights sum held due t) }
{
    let mut best = PARTNERS;
    let mut least = LATE;
    for i in 0..PARTNERS {
        if due[i] < least {
            if u64::from(held[i]) * u64::from(sum) < u64::from(t) * u64::from(weights[i]) {
                best = i;
                least = due[i];
            }
        }
    }
    best
}
