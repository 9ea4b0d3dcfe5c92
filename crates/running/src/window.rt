// Who is ahead at n, one above its full units: a walk over the units from u to n alone, by a calendar of the full units among them.
ghost use Rattle.std.specs.Prelude.{◌≡◌, ◌+◌, ◌-◌, ◌≤◌};
ghost use Rattle.units.specs.Window.{full_by};
ghost use Rattle.running.specs.Limits.{weight_sum};
ghost use Rattle.running.specs.Running.{Starts, Laying, Listed, Empty, Ahead, OneMore, fill_by};

use crate::full::Split;
use crate::taking::{LATE, due_numbers, first_due};
use crate::{PARTNERS, WEIGHT_SUM};

// Slots for any window.
const ANY: usize = WEIGHT_SUM as usize;

// A partner's units from number first + 1 to `full`, each one more in the slot of the unit by which it may first be taken: unit m + 1
// in that of m x W / w, a quotient that needs no division from one m to the next.
fn lay(weight: u32, sum: u32, u: u32, first: u32, full: u32, slots: &mut [u16])
    requires { Laying weight sum u first full slots.old }
    ensures { slots.new ≡ fill_by weight sum u first slots.old (full - first) }
{
    let step = sum / weight;
    let more = sum % weight;
    let back = weight - more;
    let mut q = first * sum / weight;
    let mut r = first * sum % weight;
    for _m in first..full {
        slots[(q - u) as usize] += 1;
        if r < back {
            q += step;
            r += more;
        } else {
            q += step + 1;
            r -= back;
        }
    }
}

impl Split {
    // The units u + 1 to n: `settled` counts the full units that may have been taken and the straddlers taken. Where they are more than
    // t, unit t + 1 is a full one; else they are t, and it is a straddler, the unit after a place's full ones: of the places not ahead that
    // may take it, the one that is due first. A place that is ahead is due late.
    #[tactic(auto, using(crate::proofs::Walked::settled_small))]
    fn walk(&self, u: u32, taken: u32, slots: &[u16]) -> [u32; PARTNERS]
        requires starts { Starts self.now.weights self.now.n u }
        requires taken_value { taken ≡ full_by self.now.weights self.now.n u }
        requires listed { Listed self.now.weights self.now.n u slots.now }
        ensures { Ahead self.now.weights self.now.n u result }
    {
        // taken out of the reference once, so that no unit copies the lists again
        let weights = self.weights;
        let sum = self.sum;
        let full = self.full;
        let mut due = due_numbers(weights, sum, full);
        let mut ahead = [0; PARTNERS];
        let mut settled = taken;
        for t in u..self.n {
            settled += u32::from(slots[(t - u) as usize]);
            if settled <= t {
                let p = first_due(weights, sum, full, due, settled + 1);
                if p < PARTNERS {
                    ahead[p] = 1;
                    due[p] = LATE;
                    settled += 1;
                }
            }
        }
        ahead
    }

    // With empty slots lent for the units from u to n.
    #[tactic(auto, using(crate::proofs::Fitting::product_reached, crate::proofs::Filled::length_filled))]
    fn by_slots(&self, u: u32, slots: &mut [u16]) -> [u32; PARTNERS]
        requires starts { Starts self.now.weights self.now.n u }
        requires empty { Empty self.now.n u slots.old }
        ensures { Ahead self.now.weights self.now.n u result }
    {
        let mut taken = 0;
        for i in 0..PARTNERS {
            let first = (u * self.weights[i] + (self.sum - 1)) / self.sum;
            if first < self.full[i] {
                lay(self.weights[i], self.sum, u, first, self.full[i], slots);
                taken += first;
            } else {
                taken += self.full[i];
            }
        }
        self.walk(u, taken, slots)
    }

    // With so many slots: clearing them is part of the cost.
    fn by_size<const SIZE: usize>(&self, u: u32) -> [u32; PARTNERS]
        requires starts { Starts self.now.weights self.now.n u }
        requires size { (self.now.n ≤ u + SIZE) × (SIZE ≤ weight_sum) }
        ensures { OneMore self.now.weights self.now.n self.now.full result }
    {
        let mut slots = [0; SIZE];
        self.by_slots(u, &mut slots)
    }

    // Who is ahead at n, 1 or 0 at each place: slots for a short window, a longer one, and any.
    pub(crate) fn ahead(&self) -> [u32; PARTNERS]
        ensures { OneMore self.now.weights self.now.n self.now.full result }
    {
        let u = self.start();
        let window = self.n - u;
        if window <= 64 {
            self.by_size::<64>(u)
        } else if window <= 1024 {
            self.by_size::<1024>(u)
        } else {
            self.by_size::<ANY>(u)
        }
    }
}
