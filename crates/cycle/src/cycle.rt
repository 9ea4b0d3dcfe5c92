// One cycle of sixteen weights in a table: row n is a number whose bit i says that place i's total at n is one above its share rounded down.
ghost use Rattle.std.specs.Prelude.{◌≡◌, ◌≤◌, ◌<◌, length};
ghost use Rattle.whole.specs.Lists.{filled};
ghost use Rattle.units.specs.Rule.{totals};
ghost use Rattle.units.specs.Mask.{mask};
ghost use Rattle.cycle.specs.Cycle.{Weighed, cycle_in};

use running::{PARTNERS, WEIGHT_SUM, due_number, due_numbers, first_due, sum_from};

// Row n, by the totals at n: a total is at most one above its share rounded down, so it is above it where n x w < a x W.
fn row(weights: [u32; PARTNERS], sum: u32, held: [u32; PARTNERS], n: u32) -> u16
    requires weighed { Weighed weights sum }
    requires n_lt_sum { (n < sum) × (held ≡ totals weights n) }
    ensures { result ≡ mask weights n }
{
    let mut bits = 0;
    for i in 0..PARTNERS {
        if n * weights[i] < held[i] * sum {
            bits += 1 << i;
        }
    }
    bits
}

// The rows of all net totals below W, by one walk over the units. A row does not wait for the due number that the scan leads to.
fn fill(weights: [u32; PARTNERS], sum: u32, table: &mut [u16])
    requires weighed { Weighed weights sum }
    requires sum_in_bounds { sum ≤ length table.old }
    ensures { table.new ≡ filled 0 (mask weights) sum table.old }
{
    let mut held = [0; PARTNERS];
    let mut due = due_numbers(weights, sum, held);
    for n in 0..sum {
        let p = first_due(weights, sum, held, due, n + 1);
        prove!(p < PARTNERS);
        table[n as usize] = row(weights, sum, held, n);
        let units = held[p] + 1;
        held[p] = units;
        due[p] = due_number(weights[p], sum, units);
    }
}

// The two tests of the sum are those of running's own totals; to share them would make a private function of `running` public.
// The cycle's rows in the first W places of a lent table. Where the weights break their rule, or the table has fewer places than W,
// nothing is written.
pub fn fill_cycle(weights: [u32; PARTNERS], table: &mut [u16])
    ensures { table.new ≡ cycle_in weights table.old }
{
    let sum = sum_from(weights, 0);
    if sum < 1 {
        return;
    }
    if WEIGHT_SUM < sum {
        return;
    }
    if (table.len() as u64) < sum {
        return;
    }
    fill(weights, sum as u32, table);
}
