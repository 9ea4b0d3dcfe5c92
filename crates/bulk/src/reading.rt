// The running totals read off a table of one cycle.
ghost use Rattle.std.specs.Prelude.{◌≡◌, ◌≤◌};
ghost use Rattle.amount.specs.Amounts.{largest};
ghost use Rattle.units.specs.Rule.{totals};
ghost use Rattle.cycle.specs.Cycle.{Weighed, Cycled};

use book::Book;

// 2 ^ 40, above W x W x W: so a x w / W is a x (SCALE / W + 1) x w / SCALE for every a and w up to W, and sixteen shares take one division.
const SCALE: u64 = 1_099_511_627_776;

// The running totals at n: the whole cycles, the share of what is left rounded down, and the row's bit.
pub(crate) fn totals_by(
    weights: [u32; Book::PARTNERS],
    sum: u64,
    table: &[u16],
    n: u64,
) -> [u64; Book::PARTNERS]
    requires weighed { Weighed weights sum }
    requires cycled { Cycled weights sum table.now }
    requires n_le_largest { n ≤ largest }
    ensures { result ≡ totals weights n }
{
    let cycles = n / sum;
    let left = n % sum;
    let share = left * (SCALE / sum + 1);
    let mut bits = u64::from(table[left as usize]);
    let mut held: [u64; Book::PARTNERS] = [0; Book::PARTNERS];
    for (i, weight) in weights.iter().enumerate() {
        let weight = u64::from(*weight);
        held[i] = cycles * weight + share * weight / SCALE + bits % 2;
        bits /= 2;
    }
    held
}
