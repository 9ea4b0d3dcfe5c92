// The numbers of a line as lists of the types that calls take, as many as a lent list has places for.
ghost use Rattle.std.specs.Prelude.{◌≡◌, ℕ};
ghost use Rattle.lines.specs.declared.Number.{Number};
ghost use Rattle.intake.specs.Numbers.{nth, unsigned_at, signed_at, listed_count, listed};

use crate::numbers::nth;
use lines::Number;

// The numbers from one place up to another, each as it is taken, as many as there is room for; how many they are.
fn read_list<T: Copy, F: Fn(Number) -> T>(
    numbers: &[Number],
    from: usize,
    to: usize,
    list: &mut [T],
    take: F,
) -> usize
    requires { F.IsAlwaysCallable take }
    ensures count { result ≡ listed_count from to list.old }
    ensures list { (taken : Number → T) → ((n : Number) (r : T) → F.post take n r → r ≡ taken n) → list.new ≡ listed (λ k. taken (nth numbers.now k)) from to list.old }
{
    let count = to.saturating_sub(from).min(list.len());
    for i in 0..count {
        list[i] = take(nth(numbers, from + i));
    }
    count
}

pub fn read_weights(numbers: &[Number], from: usize, to: usize, weights: &mut [u32]) -> usize
    ensures count { result ≡ listed_count from to weights.old }
    ensures weights { weights.new ≡ listed (unsigned_at 4294967295 numbers.now) from to weights.old }
{
    read_list(numbers, from, to, weights, |number| number.as_u32())
}

// The same as partners' places.
pub fn read_places(numbers: &[Number], from: usize, to: usize, places: &mut [u16]) -> usize
    ensures count { result ≡ listed_count from to places.old }
    ensures places { places.new ≡ listed (unsigned_at 65535 numbers.now) from to places.old }
{
    read_list(numbers, from, to, places, |number| number.as_u16())
}

// The same as coefficients.
pub fn read_coefficients(
    numbers: &[Number],
    from: usize,
    to: usize,
    coefficients: &mut [i64],
) -> usize
    ensures count { result ≡ listed_count from to coefficients.old }
    ensures coefficients { coefficients.new ≡ listed (signed_at numbers.now) from to coefficients.old }
{
    read_list(numbers, from, to, coefficients, |number| number.as_i64())
}
