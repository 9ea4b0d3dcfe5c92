// Rounding: seven rules over one quotient of magnitudes, and the plain quotient over them.
#![tactic(auto)]

use refusal::Refusal;

mod leaf;
mod modes;
mod plain;
mod product;

// The seven rules, in the order of their mode numbers.
#[derive(Clone, Copy)]
pub enum Rule {
    // away from zero
    Up,
    // toward zero
    Down,
    // toward the greater number
    Ceiling,
    // toward the lesser number
    Floor,
    // to the nearest, a half away from zero
    HalfUp,
    // to the nearest, a half toward zero
    HalfDown,
    // to the nearest, a half to the even number
    HalfEven,
}

// The rest of a division against the half of its divisor.
#[derive(Clone, Copy)]
pub enum Rest {
    Exact,
    Below,
    Half,
    Above,
}

pub use leaf::round;
pub use modes::rises;
pub use plain::plain_quotient;
pub use product::{round_half_up, round_product};
