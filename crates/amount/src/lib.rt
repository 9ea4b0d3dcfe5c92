// Decimal amounts.
#![tactic(auto)]

use currency::Currency;
use refusal::Refusal;

mod checks;
mod ordering;
mod rescale;
mod sum;

// Its worth is coefficient / 10^scale.
#[derive(Clone, Copy)]
pub struct Amount {
    pub currency: Currency,
    pub scale: u8,
    pub coefficient: i64,
}

impl Amount {
    // The largest magnitude of a coefficient.
    pub const L: u64 = 999_999_999_999_999;
    // The largest scale.
    pub const SCALE: u8 = 6;
}

pub use checks::{check_one, within};
