// Tax in and out of a price.
#![tactic(auto)]

use amount::Amount;
use refusal::Refusal;

mod accepted;
mod price;

// A price taken apart: gross is net and tax together.
#[derive(Clone, Copy)]
pub struct Split {
    pub net: Amount,
    pub tax: Amount,
    pub gross: Amount,
}

pub use price::{net_for_gross, tax_from_gross, tax_from_net};
