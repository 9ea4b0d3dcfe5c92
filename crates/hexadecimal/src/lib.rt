// Bytes in hexadecimal digits, two to a byte: a word of digits read into a lent list, and bytes put as digits.
#![tactic(auto)]

mod putting;
mod reading;

pub use putting::put_hex;
pub use reading::read_hex;
