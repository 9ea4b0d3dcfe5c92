// Amounts as ASCII text, read and written, and currencies by their codes.
#![tactic(auto)]

mod codes;
mod putting;
mod reading;
mod writing;

pub use codes::currency_of;
pub use putting::put_text;
pub use reading::read;
pub use writing::write;
