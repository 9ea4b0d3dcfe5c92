// Morskebab for C: every public function of the base under the prefix `mkb_`. The structs that cross, what is passed on of the numbers that C
// gives, and the flattened answers are those of `flat`.
#![tactic(auto)]

mod amounts;
mod books;
mod days;
mod prices;
mod reasons;
mod rows;
mod runs;
mod shares;
mod statements;
mod tables;
mod texts;
mod versions;
mod views;

pub use amounts::{
    mkb_convert, mkb_convert_by, mkb_currency, mkb_negate, mkb_order, mkb_rescale, mkb_round,
    mkb_sum,
};
pub use books::{mkb_new_card, mkb_open, mkb_post, mkb_refund, mkb_running_totals};
pub use days::{mkb_date_exists, mkb_day_count, mkb_interest};
pub use prices::{mkb_net_for, mkb_tax_from_gross, mkb_tax_from_net};
pub use reasons::{mkb_check_any, mkb_reasoned_at, mkb_write_reasons};
pub use rows::{mkb_export, mkb_row};
pub use runs::mkb_run;
pub use shares::{mkb_share, mkb_vouchers};
pub use statements::{mkb_check_statement, mkb_write_statement};
pub use tables::mkb_compound;
pub use texts::{mkb_currency_of, mkb_read, mkb_write};
pub use versions::mkb_version;
pub use views::{mkb_first_payout, mkb_payout_at};
