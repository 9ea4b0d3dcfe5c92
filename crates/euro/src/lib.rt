// Conversion at the fixed rates of the euro: Council Regulation (EC) No 1103/97, articles 4 and 5.
#![tactic(auto)]

mod conversion;

pub use conversion::{convert, convert_by};
