// A run of postings and refunds on one book, served one after the other.
#![tactic(auto)]

use book::Book;
use refusal::Refusal;

mod reading;
mod serving;
mod tabled;
mod turns;

// The answer of a run: the last book and how many calls were served; where the run is refused, the given book and none.
// No Result<_, Refusal>: the promise `Serves` has the book of a refused run too.
#[derive(Clone, Copy)]
pub struct Ran {
    pub outcome: Result<(), Refusal>,
    pub book: Book,
    pub served: usize,
}

pub use serving::run;
