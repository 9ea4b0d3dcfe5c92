// The static library: what `morskebab` has, exported to C under the same names.
#![tactic(auto)]

mod amounts;
mod books;
mod days;
mod prices;
mod reasons;
mod rows;
mod runs;
mod shares;
mod statements;
mod tables;
mod texts;
mod versions;
mod views;
