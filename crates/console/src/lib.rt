// What the programs share: their input read on line by line, their output gathered and written, the verbs of their lines, the file that
// their argument names, and their end with a status.
#![tactic(auto)]

use intake::Intake;
use page::Page;

mod feeds;
mod outs;
mod said;
mod starts;
mod streams;
mod verbs;

// The input: how many of its bytes are held in a buffer, and where reading stands in them.
#[derive(Clone, Copy)]
pub struct Feed {
    pub held: usize,
    pub intake: Intake,
    // it is known whether the input begins with a byte order mark
    pub begun: bool,
    // reading failed; what is held then is no line
    pub failed: bool,
}

// The output: a page whose text waits to be written.
#[derive(Drop)]
pub struct Output<'a> {
    pub page: Page<'a>,
    // writing failed
    pub failed: bool,
}

// What a program reads: standard input, or an open file.
#[derive(Drop)]
pub enum Stream<I, F> {
    Standard(I),
    Named(F),
}

// The first word of a line.
#[derive(Clone, Copy)]
pub enum Verb {
    Round,
    Sum,
    Order,
    Negate,
    Rescale,
    Convert,
    Interest,
    TaxNet,
    TaxGross,
    NetFor,
    Row,
    Export,
    Share,
    Vouchers,
    Compound,
    Open,
    Post,
    Refund,
    Totals,
    Card,
    Settled,
    Read,
    Write,
    Statement,
    Check,
    View,
    Reasons,
    CheckAny,
    ViewAny,
    Unknown,
}

// The bytes of a buffer that holds input, or output that waits.
pub const BUFFER: usize = 65_536;

// More bytes than a path has.
pub const PATH: usize = 4_096;

// The statuses of a program's end.
pub const WELL: u8 = 0;

pub const CHECK_FAILED: u8 = 1;

pub const MISUSED: u8 = 2;

pub const FAILED: u8 = 3;

pub const BLEMISHED: u8 = 4;

pub use feeds::{first_feed, next_cut, refill};
pub use said::{say, say_failed};
pub use starts::{end_with, open_first, open_source, path_text, read_path};
pub use verbs::{form_of, same, takes, verb_of};
