// The input read on: the bytes that are not read yet move to the front of their buffer, and more come behind them.
ghost use Rattle.std.specs.Prelude.{◌≡◌, ◌≤◌, length, take};
ghost use Rattle.intake.specs.Bounds.{Within};
ghost use Rattle.intake.specs.Cuts.{cut_of};
ghost use Rattle.console.specs.Feeds.{first_feed};

use crate::Feed;
use crate::said::say_failed;
use intake::{Cut, Intake, Mark, keep, mark_of, next_line};
use std::io::Read;

// The bytes of a byte order mark.
const MARK: usize = 3;

// Nothing is read yet.
pub fn first_feed() -> Feed
    ensures { result ≡ first_feed }
{
    let intake = Intake {
        from: 0,
        skipping: false,
        ended: false,
    };
    Feed {
        held: 0,
        intake,
        begun: false,
        failed: false,
    }
}

// What the bytes held begin with from where reading stands.
pub fn next_cut(text: &[u8], feed: Feed) -> Cut
    ensures said { result ≡ cut_of (take feed.held text.now) feed.intake }
    ensures within { Within (length (take feed.held text.now)) result }
    ensures inside { (result.start ≤ result.end) × (result.end ≤ length text.now) }
{
    let held = feed.held;
    let intake = feed.intake;
    if text.len() < held {
        return next_line(text, intake);
    }
    next_line(&text[0..held], intake)
}

// Reading failed: a line that was not read to its end is no line, and no more will come.
fn failed_feed() -> Feed
    ensures { result.held ≡ 0 }
{
    let intake = Intake {
        from: 0,
        skipping: false,
        ended: true,
    };
    Feed {
        held: 0,
        intake,
        begun: true,
        failed: true,
    }
}

// So many bytes are held; at the very beginning of the input a byte order mark is passed over.
fn begin(text: &[u8], feed: Feed, held: usize, ended: bool) -> Feed
    requires { held ≤ length text.now }
    ensures { result.held ≤ length text.now }
{
    let skipping = feed.intake.skipping;
    let mut from = 0;
    let mut begun = feed.begun;
    if !begun {
        match mark_of(&text[0..held]) {
            Mark::Part => {},
            Mark::Nothing => begun = true,
            Mark::Whole => {
                begun = true;
                from = MARK;
            },
        }
    }
    let intake = Intake {
        from,
        skipping,
        ended,
    };
    Feed {
        held,
        intake,
        begun,
        failed: false,
    }
}

// Reads once behind the bytes that are kept. A buffer that these fill is one that is too small, and nothing is read.
pub fn refill(rt: &impl Eprint, reader: &mut impl Read, feed: Feed, text: &mut [u8]) -> Feed
    ensures { result.held ≤ length text.new }
{
    let from = feed.intake.from;
    let kept = keep(text, from, feed.held);
    if text.len() <= kept {
        return failed_feed();
    }
    let more = match reader.read(&mut text[kept..]) {
        Ok(more) => more,
        Err(error) => {
            say_failed(rt, "read", error);
            return failed_feed();
        },
    };
    begin(text, feed, kept + more, more == 0)
}
