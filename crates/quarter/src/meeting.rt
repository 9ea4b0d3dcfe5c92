// The next line of the bytes that are held.
ghost use Rattle.std.specs.Prelude.{◌≡◌, ◌≤◌, length};
ghost use Rattle.quarter.specs.Meeting.{long_asked, met_at, reading_of};

use crate::asking::asked_of;
use crate::{Asked, Next, Reading};
use console::{Feed, next_cut};
use intake::{Cut, Found, Lead, is_open, lead_of};

// A line of over 4,000 bytes is not understood, whatever it holds; but its first word may be `open` or `card`.
fn asked_by_long(lead: Lead) -> Asked
    ensures { result ≡ long_asked lead }
{
    if is_open(lead) {
        Asked::Astray
    } else {
        Asked::Unknown
    }
}

// Reading stands behind what was found.
fn met_at(feed: Feed, cut: Cut, lead: Lead, next: Next) -> Reading
    ensures { result ≡ met_at feed cut lead next }
{
    Reading {
        feed: Feed {
            intake: cut.next,
            ..feed
        },
        lead,
        start: cut.start,
        end: cut.end,
        unended: cut.unended,
        next,
    }
}

// What the bytes held begin with. Bytes of a line that is too long are looked at before they are dropped.
#[tactic(auto, unfolding(crate::specs::Meeting::reading_of))]
pub fn read_line(text: &[u8], feed: Feed, lead: Lead) -> Reading
    ensures said { result ≡ reading_of text.now feed lead }
    ensures inside { (result.start ≤ result.end) × (result.end ≤ length text.now) }
{
    let cut = next_cut(text, feed);
    let bytes = &text[cut.start..cut.end];
    match cut.found {
        Found::Line => met_at(feed, cut, Lead::Spaces, Next::Line(asked_of(bytes))),
        Found::Long => {
            let asked = asked_by_long(lead_of(lead, bytes));
            met_at(feed, cut, Lead::Spaces, Next::Line(asked))
        },
        Found::More => {
            let known = if cut.next.skipping {
                lead_of(lead, bytes)
            } else {
                lead
            };
            met_at(feed, cut, known, Next::More)
        },
        Found::Nothing => met_at(feed, cut, lead, Next::End),
    }
}
