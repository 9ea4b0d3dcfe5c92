// Views of a statement: readers that keep hold of the statement's bytes and of their place among them, thin above the walk on plain bytes and a
// place. Each function over one takes it apart and calls one on the bytes and the numbers. `View` reads version 1, `AnyView` both versions.
#![tactic(auto)]

ghost use Rattle.std.specs.Prelude.{◌≡◌, ◌-◌, length};
ghost use Rattle.std.specs.Iterator.{at_most};
ghost use Rattle.refusal.specs.Rows.{means};
ghost use Rattle.statement.specs.declared.Version.TheVariants.{Plain};
ghost use Rattle.statement.specs.Walking.{step_at, place_after, any_step_at, any_place_after};
ghost use Rattle.view.specs.Opening.{open_said, open_any_said};

use refusal::Refusal;
use statement::{
    Payout, Reasoned, any_place_after, any_step_at, check, check_any, place_after, step_at,
};

// The statement's bytes, and the place of the record that comes next.
#[derive(Clone, Copy)]
pub struct View<'a> {
    pub bytes: &'a [u8],
    pub at: usize,
}

// Where a view of these bytes begins, or refusal 17 or 14.
pub fn open_at(bytes: &[u8]) -> Result<usize, Refusal>
    ensures { means result ≡ open_said bytes.now }
{
    let summary = check(bytes)?;
    Ok(summary.first)
}

// A view of the bytes whose next record is at a place.
pub fn new<'a>(bytes: &'a [u8], at: usize) -> View<'a>
    ensures { (result.bytes ≡ bytes.entry) × (result.at ≡ at) }
{
    View { bytes, at }
}

// The record that comes next, or none behind the last.
pub fn next<'a>(view: View<'a>) -> Option<Payout>
    ensures { result ≡ step_at view.entry.bytes.now view.entry.at }
{
    step_at(view.bytes, view.at)
}

// The view behind that record; one that has ended stays where it is.
pub fn onward<'a>(view: View<'a>) -> View<'a>
    ensures { (result.bytes ≡ view.entry.bytes) × (result.at ≡ place_after Plain view.entry.bytes.now view.entry.at) }
{
    View {
        at: place_after(view.bytes, view.at),
        ..view
    }
}

// A view is walked as any iterator: it gives its records in file order, and then none.
impl<'a> Iterator for View<'a> {
    type Item = Payout;

    ghost next_gives = { λ s r t. (r ≡ step_at s.bytes.now s.at) × (t.bytes ≡ s.bytes) × (t.at ≡ place_after Plain s.bytes.now s.at) };

    ghost remaining = { λ s. at_most (length s.bytes.now - s.at) };

    #[tactic(auto, unfolding(statement::specs::Walking::step_at, statement::specs::Walking::place_after))]
    fn next(&mut self) -> Option<Payout> {
        let payout = step_at(self.bytes, self.at);
        self.at = place_after(self.bytes, self.at);
        payout
    }
}

// The record at a place, by a view that is made for it: whoever calls this one lends plain bytes.
pub fn read_at(bytes: &[u8], at: usize) -> Option<Payout>
    ensures { result ≡ step_at bytes.now at }
{
    next(new(bytes, at))
}

// The statement's bytes, its version, and the place of the record that comes next.
// Not one type with `View`: their records differ, and a trait over both would be longer than these functions of one line.
#[derive(Clone, Copy)]
pub struct AnyView<'a> {
    pub bytes: &'a [u8],
    pub version: u16,
    pub at: usize,
}

// The version of these bytes and where a view of them begins, or refusal 14.
pub fn open_any_at(bytes: &[u8]) -> Result<(u16, usize), Refusal>
    ensures { means result ≡ open_any_said bytes.now }
{
    let found = check_any(bytes)?;
    Ok((found.version, found.summary.first))
}

// A view of the bytes, by their version, whose next record is at a place.
pub fn new_any<'a>(bytes: &'a [u8], version: u16, at: usize) -> AnyView<'a>
    ensures { (result.bytes ≡ bytes.entry) × (result.version ≡ version) × (result.at ≡ at) }
{
    AnyView { bytes, version, at }
}

// The record that comes next, or none behind the last.
pub fn next_any<'a>(view: AnyView<'a>) -> Option<Reasoned>
    ensures { result ≡ any_step_at view.entry.bytes.now view.entry.version view.entry.at }
{
    any_step_at(view.bytes, view.version, view.at)
}

// The view behind that record; one that has ended stays where it is.
pub fn onward_any<'a>(view: AnyView<'a>) -> AnyView<'a>
    ensures { (result.bytes ≡ view.entry.bytes) × (result.version ≡ view.entry.version) × (result.at ≡ any_place_after view.entry.bytes.now view.entry.version view.entry.at) }
{
    AnyView {
        at: any_place_after(view.bytes, view.version, view.at),
        ..view
    }
}

impl<'a> Iterator for AnyView<'a> {
    type Item = Reasoned;

    ghost next_gives = { λ s r t. (r ≡ any_step_at s.bytes.now s.version s.at) × (t.bytes ≡ s.bytes) × (t.version ≡ s.version) × (t.at ≡ any_place_after s.bytes.now s.version s.at) };

    ghost remaining = { λ s. at_most (length s.bytes.now - s.at) };

    #[tactic(auto, unfolding(statement::specs::Walking::any_step_at, statement::specs::Walking::any_step, statement::specs::Walking::any_place_after, statement::specs::Walking::place_after))]
    fn next(&mut self) -> Option<Reasoned> {
        let reasoned = any_step_at(self.bytes, self.version, self.at);
        self.at = any_place_after(self.bytes, self.version, self.at);
        reasoned
    }
}

// The record at a place, by a view that is made for it: whoever calls this one lends plain bytes.
pub fn read_any_at(bytes: &[u8], version: u16, at: usize) -> Option<Reasoned>
    ensures { result ≡ any_step_at bytes.now version at }
{
    next_any(new_any(bytes, version, at))
}
