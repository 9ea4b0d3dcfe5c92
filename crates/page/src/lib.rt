// A page of text that is put together in a lent buffer: each piece goes behind the ones before it, where there is room for all of it.
#![tactic(auto)]

ghost use Rattle.std.specs.Prelude.{◌≡◌, take, false};
ghost use Rattle.lines.specs.Texts.{text_of};
ghost use Rattle.page.specs.Pages.{put_on, put_named};

use lines::{put_bytes, put_number};

// A buffer, and the place behind the text that stands in it.
#[derive(Drop)]
pub struct Page<'a> {
    pub bytes: &'a mut [u8],
    pub at: usize,
}

impl<'a> Page<'a> {
    // Nothing stands on it yet.
    pub fn new(bytes: &'a mut [u8]) -> Page<'a>
        ensures bytes { result.bytes ≡ bytes.entry }
        ensures at { result.at ≡ 0 }
    {
        Page { bytes, at: 0 }
    }

    // Puts the bytes behind what stands there; where there is no room for all of them, none.
    pub fn put(&mut self, text: &[u8])
        ensures { (self.new.bytes.now, self.new.at) ≡ put_on self.old.bytes.now self.old.at text.now }
    {
        self.at = put_bytes(self.bytes, self.at, text);
    }

    // Puts a number in decimal, a minus before it where it is below 0.
    pub fn put_number(&mut self, negative: bool, magnitude: u64)
        ensures { (self.new.bytes.now, self.new.at) ≡ put_on self.old.bytes.now self.old.at (text_of negative magnitude) }
    {
        self.at = put_number(self.bytes, self.at, negative, magnitude);
    }

    // Puts words, and a number behind them.
    pub fn put_named(&mut self, words: &[u8], n: u64)
        ensures { (self.new.bytes.now, self.new.at) ≡ put_named self.old.bytes.now self.old.at words.now (text_of false n) }
    {
        self.put(words);
        self.put_number(false, n);
    }

    // What stands on it.
    pub fn text(&self) -> &[u8]
        ensures { result.now ≡ take self.now.at self.now.bytes.now }
    {
        self.bytes.get(..self.at).unwrap_or(self.bytes)
    }
}
