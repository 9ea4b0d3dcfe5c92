// The output: bytes wait on a page, and are written where there is no room for more and at the end.
ghost use Rattle.std.specs.Prelude.{◌≡◌, true, false, ◌+◌, ◌≤◌, ◌<◌, length};

use crate::Output;
use crate::said::say_failed;
use page::Page;

impl<'a> Output<'a> {
    // Nothing waits in the buffer yet.
    pub fn new(bytes: &'a mut [u8]) -> Output<'a>
        ensures bytes { result.page.bytes ≡ bytes.entry }
        ensures at { result.page.at ≡ 0 }
        ensures failed { result.failed ≡ false }
    {
        Output {
            page: Page::new(bytes),
            failed: false,
        }
    }

    // Writes the bytes that wait, so that none does. A place past the buffer is one up to which nothing was put, and nothing is written.
    pub fn write_out(&mut self, rt: &(impl Print + Eprint))
        ensures bytes { self.new.page.bytes.now ≡ self.old.page.bytes.now }
        ensures at { self.new.page.at ≡ 0 }
        ensures past { length self.old.page.bytes.now < self.old.page.at → self.new.failed ≡ true }
    {
        if self.page.bytes.len() < self.page.at {
            self.failed = true;
        } else if let Err(error) = rt.write_all(self.page.text()) {
            say_failed(rt, "write", error);
            self.failed = true;
        }
        self.page.at = 0;
    }

    // Makes room for so many bytes more, where the buffer has it: where too little is left, those that wait are written.
    pub fn make_room(&mut self, rt: &(impl Print + Eprint), room: usize)
        ensures bytes { self.new.page.bytes.now ≡ self.old.page.bytes.now }
        ensures room { room ≤ length self.old.page.bytes.now → self.new.page.at + room ≤ length self.old.page.bytes.now }
    {
        let at = self.page.at;
        if at <= self.page.bytes.len() {
            if room <= self.page.bytes.len() - at {
                return;
            }
        }
        self.write_out(rt);
    }
}
