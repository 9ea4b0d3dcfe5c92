// What a program says on standard error. That it can't be said there is no error.
use std::io::Error;
use std::str::from_utf8;

// Says the words, where they are text.
pub fn say(rt: &impl Eprint, words: &[u8]) {
    if let Ok(text) = from_utf8(words) {
        let _ = rt.eprint(text);
    }
}

// Says what failed, and why.
pub fn say_failed(rt: &impl Eprint, what: &str, error: Error) {
    let _ = eprintln!(rt; "{what}: {error}");
}
