// A word of hexadecimal digits as bytes.
ghost use Rattle.std.specs.Prelude.{◌≡◌, ◌+◌, ◌*◌, ◌≤◌, ◌<◌, length};
ghost use Rattle.lines.specs.Lines.{span};
ghost use Rattle.lines.specs.Texts.{put_at};
ghost use Rattle.hexadecimal.specs.Hexadecimal.{worth_of, digit_in, is_digit, bytes_of, is_dash, is_pairs, decoded_of, list_after, count_in};

// The worth of a digit, capitals too.
#[tactic(auto, unfolding(crate::specs::Hexadecimal::worth_of))]
fn worth_of(byte: u8) -> Option<u8>
    ensures { result ≡ digit_in byte }
{
    match byte {
        b'0'..=b'9' => Some(byte - b'0'),
        b'A'..=b'F' => Some(byte - b'A' + 10),
        b'a'..=b'f' => Some(byte - b'a' + 10),
        _ => None,
    }
}

// Whether a word has digits alone, two or four and so on.
#[tactic(auto, unfolding(crate::specs::Hexadecimal::is_pairs))]
fn is_pairs(word: &[u8]) -> bool
    ensures { result ≡ is_pairs word.now }
{
    if word.is_empty() {
        return false;
    }
    if word.len() % 2 != 0 {
        return false;
    }
    word.iter().all(|byte| worth_of(*byte).is_some())
}

#[tactic(auto, unfolding(crate::specs::Hexadecimal::is_dash))]
fn is_dash(word: &[u8]) -> bool
    ensures { result ≡ is_dash word.now }
{
    matches!(word, [b'-'])
}

// The byte of two digits.
fn byte_of(high: u8, low: u8) -> u8
    requires { (worth_of high < 16) × (worth_of low < 16) }
    ensures { result ≡ worth_of high * 16 + worth_of low }
{
    worth_of(high).unwrap() * 16 + worth_of(low).unwrap()
}

// The bytes of a word's digits to the front of the list.
fn fill(word: &[u8], bytes: &mut [u8], count: usize)
    requires { (length word.now ≡ count * 2) × (count ≤ length bytes.old) × (span is_digit word.now ≡ length word.now) }
    ensures { bytes.new ≡ put_at bytes.old 0 (bytes_of word.now) }
{
    for i in 0..count {
        bytes[i] = byte_of(word[i * 2], word[i * 2 + 1]);
    }
}

// The bytes of a word's digits to the front of a list, and how many they are; `-` has none. Where the word is no such word, or the list has too few
// places, nothing, and every place of the list stays.
pub fn read_hex(word: &[u8], bytes: &mut [u8]) -> Option<usize>
    ensures said { result ≡ decoded_of (length bytes.old) word.now }
    ensures list { bytes.new ≡ list_after bytes.old word.now }
    ensures within { count_in result ≤ length bytes.old }
{
    if is_dash(word) {
        return Some(0);
    }
    if !is_pairs(word) {
        return None;
    }
    let count = word.len() / 2;
    if bytes.len() < count {
        return None;
    }
    fill(word, bytes, count);
    Some(count)
}
