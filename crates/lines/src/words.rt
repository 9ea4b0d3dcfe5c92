// Where lines and words end. Every place is answered, one past the end too: it is its own end.
ghost use Rattle.std.specs.Prelude.{◌≡◌, not, ℕ, Bool, ◌+◌, drop};
ghost use Rattle.lines.specs.Lines.{span, is_space, line_end, word_from};

use crate::Word;

// The first place from at on whose byte doesn't pass, or the end of the text.
fn end_from<F: Fn(u8) -> bool>(text: &[u8], at: usize, stops: F) -> usize
    requires { F.IsAlwaysCallable stops }
    ensures { (passes : ℕ → Bool) → ((b : ℕ) (r : Bool) → F.post stops b r → r ≡ not (passes b)) → result ≡ at + span passes (drop at text.now) }
{
    if text.len() < at {
        return at;
    }
    let rest = &text[at..];
    at + rest.iter().position(|b| stops(*b)).unwrap_or(rest.len())
}

// Where the line that starts at a place ends: at its newline, or at the end of the text.
#[tactic(auto, unfolding(crate::specs::Lines::line_end))]
pub fn line_end(text: &[u8], at: usize) -> usize
    ensures { result ≡ line_end text.now at }
{
    end_from(text, at, |b| b == b'\n')
}

// The first place from at on that holds no space.
fn spaces_end(line: &[u8], at: usize) -> usize
    ensures { result ≡ at + span is_space (drop at line.now) }
{
    end_from(line, at, |b| b != b' ')
}

// The first place from at on that holds a space, or the end of the line.
fn unspaced_end(line: &[u8], at: usize) -> usize
    ensures { result ≡ at + span (λ b. not (is_space b)) (drop at line.now) }
{
    end_from(line, at, |b| b == b' ')
}

// The first word from a place on; an empty one where there is none.
#[tactic(auto, unfolding(crate::specs::Lines::word_from))]
pub fn word_from(line: &[u8], at: usize) -> Word
    ensures { result ≡ word_from line.now at }
{
    let start = spaces_end(line, at);
    let end = unspaced_end(line, start);
    Word { start, end }
}
