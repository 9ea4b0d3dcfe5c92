// Bytes that are kept when more come.
ghost use Rattle.std.specs.Prelude.{◌≡◌};
ghost use Rattle.intake.specs.Keeping.{kept_count, kept_of};

// Moves the bytes from one place up to another to the front, and answers how many they are. The bytes behind them stay.
#[tactic(auto, using(crate::proofs::Kept::kept_is))]
pub fn keep(text: &mut [u8], from: usize, to: usize) -> usize
    ensures count { result ≡ kept_count text.old from to }
    ensures kept { text.new ≡ kept_of text.old from to }
{
    let end = to.min(text.len());
    let start = from.min(end);
    text.copy_within(start..end, 0);
    end - start
}
