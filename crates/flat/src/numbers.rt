// Numbers that C gives, passed on in a type that may be too small for them: what it can't hold becomes its largest value, which is past every
// limit that document 01 sets.
ghost use Rattle.std.specs.Prelude.{◌≡◌};
ghost use Rattle.flat.specs.Given.{passed, passed8, passed16, passed32, passed64};

use whole::{is_negative, magnitude};

// The number as an unsigned type with this largest value holds it: the largest where it can't.
fn pass(largest: u64, n: i64) -> u64
    ensures { result ≡ passed largest n }
{
    if is_negative(n) {
        return largest;
    }
    let m = magnitude(n);
    if largest < m { largest } else { m }
}

pub fn pass_u8(n: i64) -> u8
    ensures { result ≡ passed8 n }
{
    pass(255, n) as u8
}

pub fn pass_u16(n: i64) -> u16
    ensures { result ≡ passed16 n }
{
    pass(65_535, n) as u16
}

pub fn pass_u32(n: i64) -> u32
    ensures { result ≡ passed32 n }
{
    pass(4_294_967_295, n) as u32
}

pub fn pass_u64(n: i64) -> u64
    ensures { result ≡ passed64 n }
{
    pass(18_446_744_073_709_551_615, n)
}
