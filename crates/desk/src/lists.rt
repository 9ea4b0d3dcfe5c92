// The calls of document 02 that write a lent list: all its places are put, so that one that should have stayed is seen.
ghost use Rattle.std.specs.Prelude.{◌≤◌};

use crate::answers::put_list;
use crate::hearing::u64_at;
use amount::Amount;
use compound::compound;
use intake::{nth, read_weights};
use lines::Number;
use page::Page;
use refusal::Refusal;
use vouchers::vouchers;
use weights::MOST_WEIGHTS;

// The places of the lent lists at most, and what each holds before.
const ROWS: usize = 128;

const ROW_BEFORE: i64 = -7;

const PLACES: usize = 80;

const PLACE_BEFORE: u32 = 77;

// One weight more than the library takes, which it refuses.
pub(crate) const WEIGHTS: usize = MOST_WEIGHTS + 1;

// The places that a line asks for: one over the limit, or below 0, is the limit.
pub(crate) fn room_at(numbers: &[Number], place: usize, most: usize) -> usize
    ensures { result ≤ most }
{
    u64_at(numbers, place).min(most as u64) as usize
}

// The table into the first places of the list, and all of these.
pub(crate) fn put_compound(
    principal: Amount,
    scale: Option<u8>,
    numbers: &[Number],
    page: &mut Page,
) -> Result<(), Refusal> {
    let rate = nth(numbers, 3).as_u32();
    let periods = nth(numbers, 4).as_u32();
    let room = room_at(numbers, 5, ROWS);
    let mut rows = [ROW_BEFORE; ROWS];
    compound(principal, rate, periods, &mut rows[..room])?;
    page.put(b"=");
    put_list(page, scale, &rows, room);
    Ok(())
}

// The vouchers of the numbers behind the room into the first places of the list, and all of these.
pub(crate) fn put_vouchers(numbers: &[Number], page: &mut Page) -> Result<(), Refusal> {
    let room = room_at(numbers, 1, PLACES);
    let mut weights = [0u32; WEIGHTS];
    let partners = read_weights(numbers, 2, numbers.len(), &mut weights);
    let mut held = [PLACE_BEFORE; PLACES];
    vouchers(
        nth(numbers, 0).as_u32(),
        &weights[..partners],
        &mut held[..room],
    )?;
    page.put(b"=");
    for n in &held[..room] {
        page.put_named(b" ", u64::from(*n));
    }
    Ok(())
}
