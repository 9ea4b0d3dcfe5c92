// The first word of a line that is too long to hold: what is known of it after each byte, so that the bytes may be dropped.
ghost use Rattle.std.specs.Prelude.{◌≡◌};
ghost use Rattle.intake.specs.Leads.{lead_after, lead_of, is_open};

use crate::Lead;

// What is known after one byte more: the word goes on with the byte that is wanted, or it is another.
fn lead_after(lead: Lead, byte: u8) -> Lead
    ensures { result ≡ lead_after lead byte }
{
    match (lead, byte) {
        (Lead::Spaces, b' ') => Lead::Spaces,
        (Lead::Spaces, b'o') => Lead::O,
        (Lead::O, b'p') => Lead::Op,
        (Lead::Op, b'e') => Lead::Ope,
        (Lead::Ope, b'n') => Lead::Open,
        (Lead::Spaces, b'c') => Lead::C,
        (Lead::C, b'a') => Lead::Ca,
        (Lead::Ca, b'r') => Lead::Car,
        (Lead::Car, b'd') => Lead::Open,
        (Lead::Open, b' ') => Lead::OpenSpace,
        (Lead::Open, b'\r') => Lead::OpenReturn,
        (Lead::OpenSpace, _) => Lead::OpenSpace,
        _ => Lead::Other,
    }
}

// What is known after more bytes of the line.
pub fn lead_of(known: Lead, bytes: &[u8]) -> Lead
    ensures { result ≡ lead_of known bytes.now }
{
    bytes
        .iter()
        .fold(known, |lead, byte| lead_after(lead, *byte))
}

// Whether the first word of a line is `open` or `card`, where this is known of it at its end.
pub fn is_open(lead: Lead) -> bool
    ensures { result ≡ is_open lead }
{
    matches!(lead, Lead::Open | Lead::OpenSpace | Lead::OpenReturn)
}
