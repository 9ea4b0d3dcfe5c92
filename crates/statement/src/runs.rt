// What a run is refused for.
ghost use Rattle.std.specs.Prelude.{◌≡◌};
ghost use Rattle.refusal.specs.Rows.{check_of};
ghost use Rattle.statement.specs.Writing.{any_over, any_past};
ghost use Rattle.statement.specs.Parts.{uneven_of, far_of, rows_of};

use crate::{PLACE, REASON, RECORDS, TRAILER, Version};
use amount::Amount;
use currency::Currency;
use refusal::Refusal;
use whole::magnitude;

// A run of payouts: a place, a coefficient and, in version 2, a reason code for each.
#[derive(Clone, Copy)]
pub(crate) struct Run<'a> {
    pub(crate) currency: Currency,
    pub(crate) places: &'a [u16],
    pub(crate) codes: &'a [u16],
    pub(crate) coefficients: &'a [i64],
}

// Whether a coefficient is over L.
fn any_over(coefficients: &[i64]) -> bool
    ensures { result ≡ any_over coefficients.now }
{
    coefficients
        .iter()
        .any(|coefficient| Amount::L < magnitude(*coefficient))
}

// Whether a number of a list is over the last.
fn any_past(last: u16, numbers: &[u16]) -> bool
    ensures { result ≡ any_past last numbers.now }
{
    numbers.iter().any(|number| last < *number)
}

impl Run<'_> {
    // Whether the lists are of unequal length.
    fn is_uneven(self, version: Version) -> bool
        ensures { result ≡ uneven_of version self.entry.places.now self.entry.codes.now self.entry.coefficients.now }
    {
        let count = self.places.len();
        match version {
            Version::Plain => count != self.coefficients.len(),
            Version::Reasons => count != self.coefficients.len() || count != self.codes.len(),
        }
    }

    // Whether a place or a code is over its last.
    fn is_far(self, version: Version) -> bool
        ensures { result ≡ far_of version self.entry.places.now self.entry.codes.now }
    {
        match version {
            Version::Plain => any_past(PLACE, self.places),
            Version::Reasons => any_past(PLACE, self.places) || any_past(REASON, self.codes),
        }
    }

    // Rows 3, 4, 9 and 11: the first that holds for the run, a buffer's length and the start in it.
    pub(crate) fn check(self, version: Version, room: usize, start: usize) -> Result<(), Refusal>
        ensures { result ≡ check_of (rows_of version self.entry.currency self.entry.places.now self.entry.codes.now self.entry.coefficients.now room start) }
    {
        if any_over(self.coefficients) {
            return Err(Refusal::Magnitude);
        }
        if Currency::LAST < self.currency.0 {
            return Err(Refusal::Unknown);
        }
        if self.is_uneven(version) {
            return Err(Refusal::Weights);
        }
        if self.is_far(version) {
            return Err(Refusal::Weights);
        }
        if RECORDS < self.places.len() {
            return Err(Refusal::Room);
        }
        if room < start {
            return Err(Refusal::Room);
        }
        if room - start < version.width() * self.places.len() + TRAILER {
            return Err(Refusal::Room);
        }
        Ok(())
    }
}
