// The refusals of document 01's table.
#![tactic(auto)]

ghost use Rattle.std.specs.Prelude.{◌≡◌};
ghost use Rattle.refusal.specs.Number.{place_of, number_of, blamed_of, number_in, blamed_in};
ghost use Rattle.refusal.specs.Rows.{check_of, rate_rows};

// Which of a call's two dates a refusal blames.
#[derive(Clone, Copy, Debug, PartialEq, Eq)]
pub enum Blamed {
    First,
    Second,
}

// One case for each row of the table, and for those that document 02 adds, by number.
#[derive(Clone, Copy, Debug, PartialEq, Eq)]
pub enum Refusal {
    // 1: the mode isn't 0 to 6
    Mode,
    // 2: a scale is over 6, or isn't the currency's own digits where it must be
    Scale,
    // 3: a given coefficient or net total is over L, or a plain numerator over 10^18
    Magnitude,
    // 4: a currency number is over 20
    Unknown,
    // 5: two currencies that must agree differ
    Differ,
    // 6: a divisor, a rate or the basis is outside its limits
    Rate,
    // 7: a date doesn't exist or its year isn't 1900 to 2199
    Date(Blamed),
    // 8: the end is before the start, or the day count is over 366
    Days,
    // 9: weights break their rule
    Weights,
    // 10: a posting, a refund or a given net total is negative
    Negative,
    // 11: the lent output has fewer places than there are weights
    Room,
    // 12: a refund is greater than the net total
    Refund,
    // 13: the result, the euro step or the new net total is over L
    Limit,
    // 14: a text isn't of its form
    Malformed,
    // 15: no net has the gross
    NoNet,
    // 16: a double is no number or infinite
    NoNumber,
    // 17: a statement is of a newer version than its reader
    Newer,
}

impl Blamed {
    // 1 for the first date, 2 for the second.
    pub fn place(self) -> u8
        ensures { result ≡ place_of self }
    {
        match self {
            Blamed::First => 1,
            Blamed::Second => 2,
        }
    }
}

impl Refusal {
    // The table's last number.
    pub const LAST: u8 = 17;

    // The table's number.
    pub fn number(self) -> u8
        ensures { result ≡ number_of self }
    {
        match self {
            Refusal::Mode => 1,
            Refusal::Scale => 2,
            Refusal::Magnitude => 3,
            Refusal::Unknown => 4,
            Refusal::Differ => 5,
            Refusal::Rate => 6,
            Refusal::Date(_) => 7,
            Refusal::Days => 8,
            Refusal::Weights => 9,
            Refusal::Negative => 10,
            Refusal::Room => 11,
            Refusal::Refund => 12,
            Refusal::Limit => 13,
            Refusal::Malformed => 14,
            Refusal::NoNet => 15,
            Refusal::NoNumber => 16,
            Refusal::Newer => 17,
        }
    }

    // The date that is blamed: 1 the first, 2 the second, 0 where no date is.
    pub fn blamed(self) -> u8
        ensures { result ≡ blamed_of self }
    {
        match self {
            Refusal::Date(date) => date.place(),
            _ => 0,
        }
    }
}

// The number of the refusal in an answer, and 0 where it is a value.
pub fn number_in<T>(answer: &Result<T, Refusal>) -> u8
    ensures { result ≡ number_in answer.now }
{
    match answer {
        Ok(_) => 0,
        Err(refusal) => refusal.number(),
    }
}

// The date that is blamed in an answer: 1 the first, 2 the second, 0 where no date is.
pub fn blamed_in<T>(answer: &Result<T, Refusal>) -> u8
    ensures { result ≡ blamed_in answer.now }
{
    match answer {
        Ok(_) => 0,
        Err(refusal) => refusal.blamed(),
    }
}

// Row 6 at a rate, or at another number that has a limit.
pub fn check_rate(rate: u32, most: u32) -> Result<(), Refusal>
    ensures { result ≡ check_of (rate_rows most rate) }
{
    if most < rate {
        Err(Refusal::Rate)
    } else {
        Ok(())
    }
}
