// The words that a line may begin with, and how many numbers stand behind each.
ghost use Rattle.std.specs.Prelude.{◌≡◌};
ghost use Rattle.console.specs.Verbs.{same_bytes, of_four, of_five, of_six, of_seven, of_eight, of_others, verb_of, form_of, takes_of};

use crate::Verb;
use spoken::{Form, Kind};

// Whether two words are the same.
pub fn same(word: &[u8], other: &[u8]) -> bool
    ensures { result ≡ same_bytes word.now other.now }
{
    word == other
}

// Each word is compared by itself: of words of six letters and more the proof of one match of patterns did not close.
fn of_four(word: &[u8]) -> Verb
    ensures { result ≡ of_four word.now }
{
    if same(word, b"post") {
        return Verb::Post;
    }
    if same(word, b"open") {
        return Verb::Open;
    }
    if same(word, b"read") {
        return Verb::Read;
    }
    if same(word, b"card") {
        return Verb::Card;
    }
    if same(word, b"view") {
        return Verb::View;
    }
    Verb::Unknown
}

fn of_five(word: &[u8]) -> Verb
    ensures { result ≡ of_five word.now }
{
    if same(word, b"round") {
        return Verb::Round;
    }
    if same(word, b"order") {
        return Verb::Order;
    }
    if same(word, b"share") {
        return Verb::Share;
    }
    if same(word, b"write") {
        return Verb::Write;
    }
    if same(word, b"check") {
        return Verb::Check;
    }
    Verb::Unknown
}

fn of_six(word: &[u8]) -> Verb
    ensures { result ≡ of_six word.now }
{
    if same(word, b"refund") {
        return Verb::Refund;
    }
    if same(word, b"negate") {
        return Verb::Negate;
    }
    if same(word, b"totals") {
        return Verb::Totals;
    }
    if same(word, b"export") {
        return Verb::Export;
    }
    Verb::Unknown
}

fn of_seven(word: &[u8]) -> Verb
    ensures { result ≡ of_seven word.now }
{
    if same(word, b"rescale") {
        return Verb::Rescale;
    }
    if same(word, b"convert") {
        return Verb::Convert;
    }
    if same(word, b"tax-net") {
        return Verb::TaxNet;
    }
    if same(word, b"net-for") {
        return Verb::NetFor;
    }
    if same(word, b"settled") {
        return Verb::Settled;
    }
    if same(word, b"reasons") {
        return Verb::Reasons;
    }
    Verb::Unknown
}

fn of_eight(word: &[u8]) -> Verb
    ensures { result ≡ of_eight word.now }
{
    if same(word, b"interest") {
        return Verb::Interest;
    }
    if same(word, b"vouchers") {
        return Verb::Vouchers;
    }
    if same(word, b"compound") {
        return Verb::Compound;
    }
    if same(word, b"view-any") {
        return Verb::ViewAny;
    }
    Verb::Unknown
}

fn of_others(word: &[u8]) -> Verb
    ensures { result ≡ of_others word.now }
{
    if same(word, b"sum") {
        return Verb::Sum;
    }
    if same(word, b"tax-gross") {
        return Verb::TaxGross;
    }
    if same(word, b"row") {
        return Verb::Row;
    }
    if same(word, b"statement") {
        return Verb::Statement;
    }
    if same(word, b"check-any") {
        return Verb::CheckAny;
    }
    Verb::Unknown
}

// The verb that a word is: it is looked for among those of its length.
#[tactic(auto, unfolding(crate::specs::Verbs::verb_of))]
pub fn verb_of(word: &[u8]) -> Verb
    ensures { result ≡ verb_of word.now }
{
    match word.len() {
        4 => of_four(word),
        5 => of_five(word),
        6 => of_six(word),
        7 => of_seven(word),
        8 => of_eight(word),
        _ => of_others(word),
    }
}

fn form(first: Kind, fourth: Kind) -> Form
    ensures { result ≡ record { first = first; fourth = fourth } }
{
    Form { first, fourth }
}

// Where a currency or an amount stands among a verb's numbers.
pub fn form_of(verb: Verb) -> Form
    ensures { result ≡ form_of verb }
{
    match verb {
        Verb::Round => form(Kind::Plain, Kind::Plain),
        Verb::Sum => form(Kind::Money, Kind::Money),
        Verb::Order => form(Kind::Money, Kind::Money),
        Verb::Negate => form(Kind::Money, Kind::Plain),
        Verb::Rescale => form(Kind::Money, Kind::Plain),
        Verb::Convert => form(Kind::Money, Kind::Unit),
        Verb::Interest => form(Kind::Money, Kind::Plain),
        Verb::TaxNet => form(Kind::Money, Kind::Plain),
        Verb::TaxGross => form(Kind::Money, Kind::Plain),
        Verb::NetFor => form(Kind::Money, Kind::Plain),
        Verb::Row => form(Kind::Unit, Kind::Plain),
        Verb::Export => form(Kind::Money, Kind::Plain),
        Verb::Share => form(Kind::Money, Kind::Plain),
        Verb::Vouchers => form(Kind::Plain, Kind::Plain),
        Verb::Compound => form(Kind::Money, Kind::Plain),
        Verb::Open => form(Kind::Unit, Kind::Plain),
        Verb::Post => form(Kind::Money, Kind::Plain),
        Verb::Refund => form(Kind::Money, Kind::Plain),
        Verb::Totals => form(Kind::Plain, Kind::Plain),
        Verb::Card => form(Kind::Plain, Kind::Plain),
        Verb::Settled => form(Kind::Plain, Kind::Plain),
        Verb::Read => form(Kind::Unit, Kind::Plain),
        Verb::Write => form(Kind::Money, Kind::Plain),
        Verb::Statement => form(Kind::Unit, Kind::Plain),
        Verb::Check => form(Kind::Plain, Kind::Plain),
        Verb::View => form(Kind::Plain, Kind::Plain),
        Verb::Reasons => form(Kind::Unit, Kind::Plain),
        Verb::CheckAny => form(Kind::Plain, Kind::Plain),
        Verb::ViewAny => form(Kind::Plain, Kind::Plain),
        Verb::Unknown => form(Kind::Plain, Kind::Plain),
    }
}

// Whether a verb takes so many numbers, of which the fourth is given: a quotient's second factor, a conversion's decimals and a refund's reason may be
// left out, and a share, vouchers, an opening, a card and the lists of a statement take any count.
pub fn takes(verb: Verb, count: usize, fourth: u8) -> bool
    ensures { result ≡ takes_of verb count fourth }
{
    match verb {
        Verb::Round => count == 3 || count == 4,
        Verb::Sum => count == 6,
        Verb::Order => count == 6,
        Verb::Negate => count == 3,
        Verb::Rescale => count == 5,
        Verb::Convert => count == 4 || count == 5,
        Verb::Interest => count == 12,
        Verb::TaxNet => count == 5,
        Verb::TaxGross => count == 5,
        Verb::NetFor => count == 5,
        Verb::Row => count == 5,
        Verb::Export => count == 3,
        Verb::Share => 3 <= count,
        Verb::Vouchers => 2 <= count,
        Verb::Compound => count == 6,
        Verb::Open => 1 <= count,
        Verb::Post => count == 3,
        Verb::Refund => count == 3 || (count == 4 && fourth <= 99),
        Verb::Totals => count == 0,
        Verb::Card => true,
        Verb::Settled => count == 0,
        Verb::Read => false,
        Verb::Write => count == 4,
        Verb::Statement => 4 <= count,
        Verb::Check => false,
        Verb::View => false,
        Verb::Reasons => 5 <= count,
        Verb::CheckAny => false,
        Verb::ViewAny => false,
        Verb::Unknown => false,
    }
}
