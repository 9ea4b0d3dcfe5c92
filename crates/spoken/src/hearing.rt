// One word, after those that were heard before it.
ghost use Rattle.std.specs.Prelude.{◌≡◌, ◌≤◌, length};
ghost use Rattle.refusal.specs.Rows.{means};
ghost use Rattle.spoken.specs.Hearing.{kind_at, is_unit, is_money, is_capital, more, number_step, code_step, text_step, step_of};

use crate::{Form, Heard, Kind, Step};
use amount::Amount;
use currency::Currency;
use lines::{NOUGHT, Number, Word, read_number};
use refusal::Refusal;
use text::{currency_of, read};
use whole::{is_negative, magnitude};

// More numbers than a line has.
const MANY: usize = 10_000;

// So many numbers and some more.
pub(crate) fn add(count: usize, by: usize) -> usize
    requires { by ≤ 2 }
    ensures { result ≡ more count by }
{
    if MANY < count {
        return count;
    }
    count + by
}

fn kind_at(form: Form, place: usize) -> Kind
    ensures { result ≡ kind_at form place }
{
    match place {
        0 => form.first,
        3 => form.fourth,
        _ => Kind::Plain,
    }
}

fn is_unit(kind: Kind) -> bool
    ensures { result ≡ is_unit kind }
{
    matches!(kind, Kind::Unit | Kind::Money)
}

fn is_money(kind: Kind) -> bool
    ensures { result ≡ is_money kind }
{
    matches!(kind, Kind::Money)
}

fn is_capital(word: &[u8]) -> bool
    ensures { result ≡ is_capital word.now }
{
    matches!(word, [b'A'..=b'Z', ..])
}

// A number; any other word is wrong here.
#[tactic(auto, unfolding(crate::specs::Hearing::number_step))]
fn number_step(heard: Heard, number: Option<Number>) -> Step
    ensures { result ≡ number_step heard number }
{
    Step {
        next: Heard {
            count: add(heard.count, 1),
            awaited: None,
            wrong: heard.wrong || number.is_none(),
            ..heard
        },
        front: None,
        last: number.unwrap_or(NOUGHT),
    }
}

// A currency's code, which the text of an amount may have to follow. The first number is a currency given by its code where none stands before it.
#[tactic(auto, unfolding(crate::specs::Hearing::code_step))]
fn code_step(heard: Heard, currency: Currency, money: bool) -> Step
    ensures { result ≡ code_step heard currency money }
{
    Step {
        next: Heard {
            count: add(heard.count, 1),
            awaited: if money { Some(currency) } else { None },
            coded: heard.count == 0 || heard.coded,
            ..heard
        },
        front: None,
        last: Number {
            negative: false,
            magnitude: u64::from(currency.0),
        },
    }
}

// An amount's text: its scale and its coefficient; where it is refused, two numbers of 0 and the refusal's, unless another came before it.
#[tactic(auto, unfolding(crate::specs::Hearing::text_step))]
fn text_step(heard: Heard, answer: Result<Amount, Refusal>) -> Step
    ensures { result ≡ text_step heard (means answer) }
{
    let next = Heard {
        count: add(heard.count, 2),
        awaited: None,
        ..heard
    };
    match answer {
        Ok(amount) => Step {
            next,
            front: Some(Number {
                negative: false,
                magnitude: u64::from(amount.scale),
            }),
            last: Number {
                negative: is_negative(amount.coefficient),
                magnitude: magnitude(amount.coefficient),
            },
        },
        Err(refusal) => Step {
            next: Heard {
                refused: heard.refused.or(Some(refusal.number())),
                ..next
            },
            front: Some(NOUGHT),
            last: NOUGHT,
        },
    }
}

// A word after those that were heard: an amount's text where one has to come, a code where a currency may stand, else a number.
#[tactic(auto, unfolding(crate::specs::Hearing::step_of))]
pub(crate) fn hear(line: &[u8], word: Word, form: Form, heard: Heard) -> Step
    requires { (word.start ≤ word.end) × (word.end ≤ length line.now) }
    ensures { result ≡ step_of line.now word form heard }
{
    let bytes = &line[word.start..word.end];
    if let Some(currency) = heard.awaited {
        return text_step(heard, read(currency, bytes));
    }
    let kind = kind_at(form, heard.count);
    if is_unit(kind) && is_capital(bytes) {
        return code_step(heard, currency_of(bytes), is_money(kind));
    }
    number_step(heard, read_number(line, word))
}
