// How the sums of a report are put: as texts at its currency's digits where the book was opened by a code, else as numbers.
use currency::{Currency, Line};
use page::Page;
use text::put_text;

// Words and so many units behind them.
pub(crate) fn put_units(page: &mut Page, words: &[u8], style: Option<Line>, n: u64) {
    match style {
        Some(line) => {
            page.put(words);
            page.at = put_text(page.bytes, page.at, false, n, line.digits);
        },
        None => page.put_named(words, n),
    }
}

// Words and a currency behind them, by its code or by its number.
pub(crate) fn put_currency(page: &mut Page, words: &[u8], style: Option<Line>, currency: Currency) {
    match style {
        Some(line) => {
            page.put(words);
            page.put(&line.code);
        },
        None => page.put_named(words, u64::from(currency.0)),
    }
}
