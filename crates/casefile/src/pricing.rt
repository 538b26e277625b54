// The prices of a text, line by line: first whether each is in its range, later into the caller's slice.

ghost use Rattle.std.specs.Prelude.{◌≡◌, map, ◌++◌, ◌≤◌, length, drop};
ghost use Rattle.commitment.specs.Ranges.{price_kept, prices_kept};
ghost use Rattle.lists.specs.Every.{every};
ghost use Rattle.tabletext.specs.Pieces.{lines_of};
ghost use Rattle.casefile.specs.Reading.{cents_of, price_of, prices_in};

use crate::fields;
use casetext::parts;
use tabletext::Value;
use tabletext::tables::Row;
use tabletext::walking::Lines;

// The prices stand from the fifth line on, under the name in the fourth.
pub fn prices_kept(text: &[u8]) -> bool
    ensures { result ≡ prices_kept (prices_in text.now) }
{
    let head = parts::line(text, 3);
    let price_rows = parts::lines_from(text, 4);
    rows_kept(head, price_rows)
}

// A line to a price, in range or not.
#[tactic(auto, unfolding(crate::specs::Reading::prices_in))]
pub fn prices_counted(text: &[u8]) -> usize
    ensures { result ≡ length (prices_in text.now) }
{
    let rows = parts::lines_from(text, 4);
    parts::lines_in(rows)
}

// The prices into the front of the slice, which they fit.
#[tactic(auto, unfolding(crate::specs::Reading::prices_in))]
pub fn store(text: &[u8], prices: &mut [i64])
    requires { length (prices_in text.now) ≤ length prices.old }
    ensures { prices.new ≡ prices_in text.now ++ drop (length (prices_in text.now)) prices.old }
{
    let head = parts::line(text, 3);
    let rows = parts::lines_from(text, 4);
    store_rows(head, rows, prices);
}

// All are judged before one is stored, so that a refusal leaves the slice as it was.
fn rows_kept(head: &[u8], rows: &[u8]) -> bool
    ensures { result ≡ every (λ row. price_kept (price_of head.now row)) (lines_of rows.now) }
{
    Lines::of(rows).all(|row| checking::price_kept(price_of(head, row)))
}

// A line to a price, at its number.
fn store_rows(head: &[u8], rows: &[u8], prices: &mut [i64])
    requires { length (lines_of rows.now) ≤ length prices.old }
    ensures { prices.new
        ≡ map (price_of head.now) (lines_of rows.now)
        ++ drop (length (lines_of rows.now)) prices.old }
{
    for (at, row) in Lines::of(rows).enumerate() {
        prices[at] = price_of(head, row);
    }
}

// The value under the name, of one line.
fn price_of(head: &[u8], row: &[u8]) -> i64
    ensures { result ≡ price_of head.now row.now }
{
    let priced = Row {
        names: head,
        values: row,
    };
    cents(priced.value_under(b"price"))
}

// Above every range, as of a field.
const BEYOND: i64 = fields::BEYOND as i64;

// What is no number is put beyond the range of a price.
fn cents(value: Value) -> i64
    ensures { result ≡ cents_of value }
{
    match value {
        Value::Malformed | Value::WordNone => BEYOND,
        Value::Number(n) => n,
    }
}
