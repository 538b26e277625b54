// The record of a text: each field is the value under its name.

ghost use Rattle.std.specs.Prelude.{◌≡◌};
ghost use Rattle.tabletext.specs.Pieces.{fields_of};
ghost use Rattle.tabletext.specs.Tables.{under};
ghost use Rattle.casefile.specs.Reading.{natural_of, whole_of, limit_of, generator_of, costs_of, opening_of, limits_of};
ghost use Rattle.casefile.specs.Reading.{date_of, window_of, permit_of, unit_of, unit_in};

use calendar::Date;
use casetext::parts;
use commitment::{Costs, Generator, Limits, Opening, UnitRecord, Window};
use tabletext::Value;
use tabletext::tables::{self, Row};

// The record stands in the first two lines, names and values.
#[tactic(auto, unfolding(crate::specs::Reading::unit_in))]
pub fn unit_in(text: &[u8]) -> UnitRecord
    ensures { result ≡ unit_in text.now }
{
    let row = Row {
        names: parts::line(text, 0),
        values: parts::line(text, 1),
    };
    unit_under(&row)
}

// Group by group: each is read by a function of its own.
fn unit_under(row: &Row) -> UnitRecord
    ensures { result ≡ unit_of (fields_of row.now.names.now) (fields_of row.now.values.now) }
{
    let generator = generator_under(row);
    let costs = costs_under(row);
    let opening = opening_under(row);
    let limits = limits_under(row);
    let permit = permit_under(row);
    UnitRecord {
        generator,
        costs,
        opening,
        limits,
        permit,
    }
}

fn generator_under(row: &Row) -> Generator
    ensures { result ≡ generator_of (fields_of row.now.names.now) (fields_of row.now.values.now) }
{
    Generator {
        block: whole_under(b"block", row),
        pmin: whole_under(b"pmin", row),
        pmax: whole_under(b"pmax", row),
        mot: whole_under(b"mot", row),
        mdt: whole_under(b"mdt", row),
    }
}

fn costs_under(row: &Row) -> Costs
    ensures { result ≡ costs_of (fields_of row.now.names.now) (fields_of row.now.values.now) }
{
    Costs {
        vec: whole_under(b"vec", row),
        mlc: whole_under(b"mlc", row),
        suc: whole_under(b"suc", row),
    }
}

fn opening_under(row: &Row) -> Opening
    ensures { result ≡ opening_of (fields_of row.now.names.now) (fields_of row.now.values.now) }
{
    Opening {
        was: whole_under(b"was", row),
        held: whole_under(b"held", row),
    }
}

fn limits_under(row: &Row) -> Limits
    ensures { result ≡ limits_of (fields_of row.now.names.now) (fields_of row.now.values.now) }
{
    Limits {
        starts: limit_under(b"starts", row),
        hours: limit_under(b"hours", row),
        mwh: limit_under(b"mwh", row),
    }
}

// The four names stand together or not at all, so that one of them tells.
fn permit_under(row: &Row) -> Option<Window>
    ensures { result ≡ permit_of (fields_of row.now.names.now) (fields_of row.now.values.now) }
{
    if tables::stands(1, row.names, b"year") {
        return Some(window_under(row));
    }
    None
}

fn window_under(row: &Row) -> Window
    ensures { result ≡ window_of (fields_of row.now.names.now) (fields_of row.now.values.now) }
{
    let date = date_under(row);
    let word = whole_under(b"window", row);
    Window { date, word }
}

fn date_under(row: &Row) -> Date
    ensures { result ≡ date_of (fields_of row.now.names.now) (fields_of row.now.values.now) }
{
    Date {
        year: whole_under(b"year", row),
        month: whole_under(b"month", row),
        day: whole_under(b"day", row),
    }
}

fn whole_under(name: &[u8], row: &Row) -> u64
    ensures { result ≡ whole_of (under name.now (fields_of row.now.names.now) (fields_of row.now.values.now)) }
{
    whole(row.value_under(name))
}

fn limit_under(name: &[u8], row: &Row) -> Option<u64>
    ensures { result ≡ limit_of (under name.now (fields_of row.now.names.now) (fields_of row.now.values.now)) }
{
    limit(row.value_under(name))
}

// Above every range: what a field cannot hold. A number and no Option, as the definitions `whole_of` and `limit_of` have it: 3 refuses it.
pub const BEYOND: u64 = 10000000000;

// A figure that has to be a number: `none` is put beyond every range, where 3 refuses it.
fn whole(value: Value) -> u64
    ensures { result ≡ whole_of value }
{
    match value {
        Value::Malformed | Value::WordNone => BEYOND,
        Value::Number(n) => natural(n),
    }
}

// Only a limitation may be `none`.
fn limit(value: Value) -> Option<u64>
    ensures { result ≡ limit_of value }
{
    match value {
        Value::Malformed => Some(BEYOND),
        Value::WordNone => None,
        Value::Number(n) => Some(natural(n)),
    }
}

// A negative number is put beyond every range too.
fn natural(n: i64) -> u64
    ensures { result ≡ natural_of n }
{
    u64::try_from(n).unwrap_or(BEYOND)
}
