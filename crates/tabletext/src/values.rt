// Names, and the values that fields hold.

ghost use Rattle.std.specs.Prelude.{◌≡◌, true, ◌<◌, ◌^◌};
ghost use Rattle.tabletext.specs.Values.{is_name, lead_kept, most_digits, numeral, from_digits, negated, negative};
ghost use Rattle.tabletext.specs.Values.{value_of, is_value};

use crate::{Class, Value, bytes};

// Small letters, at least one.
#[tactic(auto, unfolding(crate::specs::Values::is_name))]
pub fn is_name(s: &[u8]) -> bool
    ensures { result ≡ is_name s.now }
{
    !s.is_empty() && bytes::all_of(Class::Letter, s)
}

// No zero stands before other digits.
fn lead_kept(s: &[u8]) -> bool
    ensures { result ≡ lead_kept s.now }
{
    match s {
        [] => false,
        [_] => true,
        [first, ..] => *first != b'0',
    }
}

// specs/Values.antt has the same.
const MOST_DIGITS: usize = 10;

// Ten digits or fewer.
#[tactic(auto, unfolding(crate::specs::Values::numeral))]
fn is_numeral(s: &[u8]) -> bool
    ensures { result ≡ numeral s.now }
{
    lead_kept(s) && bytes::all_of(Class::Digit, s) && s.len() <= MOST_DIGITS
}

// Ten digits fit with room to spare.
fn from_digits(s: &[u8]) -> u64
    requires { numeral s.now ≡ true }
    ensures { (result ≡ from_digits 0 s.now) × (result < 10 ^ most_digits) }
{
    let mut n = 0;
    for b in s {
        n = n * 10 + u64::from(*b - b'0');
    }
    n
}

// What the digits behind a minus stand for: 0 has none.
fn negated_by(s: &[u8]) -> Value
    ensures { result ≡ negated s.now }
{
    if !is_numeral(s) {
        return Value::Malformed;
    }
    match from_digits(s) {
        0 => Value::Malformed,
        n => Value::Number(-integers::signed(n)),
    }
}

// A minus, then digits.
fn negative_of(s: &[u8]) -> Value
    ensures { result ≡ negative s.now }
{
    match s {
        [first, digits @ ..] if bytes::is_of(Class::Minus, *first) => negated_by(digits),
        _ => Value::Malformed,
    }
}

// The word `none`, digits, or a minus and digits.
#[tactic(auto, unfolding(crate::specs::Values::value_of))]
pub fn value_of(s: &[u8]) -> Value
    ensures { result ≡ value_of s.now }
{
    if s == b"none".as_slice() {
        return Value::WordNone;
    }
    if is_numeral(s) {
        return Value::Number(integers::signed(from_digits(s)));
    }
    negative_of(s)
}

// Whether a field has a value at all; its range is judged with the record.
#[tactic(auto, unfolding(crate::specs::Values::is_value))]
pub fn is_value(s: &[u8]) -> bool
    ensures { result ≡ is_value s.now }
{
    value_of(s) != Value::Malformed
}
