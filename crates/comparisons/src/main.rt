// The calls beside a simple enumerator, on generated cases: without permitted hours, and with them and as texts.

#![tactic(auto)]

mod comparison;
mod summary;
mod texts;

use comparison::agreed_on;
use enumeration::enumerator::{Allowed, Case};
use enumeration::expectation::{Expected, expected_of};
use enumeration::generator::{case_of, dated_case_of, draws_from, hours_of};
use enumeration::tally;
use enumeration::tally::Tally;
use std::env::Env;
use std::io;
use tabletext::{Value, values};

// Its arguments say how many cases there are of each.
fn main(rt: HostRuntime) -> io::Result<()> {
    let mut scratch = [0i64; 32768];
    generated(&rt, number_in(&rt, 1), &mut scratch)?;
    dated(&rt, number_in(&rt, 2), &mut scratch)
}

// A missing argument counts as an empty one, and so does one that is longer than a number.
fn number_in(rt: &impl Env, argument: usize) -> u64 {
    let mut word = [0u8; 16];
    let n = rt.arg(argument, &mut word).unwrap_or(0);
    natural(values::value_of(&word[..n]))
}

// What is no number is no case.
fn natural(value: Value) -> u64 {
    match value {
        Value::Malformed => 0,
        Value::WordNone => 0,
        Value::Number(n) => integers::magnitude(n),
    }
}

// A case without hours takes 24 draws; the next one goes on from there.
fn generated(rt: &impl Print, cases: u64, scratch: &mut [i64]) -> io::Result<()> {
    let mut counts = Tally::default();
    let mut seed = 1;
    for number in 0..cases {
        let draws = draws_from(seed);
        seed = draws[23];
        let case = case_of(number, draws);
        counts = tried(rt, counts, number, case, expected_of(case), &mut *scratch)?;
    }
    summary::print(rt, counts)
}

// Cases with permitted hours, in a part of their own, and their texts.
fn dated(rt: &impl Print, cases: u64, scratch: &mut [i64]) -> io::Result<()> {
    let mut counts = Tally::default();
    let mut seed = 2;
    for number in 0..cases {
        let draws = draws_from(seed);
        seed = draws[31];
        let case = dated_case_of(number, draws);
        let expected = expected_of(case);
        counts = tried(rt, counts, number, case, expected, &mut *scratch)?;
        let hours = hours_of(number, draws);
        counts = read(rt, counts, number, case, hours, expected, &mut *scratch)?;
    }
    summary::print_dates(rt, counts)?;
    summary::print(rt, counts)
}

fn tried(
    rt: &impl Print,
    counts: Tally,
    number: u64,
    case: Case,
    expected: Expected,
    scratch: &mut [i64],
) -> io::Result<Tally> {
    let agreed = agreed_on(case, expected, scratch);
    let with_case = tally::with_case(counts, case);
    let with_expected = tally::with_expected(with_case, expected);
    summary::tell(rt, number, agreed)?;
    Ok(tally::with_agreed(with_expected, agreed))
}

fn read(
    rt: &impl Print,
    counts: Tally,
    number: u64,
    case: Case,
    hours: Allowed,
    expected: Expected,
    scratch: &mut [i64],
) -> io::Result<Tally> {
    let agrees = texts::same_text(case, hours, number, expected, scratch);
    summary::tell_unless(rt, agrees, b"text differs on case ", number)?;
    Ok(tally::with_text(counts, texts::reading_of(case, number), agrees))
}
