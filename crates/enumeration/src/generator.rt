// Small cases from a fixed sequence of pseudo-random numbers: x goes to 48271 × x modulo 2^31 − 1.

ghost use Rattle.std.specs.Prelude.{◌≡◌, ◌+◌, ◌/◌, ◌%◌, ◌<◌, ◌≤◌, not, ◌==◌, is_some};
ghost use Rattle.enumeration.specs.Cases.{OfKind, Dated};
ghost use Rattle.enumeration.specs.Draws.{draws_from};
ghost use Rattle.enumeration.specs.Lists.{room};

use crate::enumerator::{Allowed, Case, PerLimit, ROOM};
use crate::numbers::times;
use std::array;

// The draws of a case.
const DRAWS: usize = 32;

// How many prices there are to choose from: two, four, nine, or many.
#[derive(Clone, Copy, PartialEq, Eq)]
enum Spread {
    Two,
    Four,
    Nine,
    Many,
}

// The dates of a case whose hours are permitted: the end of a month, some of which do not exist; the first half of a month; the Sunday on which time changes.
#[derive(Clone, Copy, PartialEq, Eq)]
enum Dates {
    FebruaryEnd,
    MonthEnd,
    March,
    MarchSunday,
    November,
    NovemberSunday,
}

// All draws of a case at once: the next case goes on from the last that it takes.
#[tactic(auto, unfolding(crate::specs::Draws::draws_from, crate::specs::Draws::draws_after))]
pub fn draws_from(seed: u32) -> [u32; DRAWS]
    ensures { result ≡ draws_from seed }
{
    let mut draws = [0u32; DRAWS];
    let mut x = seed;
    for draw in draws.iter_mut() {
        x = (times(u64::from(x), 48271) % 2147483647) as u32;
        *draw = x;
    }
    draws
}

// The number's lowest three bits say which limitations there are, the next one whether the unit was on; the next two choose the prices.
pub fn case_of(number: u64, draws: [u32; DRAWS]) -> Case
    ensures { OfKind number result }
{
    let spread = spread_of(number);
    let pmin = pick(draws[1], 1, 2);
    Case {
        intervals: pick(draws[0], 1, 5),
        block: pick(draws[2], 1, 4),
        pmin,
        pmax: pick(draws[3], pmin, 3),
        mot: pick(draws[4], 1, 3),
        mdt: pick(draws[5], 1, 3),
        was_on: number / 8 % 2 == 1,
        held: pick(draws[6], 1, 4),
        vec: (draws[7] % 4 * 5) as u16,
        mlc: draws[8] % 5 * 20,
        suc: draws[9] % 4 * 10,
        limits: PerLimit {
            starts: cap(number % 2 == 1, draws[10], 5),
            hours: cap(number / 2 % 2 == 1, draws[11], 4),
            mwh: cap(number / 4 % 2 == 1, draws[12], 16),
        },
        allowed: None,
        up: array::from_fn(|i| price_of(spread, draws[16 + i])),
        down: down_of(spread),
    }
}

// The same with permitted hours, for four to nine intervals, so that the third hour of the day is seen. Where they are more than four there is one
// output besides 0, so that the lists stay few; mwh is limited to less, so that the cells do. The number's bits from the seventh on choose the date.
pub fn dated_case_of(number: u64, draws: [u32; DRAWS]) -> Case
    ensures { Dated number result }
{
    let mut case = case_of(number, draws);
    case.intervals = intervals_of(dates_of(number), draws[0]);
    case.pmax = highest(case.intervals, case.pmin, case.pmax);
    case.limits.mwh = cap(number / 4 % 2 == 1, draws[12], 6);
    case.allowed = (number / 64 % 8 != 0).then_some(hours_of(number, draws));
    case
}

// Where no hours are permitted, those drawn are of November.
fn dates_of(number: u64) -> Dates {
    match number / 64 % 8 {
        1 => Dates::FebruaryEnd,
        2 => Dates::MonthEnd,
        3 => Dates::March,
        4 => Dates::MarchSunday,
        6 => Dates::NovemberSunday,
        _ => Dates::November,
    }
}

// The days on which time changes are seen up to the third hour half of the time.
fn intervals_of(dates: Dates, draw: u32) -> u8
    ensures { result ≤ room }
{
    match dates {
        Dates::MarchSunday | Dates::NovemberSunday => pick(draw, 8, 2),
        _ => pick(draw, 4, 6),
    }
}

// Longer cases have one output on, so that their lists stay few.
fn highest(intervals: u8, pmin: u8, pmax: u8) -> u8 {
    if 4 < intervals { pmin } else { pmax }
}

// The hours drawn, whether the case has them or a text alone: each subset of the hours 0 to 3, and of the last two of the day, which no case reaches.
pub fn hours_of(number: u64, draws: [u32; DRAWS]) -> Allowed
    ensures { (2007 ≤ result.year) × (result.year < 2100) }
{
    let dates = dates_of(number);
    let year = (2007 + draws[26] % 93) as u16;
    Allowed {
        year,
        month: month_of(dates, draws[27]),
        day: day_of(dates, draws[28], year),
        word: draws[29] % 16 + draws[30] % 4 * 4194304,
    }
}

fn month_of(dates: Dates, draw: u32) -> u8 {
    match dates {
        Dates::FebruaryEnd => 2,
        Dates::MonthEnd => pick(draw, 1, 8) + (draw / 8 % 5) as u8,
        Dates::March | Dates::MarchSunday => 3,
        Dates::November | Dates::NovemberSunday => 11,
    }
}

fn day_of(dates: Dates, draw: u32, year: u16) -> u8 {
    match dates {
        Dates::FebruaryEnd | Dates::MonthEnd => pick(draw, 28, 4),
        Dates::MarchSunday => 14 - past_sunday(year),
        Dates::NovemberSunday => 7 - past_sunday(year),
        Dates::March | Dates::November => pick(draw, 1, 15),
    }
}

// March 14 and November 7 are so many days past a Sunday (the doomsday rule, for 2000 to 2099).
fn past_sunday(year: u16) -> u8
    ensures { result < 7 }
{
    let in_century = u64::from(year) % 100;
    ((2 + in_century + in_century / 4) % 7) as u8
}

// `low`, or up to `choices` − 1 more.
fn pick(draw: u32, low: u8, choices: u32) -> u8
    requires { (0 < choices) × (choices ≤ 15) × (low ≤ 28) }
    ensures { result < low + choices }
{
    low + (draw % choices) as u8
}

// Low figures, so that the limitation often binds.
fn cap(limited: bool, draw: u32, choices: u32) -> Option<u32>
    requires { 0 < choices }
    ensures { is_some result ≡ limited }
{
    limited.then_some(draw % choices)
}

fn spread_of(number: u64) -> Spread {
    match number / 16 % 4 {
        0 => Spread::Two,
        1 => Spread::Four,
        2 => Spread::Nine,
        _ => Spread::Many,
    }
}

fn price_of(spread: Spread, draw: u32) -> u16 {
    match spread {
        Spread::Two => (draw % 2 * 40) as u16,
        Spread::Four => (draw % 4 * 40) as u16,
        Spread::Nine => (draw % 9 * 15) as u16,
        Spread::Many => (draw % 4001) as u16,
    }
}

// What is taken off every price, so that some are below 0.
fn down_of(spread: Spread) -> u16 {
    match spread {
        Spread::Two => 0,
        Spread::Four => 20,
        Spread::Nine => 30,
        Spread::Many => 1000,
    }
}
