// The clock hour of an interval: hour by hour from the midnight of a few dates, and each refusal.

use calendar::Date;
use checking::clock;
use enumeration::printing::{line, row, text};
use std::{array, io};

// From a midnight past that of the day after.
const HOURS: usize = 26;

pub fn try_clock(rt: &impl Print) -> io::Result<()> {
    text(rt, b"clock,hours from midnight on\n")?;
    try_date(rt, b"2024-03-09", on(2024, 3, 9))?;
    try_date(rt, b"2024-03-10", on(2024, 3, 10))?;
    try_date(rt, b"2024-11-03", on(2024, 11, 3))?;
    try_date(rt, b"2099-12-31", on(2099, 12, 31))?;
    try_interval(rt, b"2024-02-30 interval 1 refused,", on(2024, 2, 30), 1)?;
    try_interval(rt, b"2024-02-29 interval 0 refused,", on(2024, 2, 29), 0)?;
    try_interval(
        rt,
        b"2024-02-29 interval 2977 refused,",
        on(2024, 2, 29),
        2977,
    )?;
    text(rt, b"\n")
}

fn on(year: u64, month: u64, day: u64) -> Date {
    Date { year, month, day }
}

fn try_date(rt: &impl Print, name: &[u8], date: Date) -> io::Result<()> {
    let hours = hours_from(date);
    text(rt, name)?;
    row(rt, &hours)
}

fn hours_from(date: Date) -> [u64; HOURS] {
    array::from_fn(|i| clock::clock_hour(date, (4 * i + 1) as u64).unwrap_or(0))
}

fn try_interval(rt: &impl Print, name: &[u8], date: Date, interval: u64) -> io::Result<()> {
    line(
        rt,
        name,
        commitment::number_in(&clock::clock_hour(date, interval)),
    )
}
