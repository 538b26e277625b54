// The clock hour of an interval, and those of the first intervals in one call.

ghost use Rattle.std.specs.Prelude.{◌≡◌, ◌-◌, ◌/◌, ◌≤◌, length, Ok};
ghost use Rattle.calendar.specs.Clock.{clock_after, most_ahead, shown};
ghost use Rattle.commitment.specs.Bounds.{most_horizon};
ghost use Rattle.checking.specs.Clock.{clock_checked, clock_hour, each_from, hours_left};

use calendar::{Clock, Date};
use commitment::Cause;

// The clock hour of an interval, counted from 1, when interval 1 begins at the midnight of a date; or 3 or 12.
pub fn clock_hour(date: Date, interval: u64) -> Result<u64, Cause>
    ensures { result ≡ clock_hour date interval }
{
    check_clock(date, interval)?;
    Ok(hour_of(date, interval))
}

// The clock hours of the first intervals, one in each entry of the slice; or 3 or 12, and the slice is as it was.
pub fn hours_into(date: Date, hours: &mut [u64]) -> Result<(), Cause>
    ensures value { result ≡ clock_checked date (length hours.old) }
    ensures hours_after { hours.new ≡ hours_left date hours.old }
{
    check_clock(date, hours.len() as u64)?;
    fill(calendar::clock_from(date), hours);
    Ok(())
}

// The last of the intervals that are asked for, and the date.
fn check_clock(date: Date, interval: u64) -> Result<(), Cause>
    ensures { result ≡ clock_checked date interval }
{
    if !(crate::date_ranged(date) & crate::horizon_kept(interval as usize)) {
        return Err(Cause::Range);
    }
    if !calendar::exists(date) {
        return Err(Cause::Date);
    }
    Ok(())
}

// Interval 1 is the first quarter-hour of the date, and four make an hour.
fn hour_of(date: Date, interval: u64) -> u64
    requires { clock_checked date interval ≡ Ok tt }
    ensures { result ≡ clock_after date ((interval - 1) / 4) }
{
    let clock = calendar::clock_from(date);
    calendar::hour_after(clock, (interval - 1) / 4)
}

// What a clock shows in each of the first intervals.
fn fill(clock: Clock, hours: &mut [u64])
    requires { (clock.ahead ≤ most_ahead) × (length hours.old ≤ most_horizon) }
    ensures { hours.new ≡ each_from (λ i. shown clock (i / 4)) 0 (length hours.old) }
{
    for (i, hour) in hours.iter_mut().enumerate() {
        *hour = calendar::hour_after(clock, (i / 4) as u64);
    }
}
