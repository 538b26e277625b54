// Dates, clock hours and months: which dates exist, the hour that the clock shows so many hours after a date's midnight, and the calendar months of
// the intervals from there on. Nothing is searched day by day: a day has a number, and so have the Sundays on which time changes.

#![tactic(auto)]

ghost use Rattle.std.specs.Prelude.{◌≡◌, suc, ◌≤◌, ◌<◌};
ghost use Rattle.calendar.specs.Dates as dates;
ghost use Rattle.calendar.specs.Clock as clocks;
ghost use Rattle.calendar.specs.Months as months;
ghost use Rattle.calendar.specs.Words as words;

#[derive(Clone, Copy)]
pub struct Date {
    pub year: u64,
    pub month: u64,
    pub day: u64,
}

// How the clock runs over a horizon: as the hours are counted, but so many hours ahead from the first change of time to the second, and from the
// third on.
#[derive(Clone, Copy)]
pub struct Clock {
    pub first: u64,
    pub second: u64,
    pub third: u64,
    pub ahead: u64,
}

// The days before each month, and before the year's end.
const BEFORE_COMMON: [u64; 13] = [0, 31, 59, 90, 120, 151, 181, 212, 243, 273, 304, 334, 365];

const BEFORE_LEAP: [u64; 13] = [0, 31, 60, 91, 121, 152, 182, 213, 244, 274, 305, 335, 366];

// specs/Dates.antt has the same.
pub const FIRST_YEAR: u64 = 2007;

// The leap days before it, by the rule of leap years.
const FIRST_LEAPS: u64 = 486;

// A year's horizon has no more months.
const MOST_MONTHS: u64 = 13;

// Words of 24 bits are below this. specs/Words.antt has the same.
pub const PAST_WORDS: u64 = 16777216;

// ---- dates

// Of any three numbers, in their ranges or not.
pub fn exists(date: Date) -> bool
    ensures { result ≡ dates.exists date }
{
    let days = days_in(date.year, date.month);
    (1 <= date.day) & (date.day <= days)
}

// 0 in a month that is none. The tables have sums, so that a month is a difference.
fn days_in(year: u64, month: u64) -> u64
    ensures { result ≡ dates.days_in year month }
{
    if month < 1 {
        return 0;
    }
    if 12 < month {
        return 0;
    }
    let leap = is_leap(year);
    let at = month as usize;
    days_before(leap, at) - days_before(leap, at - 1)
}

// The days of the first months of a year.
fn days_before(leap: bool, months: usize) -> u64
    requires { months ≤ 12 }
    ensures { result ≡ dates.days_before leap (suc months) }
{
    if leap {
        return BEFORE_LEAP[months];
    }
    BEFORE_COMMON[months]
}

// The Gregorian rule.
fn is_leap(year: u64) -> bool
    ensures { result ≡ dates.leap year }
{
    (year % 4 == 0) & ((year % 100 != 0) | (year % 400 == 0))
}

// The days since the first day of the first year: 365 for each year, the leap days of the years before, and those of its own.
fn day_number(date: Date) -> u64
    requires { dates.Within dates.last_numbered date }
    ensures { dates.Numbered date result }
{
    let year = date.year;
    let last = year - 1;
    let leaps = last / 4 + last / 400 - last / 100 - FIRST_LEAPS;
    let months = (date.month - 1) as usize;
    let before = days_before(is_leap(year), months);
    365 * (year - FIRST_YEAR) + leaps + before + (date.day - 1)
}

// ---- changes of time

// The first Sunday from a day on, by their numbers.
fn sunday_from(day: u64) -> u64
    requires { day < dates.past_numbers }
    ensures { result ≡ clocks.sunday_from day }
{
    day + (6 - day % 7)
}

// The second Sunday of March.
fn spring_day(year: u64) -> u64
    requires { (dates.first_year ≤ year) × (year ≤ dates.last_numbered) }
    ensures { result ≡ clocks.spring_day year }
{
    sunday_from(day_number(Date {
        year,
        month: 3,
        day: 8,
    }))
}

// The first Sunday of November.
fn fall_day(year: u64) -> u64
    requires { (dates.first_year ≤ year) × (year ≤ dates.last_numbered) }
    ensures { result ≡ clocks.fall_day year }
{
    sunday_from(day_number(Date {
        year,
        month: 11,
        day: 1,
    }))
}

// The day of the change of time after so many from the first year on.
fn change_day(before: u64) -> u64
    requires { before ≤ clocks.most_changes }
    ensures { result ≡ clocks.change_day before }
{
    let year = FIRST_YEAR + before / 2;
    if before % 2 == 0 {
        return spring_day(year);
    }
    fall_day(year)
}

// The changes of time that are over at a date's midnight, from the first year on: an odd number when daylight time is on.
fn changes_before(date: Date) -> u64
    requires { dates.Within dates.last_numbered date }
    ensures { result ≡ clocks.changes_before date }
{
    let year = date.year;
    let number = day_number(date);
    let before = 2 * (year - FIRST_YEAR);
    if number <= spring_day(year) {
        return before;
    }
    if number <= fall_day(year) {
        return before + 1;
    }
    before + 2
}

// ---- the clock

// The hours from a day's midnight to 2 o'clock on the day of a change, by days of 24.
fn hours_to(number: u64, before: u64) -> u64
    requires { (before ≤ clocks.most_changes) × (number ≤ clocks.change_day before) }
    ensures { result ≡ clocks.hours_to number before }
{
    24 * (change_day(before) - number) + 2
}

// The clock from a date's midnight on, by the next three changes of time: by the second an hour is missing, or one came twice.
pub fn clock_from(date: Date) -> Clock
    requires { dates.Within dates.last_year date }
    ensures { clocks.Follows date result }
{
    let number = day_number(date);
    let before = changes_before(date);
    let first = hours_to(number, before);
    let second = hours_to(number, before + 1);
    let third = hours_to(number, before + 2);
    if before % 2 == 0 {
        return Clock {
            first,
            second: second - 1,
            third,
            ahead: 1,
        };
    }
    Clock {
        first,
        second: second + 1,
        third,
        ahead: 23,
    }
}

// The hour that the clock shows when so many hours have passed.
pub fn hour_after(clock: Clock, passed: u64) -> u64
    requires { (passed ≤ clocks.most_passed) × (clock.ahead ≤ clocks.most_ahead) }
    ensures { result ≡ clocks.shown clock passed }
{
    if (clock.first <= passed) & ((passed < clock.second) | (clock.third <= passed)) {
        return (passed + clock.ahead) % 24;
    }
    passed % 24
}

// ---- months

// The date itself, or the first day of the month so many months on.
fn month_on(date: Date, on: u64) -> Date
    requires { (dates.Within dates.last_year date) × (on ≤ months.most_months) }
    ensures { result ≡ months.months_on on date }
{
    if on == 0 {
        return date;
    }
    let before = date.month - 1 + on;
    Date {
        year: date.year + before / 12,
        month: before % 12 + 1,
        day: 1,
    }
}

// The interval, counted from 0, at which a month begins; the date's own is month 1, and where the last one ends month 14 begins. Daylight time that
// is on at one of the two midnights alone has taken an hour away, or given one back.
pub fn month_begins(date: Date, month: u64) -> u64
    requires { (dates.Within dates.last_year date) × (1 ≤ month) × (month ≤ suc months.most_months) }
    ensures { result ≡ months.month_begins date month }
{
    let first = month_on(date, month - 1);
    let end = 24 * day_number(first) + changes_before(date) % 2;
    let start = 24 * day_number(date) + changes_before(first) % 2;
    4 * (end - start)
}

// The month in which an interval, counted from 0, falls; the date's own is month 1.
pub fn month_of(date: Date, interval: u64) -> u64
    requires { (dates.Within dates.last_year date) × (interval < months.year_intervals) }
    ensures { result ≡ months.month_of date interval }
{
    for month in 1..MOST_MONTHS {
        if interval < month_begins(date, month + 1) {
            return month;
        }
    }
    MOST_MONTHS
}

// ---- words of permitted hours

// Whether a word of permitted hours allows an hour.
pub fn allows(word: u64, hour: u64) -> bool
    requires { hour < 24 }
    ensures { result ≡ words.allows word hour }
{
    (word >> hour) % 2 == 1
}

// How many of the 24 hours of the clock a word allows.
pub fn hours_allowed(word: u64) -> u64
    requires { word < words.past_words }
    ensures { result ≡ words.hours_allowed word }
{
    u64::count_ones(word) as u64
}
