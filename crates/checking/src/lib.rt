// The check of a case, the first thing that every call does with one; and the clock hour of an interval, whose figures are judged in the same way.

#![tactic(auto)]

pub mod clock;

ghost use Rattle.std.specs.Prelude.{◌≡◌, true};
ghost use Rattle.calendar.specs.Dates.{exists};
ghost use Rattle.commitment.specs.Causes.{first_of};
ghost use Rattle.commitment.specs.Limits.{limit_kept};
ghost use Rattle.commitment.specs.Ranges.{shape_checks, date_checks, horizon_checks, case_checked, generator_kept, opening_kept, costs_kept, limits_kept};
ghost use Rattle.commitment.specs.Ranges.{ranges_kept, date_ranged, window_kept, permit_kept, shape_kept, date_kept, price_kept, prices_kept, horizon_kept};

use calendar::{Date, FIRST_YEAR, PAST_WORDS};
use commitment::{
    Cause, Costs, Generator, Limits, MOST_BLOCKS, MOST_MW, Opening, UnitRecord, Window,
};

// The ends of the ranges that a case alone has. specs/Bounds.antt of `commitment` has the same.
const LAST_YEAR: u64 = 2099;

const MOST_MONTH: u64 = 12;

const MOST_DAY: u64 = 31;

const MOST_WORD: u64 = PAST_WORDS - 1;

const MOST_TIME: u64 = 96;

const MOST_HELD: u64 = 9999;

const MOST_VEC: u64 = 2000000;

const MOST_MLC: u64 = 1000000000;

const MOST_SUC: u64 = 4000000000;

const MOST_STARTS: u64 = 2976;

const MOST_HOURS: u64 = 744;

const MOST_MWH: u64 = 372000;

const LEAST_PRICE: i64 = -200000;

const MOST_PRICE: i64 = 200000;

const MOST_HORIZON: usize = 2976;

// The first cause for which a case of so many intervals cannot be worked on, whatever call it is for: 3, 4, 12 or 5. The prices are judged by whoever
// has them, in a slice or in a text. Each test is a function with the rest behind it.
pub fn check_case(unit: UnitRecord, priced: bool, intervals: usize) -> Result<(), Cause>
    ensures { result ≡ case_checked unit priced intervals }
{
    if !(ranges_kept(unit) & priced) {
        return Err(Cause::Range);
    }
    check_shape(unit, intervals)
}

// Figures in their ranges can be multiplied.
fn check_shape(unit: UnitRecord, intervals: usize) -> Result<(), Cause>
    requires { ranges_kept unit ≡ true }
    ensures { result ≡ first_of (shape_checks unit intervals) }
{
    if !shape_kept(unit) {
        return Err(Cause::Shape);
    }
    check_date(unit, intervals)
}

// A date in its ranges may still be none of its month.
fn check_date(unit: UnitRecord, intervals: usize) -> Result<(), Cause>
    ensures { result ≡ first_of (date_checks unit intervals) }
{
    if !date_kept(unit.permit) {
        return Err(Cause::Date);
    }
    check_horizon(intervals)
}

// The last cause.
fn check_horizon(intervals: usize) -> Result<(), Cause>
    ensures { result ≡ first_of (horizon_checks intervals) }
{
    if !horizon_kept(intervals) {
        return Err(Cause::Horizon);
    }
    Ok(())
}

// There are prices, and not too many.
fn horizon_kept(intervals: usize) -> bool
    ensures { result ≡ horizon_kept intervals }
{
    (1 <= intervals) & (intervals <= MOST_HORIZON)
}

// Every field of the record is in its range.
fn ranges_kept(unit: UnitRecord) -> bool
    ensures { result ≡ ranges_kept unit }
{
    generator_kept(unit.generator)
        & opening_kept(unit.opening)
        & costs_kept(unit.costs)
        & limits_kept(unit.limits)
        & permit_kept(unit.permit)
}

fn generator_kept(g: Generator) -> bool
    ensures { result ≡ generator_kept g }
{
    (1 <= g.block)
        & (g.block <= MOST_MW)
        & (1 <= g.pmin)
        & (g.pmin <= MOST_BLOCKS)
        & (1 <= g.pmax)
        & (g.pmax <= MOST_BLOCKS)
        & (1 <= g.mot)
        & (g.mot <= MOST_TIME)
        & (1 <= g.mdt)
        & (g.mdt <= MOST_TIME)
}

fn opening_kept(o: Opening) -> bool
    ensures { result ≡ opening_kept o }
{
    (o.was <= 1) & (1 <= o.held) & (o.held <= MOST_HELD)
}

fn costs_kept(k: Costs) -> bool
    ensures { result ≡ costs_kept k }
{
    (k.vec <= MOST_VEC) & (k.mlc <= MOST_MLC) & (k.suc <= MOST_SUC)
}

fn limits_kept(limits: Limits) -> bool
    ensures { result ≡ limits_kept limits }
{
    limit_kept(MOST_STARTS, limits.starts)
        & limit_kept(MOST_HOURS, limits.hours)
        & limit_kept(MOST_MWH, limits.mwh)
}

// What is not limited has no range.
fn limit_kept(most: u64, limit: Option<u64>) -> bool
    ensures { result ≡ limit_kept most limit }
{
    limit.is_none_or(|n| n <= most)
}

// A permit for any hour has no figures to judge.
fn permit_kept(permit: Option<Window>) -> bool
    ensures { result ≡ permit_kept permit }
{
    permit.is_none_or(window_kept)
}

fn window_kept(window: Window) -> bool
    ensures { result ≡ window_kept window }
{
    date_ranged(window.date) & (window.word <= MOST_WORD)
}

// Each figure by itself: whether the date exists is another cause.
fn date_ranged(date: Date) -> bool
    ensures { result ≡ date_ranged date }
{
    (FIRST_YEAR <= date.year)
        & (date.year <= LAST_YEAR)
        & (1 <= date.month)
        & (date.month <= MOST_MONTH)
        & (1 <= date.day)
        & (date.day <= MOST_DAY)
}

// A date that is given exists.
fn date_kept(permit: Option<Window>) -> bool
    ensures { result ≡ date_kept permit }
{
    permit.is_none_or(|window| calendar::exists(window.date))
}

// The product is taken of sizes in range, where it cannot overflow.
fn shape_kept(unit: UnitRecord) -> bool
    requires { ranges_kept unit ≡ true }
    ensures { result ≡ shape_kept unit.generator }
{
    let g = unit.generator;
    (g.pmin <= g.pmax) & (g.pmax * g.block <= MOST_MW)
}

// Every price is in its range.
pub fn prices_kept(prices: &[i64]) -> bool
    ensures { result ≡ prices_kept prices.now }
{
    prices.iter().all(|price| price_kept(*price))
}

// Also for the prices of a text, which are judged line by line.
pub fn price_kept(price: i64) -> bool
    ensures { result ≡ price_kept price }
{
    (LEAST_PRICE <= price) & (price <= MOST_PRICE)
}
