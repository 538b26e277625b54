// A schedule handed in: its profit, or why it is refused. One pass over the two slices, and one over the schedule for the permit's hours (mod hours); one
// for the figures of its months (mod months). proofs/ has their laws (Walking, Intervals, Bounds, Shut, Counting) and what it says of a schedule that it
// was passed (Passed).

#![tactic(auto)]

mod hours;
mod months;

ghost use Rattle.std.specs.Prelude.{◌≡◌, true, ◌^◌, ◌≤◌, ◌<◌, nat_abs, length, Ok};
ghost use Rattle.commitment.specs.Limits.{within, limit_kept};
ghost use Rattle.commitment.specs.Profit as profits;
ghost use Rattle.commitment.specs.Bounds.{most_mw, most_mwh, most_price};
ghost use Rattle.commitment.specs.Ranges.{generator_kept, ranges_kept, shape_kept, prices_kept, case_checked};
ghost use Rattle.commitment.specs.Schedule.{is_output};
ghost use Rattle.assessment.specs.Assessed.{assessed, assessed_by, handed_in, assessed_profit};
ghost use Rattle.assessment.specs.Walking.{opening_walk, spell_kept, may_follow, stepped, walk_from};
ghost use Rattle.assessment.specs.Walking.{spent_within, settled, concluded, SmallLimits, Small};
ghost use Rattle.assessment.specs.Walking as walking;

use commitment::{Cause, Generator, Limits, UnitRecord};

// Where the unit stands after some intervals: its state, the intervals spent in it, and what was spent and earned so far.
#[derive(Clone, Copy)]
pub struct Walk {
    pub on: bool,
    pub spent: u64,
    pub starts: u64,
    pub running: u64,
    pub output: u64,
    pub profit: i64,
}

// The profit of a schedule handed in; or 3, 4, 12, 5, 7 (another length than the prices) or 10 (it does not keep the case).
pub fn assess(unit: UnitRecord, prices: &[i64], schedule: &[u64]) -> Result<i64, Cause>
    ensures { result ≡ assessed unit prices.now schedule.now }
{
    let priced = checking::prices_kept(prices);
    checking::check_case(unit, priced, prices.len())?;
    of_case(unit, prices, schedule)
}

// The profit, or 0 on a refusal.
pub fn profit_of(answer: Result<i64, Cause>) -> i64
    ensures { result ≡ assessed_profit answer }
{
    answer.unwrap_or(0)
}

// The case is in order: the schedule's length (7) is judged before its keeping (10).
fn of_case(unit: UnitRecord, prices: &[i64], schedule: &[u64]) -> Result<i64, Cause>
    requires { case_checked unit (prices_kept prices.now) (length prices.now) ≡ Ok tt }
    ensures { result ≡ assessed_by
        (handed_in unit prices.now schedule.now)
        (profits.profit unit prices.now schedule.now) }
{
    if schedule.len() != prices.len() {
        return Err(Cause::Length);
    }
    if !hours::hours_kept(unit, schedule) {
        return Err(Cause::NotKept);
    }
    conclude(unit, walk_whole(unit, prices, schedule))
}

// What the limitations say of the totals; a walk that is broken off has none.
fn conclude(unit: UnitRecord, walked: Option<Walk>) -> Result<i64, Cause>
    requires { ranges_kept unit ≡ true }
    ensures { result ≡ concluded unit walked }
{
    match walked {
        Some(at) => settle(unit, at),
        None => Err(Cause::NotKept),
    }
}

// A walk to the end is refused for its totals alone.
fn settle(unit: UnitRecord, at: Walk) -> Result<i64, Cause>
    requires { ranges_kept unit ≡ true }
    ensures { result ≡ settled unit.limits at.starts at.running at.output at.profit }
{
    if spent_within(unit.limits, at.starts, at.running, at.output) {
        return Ok(at.profit);
    }
    Err(Cause::NotKept)
}

// Hours and MWh are counted in quarter-hours, so that a unit of them is 4.
fn spent_within(limits: Limits, starts: u64, running: u64, output: u64) -> bool
    requires { SmallLimits limits }
    ensures { result ≡ spent_within limits starts running output }
{
    within_limit(1, starts, limits.starts)
        & within_limit(4, running, limits.hours)
        & within_limit(4, output, limits.mwh)
}

// The number of a limitation in range is small, so its product with a unit of 1 or 4 fits.
fn within_limit(worth: u64, count: u64, limit: Option<u64>) -> bool
    requires worth_bound { worth ≤ 4 }
    requires limit_value { limit_kept most_mwh limit ≡ true }
    ensures { result ≡ within worth count limit }
{
    limit.is_none_or(|n| count <= worth * n)
}

// Interval by interval, to the end; or none, from the first output on that may not follow.
fn walk_whole(unit: UnitRecord, prices: &[i64], schedule: &[u64]) -> Option<Walk>
    requires prices_value { case_checked unit (prices_kept prices.now) (length prices.now) ≡ Ok tt }
    requires schedule_len { length schedule.now ≡ length prices.now }
    ensures { result ≡ walk_from unit (opening_walk unit.opening) prices.now schedule.now }
{
    let mut at = open(unit);
    for (price, output) in prices.iter().zip(schedule) {
        if !may_follow(unit, at, *output) {
            return None;
        }
        at = step(unit, at, *price, *output);
    }
    Some(at)
}

// The intervals held before the first one count for the unit's times.
fn open(unit: UnitRecord) -> Walk
    ensures { result ≡ opening_walk unit.opening }
{
    let opening = unit.opening;
    Walk {
        on: opening.was == 1,
        spent: opening.held,
        starts: 0,
        running: 0,
        output: 0,
        profit: 0,
    }
}

// It is an output of the unit, and the run or off spell that it ends was long enough.
fn may_follow(unit: UnitRecord, at: Walk, output: u64) -> bool
    requires { ranges_kept unit ≡ true }
    ensures { result ≡ may_follow unit at output }
{
    let g = unit.generator;
    is_output(g, output) & spell_kept(g, at.on, at.spent, output)
}

// 0, or whole blocks from pmin to pmax of them.
fn is_output(g: Generator, output: u64) -> bool
    requires { generator_kept g ≡ true }
    ensures { result ≡ is_output g output }
{
    if output == 0 {
        return true;
    }
    (output % g.block == 0) & (g.pmin * g.block <= output) & (output <= g.pmax * g.block)
}

// An output of 0 may end a run that lasted mot, another one an off spell that lasted mdt. To go on is always allowed.
fn spell_kept(g: Generator, on: bool, spent: u64, output: u64) -> bool
    ensures { result ≡ spell_kept g on spent output }
{
    if output == 0 {
        if on {
            return g.mot <= spent;
        }
        return true;
    }
    if on {
        return true;
    }
    g.mdt <= spent
}

// One interval more.
fn step(unit: UnitRecord, at: Walk, price: i64, output: u64) -> Walk
    requires unit_value { (ranges_kept unit ≡ true) × (shape_kept unit.generator ≡ true) }
    requires price_bound { (nat_abs price ≤ most_price) × (output ≤ most_mw) }
    requires small { Small at }
    ensures { result ≡ stepped unit at price output }
{
    if output == 0 {
        if at.on {
            return rested(at, 1);
        }
        return rested(at, at.spent + 1);
    }
    let g = unit.generator;
    let k = unit.costs;
    let gain = commitment::margin(price, output, k.vec, g.pmin * g.block, k.mlc);
    if at.on {
        return ran(at, at.spent + 1, at.starts, output, gain);
    }
    ran(
        at,
        1,
        at.starts + 1,
        output,
        gain - integers::signed(4 * k.suc),
    )
}

// An interval off adds nothing to what was spent and earned.
fn rested(at: Walk, spent: u64) -> Walk
    ensures { result ≡ walking.rested at spent }
{
    Walk {
        on: false,
        spent,
        ..at
    }
}

// An interval on adds its own output and gain.
fn ran(at: Walk, spent: u64, starts: u64, output: u64, gain: i64) -> Walk
    requires small { Small at }
    requires output_le_most_mw { (output ≤ most_mw) × (nat_abs gain < 2 ^ 60) }
    ensures { result ≡ walking.ran at spent starts output gain }
{
    Walk {
        on: true,
        spent,
        starts,
        running: at.running + 1,
        output: at.output + output,
        profit: at.profit + gain,
    }
}
