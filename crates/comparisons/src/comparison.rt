// The enumerator beside the calls, on one small case.

use calendar::Date;
use commitment::{Cause, Costs, Generator, Limits, Opening, Outcome, Outcomes, UnitRecord, Window};
use enumeration::enumerator::{Allowed, Case, PerLimit, ROOM, Worth};
use enumeration::expectation::{Expected, Refusal, UNTOUCHED, refusal_of, refused, schedule_of};
use enumeration::lending::{LENGTHS, Lent};
use enumeration::numbers::difference;
use enumeration::tally::Agreed;
use enumeration::{enumerator, lending};
use planner::{BestPlan, Report};

pub fn agreed_on(case: Case, expected: Expected, scratch: &mut [i64]) -> Agreed {
    let n = enumerator::intervals_of(case);
    let prices = prices_of(case);
    each_agreed(case, &prices[..n], expected, scratch)
}

// A call agrees where it does with each length of scratch.
fn each_agreed(case: Case, prices: &[i64], expected: Expected, scratch: &mut [i64]) -> Agreed {
    let unit = unit_of(case);
    let mut agreed = Agreed {
        plan: true,
        value: true,
        report: true,
        assess: same_profits(case, unit, prices),
    };
    for number in 0..LENGTHS {
        let lent = lending::lent_of(case, number);
        let answer = expected_with(case, expected, lent);
        agreed = both(
            agreed,
            agreed_with(unit, prices, answer, lent, &mut *scratch),
        );
    }
    agreed
}

fn both(one: Agreed, other: Agreed) -> Agreed {
    Agreed {
        plan: one.plan & other.plan,
        value: one.value & other.value,
        report: one.report & other.report,
        assess: one.assess & other.assess,
    }
}

// Too few cells are found before any list is looked for.
fn expected_with(case: Case, expected: Expected, lent: Lent) -> Expected {
    match lent.used {
        Some(_) => expected,
        None => refused(refusal_of(case, u64::from(Refusal::Scratch))),
    }
}

// Where there are not so many cells to lend, no call agrees.
fn agreed_with(
    unit: UnitRecord,
    prices: &[i64],
    expected: Expected,
    lent: Lent,
    scratch: &mut [i64],
) -> Agreed {
    let cells = lent.cells;
    if scratch.len() < cells {
        return Agreed {
            plan: false,
            value: false,
            report: false,
            assess: true,
        };
    }
    let used = used_for(expected, lent);
    agreed_on_cells(unit, prices, expected, used, &mut scratch[..cells])
}

// That there is no schedule is found by planning; every other refusal comes before any work.
fn used_for(expected: Expected, lent: Lent) -> usize {
    match expected.answer {
        Ok(_) => lent.used.unwrap_or(0),
        Err(number) if number == u64::from(Refusal::NoSchedule) => lent.used.unwrap_or(0),
        Err(_) => 0,
    }
}

fn agreed_on_cells(
    unit: UnitRecord,
    prices: &[i64],
    expected: Expected,
    used: usize,
    scratch: &mut [i64],
) -> Agreed {
    Agreed {
        plan: left_by(
            &mut *scratch,
            used,
            |cells| same_plan(unit, prices, expected, cells),
        ),
        value: left_by(
            &mut *scratch,
            used,
            |cells| same_value(unit, prices, expected, cells),
        ),
        report: left_by(
            scratch,
            used,
            |cells| same_report(unit, prices, expected, cells),
        ),
        assess: true,
    }
}

// The cells are filled before a call, so that what it leaves shows.
fn left_by<Call: FnOnce(&mut [i64]) -> bool>(scratch: &mut [i64], used: usize, call: Call) -> bool
    requires { Call.IsAlwaysCallable call }
{
    lending::fill(&mut *scratch);
    let agrees = call(&mut *scratch);
    agrees & lending::is_left(&*scratch, used)
}

// ---- the case as the calls take it

// No From: both types are of other crates.
fn unit_of(case: Case) -> UnitRecord {
    let PerLimit { starts, hours, mwh } = case.limits;
    UnitRecord {
        generator: Generator {
            block: u64::from(case.block),
            pmin: u64::from(case.pmin),
            pmax: u64::from(case.pmax),
            mot: u64::from(case.mot),
            mdt: u64::from(case.mdt),
        },
        costs: Costs {
            vec: u64::from(case.vec),
            mlc: u64::from(case.mlc),
            suc: u64::from(case.suc),
        },
        opening: Opening {
            was: u64::from(case.was_on),
            held: u64::from(case.held),
        },
        limits: Limits {
            starts: starts.map(u64::from),
            hours: hours.map(u64::from),
            mwh: mwh.map(u64::from),
        },
        permit: case.allowed.map(window_of),
    }
}

// No From: both types are of other crates.
fn window_of(allowed: Allowed) -> Window {
    Window {
        date: Date {
            year: u64::from(allowed.year),
            month: u64::from(allowed.month),
            day: u64::from(allowed.day),
        },
        word: u64::from(allowed.word),
    }
}

fn prices_of(case: Case) -> [i64; ROOM] {
    case.up
        .map(|up| difference(u64::from(up), u64::from(case.down)))
}

// ---- one call each

pub fn same_plan(
    unit: UnitRecord,
    prices: &[i64],
    expected: Expected,
    scratch: &mut [i64],
) -> bool {
    let mut schedule = [UNTOUCHED; ROOM];
    let answer = planner::plan_into(unit, prices, scratch, &mut schedule);
    plan_agrees(answer, prices.len(), expected) & (schedule == expected.schedule)
}

fn plan_agrees(answer: Result<BestPlan, Cause>, intervals: usize, expected: Expected) -> bool {
    match (answer, expected.answer) {
        (Err(cause), Err(number)) => same_number(cause, number),
        (Ok(made), Ok(plan)) => (made.count == intervals) & (made.profit == plan.profit),
        _ => false,
    }
}

fn same_value(unit: UnitRecord, prices: &[i64], expected: Expected, scratch: &mut [i64]) -> bool {
    match (planner::value(unit, prices, scratch), expected.answer) {
        (Err(cause), Err(number)) => same_number(cause, number),
        (Ok(outcomes), Ok(plan)) => worths_of(outcomes) == plan.worths,
        _ => false,
    }
}

fn same_report(unit: UnitRecord, prices: &[i64], expected: Expected, scratch: &mut [i64]) -> bool {
    let mut schedule = [UNTOUCHED; ROOM];
    let answer = planner::report_into(unit, prices, scratch, &mut schedule);
    report_agrees(answer, prices.len(), expected) & (schedule == expected.schedule)
}

fn report_agrees(answer: Result<Report, Cause>, intervals: usize, expected: Expected) -> bool {
    match (answer, expected.answer) {
        (Err(cause), Err(number)) => same_number(cause, number),
        (Ok(report), Ok(plan)) => {
            (report.count == intervals)
                & (report.profit == plan.profit)
                & (worths_of(report.outcomes) == plan.worths)
        }
        _ => false,
    }
}

pub fn same_number(cause: Cause, number: u64) -> bool {
    u64::from(cause) == number
}

// Every list handed in, kept or not: it is passed with its profit, or refused as not kept or for a date that does not exist.
fn same_profits(case: Case, unit: UnitRecord, prices: &[i64]) -> bool {
    (0..enumerator::lists_of(case)).all(|number| same_profit(case, unit, prices, number))
}

fn same_profit(case: Case, unit: UnitRecord, prices: &[i64], number: u64) -> bool {
    let n = enumerator::intervals_of(case);
    let schedule = schedule_of(case, number);
    let answer = assessment::assess(unit, prices, &schedule[..n]);
    match (answer, enumerator::judged(case, number)) {
        (Err(cause), None) => same_number(cause, refusal_of(case, u64::from(Refusal::NotKept))),
        (Ok(profit), Some(found)) => profit == enumerator::profit_of(found),
        _ => false,
    }
}

// No From: both types are of other crates.
fn worths_of(outcomes: Outcomes) -> PerLimit<Worth> {
    PerLimit {
        starts: worth_of(outcomes.starts),
        hours: worth_of(outcomes.hours),
        mwh: worth_of(outcomes.mwh),
    }
}

// No From: both enums are of other crates, and share nothing.
fn worth_of(outcome: Outcome) -> Worth {
    match outcome {
        Outcome::None => Worth::None,
        Outcome::Empty => Worth::Empty,
        Outcome::Never => Worth::Never,
        Outcome::Gap(gap) => Worth::Gap(gap),
    }
}
