// Planning and valuing: the calls of the outside, none of which has a `requires`. Below them: what an answer holds (contents), what is
// found before any work (checks), a case that passed (cases), its first layer in the scratch that is used (models), and what is read from it (reading).

#![tactic(auto)]

mod cases;
mod checks;
pub mod contents;
mod models;
mod reading;

ghost use Rattle.std.specs.Prelude.{◌≡◌, length};
ghost use Rattle.commitment.specs.Causes.{answered_number};
ghost use Rattle.planner.specs.Planning.{planned, schedule_left, scratch_left, planned_profit, part_given};
ghost use Rattle.planner.specs.Reporting.{reported};
ghost use Rattle.planner.specs.Valuing.{valued, scratch_valued};

use commitment::{Cause, Outcomes, UnitRecord};

// The best plan: the intervals planned, whose outputs go into a slice that is lent, since nothing is allocated; and its profit.
#[derive(Clone, Copy)]
pub struct BestPlan {
    pub count: usize,
    pub profit: i64,
}

// The plan and the outcomes together.
#[derive(Clone, Copy)]
pub struct Report {
    pub count: usize,
    pub profit: i64,
    pub outcomes: Outcomes,
}

// The best plan, in the front of the schedule slice; or 3, 4, 12, 5, 7, 8 or 9.
pub fn plan_into(
    unit: UnitRecord,
    prices: &[i64],
    scratch: &mut [i64],
    schedule: &mut [u64],
) -> Result<BestPlan, Cause>
    ensures value { result ≡ planned unit prices.now (length scratch.old) (length schedule.old) }
    ensures schedule_after { schedule.new ≡ schedule_left unit prices.now (length scratch.old) schedule.old }
    ensures scratch_after { scratch.new ≡ scratch_left unit prices.now (length schedule.old) scratch.old }
{
    contents::plan_of(report_into(unit, prices, scratch, schedule))
}

// The three outcomes; or 3, 4, 12, 5, 8 or 9.
pub fn value(unit: UnitRecord, prices: &[i64], scratch: &mut [i64]) -> Result<Outcomes, Cause>
    ensures value { result ≡ valued unit prices.now (length scratch.old) }
    ensures scratch_after { scratch.new ≡ scratch_valued unit prices.now scratch.old }
{
    checks::check_lent(unit, prices, true, scratch.len())?;
    cases::value_case(unit, prices, scratch)
}

// Plan and outcomes together.
pub fn report_into(
    unit: UnitRecord,
    prices: &[i64],
    scratch: &mut [i64],
    schedule: &mut [u64],
) -> Result<Report, Cause>
    ensures value { result ≡ reported unit prices.now (length scratch.old) (length schedule.old) }
    ensures schedule_after { schedule.new ≡ schedule_left unit prices.now (length scratch.old) schedule.old }
    ensures scratch_after { scratch.new ≡ scratch_left unit prices.now (length schedule.old) scratch.old }
{
    let long = prices.len() <= schedule.len();
    checks::check_lent(unit, prices, long, scratch.len())?;
    cases::report_case(unit, prices, scratch, schedule)
}

// The best plan as the filled front part of the caller's own slice, empty on a refusal. The number and the profit go through references, since its clauses
// `number_after` and `profit_after` hold of an outside call.
pub fn plan<'a>(
    unit: UnitRecord,
    prices: &[i64],
    scratch: &mut [i64],
    schedule: &'a mut [u64],
    number: &mut u64,
    profit: &mut i64,
) -> &'a mut [u64]
    ensures result_value { result.now ≡ part_given unit prices.now (length scratch.old) (length schedule.old) }
    ensures ref_ptr_value { result.ref_ptr ≡ schedule.entry.ref_ptr }
    ensures number_after { number.new
        ≡ answered_number (planned unit prices.now (length scratch.old) (length schedule.old)) }
    ensures profit_after { profit.new
        ≡ planned_profit (planned unit prices.now (length scratch.old) (length schedule.old)) }
    ensures scratch_after { scratch.new ≡ scratch_left unit prices.now (length schedule.old) scratch.old }
{
    let answer = plan_into(unit, prices, scratch, &mut *schedule);
    *number = commitment::number_in(&answer);
    *profit = contents::planned_profit(answer);
    let count = contents::planned_count(answer);
    &mut schedule[..count]
}
