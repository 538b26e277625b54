// What the first layer tells: profit and outcomes; and the plan that follows from it.

ghost use Rattle.std.specs.Prelude.{◌≡◌, ◌≤◌, length, None, Ok};
ghost use Rattle.commitment.specs.Best.{best, profit_of};
ghost use Rattle.commitment.specs.Tries.{plan_tries};
ghost use Rattle.commitment.specs.Cells.{cells_used};
ghost use Rattle.commitment.specs.Valuing.{outcomes_of};
ghost use Rattle.layers.specs.Filling.{Beyond};
ghost use Rattle.planner.specs.Planning.{schedule_checked, schedule_after};
ghost use Rattle.planner.specs.Reporting.{reported_by};
ghost use Rattle.planner.specs.Models.{Ready};
ghost use Rattle.planner.specs.Valuing.{valued_by};

use crate::Report;
use crate::models::Model;
use commitment::{Cause, Outcomes, UnitRecord};
use valuation::Runs;

// Profit and outcomes come first: in two layers the plan is worked out in their place.
pub fn read_report(
    unit: UnitRecord,
    model: Model,
    prices: &[i64],
    scratch: &mut [i64],
    schedule: &mut [u64],
) -> Result<Report, Cause>
    requires { (Ready unit prices.now model scratch.old) × (length prices.now ≤ length schedule.old) }
    ensures value { result ≡ reported_by (schedule_checked unit prices.now) (best unit prices.now) (outcomes_of unit prices.now) }
    ensures schedule_after { schedule.new
        ≡ schedule_after (schedule_checked unit prices.now) (best unit prices.now) schedule.old }
    ensures beyond { Beyond (cells_used unit (length prices.now) (length scratch.old)) scratch.old scratch.new }
{
    let runs = Runs {
        unit,
        figures: model.figures,
        prices,
        cells: &scratch[..],
    };
    let profit = runs.whole_profit().ok_or(Cause::NoSchedule)?;
    let outcomes = runs.outcomes();
    read_plan(unit, model, prices, scratch, schedule);
    Ok(Report {
        count: prices.len(),
        profit,
        outcomes,
    })
}

// The plan of a case that has one, into the schedule's front, and how many outputs were tried for it: read off the long table, or worked out by halves.
fn read_plan(
    unit: UnitRecord,
    model: Model,
    prices: &[i64],
    scratch: &mut [i64],
    schedule: &mut [u64],
) -> usize
    requires ready { (Ready unit prices.now model scratch.old) × (length prices.now ≤ length schedule.old) }
    requires fact { profit_of (best unit prices.now) ≡ None → ⊥ }
    ensures value { result ≡ plan_tries unit prices.now }
    ensures schedule_after { schedule.new ≡ schedule_after (Ok tt) (best unit prices.now) schedule.old }
    ensures beyond { Beyond (cells_used unit (length prices.now) (length scratch.old)) scratch.old scratch.new }
{
    let f = model.figures;
    let w = model.width;
    let hours = model.hours;
    let from = budgets::opening_cell(unit, prices.len());
    if model.long {
        return table::read_off(&scratch[..], w, f, prices, from, schedule);
    }
    halving::plan_from(scratch, w, f, prices, hours, from, schedule)
}

// 9 where the case has no schedule; else all runs from this one layer.
pub fn read_outcomes(runs: &Runs) -> Result<Outcomes, Cause>
    ensures { result ≡ valued_by (schedule_checked runs.now.unit runs.now.prices.now) (outcomes_of runs.now.unit runs.now.prices.now) }
{
    runs.whole_profit().ok_or(Cause::NoSchedule)?;
    Ok(runs.outcomes())
}
