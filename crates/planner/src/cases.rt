// A case that passed its checks: its first layer is brought to the front and read, and the cells used are cleared.

ghost use Rattle.std.specs.Prelude.{◌≡◌, true, ◌≤◌, length, Ok};
ghost use Rattle.commitment.specs.Best.{best};
ghost use Rattle.commitment.specs.Cells.{cells_used};
ghost use Rattle.commitment.specs.Valuing.{outcomes_of};
ghost use Rattle.planner.specs.Planning.{lent_checked, schedule_checked, schedule_after, scratch_after};
ghost use Rattle.planner.specs.Reporting.{reported_by};
ghost use Rattle.planner.specs.Valuing.{valued_by};

use crate::{Report, models, reading};
use commitment::{Cause, Outcomes, UnitRecord};
use valuation::Runs;

// A plan is read here, so that the pass through two layers marks the middle.
pub fn report_case(
    unit: UnitRecord,
    prices: &[i64],
    scratch: &mut [i64],
    schedule: &mut [u64],
) -> Result<Report, Cause>
    requires { (lent_checked unit prices.now true (length scratch.old) ≡ Ok tt) × (length prices.now ≤ length schedule.old) }
    ensures value { result ≡ reported_by (schedule_checked unit prices.now) (best unit prices.now) (outcomes_of unit prices.now) }
    ensures schedule_after { schedule.new
        ≡ schedule_after (schedule_checked unit prices.now) (best unit prices.now) schedule.old }
    ensures scratch_after { scratch.new
        ≡ scratch_after (Ok tt) (cells_used unit (length prices.now) (length scratch.old)) scratch.old }
{
    let model = models::model_of(unit, prices, scratch.len());
    models::first_layer(unit, model, prices, &mut *scratch, true);
    let answer = reading::read_report(unit, model, prices, &mut *scratch, schedule);
    let used = models::cells_used(unit, prices.len(), model.long);
    layers::clear(scratch, used);
    answer
}

// No plan is read here, and nothing is marked.
pub fn value_case(unit: UnitRecord, prices: &[i64], scratch: &mut [i64]) -> Result<Outcomes, Cause>
    requires { lent_checked unit prices.now true (length scratch.old) ≡ Ok tt }
    ensures value { result ≡ valued_by (schedule_checked unit prices.now) (outcomes_of unit prices.now) }
    ensures scratch_after { scratch.new
        ≡ scratch_after (Ok tt) (cells_used unit (length prices.now) (length scratch.old)) scratch.old }
{
    let model = models::model_of(unit, prices, scratch.len());
    models::first_layer(unit, model, prices, &mut *scratch, false);
    let answer = reading::read_outcomes(&Runs {
        unit,
        figures: model.figures,
        prices,
        cells: &scratch[..],
    });
    let used = models::cells_used(unit, prices.len(), model.long);
    layers::clear(scratch, used);
    answer
}
