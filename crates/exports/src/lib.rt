// The C interface for hosts: numbers, slices and structs of numbers. A slice is a pointer and a length, in this order. Each call is the
// Rattle call of the same name with its record and its answer in numbers (mod numbers); none has a `requires`.

#![tactic(auto)]

mod numbers;

ghost use Rattle.std.specs.Prelude.{◌≡◌, length, true};
ghost use Rattle.commitment.specs.Cells.{cells_needed, cells_long};
ghost use Rattle.calendar.specs.Dates.{date};
ghost use Rattle.commitment.specs.Ranges.{case_checked};
ghost use Rattle.checking.specs.Clock.{clock_hour, clock_checked, hours_left};
ghost use Rattle.assessment.specs.Assessed.{assessed};
ghost use Rattle.casefile.specs.Answers.{read_case, read_prices};
ghost use Rattle.costs.specs.Answers.{costed};
ghost use Rattle.curves.specs.Answers.{room, curved, froms_left, tos_left, prices_left};
ghost use Rattle.listing.specs.Listing.{listing_written, listing_after, refusal, fitted, written_by, buffer_after};
ghost use Rattle.planner.specs.Planning.{planned, schedule_left, scratch_left};
ghost use Rattle.planner.specs.Reporting.{reported};
ghost use Rattle.planner.specs.Valuing.{valued, scratch_valued};
ghost use Rattle.exports.specs.Records.{record_of, outcomes_from, word_from};
ghost use Rattle.exports.specs.Answers.{assess_numbers, case_numbers, cells_numbers, clock_numbers, curve_numbers, figures_numbers, hours_numbers};
ghost use Rattle.exports.specs.Answers.{plan_numbers, report_numbers, value_numbers, written_numbers};

use calendar::Date;
use commitment::{Outcomes, UnitRecord};
use costs::CostInputs;
use curves::CurveInputs;
use numbers::{
    AssessNumbers, CaseNumbers, CellsNumbers, ClockNumbers, CurveNumbers, FiguresNumbers,
    HoursNumbers, OutcomesNumbers, PlanNumbers, ReportNumbers, UnitNumbers, ValueNumbers,
    WrittenNumbers,
};

// The text of a case into its record, its prices into the front of the slice.
#[unsafe(no_mangle)]
pub extern "C" fn ralwinga_read(text: &[u8], prices: &mut [i64]) -> CaseNumbers
    ensures value { result ≡ case_numbers (read_case text.now (length prices.old)) }
    ensures prices_after { prices.new ≡ read_prices text.now prices.old }
{
    CaseNumbers::from(casefile::read_into(text, prices))
}

// vec, suc and mlc.
#[unsafe(no_mangle)]
pub extern "C" fn ralwinga_figures(inputs: CostInputs, mws: &[u64], heats: &[u64]) -> FiguresNumbers
    ensures { result ≡ figures_numbers (costed inputs mws.now heats.now) }
{
    FiguresNumbers::from(costs::figures(inputs, mws, heats))
}

// The bid curve into the front of three lists, a segment in the same place of each.
#[unsafe(no_mangle)]
pub extern "C" fn ralwinga_curve(
    inputs: CurveInputs,
    levels: &[u64],
    rates: &[u64],
    froms: &mut [u64],
    tos: &mut [u64],
    prices: &mut [i64],
) -> CurveNumbers
    ensures value { result
        ≡ curve_numbers (curved inputs levels.now rates.now (room froms.old tos.old prices.old)) }
    ensures froms_after { froms.new
        ≡ froms_left inputs levels.now rates.now froms.old tos.old prices.old }
    ensures tos_after { tos.new
        ≡ tos_left inputs levels.now rates.now froms.old tos.old prices.old }
    ensures prices_after { prices.new
        ≡ prices_left inputs levels.now rates.now froms.old tos.old prices.old }
{
    CurveNumbers::from(curves::curve_into(inputs, levels, rates, froms, tos, prices))
}

// The profit of a schedule handed in.
#[unsafe(no_mangle)]
pub extern "C" fn ralwinga_assess(
    unit: UnitNumbers,
    prices: &[i64],
    schedule: &[u64],
) -> AssessNumbers
    ensures { result ≡ assess_numbers (assessed (record_of unit) prices.now schedule.now) }
{
    AssessNumbers::from(assessment::assess(UnitRecord::from(unit), prices, schedule))
}

// The cells of two layers, which a case of so many intervals needs, and of its long table; or 3, 4, 12 or 5. Its prices are not judged.
#[unsafe(no_mangle)]
pub extern "C" fn ralwinga_cells(unit: UnitNumbers, intervals: usize) -> CellsNumbers
    ensures { result
        ≡ cells_numbers (case_checked (record_of unit) true intervals) (cells_needed (record_of unit) intervals) (cells_long (record_of unit) intervals) }
{
    let record = UnitRecord::from(unit);
    match checking::check_case(record, true, intervals) {
        Ok(()) => CellsNumbers {
            number: 0,
            needed: budgets::cells_needed(record, intervals),
            table: budgets::cells_long(record, intervals),
        },
        Err(cause) => CellsNumbers {
            number: u64::from(cause),
            needed: 0,
            table: 0,
        },
    }
}

// The best plan into the front of the schedule slice.
#[unsafe(no_mangle)]
pub extern "C" fn ralwinga_plan(
    unit: UnitNumbers,
    prices: &[i64],
    scratch: &mut [i64],
    schedule: &mut [u64],
) -> PlanNumbers
    ensures value { result ≡ plan_numbers (planned (record_of unit) prices.now (length scratch.old) (length schedule.old)) }
    ensures schedule_after { schedule.new ≡ schedule_left (record_of unit) prices.now (length scratch.old) schedule.old }
    ensures scratch_after { scratch.new ≡ scratch_left (record_of unit) prices.now (length schedule.old) scratch.old }
{
    PlanNumbers::from(planner::plan_into(UnitRecord::from(unit), prices, scratch, schedule))
}

// The three outcomes.
#[unsafe(no_mangle)]
pub extern "C" fn ralwinga_value(
    unit: UnitNumbers,
    prices: &[i64],
    scratch: &mut [i64],
) -> ValueNumbers
    ensures value { result ≡ value_numbers (valued (record_of unit) prices.now (length scratch.old)) }
    ensures scratch_after { scratch.new ≡ scratch_valued (record_of unit) prices.now scratch.old }
{
    ValueNumbers::from(planner::value(UnitRecord::from(unit), prices, scratch))
}

// Plan and outcomes from one fill of the table.
#[unsafe(no_mangle)]
pub extern "C" fn ralwinga_report(
    unit: UnitNumbers,
    prices: &[i64],
    scratch: &mut [i64],
    schedule: &mut [u64],
) -> ReportNumbers
    ensures value { result ≡ report_numbers (reported (record_of unit) prices.now (length scratch.old) (length schedule.old)) }
    ensures schedule_after { schedule.new ≡ schedule_left (record_of unit) prices.now (length scratch.old) schedule.old }
    ensures scratch_after { scratch.new ≡ scratch_left (record_of unit) prices.now (length schedule.old) scratch.old }
{
    ReportNumbers::from(planner::report_into(UnitRecord::from(unit), prices, scratch, schedule))
}

// The clock hour of an interval, counted from 1, when interval 1 begins at the midnight of a date; or 3 or 12.
#[unsafe(no_mangle)]
pub extern "C" fn ralwinga_clock_hour(
    year: u64,
    month: u64,
    day: u64,
    interval: u64,
) -> ClockNumbers
    ensures { result ≡ clock_numbers (clock_hour (date year month day) interval) }
{
    ClockNumbers::from(checking::clock::clock_hour(Date { year, month, day }, interval))
}

// The clock hours of the first intervals, one in each entry of the slice; or 3 or 12, and the slice is as it was.
#[unsafe(no_mangle)]
pub extern "C" fn ralwinga_clock_hours(
    year: u64,
    month: u64,
    day: u64,
    hours: &mut [u64],
) -> HoursNumbers
    ensures value { result ≡ hours_numbers (clock_checked (date year month day) (length hours.old)) (length hours.old) }
    ensures hours_after { hours.new ≡ hours_left (date year month day) hours.old }
{
    let entries = hours.len();
    numbers::of_hours(
        checking::clock::hours_into(Date { year, month, day }, hours),
        entries,
    )
}

// The listing of a plan into the front of the buffer, with the hour word of its case, `none` where it has none.
#[unsafe(no_mangle)]
pub extern "C" fn ralwinga_listing(
    schedule: &[u64],
    profit: i64,
    outcomes: OutcomesNumbers,
    window: u64,
    out: &mut [u8],
) -> WrittenNumbers
    ensures value { result
        ≡ written_numbers (listing_written schedule.now profit (outcomes_from outcomes) (word_from window) (length out.old)) }
    ensures out_after { out.new ≡ listing_after schedule.now profit (outcomes_from outcomes) (word_from window) out.old }
{
    WrittenNumbers::from(listing::write_listing(
        schedule,
        profit,
        Outcomes::from(outcomes),
        numbers::word_from(window),
        out,
    ))
}

// The line of a refusal into the front of the buffer.
#[unsafe(no_mangle)]
pub extern "C" fn ralwinga_refusal(number: u64, out: &mut [u8]) -> WrittenNumbers
    ensures value { result ≡ written_numbers (written_by (fitted (length (refusal number)) (length out.old))) }
    ensures out_after { out.new ≡ buffer_after (refusal number) out.old }
{
    WrittenNumbers::from(listing::write_refusal(number, out))
}
