// The plan, month by month from the first. The layer of the next month says what every cell is worth at a month's end; the month's outputs are then a plan up
// to that layer in the month's box, and the next month goes on from the cell where they lead.

ghost use Rattle.std.specs.Prelude.{◌≡◌, ◌+◌, ◌≤◌, ◌<◌, length, drop};
ghost use Rattle.optimality.specs.Cells.{Sound};
ghost use Rattle.intervals.specs.Stretches.{Apart};
ghost use Rattle.halving.specs.Tasks.{Untouched};
ghost use Rattle.halving.specs.Reaching.{LegAsked, RunsTo};
ghost use Rattle.months.specs.Annual.{ChainAsked, Stands};
ghost use Rattle.months.specs.Planning.{frame_of, MonthPlanAsked, MonthPlanned, Stood, NextAsked, Kept, PlanAsked, Planned};

use crate::annual::Year;
use crate::{annual, boxes};
use commitment::windows::Allowed;
use halving::ahead;
use halving::ahead::{Leg, Reached};
use marks::Frame;
use optimality::{Budgets, Cell, Figures};

fn frame_of(figures: Figures, hours: Option<Allowed>) -> Frame
    requires { Sound figures }
    ensures { result ≡ frame_of figures hours }
{
    Frame {
        figures,
        width: geometry::layer_cells(figures),
        hours,
    }
}

// A plan up to the layer that stands at a place of the scratch.
fn plan_in(
    cells: &mut [i64],
    work: usize,
    room: usize,
    g: Frame,
    prices: &[i64],
    l: Leg,
    schedule: &mut [u64],
) -> Reached
    requires { (LegAsked g (drop work cells.old) prices.now room l (length schedule.old)) × (work ≤ length cells.old) }
    ensures runs_to { RunsTo g prices.now l (drop work cells.old) schedule.old schedule.new result }
    ensures apart { Apart cells.old cells.new work room }
{
    ahead::plan_to(&mut cells[work..], room, g, prices, l, schedule)
}

// Month k from a cell of the year: where it leads, and how many outputs were tried.
fn plan_month(
    cells: &mut [i64],
    y: Year,
    prices: &[i64],
    cuts: &[usize],
    k: usize,
    at: Cell,
    schedule: &mut [u64],
) -> Reached
    requires { MonthPlanAsked y cells.old prices.now cuts.now k at (length schedule.old) }
    ensures month_planned { MonthPlanned y prices.now cuts.now k at schedule.old schedule.new result }
    ensures apart { Apart cells.old cells.new y.work y.room }
{
    let m = annual::month_at(y, cuts, k);
    let f = y.figures;
    let above = boxes::over_of(m.cap, at);
    let after = annual::place_of(y, k + 1);
    boxes::enter(&mut *cells, f, m.cap, above, after, y.work);
    let g = frame_of(boxes::with_most(f, m.cap), y.hours);
    let leg = Leg {
        from: m.from,
        to: m.to,
        cell: boxes::box_of(m.cap, at),
    };
    let end = plan_in(cells, y.work, y.room, g, prices, leg, schedule);
    Reached {
        cell: boxes::raised(f, above, end.cell),
        ..end
    }
}

// The layer of month k. Where two places take turns, the layers before it took its place: it is made anew.
fn stand(cells: &mut [i64], y: Year, prices: &[i64], cuts: &[usize], k: usize)
    requires { (ChainAsked y (length cells.old) prices.now cuts.now) × (k + 1 < length cuts.now) × (Stood y prices.now cuts.now cells.old k) }
    ensures stands { Stands y prices.now cuts.now cells.new (k + 1) }
    ensures kept { Kept y prices.now cuts.now k cells.old cells.new }
{
    if !y.all {
        annual::chain(cells, y, prices, cuts, k + 1);
    }
}

// Month k, by the layer of the next.
fn next_month(
    cells: &mut [i64],
    y: Year,
    prices: &[i64],
    cuts: &[usize],
    k: usize,
    at: Cell,
    schedule: &mut [u64],
) -> Reached
    requires { NextAsked y cells.old prices.now cuts.now k at (length schedule.old) }
    ensures month_planned { MonthPlanned y prices.now cuts.now k at schedule.old schedule.new result }
    ensures kept { Kept y prices.now cuts.now k cells.old cells.new }
{
    stand(&mut *cells, y, prices, cuts, k);
    plan_month(cells, y, prices, cuts, k, at, schedule)
}

// All months from a cell that has a plan: the best plan, in the front of the schedule, and how many outputs were tried for it.
pub fn plan_year(
    cells: &mut [i64],
    y: Year,
    prices: &[i64],
    cuts: &[usize],
    from: Cell,
    schedule: &mut [u64],
) -> usize
    requires { PlanAsked y cells.old prices.now cuts.now from (length schedule.old) }
    ensures planned { Planned y prices.now cuts.now from schedule.old schedule.new result }
    ensures untouched { Untouched (y.work + y.room) cells.old cells.new }
{
    let mut at = from;
    let mut tries = 0;
    for k in 0..cuts.len() - 1 {
        let r = next_month(cells, y, prices, cuts, k, at, schedule);
        at = r.cell;
        tries += r.tries;
    }
    tries
}
