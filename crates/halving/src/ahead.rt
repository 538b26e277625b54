// A plan up to a layer that stands: what every cell is worth where the prices end, as a later month makes it. One pass marks for each cell the one where its
// plan ends; the plan is then a task from what it spends, to end in that state with nothing left.

ghost use Rattle.std.specs.Prelude.{length};
ghost use Rattle.layers.specs.Filling.{quarters_in, between};
ghost use Rattle.marks.specs.Standing.{SweepAsked, Numbered};
ghost use Rattle.halving.specs.Tasks.{Untouched};
ghost use Rattle.halving.specs.Reaching.{LegAsked, RunsTo};

use crate::{BUFFER, Task};
use marks::{Frame, passes};
use optimality::Cell;

// The prices from one interval on to another, and a cell to start from.
#[derive(Clone, Copy)]
pub struct Leg {
    pub from: usize,
    pub to: usize,
    pub cell: Cell,
}

// Where a plan ends, and how many outputs were tried for it.
#[derive(Clone, Copy)]
pub struct Reached {
    pub cell: Cell,
    pub tries: usize,
}

// The buffers are this frame's alone.
fn mark_ends(cells: &mut [i64], g: Frame, prices: &[i64], from: usize, to: usize)
    requires { SweepAsked g cells.old prices.now from to }
    ensures { Numbered g.figures g.width cells.old cells.new
        (between (quarters_in g.hours prices.now) from to) }
{
    let mut begun = [0i64; BUFFER];
    let mut ran = [0i64; BUFFER];
    passes::mark(cells, g, prices, from, to, &mut begun, &mut ran);
}

// The best plan, in its place of the schedule. `room` cells are at hand, and the layer stands in front of them.
pub fn plan_to(
    cells: &mut [i64],
    room: usize,
    g: Frame,
    prices: &[i64],
    l: Leg,
    schedule: &mut [u64],
) -> Reached
    requires { LegAsked g cells.old prices.now room l (length schedule.old) }
    ensures runs_to { RunsTo g prices.now l cells.old schedule.old schedule.new result }
    ensures untouched { Untouched room cells.old cells.new }
{
    let f = g.figures;
    mark_ends(&mut *cells, g, prices, l.from, l.to);
    let at = crate::marked(&cells[..], g.width, f, l.cell);
    let task = Task {
        from: l.from,
        to: l.to,
        cell: crate::spent(l.cell, at),
        end: Some(at.state),
    };
    let tries = crate::solve(cells, room, f, prices, g.hours, task, schedule);
    Reached { cell: at, tries }
}
