// Plans from two layers of scratch (specification 14), by halves. A task is the prices from one interval on to another, a cell to start from, and an
// end. Where a table of its own budgets fits, it is filled and read off (`leaf`). Else one pass gives the best profit of every cell and, for each, the
// cell where its plan stands at the middle (crates `pair`, `marks`); the earlier half is then solved from what the plan spends in it, to end there with
// nothing left, and the later half from there to the task's own end. Budgets of the halves add up to those of the whole, so all passes together
// cost about two fills of the table. mod ahead: a plan up to a layer that stands.

#![tactic(auto)]

pub mod ahead;

ghost use Rattle.std.specs.Prelude.{◌≡◌, [], ◌++◌, ◌+◌, ◌-◌, ◌*◌, ◌≤◌, ◌<◌, pos, nat_abs, length, drop, None};
ghost use Rattle.commitment.specs.Best.{schedule_of};
ghost use Rattle.commitment.specs.Tries.{tries_over};
ghost use Rattle.optimality.specs.Machine.{anywhere};
ghost use Rattle.optimality.specs.Cells.{Sound, Within, InTable, plan_at, value_at};
ghost use Rattle.geometry.specs.Geometry.{width};
ghost use Rattle.geometry.specs.Layers.{Layer, stored_at};
ghost use Rattle.layers.specs.Filling.{quarters_in, Beyond};
ghost use Rattle.intervals.specs.Stretches.{Apart};
ghost use Rattle.marks.specs.Standing as standing;
ghost use Rattle.halving.specs.Tasks.{near, ends_by, Reachable, Untouched, TaskAsked, Leaf, PassAsked, Halved, Halves, MarkKept, MarkedWith, Solved};
ghost use Rattle.halving.specs.Tasks.{CaseAsked, FirstPass, early_half, late_half};
ghost use Rattle.halving.specs.Tasks as tasks;

use commitment::windows::Allowed;
use geometry::INFEASIBLE;
use intervals::rows;
use marks::{Frame, passes};
use optimality::{Budgets, Cell, Figures};

// Values and marks of the cells that `marks` works out aside at a time.
const BUFFER: usize = 1024;

// The cells of a table that is filled aside, where it has no more: as many as the buffers of a pass together, so that the stack takes no more for it.
const NEAR: usize = 2048;

// The prices from one interval on to another, a cell to start from, and the state in which the plan ends with nothing left; or it may end in any cell.
#[derive(Clone, Copy)]
pub struct Task {
    pub from: usize,
    pub to: usize,
    pub cell: Cell,
    pub end: Option<usize>,
}

// What a plan spends between two cells, left to a cell in the first's state.
fn spent(c: Cell, at: Cell) -> Cell
    requires { Within at.left c.left }
    ensures { result ≡ standing.spent c at }
{
    Cell {
        left: Budgets {
            starts: c.left.starts - at.left.starts,
            ons: c.left.ons - at.left.ons,
            blocks: c.left.blocks - at.left.blocks,
        },
        ..c
    }
}

// The interval in the middle.
fn midway(from: usize, to: usize) -> usize
    requires { from ≤ to }
    ensures { result ≡ tasks.midway from to }
{
    from + (to - from) / 2
}

// The layer after the last interval: 0 where a plan may end.
pub fn put_end(cells: &mut [i64], at: usize, w: usize, f: Figures, end: Option<usize>)
    requires { (Sound f) × (w ≡ width f) × (at + w ≤ length cells.old) × (Reachable f end) }
    ensures layer { Layer f (ends_by end) [] (stored_at f cells.new at) }
    ensures apart { Apart cells.old cells.new at w }
{
    match end {
        None => rows::put(cells, at, w, 0),
        Some(s) => {
            rows::put(&mut *cells, at, w, INFEASIBLE);
            cells[at + s * geometry::section_cells(f)] = 0;
        }
    }
}

// The first layer of so many intervals, and for every cell the number of the cell where its plan stands at the middle.
fn pass(cells: &mut [i64], g: Frame, prices: &[i64], from: usize, to: usize, end: Option<usize>)
    requires { PassAsked g prices.now from to end (length cells.old) }
    ensures { Halved g prices.now from to end cells.old cells.new }
{
    let mut begun = [0i64; BUFFER];
    let mut ran = [0i64; BUFFER];
    let (f, w) = (g.figures, g.width);
    let at = midway(from, to);
    put_end(&mut *cells, w, w, f, end);
    pair::roll(&mut *cells, w, f, prices, g.hours, at, to);
    passes::mark(cells, g, prices, from, at, &mut begun, &mut ran);
}

// A signed number that is not below 0 as a natural one.
fn natural(x: i64) -> u64
    requires { x ≡ pos (nat_abs x) }
    ensures { result ≡ nat_abs x }
{
    x as u64
}

// The cell that a cell is marked with.
fn marked(cells: &[i64], w: usize, f: Figures, c: Cell) -> Cell
    requires { (Sound f) × (InTable f c) × (w + width f ≤ length cells.now) × (MarkKept f w cells.now c) }
    ensures { MarkedWith f w cells.now c result }
{
    let number = natural(cells[w + geometry::index(f, c)]);
    geometry::cell_of(f, number as usize)
}

// A task whose table fits: filled and read off.
fn leaf(cells: &mut [i64], g: Frame, prices: &[i64], t: Task, schedule: &mut [u64]) -> usize
    requires { Leaf g prices.now t (length cells.old) (length schedule.old) }
    ensures solved { Solved g.figures prices.now g.hours t schedule.old schedule.new result }
    ensures untouched { Untouched ((t.to - t.from + 1) * g.width) cells.old cells.new }
{
    let (f, w) = (g.figures, g.width);
    put_end(&mut *cells, (t.to - t.from) * w, w, f, t.end);
    let quarters = &prices[t.from..t.to];
    layers::fill(&mut *cells, w, f, quarters, g.hours, t.from);
    table::read_off(&cells[..], w, f, quarters, t.cell, &mut schedule[t.from..])
}

// The same in cells of its own, which only this frame has.
fn near_leaf(g: Frame, prices: &[i64], t: Task, schedule: &mut [u64]) -> usize
    requires { Leaf g prices.now t near (length schedule.old) }
    ensures { Solved g.figures prices.now g.hours t schedule.old schedule.new result }
{
    let mut cells = [0i64; NEAR];
    leaf(&mut cells, g, prices, t, schedule)
}

// The half before the middle, where the plan stands in `at`: from what it spends there, to end in its state with nothing left.
fn early_half(t: Task, mid: usize, at: Cell) -> Task
    requires { Within at.left t.cell.left }
    ensures { result ≡ early_half t mid at }
{
    Task {
        to: mid,
        cell: spent(t.cell, at),
        end: Some(at.state),
        ..t
    }
}

// The half behind it: from that cell to the task's own end.
fn late_half(t: Task, mid: usize, at: Cell) -> Task
    ensures { result ≡ late_half t mid at }
{
    Task {
        from: mid,
        cell: at,
        ..t
    }
}

// A task's plan, in its place of the schedule, and how many outputs were tried for it. `room` cells are at hand.
#[cycle(halves_solve)]
fn solve(
    cells: &mut [i64],
    room: usize,
    f: Figures,
    prices: &[i64],
    hours: Option<Allowed>,
    t: Task,
    schedule: &mut [u64],
) -> usize
    requires { TaskAsked f prices.now hours room t (length cells.old) (length schedule.old) }
    ensures solved { Solved f prices.now hours t schedule.old schedule.new result }
    ensures untouched { Untouched room cells.old cells.new }
{
    // More than the cell's own budgets is never left on the way from it.
    let figures = Figures {
        most: t.cell.left,
        ..f
    };
    let width = geometry::layer_cells(figures);
    let g = Frame {
        figures,
        width,
        hours,
    };
    let layers = t.to - t.from + 1;
    if width <= room / layers {
        return leaf(cells, g, prices, t, schedule);
    }
    if width <= NEAR / layers {
        return near_leaf(g, prices, t, schedule);
    }
    pass(&mut *cells, g, prices, t.from, t.to, t.end);
    halves(cells, room, g, prices, t, schedule)
}

// The same after the pass: the plan's cell at the middle is marked, and each half is a task.
#[cycle(halves_solve)]
fn halves(
    cells: &mut [i64],
    room: usize,
    g: Frame,
    prices: &[i64],
    t: Task,
    schedule: &mut [u64],
) -> usize
    requires { Halves g prices.now room t cells.old (length schedule.old) }
    ensures solved { Solved g.figures prices.now g.hours t schedule.old schedule.new result }
    ensures untouched { Untouched room cells.old cells.new }
{
    let f = g.figures;
    let at = marked(&cells[..], g.width, f, t.cell);
    let mid = midway(t.from, t.to);
    let first = early_half(t, mid, at);
    let second = late_half(t, mid, at);
    let early = solve(&mut *cells, room, f, prices, g.hours, first, &mut *schedule);
    let late = solve(cells, room, f, prices, g.hours, second, schedule);
    early + late
}

// The first pass over a whole case: the first layer in front, and behind it where the plans stand at the middle.
pub fn first_pass(cells: &mut [i64], w: usize, f: Figures, prices: &[i64], hours: Option<Allowed>)
    requires { CaseAsked f prices.now hours w (length cells.old) }
    ensures first_pass { FirstPass f prices.now hours w cells.new }
    ensures beyond { Beyond (w + w) cells.old cells.new }
{
    let g = Frame {
        figures: f,
        width: w,
        hours,
    };
    pass(cells, g, prices, 0, prices.len(), None);
}

// The best plan from a cell that has one, in the front of the schedule, and how many outputs were tried for it.
pub fn plan_from(
    cells: &mut [i64],
    w: usize,
    f: Figures,
    prices: &[i64],
    hours: Option<Allowed>,
    from: Cell,
    schedule: &mut [u64],
) -> usize
    requires case_asked { (CaseAsked f prices.now hours w (length cells.old)) × (FirstPass f prices.now hours w cells.old) × (InTable f from) }
    requires in_bounds { (2 ≤ length prices.now) × (length prices.now ≤ length schedule.old) }
    requires fact { value_at f anywhere (quarters_in hours prices.now) from ≡ None → ⊥ }
    ensures value { result ≡ tries_over f.block f.pmin (schedule_of (plan_at f anywhere (quarters_in hours prices.now) from)) }
    ensures schedule_after { schedule.new
        ≡ schedule_of (plan_at f anywhere (quarters_in hours prices.now) from) ++ drop (length prices.now) schedule.old }
    ensures beyond { Beyond (w + w) cells.old cells.new }
{
    let g = Frame {
        figures: f,
        width: w,
        hours,
    };
    let task = Task {
        from: 0,
        to: prices.len(),
        cell: from,
        end: None,
    };
    halves(cells, w + w, g, prices, task, schedule)
}
