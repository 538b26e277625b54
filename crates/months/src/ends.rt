// The layer at the beginning of a month from the one at its end, for every budget of the year: one roll over the month for each state at its end. The roll
// says what the best way to that state earns, by what it spends; from every cell of the year that has as much left the way leads to one of the layer
// at the month's end.

ghost use Rattle.std.specs.Prelude.{◌≡◌, [], ◌+◌, ◌≤◌, ◌<◌, pos, length, get_or};
ghost use Rattle.commitment.specs.Bounds.{most_intervals};
ghost use Rattle.optimality.specs.Cells.{Sound, Within, states, with_most};
ghost use Rattle.geometry.specs.Geometry.{width, cell_of};
ghost use Rattle.geometry.specs.Layers.{told, Layer, stored_at};
ghost use Rattle.intervals.specs.Stretches.{Apart, Raised};
ghost use Rattle.layers.specs.Filling.{quarters_in, between};
ghost use Rattle.marks.specs.Standing.{ends_in};
ghost use Rattle.months.specs.Chaining.{MonthAsked, MonthMade};
ghost use Rattle.months.specs.Ending.{RowAsked, WayAsked, Brought, InRow, InSpan, InSection};
ghost use Rattle.months.specs.Ending as ending;
ghost use Rattle.months.specs.Ending.{shifted_way};
ghost use Rattle.months.specs.Ending.{TakeAsked, Taken, WaysAsked, WaysTaken, EndAsked, EndsTaken};

use crate::chains::{Month, Places};
use crate::{boxes, chains};
use commitment::windows::Allowed;
use geometry::INFEASIBLE;
use intervals::rows;
use optimality::{Budgets, Cell, Figures};

// A way through a month: from a cell of its box, all of which it spends, to a state; and what it earns.
#[derive(Clone, Copy)]
pub struct Way {
    pub from: Cell,
    pub to: usize,
    pub gain: i64,
}

// Each number raised to another plus the gain, where that is larger.
// `intervals::rows::raise` takes its sources from behind; the year's two layers take turns, so here they may lie before (`RowAsked`).
fn raise_row(cells: &mut [i64], to: usize, from: usize, count: usize, gain: i64)
    requires { RowAsked cells.old to from count gain }
    ensures { Raised cells.old cells.new to from count gain }
{
    for i in 0..count {
        cells[to + i] = integers::larger(cells[to + i], cells[from + i] + gain);
    }
}

// The way taken from the cells of one row.
fn raise_at(cells: &mut [i64], f: Figures, at: Places, w: Way, x: usize, y: usize)
    requires { (WayAsked f cells.old at w) × (w.from.left.starts ≤ x) × (x ≤ f.most.starts) × (w.from.left.ons ≤ y) × (y ≤ f.most.ons) }
    ensures { Brought f at w (InRow w x y) cells.old cells.new }
{
    let spent = w.from.left;
    let high = Cell {
        state: w.from.state,
        left: Budgets {
            starts: x,
            ons: y,
            blocks: spent.blocks,
        },
    };
    let low = Cell {
        state: w.to,
        left: Budgets {
            starts: x - spent.starts,
            ons: y - spent.ons,
            blocks: 0,
        },
    };
    let to = at.here + geometry::index(f, high);
    let from = at.after + geometry::index(f, low);
    raise_row(cells, to, from, f.most.blocks - spent.blocks + 1, w.gain);
}

// Of one span.
fn raise_span(cells: &mut [i64], f: Figures, at: Places, w: Way, x: usize)
    requires { (WayAsked f cells.old at w) × (w.from.left.starts ≤ x) × (x ≤ f.most.starts) }
    ensures { Brought f at w (InSpan w x (f.most.ons + 1)) cells.old cells.new }
{
    for y in w.from.left.ons..=f.most.ons {
        raise_at(cells, f, at, w, x, y);
    }
}

// Of all that have as much left.
fn raise_by(cells: &mut [i64], f: Figures, at: Places, w: Way)
    requires { WayAsked f cells.old at w }
    ensures { Brought f at w (InSection w (f.most.starts + 1)) cells.old cells.new }
{
    for x in w.from.left.starts..=f.most.starts {
        raise_span(cells, f, at, w, x);
    }
}

// Budgets one place on: where blocks are not limited a row has one cell, and on-intervals taken for blocks make a span one row.
fn shifted(b: Budgets) -> Budgets
    ensures { result ≡ ending.shifted b }
{
    Budgets {
        starts: 0,
        ons: b.starts,
        blocks: b.ons,
    }
}

fn shifted_way(w: Way) -> Way
    ensures { result ≡ shifted_way w }
{
    Way {
        from: Cell {
            left: shifted(w.from.left),
            ..w.from
        },
        ..w
    }
}

// The same with spans for rows, where a row has one cell.
fn raise_spans(cells: &mut [i64], f: Figures, at: Places, w: Way)
    requires { WayAsked f cells.old at w }
    ensures { Brought f at w (InSection w (f.most.starts + 1)) cells.old cells.new }
{
    if 0 < f.most.blocks {
        raise_by(cells, f, at, w);
        return;
    }
    raise_by(
        cells,
        boxes::with_most(f, shifted(f.most)),
        at,
        shifted_way(w),
    );
}

// The same with sections for rows, where a span has one cell as well.
fn raise_all(cells: &mut [i64], f: Figures, at: Places, w: Way)
    requires { WayAsked f cells.old at w }
    ensures { Brought f at w (InSection w (f.most.starts + 1)) cells.old cells.new }
{
    if 0 < f.most.blocks {
        raise_by(cells, f, at, w);
        return;
    }
    raise_spans(
        cells,
        boxes::with_most(f, shifted(f.most)),
        at,
        shifted_way(w),
    );
}

// The same where there is such a way.
fn take(cells: &mut [i64], f: Figures, at: Places, from: Cell, to: usize, earned: Option<i64>)
    requires { TakeAsked f cells.old at from to earned }
    ensures { Taken f at from to earned cells.old cells.new }
{
    if let Some(gain) = earned {
        raise_all(cells, f, at, Way { from, to, gain });
    }
}

// The best way to a state that spends the j-th cell of the box.
fn take_one(cells: &mut [i64], f: Figures, cap: Budgets, at: Places, to: usize, j: usize)
    requires { (WaysAsked f cap cells.old at to) × (j < width (with_most f cap)) }
    ensures { Taken f at (cell_of (with_most f cap) j) to (told (get_or cells.old (at.work + j) (pos 0))) cells.old cells.new }
{
    let from = geometry::cell_of(boxes::with_most(f, cap), j);
    let earned = geometry::told(cells[at.work + j]);
    take(cells, f, at, from, to, earned);
}

// All the best ways to a state.
fn take_all(cells: &mut [i64], f: Figures, cap: Budgets, at: Places, to: usize)
    requires { WaysAsked f cap cells.old at to }
    ensures { WaysTaken f cap at to (width (with_most f cap)) cells.old cells.new }
{
    for j in 0..geometry::layer_cells(boxes::with_most(f, cap)) {
        take_one(cells, f, cap, at, to, j);
    }
}

// One state at the month's end: the month rolled to it, and its ways taken.
fn one_end(
    cells: &mut [i64],
    f: Figures,
    prices: &[i64],
    hours: Option<Allowed>,
    m: Month,
    at: Places,
    t: usize,
)
    requires { EndAsked f cells.old prices.now hours m at t }
    ensures { EndsTaken f (between (quarters_in hours prices.now) m.from m.to) m at t (t + 1) cells.old cells.new }
{
    let g = boxes::with_most(f, m.cap);
    let w = geometry::layer_cells(g);
    halving::put_end(&mut *cells, at.work + w, w, g, Some(t));
    chains::roll_box(&mut *cells, g, prices, hours, m, at.work);
    take_all(cells, f, m.cap, at, t);
}

// All states.
fn all_ends(
    cells: &mut [i64],
    f: Figures,
    prices: &[i64],
    hours: Option<Allowed>,
    m: Month,
    at: Places,
)
    requires { MonthAsked f cells.old prices.now hours m at }
    ensures { EndsTaken f (between (quarters_in hours prices.now) m.from m.to) m at 0 (states f) cells.old cells.new }
{
    for t in 0..f.mot + f.mdt {
        one_end(cells, f, prices, hours, m, at, t);
    }
}

// All cells of the year, by the states at the month's end.
pub fn before_month_by_ends(
    cells: &mut [i64],
    f: Figures,
    prices: &[i64],
    hours: Option<Allowed>,
    m: Month,
    at: Places,
)
    requires { MonthAsked f cells.old prices.now hours m at }
    ensures { MonthMade f (between (quarters_in hours prices.now) m.from m.to) m at cells.old cells.new }
{
    let w = geometry::layer_cells(f);
    rows::put(&mut *cells, at.here, w, INFEASIBLE);
    all_ends(cells, f, prices, hours, m, at);
}

// Whether the states at the month's end ask for fewer cells than the parts that may lie above its box. In layers of the box: each state asks for one for every
// interval, and for one for every cell of a section of the year; each part for one for every interval.
fn fewer_by_ends(f: Figures, m: Month) -> bool
    requires { (Sound f) × (Within m.cap f.most) × (m.from < m.to) × (m.to ≤ most_intervals) }
{
    let long = m.to - m.from;
    let parts = geometry::section_cells(boxes::with_most(f, boxes::less(f.most, m.cap)));
    let all = (f.mot + f.mdt) * long + geometry::layer_cells(f);
    all <= integers::capped_product(integers::LARGEST, parts, long)
}

// The same in the cheaper of the two ways.
pub fn before_month_cheaper(
    cells: &mut [i64],
    f: Figures,
    prices: &[i64],
    hours: Option<Allowed>,
    m: Month,
    at: Places,
)
    requires { MonthAsked f cells.old prices.now hours m at }
    ensures { MonthMade f (between (quarters_in hours prices.now) m.from m.to) m at cells.old cells.new }
{
    if fewer_by_ends(f, m) {
        before_month_by_ends(cells, f, prices, hours, m, at);
        return;
    }
    chains::before_month(cells, f, prices, hours, m, at);
}
