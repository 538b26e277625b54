// Reading a plan off the table: the output that a cell's number was made of, and the cell that it leads to.

ghost use Rattle.std.specs.Prelude.{◌≡◌, true, ◌+◌, ◌-◌, ◌*◌, ◌≤◌, ◌<◌, length};
ghost use Rattle.std.specs.Int.Signed.{lt_z};
ghost use Rattle.commitment.specs.Tries.{tries_to};
ghost use Rattle.optimality.specs.Cells.{Sound, InTable, cell, states, after_on, start_takes, may_run, rungs};
ghost use Rattle.geometry.specs.Geometry.{width, row, index};
ghost use Rattle.geometry.specs.Layers.{stored_at, most_pays};
ghost use Rattle.geometry.specs.Geometry as geometry;
ghost use Rattle.intervals.specs.Turns.{Interval, off_stored};
ghost use Rattle.table.specs.Reading.{first_on, OnReaches, chosen, reaches_best, Allowed, next_cell};
ghost use Rattle.intervals.specs.Stretches.{Readable};

use intervals::steps;
use optimality::{Budgets, Cell, Figures};

// An output in blocks, 0 for off, and how many were tried to find it.
#[derive(Clone, Copy)]
pub struct Tried {
    pub blocks: usize,
    pub tries: usize,
}

// The row of the cells that an interval on leads to, and the blocks left before it.
#[derive(Clone, Copy)]
pub struct Row {
    pub at: usize,
    pub blocks: usize,
}

// The plan's output in the interval of a cell that holds `best`, by the layer at `at` behind it: they are tried from 0 upwards, to the first that
// reaches it. Off is tried even where the run may not end yet.
pub fn choose(scratch: &[i64], at: usize, f: Figures, price: i64, c: Cell, best: i64) -> Tried
    requires interval { (Interval f price) × (InTable f c) × (Readable scratch.now at (width f)) }
    requires on_reaches { lt_z (off_stored f (stored_at f scratch.now at) c) best ≡ true → OnReaches f (stored_at f scratch.now at) c price best }
    ensures blocks_value { result.blocks ≡ chosen f (stored_at f scratch.now at) c price best }
    ensures tries_value { result.tries ≡ tries_to f.pmin result.blocks }
{
    if off_stored(scratch, at, f, c) < best {
        return first_on(scratch, at, f, price, c, best);
    }
    Tried {
        blocks: 0,
        tries: 1,
    }
}

// The best with the interval off.
fn off_stored(scratch: &[i64], at: usize, f: Figures, c: Cell) -> i64
    requires { (Sound f) × (InTable f c) × (at + width f ≤ length scratch.now) }
    ensures { result ≡ off_stored f (stored_at f scratch.now at) c }
{
    let next = steps::off_cell(f, c);
    if f.mot + f.mdt <= next.state {
        return geometry::INFEASIBLE;
    }
    scratch[at + geometry::index(f, next)]
}

// The first output on that reaches the best, off having been tried before it.
fn first_on(scratch: &[i64], at: usize, f: Figures, price: i64, c: Cell, best: i64) -> Tried
    requires interval { (Interval f price) × (InTable f c) × (Readable scratch.now at (width f)) }
    requires on_reaches { OnReaches f (stored_at f scratch.now at) c price best }
    ensures blocks_value { result.blocks ≡ first_on f (stored_at f scratch.now at) c price best f.pmin (rungs f) }
    ensures tries_value { result.tries ≡ tries_to f.pmin result.blocks }
{
    let pays = steps::start_pays(f, c.state);
    let row = Row {
        at: at + on_row(f, c),
        blocks: c.left.blocks,
    };
    for k in f.pmin..f.pmax {
        if reaches(scratch, row, f, price, pays, k, best) {
            return Tried {
                blocks: k,
                tries: k - f.pmin + 2,
            };
        }
    }
    // One of them does.
    Tried {
        blocks: f.pmax,
        tries: f.pmax - f.pmin + 2,
    }
}

// The row of the cells that an interval on leads to.
fn on_row(f: Figures, c: Cell) -> usize
    requires { (Sound f) × (InTable f c) × (may_run f c ≡ true) }
    ensures { result ≡ geometry.index f (cell (after_on f c.state) (c.left.starts - start_takes f c.state) (c.left.ons - f.takes.ons) 0) }
{
    let left = Budgets {
        blocks: 0,
        ..c.left
    };
    let first = Cell { left, ..c };
    geometry::index(f, steps::on_cell(f, first, 0))
}

// Whether the blocks left allow k, and it reaches the best.
fn reaches(
    scratch: &[i64],
    row: Row,
    f: Figures,
    price: i64,
    pays: usize,
    k: usize,
    best: i64,
) -> bool
    requires { (Interval f price) × (pays ≤ most_pays) × (k ≤ f.pmax) × (Readable scratch.now row.at (row.blocks + 1)) }
    ensures { result ≡ reaches_best f scratch.now row price pays best k }
{
    let spent = k * f.takes.blocks;
    if row.blocks < spent {
        return false;
    }
    let i = row.at + (row.blocks - spent);
    let v = scratch[i] + steps::net(f, price, pays, k);
    best <= v
}

// The cell that k blocks lead to.
pub fn moved(f: Figures, c: Cell, k: usize) -> Cell
    requires sound { (Sound f) × (c.state < states f) }
    requires allowed { Allowed f c k }
    ensures { result ≡ next_cell f c k }
{
    if k == 0 {
        return steps::off_cell(f, c);
    }
    steps::on_cell(f, c, k)
}
