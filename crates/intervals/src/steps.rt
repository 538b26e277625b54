// One interval of the cells' machine: the states that it leads to, what a start takes and costs, what an output brings.

ghost use Rattle.std.specs.Prelude.{◌≡◌, ◌≤◌, ◌<◌};
ghost use Rattle.geometry.specs.Layers.{most_pays};
ghost use Rattle.optimality.specs.Cells.{Sound, states, after_off, after_on, start_takes, start_pays, off_cell, on_cell};
ghost use Rattle.intervals.specs.Turns.{Affords, Interval};
ghost use Rattle.intervals.specs.Turns as turns;
ghost use Rattle.intervals.specs.Ladders.{ladder_of};

use crate::rows::Ladder;
use optimality::{Budgets, Cell, Figures};

// The state after an interval off; past the last where the run is too short to end.
pub fn after_off(f: Figures, s: usize) -> usize
    requires { (Sound f) × (s < states f) }
    ensures { result ≡ after_off f s }
{
    if s < f.mot {
        if s + 1 == f.mot {
            return f.mot;
        }
        return f.mot + f.mdt;
    }
    let last = f.mot + f.mdt - 1;
    if s < last {
        return s + 1;
    }
    last
}

// The state after an interval on; past the last where the spell is too short for a start.
pub fn after_on(f: Figures, s: usize) -> usize
    requires { (Sound f) × (s < states f) }
    ensures { result ≡ after_on f s }
{
    if s < f.mot {
        let last = f.mot - 1;
        if s < last {
            return s + 1;
        }
        return last;
    }
    if s + 1 == f.mot + f.mdt {
        return 0;
    }
    f.mot + f.mdt
}

// A unit that is on takes no start.
pub fn start_takes(f: Figures, s: usize) -> usize
    ensures { result ≡ start_takes f s }
{
    if s < f.mot { 0 } else { f.takes.starts }
}

// Profits are in quarter-cents, and so a start costs 4 × suc.
pub fn start_pays(f: Figures, s: usize) -> usize
    requires { Sound f }
    ensures { result ≡ start_pays f s }
{
    if s < f.mot { 0 } else { 4 * f.suc }
}

// The cell that an interval off leads to.
pub fn off_cell(f: Figures, c: Cell) -> Cell
    requires { (Sound f) × (c.state < states f) }
    ensures { result ≡ off_cell f c }
{
    let state = after_off(f, c.state);
    Cell { state, ..c }
}

// The cell that an interval on with k blocks leads to.
pub fn on_cell(f: Figures, c: Cell, k: usize) -> Cell
    requires sound { (Sound f) × (c.state < states f) }
    requires affords { Affords f c k }
    ensures { result ≡ on_cell f c k }
{
    Cell {
        state: after_on(f, c.state),
        left: Budgets {
            starts: c.left.starts - start_takes(f, c.state),
            ons: c.left.ons - f.takes.ons,
            blocks: c.left.blocks - k * f.takes.blocks,
        },
    }
}

// What an interval on with k blocks brings, less what its start costs.
pub fn net(f: Figures, price: i64, pays: usize, k: usize) -> i64
    requires { (Interval f price) × (pays ≤ most_pays) × (k ≤ f.pmax) }
    ensures { result ≡ turns.net f price pays k }
{
    let brings = commitment::margin(
        price,
        (k * f.block) as u64,
        f.vec as u64,
        (f.pmin * f.block) as u64,
        f.mlc as u64,
    );
    brings - integers::signed(pays as u64)
}

// What one block more adds.
pub fn slope(f: Figures, price: i64) -> i64
    requires { Interval f price }
    ensures { result ≡ turns.slope f price }
{
    commitment::margin(price, f.block as u64, f.vec as u64, 0, 0)
}

// The outputs of an interval, less what its start costs.
pub fn ladder(f: Figures, price: i64, pays: usize) -> Ladder
    requires { (Interval f price) × (pays ≤ most_pays) }
    ensures { result ≡ ladder_of f price pays }
{
    Ladder {
        low: f.pmin,
        high: f.pmax,
        least: net(f, price, pays, f.pmin),
        rise: slope(f, price),
    }
}
