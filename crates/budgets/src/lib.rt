// From the record of a unit to what the table counts in: figures and budgets, the opening cell, the cells of two layers and of the long table.

#![tactic(auto)]

ghost use Rattle.std.specs.Prelude.{◌≡◌, true, ◌+◌, ◌*◌, ◌^◌, ◌≤◌, ◌<◌};
ghost use Rattle.commitment.specs.Bounds.{most_mwh, most_intervals};
ghost use Rattle.commitment.specs.Cells.{in_counts, most_counts, layer_cells, cells_needed, cells_long};
ghost use Rattle.commitment.specs.Cells as cells;
ghost use Rattle.commitment.specs.Limits.{limit_kept};
ghost use Rattle.commitment.specs.Ranges.{generator_kept, ranges_kept, InOrder};
ghost use Rattle.commitment.specs.Valuing as valuing;
ghost use Rattle.optimality.specs.Cells.{taken_of, counts_of, figures_of, opening_state, opening_cell};

use commitment::{Generator, Limitation, UnitRecord};
use optimality::{Budgets, Cell, Figures};

// The figures of a case of n intervals, with the most that a cell can have left of each limitation.
pub fn figures_of(unit: UnitRecord, n: usize) -> Figures
    requires { InOrder unit n }
    ensures { result ≡ figures_of unit n }
{
    let g = unit.generator;
    let k = unit.costs;
    let limits = unit.limits;
    let takes = Budgets {
        starts: taken(limits.starts),
        ons: taken(limits.hours),
        blocks: taken(limits.mwh),
    };
    let most = counts_of(unit, n);
    Figures {
        block: g.block as usize,
        pmin: g.pmin as usize,
        pmax: g.pmax as usize,
        mot: g.mot as usize,
        mdt: g.mdt as usize,
        vec: k.vec as usize,
        mlc: k.mlc as usize,
        suc: k.suc as usize,
        takes,
        most,
    }
}

// The most that a cell can have left of each limitation: a, b and c of the specification.
fn counts_of(unit: UnitRecord, n: usize) -> Budgets
    requires { InOrder unit n }
    ensures { result ≡ counts_of unit n }
{
    let g = unit.generator;
    let limits = unit.limits;
    Budgets {
        starts: counted(g, n, Limitation::Starts, limits.starts),
        ons: counted(g, n, Limitation::Hours, limits.hours),
        blocks: counted(g, n, Limitation::Mwh, limits.mwh),
    }
}

// The cell before interval 1.
pub fn opening_cell(unit: UnitRecord, n: usize) -> Cell
    requires { InOrder unit n }
    ensures { result ≡ opening_cell unit n }
{
    let state = opening_state(unit);
    let left = counts_of(unit, n);
    Cell { state, left }
}

// What one start, on-interval or block takes of its budget.
fn taken(limit: Option<u64>) -> usize
    ensures { result ≡ taken_of limit }
{
    usize::from(limit.is_some())
}

// What a limitation comes to over n intervals, no further than they can use.
fn counted(g: Generator, n: usize, which: Limitation, limit: Option<u64>) -> usize
    requires { (generator_kept g ≡ true) × (n ≤ most_intervals) × (limit_kept most_mwh limit ≡ true) }
    ensures { result ≡ cells.counted g n which limit }
{
    match limit {
        None => 0,
        Some(figure) => integers::smaller(in_counts(g, which, figure), most_counts(g, which, n)),
    }
}

// A figure in starts, in on-intervals, in whole blocks of one interval.
fn in_counts(g: Generator, which: Limitation, figure: u64) -> usize
    requires { (generator_kept g ≡ true) × (figure ≤ most_mwh) }
    ensures { result ≡ in_counts g which figure }
{
    match which {
        Limitation::Starts => figure as usize,
        Limitation::Hours => (4 * figure) as usize,
        Limitation::Mwh => (4 * figure / g.block) as usize,
    }
}

// The most that so many intervals can use: more than this in a table would never be spent.
fn most_counts(g: Generator, which: Limitation, n: usize) -> usize
    requires { (generator_kept g ≡ true) × (n ≤ most_intervals) }
    ensures { result ≡ most_counts g which n }
{
    match which {
        Limitation::Starts => n,
        Limitation::Hours => n,
        Limitation::Mwh => n * (g.pmax as usize),
    }
}

// The state before interval 1, as the table numbers states.
fn opening_state(unit: UnitRecord) -> usize
    requires { ranges_kept unit ≡ true }
    ensures { result ≡ opening_state unit }
{
    let g = unit.generator;
    let opening = unit.opening;
    let held = opening.held as usize;
    let mot = g.mot as usize;
    let mdt = g.mdt as usize;
    if opening.was == 1 {
        return integers::smaller(held, mot) - 1;
    }
    mot + integers::smaller(held, mdt) - 1
}

// Lowered to nine tenths, rounded down.
pub fn lowered(figure: u64) -> u64
    requires { figure ≤ most_mwh }
    ensures { result ≡ valuing.lowered figure }
{
    9 * figure / 10
}

// The cells of scratch that a case of n intervals needs: two layers.
pub fn cells_needed(unit: UnitRecord, n: usize) -> usize
    requires { InOrder unit n }
    ensures { result ≡ cells_needed unit n }
{
    cells_over(unit, n, 1)
}

// The cells of its long table.
pub fn cells_long(unit: UnitRecord, n: usize) -> usize
    requires { InOrder unit n }
    ensures { result ≡ cells_long unit n }
{
    cells_over(unit, n, n)
}

// The layers of a case of n intervals, for so many of them, where they fit 64 bits.
fn cells_over(unit: UnitRecord, n: usize, intervals: usize) -> usize
    requires { (InOrder unit n) × (intervals ≤ most_intervals) × ((intervals + 1) * layer_cells unit n < 2 ^ 64) }
    ensures { result ≡ (intervals + 1) * layer_cells unit n }
{
    geometry::table_cells(figures_of(unit, n), intervals)
}
