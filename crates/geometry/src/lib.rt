// Where a cell of the table stands in its layer, how many cells a layer and a table have, and what a cell's number says. specs/Geometry has
// the places, specs/Layers the numbers; proofs/ their laws: Places, Sizes and Widths, Holding and Telling.

#![tactic(auto)]

ghost use Rattle.std.specs.Prelude.{◌≡◌, ◌+◌, ◌*◌, ◌^◌, ◌≤◌, ◌<◌};
ghost use Rattle.commitment.specs.Bounds.{most_intervals};
ghost use Rattle.optimality.specs.Cells.{Sound, InTable};
ghost use Rattle.geometry.specs.Geometry.{row, span, section, width};
ghost use Rattle.geometry.specs.Geometry as geometry;
ghost use Rattle.geometry.specs.Layers as layers;

use optimality::{Budgets, Cell, Figures};

// What a cell without a schedule holds, or a little more; no profit comes near, and half of it tells the two apart.
pub const INFEASIBLE: i64 = -4611686018427387904;

const HALFWAY: i64 = -2305843009213693952;

// The cells of a row: all blocks left.
pub fn row_cells(f: Figures) -> usize
    requires { Sound f }
    ensures { result ≡ row f }
{
    f.most.blocks + 1
}

// Of a span: all on-intervals left.
pub fn span_cells(f: Figures) -> usize
    requires { Sound f }
    ensures { result ≡ span f }
{
    (f.most.ons + 1) * row_cells(f)
}

// Of a section, which has one state: all starts left.
pub fn section_cells(f: Figures) -> usize
    requires { Sound f }
    ensures { result ≡ section f }
{
    (f.most.starts + 1) * span_cells(f)
}

// Of a layer: all states.
pub fn layer_cells(f: Figures) -> usize
    requires { Sound f }
    ensures { result ≡ width f }
{
    (f.mot + f.mdt) * section_cells(f)
}

// Of a table that fits 64 bits: a layer for each interval and one more.
pub fn table_cells(f: Figures, n: usize) -> usize
    requires { (Sound f) × (n ≤ most_intervals) × ((n + 1) * width f < 2 ^ 64) }
    ensures { result ≡ (n + 1) * width f }
{
    (n + 1) * layer_cells(f)
}

// The place of a cell in its layer.
pub fn index(f: Figures, c: Cell) -> usize
    requires { (Sound f) × (InTable f c) }
    ensures { result ≡ geometry.index f c }
{
    let row = row_cells(f);
    let span = span_cells(f);
    let section = section_cells(f);
    c.state * section + (c.left.starts * span + (c.left.ons * row + c.left.blocks))
}

// The cell that stands at a place.
pub fn cell_of(f: Figures, i: usize) -> Cell
    requires { Sound f }
    ensures { result ≡ geometry.cell_of f i }
{
    let row = row_cells(f);
    let span = span_cells(f);
    let section = section_cells(f);
    let column = i % section;
    let line = column % span;
    let state = i / section;
    let left = Budgets {
        starts: column / span,
        ons: line / row,
        blocks: line % row,
    };
    Cell { state, left }
}

// The best profit that a cell's number stands for.
pub fn told(number: i64) -> Option<i64>
    ensures { result ≡ layers.told number }
{
    if number < HALFWAY {
        return None;
    }
    Some(number)
}
