// What a month may spend of the year's budgets: no more than its cap. What lies above the cap stays for later months.

ghost use Rattle.std.specs.Prelude.{◌≡◌, ◌<◌, length};
ghost use Rattle.optimality.specs.Cells.{Sound, Within, with_most};
ghost use Rattle.optimality.specs.Cells as cells;
ghost use Rattle.optimality.specs.Years as years;
ghost use Rattle.geometry.specs.Geometry.{width};
ghost use Rattle.months.specs.Capping.{plus, smaller, high_cell, box_of, over_of, same_budgets, Above, EnterAsked, Entered, StoreAsked, Stored, stored_one};

use optimality::{Budgets, Cell, Figures};

// The smaller of each.
pub fn least(a: Budgets, b: Budgets) -> Budgets
    ensures { result ≡ smaller a b }
{
    Budgets {
        starts: integers::smaller(a.starts, b.starts),
        ons: integers::smaller(a.ons, b.ons),
        blocks: integers::smaller(a.blocks, b.blocks),
    }
}

// The figures with other budgets.
pub fn with_most(f: Figures, most: Budgets) -> Figures
    ensures { result ≡ with_most f most }
{
    Figures { most, ..f }
}

// The cell of the year above a cell of the month's box.
pub fn raised(f: Figures, above: Budgets, c: Cell) -> Cell
    requires { (Sound f) × (Within (plus c.left above) f.most) }
    ensures { result ≡ years.raised above c }
{
    Cell {
        left: Budgets {
            starts: c.left.starts + above.starts,
            ons: c.left.ons + above.ons,
            blocks: c.left.blocks + above.blocks,
        },
        ..c
    }
}

// The year's cell above the i-th cell of the box.
fn high_cell(f: Figures, cap: Budgets, above: Budgets, i: usize) -> Cell
    requires { (Above f cap above) × (i < width (with_most f cap)) }
    ensures { result ≡ high_cell f cap above i }
{
    raised(f, above, geometry::cell_of(with_most(f, cap), i))
}

// The layer after a month, as its box sees it: each cell has what the year's cell above it has.
pub fn enter(cells: &mut [i64], f: Figures, cap: Budgets, above: Budgets, from: usize, to: usize)
    requires { EnterAsked f cap above (length cells.old) from to }
    ensures { Entered f cap above cells.old cells.new from to }
{
    let w = geometry::layer_cells(with_most(f, cap));
    for i in 0..w {
        let at = from + geometry::index(f, high_cell(f, cap, above, i));
        cells[to + i] = cells[at];
    }
}

// What is left of the first after the second.
pub fn less(a: Budgets, b: Budgets) -> Budgets
    requires { Within b a }
    ensures { result ≡ cells.less a b }
{
    Budgets {
        starts: a.starts - b.starts,
        ons: a.ons - b.ons,
        blocks: a.blocks - b.blocks,
    }
}

// What a cell of the year has above the box.
pub fn over_of(cap: Budgets, z: Cell) -> Budgets
    ensures { result ≡ over_of cap z }
{
    less(z.left, least(z.left, cap))
}

// Its cell in the box.
pub fn box_of(cap: Budgets, z: Cell) -> Cell
    ensures { result ≡ box_of cap z }
{
    Cell {
        left: least(z.left, cap),
        ..z
    }
}

// Whether a cell of the year has just so much above the box.
fn is_over(cap: Budgets, above: Budgets, z: Cell) -> bool
    ensures { result ≡ same_budgets (over_of cap z) above }
{
    over_of(cap, z) == above
}

// The i-th cell of the box, where it is that of the year's cell above it.
fn store_one(
    cells: &mut [i64],
    f: Figures,
    cap: Budgets,
    above: Budgets,
    from: usize,
    to: usize,
    i: usize,
)
    requires { (StoreAsked f cap above (length cells.old) from to) × (i < width (with_most f cap)) }
    ensures { cells.new ≡ stored_one f cap above cells.old from to i }
{
    let z = high_cell(f, cap, above, i);
    if is_over(cap, above, z) {
        let at = to + geometry::index(f, z);
        cells[at] = cells[from + i];
    }
}

// The layer before a month, where it has so much above the box.
pub fn store(cells: &mut [i64], f: Figures, cap: Budgets, above: Budgets, from: usize, to: usize)
    requires { StoreAsked f cap above (length cells.old) from to }
    ensures { Stored f cap above cells.old cells.new from to }
{
    let w = geometry::layer_cells(with_most(f, cap));
    for i in 0..w {
        store_one(cells, f, cap, above, from, to, i);
    }
}
