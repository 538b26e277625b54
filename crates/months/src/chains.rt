// The layer at the beginning of a month from the one at its end, for every budget of the year: one roll over the month for each part that may lie above its
// box. Cells of the year with as much above the box come out of one roll together.

ghost use Rattle.std.specs.Prelude.{◌+◌, length};
ghost use Rattle.optimality.specs.Cells.{with_most};
ghost use Rattle.layers.specs.Filling.{quarters_in, between};
ghost use Rattle.months.specs.Chaining.{BoxAsked, RolledAt, ClassAsked, ClassMade, MonthAsked, MonthMade};

use crate::boxes;
use commitment::windows::Allowed;
use optimality::{Budgets, Figures};

// A month: its intervals, and the most that it may spend.
#[derive(Clone, Copy)]
pub struct Month {
    pub from: usize,
    pub to: usize,
    pub cap: Budgets,
}

// Where things stand in the scratch: the year's layer at the month's beginning and the one at its end, and the month's own two layers.
#[derive(Clone, Copy)]
pub struct Places {
    pub here: usize,
    pub after: usize,
    pub work: usize,
}

// The month in its own two layers.
pub fn roll_box(
    cells: &mut [i64],
    g: Figures,
    prices: &[i64],
    hours: Option<Allowed>,
    m: Month,
    at: usize,
)
    requires { BoxAsked g cells.old prices.now hours m.from m.to at }
    ensures { RolledAt g (between (quarters_in hours prices.now) m.from m.to) cells.old cells.new at }
{
    let w = geometry::layer_cells(g);
    pair::roll(&mut cells[at..], w, g, prices, hours, m.from, m.to);
}

// The cells of the year that have just so much above the box.
fn one_class(
    cells: &mut [i64],
    f: Figures,
    prices: &[i64],
    hours: Option<Allowed>,
    m: Month,
    at: Places,
    above: Budgets,
)
    requires { ClassAsked f cells.old prices.now hours m at above }
    ensures { ClassMade f (between (quarters_in hours prices.now) m.from m.to) m at above cells.old cells.new }
{
    let g = boxes::with_most(f, m.cap);
    let behind = at.work + geometry::layer_cells(g);
    boxes::enter(&mut *cells, f, m.cap, above, at.after, behind);
    roll_box(&mut *cells, g, prices, hours, m, at.work);
    boxes::store(cells, f, m.cap, above, at.work, at.here);
}

// All cells of the year, by what may lie above the box.
pub fn before_month(
    cells: &mut [i64],
    f: Figures,
    prices: &[i64],
    hours: Option<Allowed>,
    m: Month,
    at: Places,
)
    requires { MonthAsked f cells.old prices.now hours m at }
    ensures { MonthMade f (between (quarters_in hours prices.now) m.from m.to) m at cells.old cells.new }
{
    let h = boxes::with_most(f, boxes::less(f.most, m.cap));
    for j in 0..geometry::section_cells(h) {
        let above = geometry::cell_of(h, j).left;
        one_class(cells, f, prices, hours, m, at, above);
    }
}
