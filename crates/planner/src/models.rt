// What a case is worked out with, and its first layer: in the long table where that was lent, else in two layers.

ghost use Rattle.std.specs.Prelude.{◌≡◌, true, cond, length, Ok};
ghost use Rattle.commitment.specs.Cells.{cells_needed, cells_long, cells_used};
ghost use Rattle.commitment.specs.Ranges.{InOrder};
ghost use Rattle.layers.specs.Filling.{Beyond};
ghost use Rattle.planner.specs.Planning.{lent_checked};
ghost use Rattle.planner.specs.Models.{ModelOf, Begun};

use commitment::windows::Allowed;
use commitment::{UnitRecord, windows};
use optimality::Figures;

// The figures of a case, the cells of a layer, its hours, and whether the long table is used.
#[derive(Clone, Copy)]
pub struct Model {
    pub figures: Figures,
    pub width: usize,
    pub hours: Option<Allowed>,
    pub long: bool,
}

// Worked out once for a call; every step after it takes the model.
pub fn model_of(unit: UnitRecord, prices: &[i64], lent: usize) -> Model
    requires { lent_checked unit prices.now true lent ≡ Ok tt }
    ensures { ModelOf unit prices.now lent result }
{
    let n = prices.len();
    let figures = budgets::figures_of(unit, n);
    let width = geometry::layer_cells(figures);
    Model {
        figures,
        width,
        hours: windows::hours_of(unit.permit),
        long: budgets::cells_long(unit, n) <= lent,
    }
}

// Brings the first layer to the front: the long table is filled; two layers are rolled through, for a plan by the pass that marks the middle.
pub fn first_layer(
    unit: UnitRecord,
    model: Model,
    prices: &[i64],
    scratch: &mut [i64],
    planning: bool,
)
    requires { ModelOf unit prices.now (length scratch.old) model }
    ensures begun { Begun model prices.now planning scratch.new }
    ensures beyond { Beyond (cells_used unit (length prices.now) (length scratch.old)) scratch.old scratch.new }
{
    let f = model.figures;
    let w = model.width;
    let hours = model.hours;
    if model.long {
        layers::fill_all(scratch, w, f, prices, hours);
    } else if planning {
        halving::first_pass(scratch, w, f, prices, hours);
    } else {
        pair::roll_all(scratch, w, f, prices, hours);
    }
}

// The cells of the long table, or of two layers.
pub fn cells_used(unit: UnitRecord, n: usize, long: bool) -> usize
    requires { InOrder unit n }
    ensures { result ≡ cond long (cells_long unit n) (cells_needed unit n) }
{
    if long {
        return budgets::cells_long(unit, n);
    }
    budgets::cells_needed(unit, n)
}
