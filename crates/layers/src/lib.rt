// The table of cells (specification 14) in a scratch that is lent: layer t holds, for every cell, the best profit from interval t + 1 on. Cells go
// by what is left of the limitations, so the first layer has the best profit of every smaller limitation too: one fill serves the plan and all
// runs of valuing. Layers are filled from the last to the first, stretch by stretch over cells that stand side by side, with no division and no
// test in the innermost loop: a cell without a schedule holds a number so low that no profit reaches it. Where MWh is not limited a cell
// costs one sum and one maximum; where it is, a few more, since the best output is carried along the row: the number of outputs costs nothing.
// Here: the fill, layer by layer. mod states: a layer, state by state; the passes over rows are those of `intervals`.

#![tactic(auto)]

pub mod states;

ghost use Rattle.std.specs.Prelude.{◌≡◌, ◌++◌, ◌+◌, ◌*◌, ◌≤◌, pos, length, drop, replicate};
ghost use Rattle.optimality.specs.Machine.{anywhere, quarter};
ghost use Rattle.intervals.specs.Turns.{Interval};
ghost use Rattle.layers.specs.Filling.{Ended, FilledBy, quarters_in, quarters_on, Beyond};
ghost use Rattle.intervals.specs.Stretches.{Behind, LayerMade};
ghost use Rattle.geometry.specs.Geometry.{width};
ghost use Rattle.geometry.specs.Layers.{Filled, Room};
ghost use Rattle.commitment.specs.Bounds.{most_intervals};
ghost use Rattle.commitment.specs.Ranges.{Priced};
ghost use Rattle.commitment.specs.Windows.{Clocked};

use commitment::windows;
use commitment::windows::Allowed;
use intervals::rows;
use optimality::Figures;

// Every layer, from the last to the first. `w` is the cells of one. After the last interval a plan may end in any cell.
pub fn fill_all(scratch: &mut [i64], w: usize, f: Figures, prices: &[i64], hours: Option<Allowed>)
    requires { (Room f (length prices.now) (length scratch.old)) × (w ≡ width f) × (Priced prices.now) × (Clocked hours) }
    ensures filled { Filled f anywhere (quarters_in hours prices.now) scratch.new }
    ensures beyond { Beyond ((length prices.now + 1) * w) scratch.old scratch.new }
{
    rows::put(scratch, prices.len() * w, w, 0);
    fill(scratch, w, f, prices, hours, 0);
}

// The layers before the last, which is there and says where a plan may end. The prices are those of the horizon from interval `first` on.
pub fn fill(
    scratch: &mut [i64],
    w: usize,
    f: Figures,
    prices: &[i64],
    hours: Option<Allowed>,
    first: usize,
)
    requires room { (Room f (length prices.now) (length scratch.old)) × (w ≡ width f) × (Priced prices.now) × (Clocked hours) }
    requires ended { Ended f scratch.old (length prices.now * width f) }
    requires prices_bound { first + length prices.now ≤ most_intervals }
    ensures filled_by { FilledBy f (quarters_on hours first prices.now) scratch.old scratch.new }
    ensures beyond { Beyond (length prices.now * w) scratch.old scratch.new }
{
    for t in (0..prices.len()).rev() {
        fill_layer(
            scratch,
            t * w,
            w,
            f,
            prices[t],
            windows::opens_in(hours, first + t),
        );
    }
}

// A layer's cells are a part of the scratch of its own: the part from its start on is lent to be filled, by the layer that stands behind it.
fn fill_layer(scratch: &mut [i64], at: usize, w: usize, f: Figures, price: i64, opens: bool)
    requires { (Interval f price) × (w ≡ width f) × (Behind scratch.old at (at + w) w) }
    ensures { LayerMade f (quarter price opens) scratch.old scratch.new at }
{
    states::fill_layer(&mut scratch[at..], w, f, price, opens);
}

// The first n cells back to 0.
pub fn clear(scratch: &mut [i64], n: usize)
    requires { n ≤ length scratch.old }
    ensures { scratch.new ≡ replicate n (pos 0) ++ drop n scratch.old }
{
    rows::put(scratch, 0, n, 0);
}
