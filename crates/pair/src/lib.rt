// Best profits in two layers of scratch (specification 14): the front and the one behind it hold one interval at a time, and are rolled through from
// the last interval back. Valuing needs no more; for plans crate `halving` rolls through the later half of a task.

#![tactic(auto)]

ghost use Rattle.std.specs.Prelude.{◌≡◌, ◌+◌, ◌≤◌, length};
ghost use Rattle.optimality.specs.Machine.{anywhere, quarter};
ghost use Rattle.geometry.specs.Geometry.{width};
ghost use Rattle.geometry.specs.Layers.{Layer, in_front};
ghost use Rattle.intervals.specs.Turns.{Interval};
ghost use Rattle.layers.specs.Filling.{quarters_in, between, Beyond};
ghost use Rattle.intervals.specs.Stretches.{Behind};
ghost use Rattle.pair.specs.Rolling.{Lent, RollAsked, RolledBy, Earlier};

use commitment::windows;
use commitment::windows::Allowed;
use intervals::rows;
use layers::states;
use optimality::Figures;

// The first layer of a whole case at the front. After its last interval a plan may end in any cell.
pub fn roll_all(scratch: &mut [i64], w: usize, f: Figures, prices: &[i64], hours: Option<Allowed>)
    requires { (Lent f w prices.now scratch.old hours) × (1 ≤ length prices.now) }
    ensures layer { Layer f anywhere (quarters_in hours prices.now) (in_front f scratch.new) }
    ensures beyond { Beyond (w + w) scratch.old scratch.new }
{
    rows::put(scratch, w, w, 0);
    roll(scratch, w, f, prices, hours, 0, prices.len());
}

// The layer of an interval at the front, by the layer after the last one, which stands behind and says where a plan may end.
pub fn roll(
    scratch: &mut [i64],
    w: usize,
    f: Figures,
    prices: &[i64],
    hours: Option<Allowed>,
    from: usize,
    to: usize,
)
    requires { RollAsked f w prices.now scratch.old hours from to }
    ensures rolled_by { RolledBy f (between (quarters_in hours prices.now) from to) scratch.old scratch.new }
    ensures beyond { Beyond (w + w) scratch.old scratch.new }
{
    for t in (from + 1..to).rev() {
        earlier(scratch, w, f, prices[t], windows::opens_in(hours, t));
    }
    states::fill_layer(scratch, w, f, prices[from], windows::opens_in(hours, from));
}

// The layer behind, one interval earlier.
fn earlier(scratch: &mut [i64], w: usize, f: Figures, price: i64, opens: bool)
    requires { (Interval f price) × (w ≡ width f) × (Behind scratch.old 0 w w) }
    ensures { Earlier f (quarter price opens) scratch.old scratch.new }
{
    states::fill_layer(scratch, w, f, price, opens);
    rows::copy(scratch, w, 0, w);
}
