// Reading a table that is filled: the best profit of any cell of the first layer, and the best plan from it, interval by interval the first
// output that reaches the number of the cell where the plan stands (mod reading; proofs/ Choosing and Plans).

#![tactic(auto)]

pub mod reading;

ghost use Rattle.std.specs.Prelude.{◌≡◌, ◌+◌, ◌*◌, ◌≤◌, length, List};
ghost use Rattle.optimality.specs.Machine.{Quarter};
ghost use Rattle.optimality.specs.Cells.{InTable, Sound};
ghost use Rattle.geometry.specs.Geometry.{width};
ghost use Rattle.geometry.specs.Layers.{Room, told, in_front};
ghost use Rattle.commitment.specs.Types.{BestProfit};
ghost use Rattle.commitment.specs.Bounds.{most_blocks};
ghost use Rattle.commitment.specs.Ranges.{Priced};
ghost use Rattle.table.specs.Reading.{PlanFrom, ReadOff};

use optimality::{Cell, Figures};

// The best profit that a cell of the first layer tells.
pub fn best_at(scratch: &[i64], f: Figures, at: Cell) -> Option<i64>
    requires { (Sound f) × (InTable f at) × (width f ≤ length scratch.now) }
    ensures { result ≡ told (in_front f scratch.now at) }
{
    let i = geometry::index(f, at);
    geometry::told(scratch[i])
}

// The best plan from a cell of the first layer that has one, output by output, and how many outputs were tried in all.
pub fn read_off(
    scratch: &[i64],
    w: usize,
    f: Figures,
    prices: &[i64],
    from: Cell,
    schedule: &mut [u64],
) -> usize
    requires room { (Room f (length prices.now) (length scratch.now)) × (w ≡ width f) × (Priced prices.now) }
    requires plan_from { (ends : Cell → BestProfit) × (quarters : List Quarter) × PlanFrom f ends prices.now scratch.now from quarters }
    requires in_table { InTable f from }
    requires prices_in_bounds { length prices.now ≤ length schedule.old }
    ensures read_off { ReadOff f prices.now scratch.now from schedule.old schedule.new result }
    ensures upper_bound { result ≤ length prices.now * (most_blocks + 1) }
{
    let mut c = from;
    let mut tries = 0;
    for (t, price) in prices.iter().enumerate() {
        let at = t * w;
        let best = scratch[at + geometry::index(f, c)];
        let found = reading::choose(scratch, at + w, f, *price, c, best);
        tries += found.tries;
        schedule[t] = (found.blocks * f.block) as u64;
        c = reading::moved(f, c, found.blocks);
    }
    tries
}
