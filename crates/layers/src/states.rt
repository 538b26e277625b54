// One layer from the one behind it, state by state: off for all its cells at once, then on where the unit may run.

ghost use Rattle.std.specs.Prelude.{◌≡◌, ◌+◌, ◌≤◌, nat_abs, length};
ghost use Rattle.commitment.specs.Bounds.{most_price};
ghost use Rattle.optimality.specs.Machine.{quarter};
ghost use Rattle.optimality.specs.Cells.{Sound};
ghost use Rattle.geometry.specs.Geometry.{span, section, width};
ghost use Rattle.intervals.specs.Turns.{Interval};
ghost use Rattle.intervals.specs.Ladders.{Steady, better_end};
ghost use Rattle.intervals.specs.Stretches.{Behind, SpanRaised, SectionRaised, OfState, OffMade, StateMade, QuarterMade, FrontMade};

use intervals::rows::Ladder;
use intervals::{rows, steps};
use optimality::Figures;

// Where MWh is not limited, all rows in one pass with the better end: what an output brings is linear in the blocks.
fn raise_span(scratch: &mut [i64], to: usize, from: usize, f: Figures, l: Ladder, end: i64)
    requires { (Sound f) × (Steady l) × (end ≡ better_end l) × (Behind scratch.old to from (span f)) }
    ensures { SpanRaised f l scratch.old scratch.new to from }
{
    if f.takes.blocks == 0 {
        let skipped = f.takes.ons * geometry::row_cells(f);
        let all = geometry::span_cells(f);
        rows::raise(scratch, to + skipped, from, all - skipped, end);
    } else {
        rows::raise_rows(scratch, to, from, f, l);
    }
}

// The spans that have a start left where the interval takes one.
fn raise_section(scratch: &mut [i64], to: usize, from: usize, f: Figures, takes: usize, l: Ladder)
    requires { (Sound f) × (takes ≤ 1) × (Steady l) × (Behind scratch.old to from (section f)) }
    ensures { SectionRaised f l takes scratch.old scratch.new to from }
{
    let end = rows::better_end(l);
    let cells = geometry::span_cells(f);
    let first = to + takes * cells;
    for x in 0..f.most.starts + 1 - takes {
        raise_span(scratch, first + x * cells, from + x * cells, f, l, end);
    }
}

// The cells of state s with the interval off, in the layer at the front, by the layer behind it. `cells` is how many there are.
fn fill_off(scratch: &mut [i64], w: usize, cells: usize, f: Figures, s: usize)
    requires { (OfState f s w cells) × (w + w ≤ length scratch.old) }
    ensures { OffMade f s scratch.old scratch.new }
{
    let to = s * cells;
    let off = steps::after_off(f, s);
    if off < f.mot + f.mdt {
        rows::copy(scratch, to, w + off * cells, cells);
    } else {
        rows::put(scratch, to, cells, geometry::INFEASIBLE);
    }
}

// The same with the better of off and on.
fn fill_state(scratch: &mut [i64], w: usize, cells: usize, f: Figures, price: i64, s: usize)
    requires { (OfState f s w cells) × (nat_abs price ≤ most_price) × (Behind scratch.old 0 w w) }
    ensures { StateMade f price s scratch.old scratch.new }
{
    fill_off(scratch, w, cells, f, s);
    let on = steps::after_on(f, s);
    if on < f.mot + f.mdt {
        let l = steps::ladder(f, price, steps::start_pays(f, s));
        raise_section(
            scratch,
            s * cells,
            w + on * cells,
            f,
            steps::start_takes(f, s),
            l,
        );
    }
}

// The same in a quarter-hour that may be shut, where off is all.
fn fill_quarter(
    scratch: &mut [i64],
    w: usize,
    cells: usize,
    f: Figures,
    price: i64,
    opens: bool,
    s: usize,
)
    requires { (OfState f s w cells) × (nat_abs price ≤ most_price) × (Behind scratch.old 0 w w) }
    ensures { QuarterMade f (quarter price opens) s scratch.old scratch.new }
{
    if opens {
        fill_state(scratch, w, cells, f, price, s);
    } else {
        fill_off(scratch, w, cells, f, s);
    }
}

// The layer at the front, by the one behind it.
pub fn fill_layer(scratch: &mut [i64], w: usize, f: Figures, price: i64, opens: bool)
    requires { (Interval f price) × (w ≡ width f) × (Behind scratch.old 0 w w) }
    ensures { FrontMade f (quarter price opens) scratch.old scratch.new }
{
    let cells = geometry::section_cells(f);
    for s in 0..f.mot + f.mdt {
        fill_quarter(scratch, w, cells, f, price, opens, s);
    }
}
