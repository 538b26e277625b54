// Passes over stretches of the scratch, cell by cell side by side. The passes over a row know its outputs as a ladder, and no unit or price.

ghost use Rattle.std.specs.Prelude.{◌≡◌, ◌++◌, ◌+◌, ◌-◌, ◌≤◌, ◌<◌, nat_abs, length, take, drop, replicate};
ghost use Rattle.optimality.specs.Cells.{Sound};
ghost use Rattle.geometry.specs.Geometry.{span};
ghost use Rattle.intervals.specs.Ladders.{Steady, brings, outputs, most_brought};
ghost use Rattle.intervals.specs.Ladders as ladders;
ghost use Rattle.intervals.specs.Stretches.{Beside, Behind, Carries, Copied, Raised, Passed, Swept, place_of, Between, Past, Reached};
ghost use Rattle.intervals.specs.Stretches.{RowRaised, SpanRaised};

use optimality::Figures;

// The outputs of an interval: from `low` to `high` blocks, of which the lowest brings `least` and each block more `rise`.
#[derive(Clone, Copy)]
pub struct Ladder {
    pub low: usize,
    pub high: usize,
    pub least: i64,
    pub rise: i64,
}

// Where a pass starts: below every number of a cell, by more than a rise.
const BELOW: i64 = -4611686087146864640;

// What the highest output brings.
pub fn most(l: Ladder) -> i64
    requires { Steady l }
    ensures { result ≡ brings l l.high }
{
    let steps = l.high - l.low;
    l.least + l.rise * integers::signed(steps as u64)
}

// What the better of the lowest and the highest output brings.
pub fn better_end(l: Ladder) -> i64
    requires { Steady l }
    ensures { result ≡ ladders.better_end l }
{
    integers::larger(l.least, most(l))
}

// The same number in each.
pub fn put(scratch: &mut [i64], to: usize, count: usize, v: i64)
    requires { to + count ≤ length scratch.old }
    ensures { scratch.new ≡ take to scratch.old ++ (replicate count v ++ drop (to + count) scratch.old) }
{
    scratch[to..to + count].fill(v);
}

// The numbers of a stretch that lies apart.
pub fn copy(scratch: &mut [i64], to: usize, from: usize, count: usize)
    requires { Beside scratch.old to from count }
    ensures { Copied scratch.old scratch.new to from count }
{
    scratch.copy_within(from..from + count, to);
}

// Each number raised to the one behind plus the gain, where that is larger.
pub fn raise(scratch: &mut [i64], to: usize, from: usize, count: usize, gain: i64)
    requires { (Behind scratch.old to from count) × (nat_abs gain ≤ most_brought) }
    ensures { Raised scratch.old scratch.new to from count gain }
{
    for i in 0..count {
        let on = scratch[from + i] + gain;
        scratch[to + i] = integers::larger(scratch[to + i], on);
    }
}

// One place of a pass that carries the best of the numbers so far: the best gains the rise, or is the number at `from` where that is larger. The
// number at `to` is raised to it plus the gain.
fn pass(scratch: &mut [i64], to: usize, from: usize, best: i64, gain: i64, rise: i64) -> i64
    requires { Carries scratch.old to from best gain rise }
    ensures { Passed scratch.old scratch.new to from best gain rise result }
{
    let next = integers::larger(scratch[from], best + rise);
    scratch[to] = integers::larger(scratch[to], next + gain);
    next
}

// The i-th place of a pass over so many, from the last down or from the first up.
fn place(down: bool, count: usize, i: usize) -> usize
    requires { i < count }
    ensures { result ≡ place_of down count i }
{
    if down { count - 1 - i } else { i }
}

// Down or up a stretch that lies behind, with the rise of that way. Each call says the way, so that the compiler makes a loop for each.
fn sweep(
    scratch: &mut [i64],
    to: usize,
    from: usize,
    count: usize,
    gain: i64,
    rise: i64,
    down: bool,
)
    requires { (Behind scratch.old to from count) × (ladders.Stepping count gain rise) }
    ensures { Swept down scratch.old scratch.new to from count gain rise }
{
    let mut best = BELOW;
    for i in 0..count {
        let at = place(down, count, i);
        best = pass(scratch, to + at, from + at, best, gain, rise);
    }
}

// A chunk of a row's sources: from a on, as many as there are outputs. A cell's sources are the last of one chunk and the first of the next, so
// all are counted by going up each chunk and down it again, down only from where the highest output stays in the row.
fn raise_chunk(scratch: &mut [i64], to: usize, from: usize, cells: usize, l: Ladder, a: usize)
    requires { (Steady l) × (a + l.high < cells) × (Behind scratch.old to from cells) }
    ensures { Reached l cells (Between l cells a (a + outputs l)) scratch.old scratch.new to from }
{
    let size = l.high - l.low + 1;
    let down = integers::smaller(size, cells - l.high - a);
    sweep(
        scratch,
        to + (a + l.low),
        from + a,
        size,
        l.least,
        l.rise,
        false,
    );
    sweep(
        scratch,
        to + (a + l.high),
        from + a,
        down,
        most(l),
        0 - l.rise,
        true,
    );
}

// The sources whose highest output is past the row.
fn raise_last(scratch: &mut [i64], to: usize, from: usize, cells: usize, l: Ladder)
    requires { (Steady l) × (Behind scratch.old to from cells) }
    ensures { Reached l cells (Past l cells) scratch.old scratch.new to from }
{
    let a = cells - integers::smaller(l.high, cells);
    let first = a + l.low;
    if first < cells {
        sweep(
            scratch,
            to + first,
            from + a,
            cells - first,
            l.least,
            l.rise,
            false,
        );
    }
}

// Each cell of a row raised to the best over the outputs that its blocks allow, at a cost that does not go by their number.
fn raise_row(scratch: &mut [i64], to: usize, from: usize, cells: usize, l: Ladder)
    requires { (Steady l) × (Behind scratch.old to from cells) }
    ensures { RowRaised l cells scratch.old scratch.new to from }
{
    let size = l.high - l.low + 1;
    // A `for` over `step_by` proves too, and a fill with 7 outputs then takes 3.4 per cent more instructions.
    let mut a = 0;
    while a + l.high < cells {
        raise_chunk(scratch, to, from, cells, l, a);
        a += size;
    }
    raise_last(scratch, to, from, cells, l);
}

// The rows that have an on-interval left, from the rows with one less.
pub fn raise_rows(scratch: &mut [i64], to: usize, from: usize, f: Figures, l: Ladder)
    requires { (Sound f) × (f.takes.blocks ≡ 1) × (Steady l) × (Behind scratch.old to from (span f)) }
    ensures { SpanRaised f l scratch.old scratch.new to from }
{
    let cells = geometry::row_cells(f);
    let first = to + f.takes.ons * cells;
    for y in 0..f.most.ons + 1 - f.takes.ons {
        raise_row(scratch, first + y * cells, from + y * cells, cells, l);
    }
}
