// An interval on, for a piece of a line: what each of its places gets, worked out aside. Values go to the front, marks behind them.

ghost use Rattle.std.specs.Prelude.{◌≡◌, ◌+◌, ◌≤◌, length};
ghost use Rattle.carrying.specs.Images.{piece, Sources, Aside, UpPicked, Descended, Chunk, Chunked, PickedAt, Chunks, Imaged, Shift, Shifted};
ghost use Rattle.geometry.specs.Layers.{infeasible};
ghost use Rattle.intervals.specs.Ladders.{outputs};

use crate::pairs;
use intervals::rows;
use intervals::rows::Ladder;

// The places that are worked out aside at a time: at least as many as there are outputs.
pub const PIECE: usize = 512;

// Sources, one after the other, with what is gained at the nearest and how much more with each that is farther.
#[derive(Clone, Copy)]
pub struct Slope {
    pub from: usize,
    pub count: usize,
    pub gain: i64,
    pub rise: i64,
}

// So many places of a line from one on.
#[derive(Clone, Copy)]
pub struct Places {
    pub line: usize,
    pub first: usize,
    pub count: usize,
}

// Up the sources with the best so far, which gains the rise at every place; the later source, whose output is smaller, wins a tie.
fn climb(cells: &[i64], w: usize, s: Slope, out: &mut [i64], to: usize)
    requires { (Sources cells.now w s) × (to + s.count ≤ piece) × (piece + piece ≤ length out.old) }
    ensures { Aside (UpPicked cells.now w s) out.old out.new to s.count }
{
    let mut best = cells[s.from] - s.rise;
    let mut mark = 0;
    for i in 0..s.count {
        let at = s.from + i;
        let number = cells[at];
        let carried = best + s.rise;
        let taken = carried <= number;
        best = pairs::either(taken, number, carried);
        mark = pairs::either(taken, cells[w + at], mark);
        pairs::put(out, PIECE, to + i, best + s.gain, mark);
    }
}

// Down the sources with the best so far, which gains the rise at every place; the earlier source, whose output is smaller, wins a tie. What comes down
// to a place is joined with what stands there, whose outputs are smaller.
fn descend(cells: &[i64], w: usize, s: Slope, out: &mut [i64], to: usize)
    requires { (Sources cells.now w s) × (to + s.count ≤ piece) × (piece + piece ≤ length out.old) }
    ensures { Descended cells.now w s out.old out.new to s.count }
{
    let last = s.from + (s.count - 1);
    let mut best = cells[last] - s.rise;
    let mut mark = cells[w + last];
    for i in (0..s.count).rev() {
        let at = s.from + i;
        let number = cells[at];
        let carried = best + s.rise;
        let taken = carried < number;
        best = pairs::either(taken, number, carried);
        mark = pairs::either(taken, cells[w + at], mark);
        pairs::join(out, PIECE, to + i, best + s.gain, mark);
    }
}

// As many places as there are outputs at most. The i-th has its smaller outputs from the sources that are climbed, up to itself less the lowest, and the
// larger ones from those before, which are descended; where the line begins there are none.
fn chunk(cells: &[i64], w: usize, p: Places, l: Ladder, out: &mut [i64], to: usize)
    requires { (Chunk l cells.now w p) × (to + outputs l ≤ piece) × (piece + piece ≤ length out.old) }
    ensures { Chunked l cells.now w p out.old out.new to }
{
    let up = Slope {
        from: p.line + (p.first - l.low),
        count: p.count,
        gain: l.least,
        rise: l.rise,
    };
    climb(cells, w, up, &mut *out, to);
    if l.high < p.first && l.low < l.high {
        let down = Slope {
            from: p.line + (p.first - l.high),
            count: l.high - l.low,
            gain: rows::most(l),
            rise: 0 - l.rise,
        };
        descend(cells, w, down, out, to);
    }
}

// Places of a line, chunk by chunk.
pub fn chunks(cells: &[i64], w: usize, p: Places, l: Ladder, out: &mut [i64])
    requires { (Chunks l cells.now w p) × (piece + piece ≤ length out.old) }
    ensures { Imaged (λ i v m. PickedAt l cells.now w p.line (p.first + i) v m) out.old out.new p.count }
{
    let size = l.high - l.low + 1;
    for done in (0..p.count).step_by(size) {
        let some = Places {
            line: p.line,
            first: p.first + done,
            count: integers::smaller(size, p.count - done),
        };
        chunk(cells, w, some, l, out, done);
    }
}

// Where no output is allowed.
pub fn nothing(out: &mut [i64], count: usize)
    requires { (count ≤ piece) × (piece + piece ≤ length out.old) }
    ensures { Imaged (λ i v m. v ≡ infeasible) out.old out.new count }
{
    for i in 0..count {
        pairs::put(out, PIECE, i, geometry::INFEASIBLE, 0);
    }
}

// Where every output leads to the same cell: its number with the gain, and its mark.
pub fn shifted(
    cells: &[i64],
    w: usize,
    from: usize,
    count: usize,
    gain: i64,
    out: &mut [i64],
    to: usize,
)
    requires { (Shift cells.now w from count gain) × (to + count ≤ piece) × (piece + piece ≤ length out.old) }
    ensures { Aside (Shifted cells.now w from gain) out.old out.new to count }
{
    for i in 0..count {
        let at = from + i;
        pairs::put(out, PIECE, to + i, cells[at] + gain, cells[w + at]);
    }
}
