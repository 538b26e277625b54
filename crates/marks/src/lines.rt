// An interval on, for the cells of a piece of a line.

ghost use Rattle.std.specs.Prelude.{◌≡◌, ◌+◌, ◌≤◌, ◌<◌, length};
ghost use Rattle.carrying.specs.Images.{piece, Imaged};
ghost use Rattle.marks.specs.Lines.{FlatLine, FlatAt, Over, OnAsked, OnOf, laddered, line_of, skipped_of};
ghost use Rattle.optimality.specs.Cells.{states, after_on};

use crate::{Piece, Step};
use carrying::images;
use carrying::images::Places;
use intervals::rows::Ladder;
use intervals::{rows, steps};

// Where every output leads to the same cell: so many places back on a line, for the same gain.
#[derive(Clone, Copy)]
pub struct Back {
    pub line: usize,
    pub skipped: usize,
    pub gain: i64,
}

// The first places have no cell to lead to.
fn flat(cells: &[i64], w: usize, b: Back, p: Piece, out: &mut [i64])
    requires { (FlatLine cells.now w b p) × (piece + piece ≤ length out.old) }
    ensures { Imaged (FlatAt cells.now w b p.place) out.old out.new p.count }
{
    let lead = integers::smaller(p.count, b.skipped - integers::smaller(b.skipped, p.place));
    images::nothing(&mut *out, lead);
    if lead < p.count {
        images::shifted(
            cells,
            w,
            b.line + (p.place + lead - b.skipped),
            p.count - lead,
            b.gain,
            out,
            lead,
        );
    }
}

// Where the line begins that an interval on leads to, from a line that begins with x starts left.
fn line_behind(t: Step, s: usize, x: usize) -> usize
    requires { (Over t) × (s < states t.figures) × (after_on t.figures s < states t.figures) × (x ≤ t.figures.most.starts) }
    ensures { result ≡ line_of t.figures s x }
{
    let f = t.figures;
    let span = geometry::span_cells(f);
    let left = x - integers::smaller(x, steps::start_takes(f, s));
    steps::after_on(f, s) * t.section + left * span
}

// The places of a line without an interval on, MWh not limited: a span for each start that it lacks where it begins, and a row for an on-interval.
fn skipped_before(t: Step, s: usize, x: usize) -> usize
    requires { Over t }
    ensures { result ≡ skipped_of t.figures s x }
{
    let f = t.figures;
    let takes = steps::start_takes(f, s);
    let lacks = takes - integers::smaller(takes, x);
    lacks * geometry::span_cells(f) + f.takes.ons * geometry::row_cells(f)
}

// MWh not limited.
fn flat_image(cells: &[i64], t: Step, s: usize, p: Piece, l: Ladder, out: &mut [i64])
    requires on_asked { (OnAsked t cells.now s p) × (t.figures.takes.blocks ≡ 0) × (piece + piece ≤ length out.old) }
    requires l_value { l ≡ laddered t s }
    ensures { Imaged (OnOf t cells.now s p) out.old out.new p.count }
{
    let back = Back {
        line: line_behind(t, s, p.starts),
        skipped: skipped_before(t, s, p.starts),
        gain: rows::better_end(l),
    };
    flat(cells, t.width, back, p, out);
}

// MWh limited.
fn lined_image(cells: &[i64], t: Step, s: usize, p: Piece, l: Ladder, out: &mut [i64])
    requires on_asked { (OnAsked t cells.now s p) × (t.figures.takes.blocks ≡ 1) × (piece + piece ≤ length out.old) }
    requires l_value { l ≡ laddered t s }
    ensures { Imaged (OnOf t cells.now s p) out.old out.new p.count }
{
    let f = t.figures;
    if p.starts < steps::start_takes(f, s) || p.ons < f.takes.ons || p.place < l.low {
        images::nothing(out, p.count);
    } else {
        let line = line_behind(t, s, p.starts);
        let row = geometry::row_cells(f);
        let places = Places {
            line: line + (p.ons - f.takes.ons) * row,
            first: p.place,
            count: p.count,
        };
        images::chunks(cells, t.width, places, l, out);
    }
}

// An interval on from state s, for a piece of a line.
pub fn image(cells: &[i64], t: Step, s: usize, p: Piece, out: &mut [i64])
    requires { (OnAsked t cells.now s p) × (piece + piece ≤ length out.old) }
    ensures { Imaged (OnOf t cells.now s p) out.old out.new p.count }
{
    let f = t.figures;
    let l = steps::ladder(f, t.price, steps::start_pays(f, s));
    if f.takes.blocks == 0 {
        flat_image(cells, t, s, p, l, out);
    } else {
        lined_image(cells, t, s, p, l, out);
    }
}
