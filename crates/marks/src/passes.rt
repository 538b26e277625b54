// One interval for all cells of a layer, from the highest column down: an interval leads to no higher one.

ghost use Rattle.std.specs.Prelude.{◌≡◌, ◌+◌, ◌*◌, ◌^◌, ◌≤◌, ◌<◌, length};
ghost use Rattle.carrying.specs.Images.{piece};
ghost use Rattle.commitment.specs.Bounds.{most_intervals};
ghost use Rattle.commitment.specs.Windows.{Clocked};
ghost use Rattle.marks.specs.Lines.{quarter_of};
ghost use Rattle.marks.specs.Passing.{Columns, Before, LineOf, OwnNumbers, first_of, piece_of, step_at};
ghost use Rattle.marks.specs.Standing.{SweepAsked, Swept, Numbered};
ghost use Rattle.layers.specs.Filling.{quarters_in, between};
ghost use Rattle.geometry.specs.Geometry as geometry;

use crate::{Frame, Line, Piece, Step, turns};
use carrying::images;
use commitment::windows;

// The places of a line from one on to another.
fn piece_of(l: Line, at: usize, end: usize) -> Piece
    requires { (at ≤ end) × (l.start + end < 2 ^ 64) }
    ensures { result ≡ piece_of l at end }
{
    Piece {
        starts: l.starts,
        ons: l.ons,
        place: at,
        column: l.start + at,
        count: end - at,
    }
}

// A line's pieces from place `first` on, from its end down: whole chunks, the last perhaps cut short.
fn upper_pieces(
    cells: &mut [i64],
    t: Step,
    l: Line,
    first: usize,
    begun: &mut [i64],
    ran: &mut [i64],
)
    requires before { (Before t cells.old (l.start + l.long)) × (LineOf t.figures l) × (first ≡ first_of t.figures l.long) }
    requires piece_in_bounds { (piece + piece ≤ length begun.old) × (piece + piece ≤ length ran.old) }
    ensures { Columns t.figures (quarter_of t) t.width cells.old cells.new (l.start + first) (l.start + l.long) }
{
    let size = t.figures.pmax - t.figures.pmin + 1;
    let most = images::PIECE / size * size;
    for n in (0..(l.long - first).div_ceil(most)).rev() {
        let at = first + n * most;
        let end = integers::smaller(l.long, at + most);
        turns::step_piece(cells, t, piece_of(l, at, end), begun, ran);
    }
}

// A line. Where MWh is limited the places before pmin have too few blocks to run: they are a piece of their own.
fn step_line(cells: &mut [i64], t: Step, l: Line, begun: &mut [i64], ran: &mut [i64])
    requires before { (Before t cells.old (l.start + l.long)) × (LineOf t.figures l) }
    requires piece_in_bounds { (piece + piece ≤ length begun.old) × (piece + piece ≤ length ran.old) }
    ensures { Columns t.figures (quarter_of t) t.width cells.old cells.new l.start (l.start + l.long) }
{
    let first = integers::smaller(l.long, t.figures.takes.blocks * t.figures.pmin);
    upper_pieces(&mut *cells, t, l, first, &mut *begun, &mut *ran);
    if 0 < first {
        turns::step_piece(cells, t, piece_of(l, 0, first), begun, ran);
    }
}

// The lines of x starts left, where MWh is limited: rows, from the highest down.
fn step_rows(cells: &mut [i64], t: Step, x: usize, begun: &mut [i64], ran: &mut [i64])
    requires before { (Before t cells.old (x * geometry.span t.figures + geometry.span t.figures)) × (x ≤ t.figures.most.starts) }
    requires blocks_value { (t.figures.takes.blocks ≡ 1) × (piece + piece ≤ length begun.old) × (piece + piece ≤ length ran.old) }
    ensures { Columns t.figures (quarter_of t) t.width cells.old cells.new (x * geometry.span t.figures)
        (x * geometry.span t.figures + geometry.span t.figures) }
{
    let row = geometry::row_cells(t.figures);
    let first = x * geometry::span_cells(t.figures);
    for y in (0..=t.figures.most.ons).rev() {
        let line = Line {
            starts: x,
            ons: y,
            start: first + y * row,
            long: row,
        };
        step_line(cells, t, line, begun, ran);
    }
}

// The lines of x starts left: the whole span where MWh is not limited.
fn step_span(cells: &mut [i64], t: Step, x: usize, begun: &mut [i64], ran: &mut [i64])
    requires before { (Before t cells.old (x * geometry.span t.figures + geometry.span t.figures)) × (x ≤ t.figures.most.starts) }
    requires piece_in_bounds { (piece + piece ≤ length begun.old) × (piece + piece ≤ length ran.old) }
    ensures { Columns t.figures (quarter_of t) t.width cells.old cells.new (x * geometry.span t.figures)
        (x * geometry.span t.figures + geometry.span t.figures) }
{
    if t.figures.takes.blocks == 0 {
        let span = geometry::span_cells(t.figures);
        let line = Line {
            starts: x,
            ons: 0,
            start: x * span,
            long: span,
        };
        step_line(cells, t, line, begun, ran);
    } else {
        step_rows(cells, t, x, begun, ran);
    }
}

// The spans from the highest down.
fn step_spans(cells: &mut [i64], t: Step, begun: &mut [i64], ran: &mut [i64])
    requires before { Before t cells.old (geometry.section t.figures) }
    requires piece_in_bounds { (piece + piece ≤ length begun.old) × (piece + piece ≤ length ran.old) }
    ensures { Columns t.figures (quarter_of t) t.width cells.old cells.new 0 (geometry.section t.figures) }
{
    for x in (0..=t.figures.most.starts).rev() {
        step_span(cells, t, x, begun, ran);
    }
}

// All cells. Where neither hours nor MWh are limited, the section is one line.
pub fn step(cells: &mut [i64], t: Step, begun: &mut [i64], ran: &mut [i64])
    requires before { Before t cells.old (geometry.section t.figures) }
    requires piece_in_bounds { (piece + piece ≤ length begun.old) × (piece + piece ≤ length ran.old) }
    ensures { Columns t.figures (quarter_of t) t.width cells.old cells.new 0 (geometry.section t.figures) }
{
    if t.figures.takes.ons == 0 && t.figures.takes.blocks == 0 {
        let line = Line {
            starts: 0,
            ons: 0,
            start: 0,
            long: t.section,
        };
        step_line(cells, t, line, begun, ran);
    } else {
        step_spans(cells, t, begun, ran);
    }
}

// The interval of a price.
fn step_at(g: Frame, section: usize, price: i64, at: usize) -> Step
    requires { (at < most_intervals) × (Clocked g.hours) }
    ensures { result ≡ step_at g section price at }
{
    Step {
        figures: g.figures,
        width: g.width,
        section,
        price,
        opens: windows::opens_in(g.hours, at),
    }
}

// The intervals of so many prices, from the last down.
fn sweep(
    cells: &mut [i64],
    g: Frame,
    prices: &[i64],
    from: usize,
    to: usize,
    begun: &mut [i64],
    ran: &mut [i64],
)
    requires sweep_asked { SweepAsked g cells.old prices.now from to }
    requires piece_in_bounds { (piece + piece ≤ length begun.old) × (piece + piece ≤ length ran.old) }
    ensures { Swept g.figures g.width cells.old cells.new
        (between (quarters_in g.hours prices.now) from to) }
{
    let section = geometry::section_cells(g.figures);
    for at in (from..to).rev() {
        let t = step_at(g, section, prices[at], at);
        step(cells, t, begun, ran);
    }
}

// Every cell's mark is its own number.
fn mark_own(cells: &mut [i64], w: usize)
    requires { (w + w ≤ length cells.old) × (w < 2 ^ 62) }
    ensures { OwnNumbers w cells.old cells.new w }
{
    for i in 0..w {
        cells[w + i] = integers::signed(i as u64);
    }
}

// So many intervals before a layer that stands in front, each cell marked with the number of the layer's cell where its plan stands.
pub fn mark(
    cells: &mut [i64],
    g: Frame,
    prices: &[i64],
    from: usize,
    to: usize,
    begun: &mut [i64],
    ran: &mut [i64],
)
    requires sweep_asked { SweepAsked g cells.old prices.now from to }
    requires piece_in_bounds { (piece + piece ≤ length begun.old) × (piece + piece ≤ length ran.old) × (g.width < 2 ^ 62) }
    ensures { Numbered g.figures g.width cells.old cells.new
        (between (quarters_in g.hours prices.now) from to) }
{
    mark_own(&mut *cells, g.width);
    sweep(cells, g, prices, from, to, begun, ran);
}
