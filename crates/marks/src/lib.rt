// Values and marks of a layer, one interval earlier in place: a cell's mark is a number that goes with its plan. mod lines: an interval on, for the cells
// of a line; mod turns: a piece of a line, state by state; mod passes: line by line.

#![tactic(auto)]

use commitment::windows::Allowed;
use optimality::Figures;

pub mod lines;
pub mod passes;
pub mod turns;

// What every interval is worked out with: the figures, the cells of a layer, and the hours.
#[derive(Clone, Copy)]
pub struct Frame {
    pub figures: Figures,
    pub width: usize,
    pub hours: Option<Allowed>,
}

// One interval over a layer: the cells of the layer and of a section, the price, and whether the unit may run.
#[derive(Clone, Copy)]
pub struct Step {
    pub figures: Figures,
    pub width: usize,
    pub section: usize,
    pub price: i64,
    pub opens: bool,
}

// The cells of consecutive columns, with the starts and the on-intervals left where it begins, its first column and how many it has. A row where MWh is
// limited; else a span, or the whole section where hours are not limited either.
#[derive(Clone, Copy)]
pub struct Line {
    pub starts: usize,
    pub ons: usize,
    pub start: usize,
    pub long: usize,
}

// A piece of a line: its first place there, its first column, and its places.
#[derive(Clone, Copy)]
pub struct Piece {
    pub starts: usize,
    pub ons: usize,
    pub place: usize,
    pub column: usize,
    pub count: usize,
}
