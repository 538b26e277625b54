// The months of a horizon one after the other, from the last back: for every month the layer of the year at its beginning. A layer keeps its place where there
// is one for each month; else two places take turns, and hold the layers of a month and of the next.

ghost use Rattle.std.specs.Prelude.{◌≡◌, ◌+◌, ◌-◌, ◌^◌, ◌<◌, length};
ghost use Rattle.months.specs.Annual.{cap_of, slot_of, place_of, quarters_at, month_at, places_at, ChainAsked, Stands, Earlier, Chained};
ghost use Rattle.months.specs.Chaining.{MonthMade};

use crate::chains::{Month, Places};
use crate::ends;
use commitment::windows::Allowed;
use intervals::rows;
use optimality::{Budgets, Figures};

// The most that a month may spend: the same in every month but one.
#[derive(Clone, Copy)]
pub struct Caps {
    pub each: Budgets,
    pub apart: usize,
    pub other: Budgets,
}

// What a chain is worked out with, and where: the cells of a layer, whether each month has a place of its own, and the part of the scratch behind the layers.
#[derive(Clone, Copy)]
pub struct Year {
    pub figures: Figures,
    pub hours: Option<Allowed>,
    pub caps: Caps,
    pub width: usize,
    pub all: bool,
    pub work: usize,
    pub room: usize,
}

fn cap_of(caps: Caps, k: usize) -> Budgets
    ensures { result ≡ cap_of caps k }
{
    if k == caps.apart {
        caps.other
    } else {
        caps.each
    }
}

// Which place a layer has.
fn slot_of(all: bool, k: usize) -> usize
    ensures { result ≡ slot_of all k }
{
    if all { k } else { k % 2 }
}

// Where the layer of month k stands; that of the horizon's end is one more.
pub fn place_of(y: Year, k: usize) -> usize
    requires { place_of y k < 2 ^ 64 }
    ensures { result ≡ place_of y k }
{
    slot_of(y.all, k) * y.width
}

// Month k, counted from 0.
pub fn month_at(y: Year, cuts: &[usize], k: usize) -> Month
    requires { k + 1 < length cuts.now }
    ensures { result ≡ month_at y cuts.now k }
{
    Month {
        from: cuts[k],
        to: cuts[k + 1],
        cap: cap_of(y.caps, k),
    }
}

// Its layer, and that of the next month.
fn places_at(y: Year, k: usize) -> Places
    requires { (place_of y k < 2 ^ 64) × (place_of y (k + 1) < 2 ^ 64) × (k + 1 < 2 ^ 64) }
    ensures { result ≡ places_at y k }
{
    Places {
        here: place_of(y, k),
        after: place_of(y, k + 1),
        work: y.work,
    }
}

// One month earlier.
fn earlier(cells: &mut [i64], y: Year, prices: &[i64], cuts: &[usize], k: usize)
    requires { Earlier y cells.old prices.now cuts.now k }
    ensures { MonthMade y.figures (quarters_at y prices.now cuts.now k) (month_at y cuts.now k) (places_at y k)
        cells.old cells.new }
{
    let m = month_at(y, cuts, k);
    let at = places_at(y, k);
    ends::before_month_cheaper(cells, y.figures, prices, y.hours, m, at);
}

// From the layer of the horizon's end back to month `first`.
fn back(cells: &mut [i64], y: Year, prices: &[i64], cuts: &[usize], first: usize)
    requires chain_asked { (ChainAsked y (length cells.old) prices.now cuts.now) × (first < length cuts.now) }
    requires stands { Stands y prices.now cuts.now cells.old (length cuts.now - 1) }
    ensures { Chained y prices.now cuts.now first cells.old cells.new }
{
    for k in (first..cuts.len() - 1).rev() {
        earlier(cells, y, prices, cuts, k);
    }
}

// From the horizon's end, where nothing more is earned, back to month `first`.
pub fn chain(cells: &mut [i64], y: Year, prices: &[i64], cuts: &[usize], first: usize)
    requires { (ChainAsked y (length cells.old) prices.now cuts.now) × (first < length cuts.now) }
    ensures { Chained y prices.now cuts.now first cells.old cells.new }
{
    let at = place_of(y, cuts.len() - 1);
    rows::put(&mut *cells, at, y.width, 0);
    back(cells, y, prices, cuts, first);
}
