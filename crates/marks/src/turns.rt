// One interval for a piece of a line, state by state: off, then on where it is better.

ghost use Rattle.std.specs.Prelude.{◌≡◌, ◌+◌, ◌-◌, ◌*◌, ◌≤◌, ◌<◌, length};
ghost use Rattle.carrying.specs.Pairs.{Pairs};
ghost use Rattle.carrying.specs.Images.{piece, Imaged};
ghost use Rattle.marks.specs.Lines.{Over, OnAsked, PieceOf};
ghost use Rattle.marks.specs.Turning.{MovedAt, OffHere, OnHere, TurnHere, Partly, PieceAsked, ServesFor, StateAsked};
ghost use Rattle.optimality.specs.Cells.{states};

use crate::{Piece, Step, lines};
use carrying::{images, pairs};
use intervals::rows;

// Values and marks of a stretch that lies behind.
fn move_plane(cells: &mut [i64], w: usize, to: usize, from: usize, count: usize)
    requires { (to + count ≤ from) × (from + count ≤ w) × (w + w ≤ length cells.old) }
    ensures { Pairs w (MovedAt w cells.old from) cells.old cells.new to count }
{
    rows::copy(cells, to, from, count);
    rows::copy(cells, w + to, w + from, count);
}

// The interval off, for a state that is not the last: the next state's stretch, or none where the run is too short to end.
pub fn off_state(cells: &mut [i64], t: Step, s: usize, p: Piece)
    requires { (Over t) × (PieceOf t.figures p) × (s + 1 < states t.figures) × (t.width + t.width ≤ length cells.old) }
    ensures { Pairs t.width (OffHere t cells.old s p) cells.old cells.new
        (s * t.section + p.column) p.count }
{
    let to = s * t.section + p.column;
    if s + 1 < t.figures.mot {
        rows::put(cells, to, p.count, geometry::INFEASIBLE);
    } else {
        move_plane(cells, t.width, to, to + t.section, p.count);
    }
}

// The interval on from state s, or none where the quarter-hour is shut.
fn on_image(cells: &[i64], t: Step, s: usize, p: Piece, out: &mut [i64])
    requires { (OnAsked t cells.now s p) × (piece + piece ≤ length out.old) }
    ensures { Imaged (OnHere t cells.now s p) out.old out.new p.count }
{
    if t.opens {
        lines::image(cells, t, s, p, out);
    } else {
        images::nothing(out, p.count);
    }
}

// The same for a state that is on. The two oldest both lead to the oldest, so that for the oldest the image of the state before it serves.
fn own_image(cells: &[i64], t: Step, s: usize, p: Piece, out: &mut [i64])
    requires on_asked { (OnAsked t cells.now s p) × (s < t.figures.mot) × (piece + piece ≤ length out.old) }
    requires serves_for { ServesFor t cells.now s p out.old }
    ensures { Imaged (OnHere t cells.now s p) out.old out.new p.count }
{
    if s == 0 || s + 1 < t.figures.mot {
        on_image(cells, t, s, p, out);
    }
}

// A state that is on: the interval off, and on where it is better.
pub fn on_state(cells: &mut [i64], t: Step, s: usize, p: Piece, ran: &mut [i64])
    requires on_asked { (OnAsked t cells.old s p) × (s < t.figures.mot) × (piece + piece ≤ length ran.old) }
    requires serves_for { ServesFor t cells.old s p ran.old }
    ensures imaged { Imaged (OnHere t cells.old s p) ran.old ran.new p.count }
    ensures pairs { Pairs t.width (TurnHere t cells.old s p) cells.old cells.new
        (s * t.section + p.column) p.count }
{
    own_image(&cells[..], t, s, p, &mut *ran);
    off_state(&mut *cells, t, s, p);
    pairs::join_all(
        cells,
        t.width,
        s * t.section + p.column,
        p.count,
        &ran[..],
        images::PIECE,
    );
}

// One state of a piece, that is not the last: a unit that is off too short stays off.
fn one_state(cells: &mut [i64], t: Step, s: usize, p: Piece, ran: &mut [i64])
    requires state_asked { (StateAsked t cells.old s p) × (piece + piece ≤ length ran.old) }
    requires serves_for { ServesFor t cells.old s p ran.old }
    ensures imaged { s < t.figures.mot → Imaged (OnHere t cells.old s p) ran.old ran.new p.count }
    ensures pairs { Pairs t.width (TurnHere t cells.old s p) cells.old cells.new
        (s * t.section + p.column) p.count }
{
    if s < t.figures.mot {
        on_state(cells, t, s, p, ran);
    } else {
        off_state(cells, t, s, p);
    }
}

// All states but the last, upwards: each leads to itself or a later one.
fn inner_states(cells: &mut [i64], t: Step, p: Piece, ran: &mut [i64])
    requires { (PieceAsked t cells.old p) × (piece + piece ≤ length ran.old) }
    ensures { Partly t cells.old cells.new p (states t.figures - 1) }
{
    for s in 0..t.figures.mot + t.figures.mdt - 1 {
        one_state(cells, t, s, p, ran);
    }
}

// All states of a piece. An interval on from the last leads to the first, so it is taken aside before that is turned; an interval off leads to itself.
pub fn step_piece(cells: &mut [i64], t: Step, p: Piece, begun: &mut [i64], ran: &mut [i64])
    requires { (PieceAsked t cells.old p) × (piece + piece ≤ length begun.old) × (piece + piece ≤ length ran.old) }
    ensures { Partly t cells.old cells.new p (states t.figures) }
{
    let last = t.figures.mot + t.figures.mdt - 1;
    on_image(&cells[..], t, last, p, &mut *begun);
    inner_states(&mut *cells, t, p, ran);
    pairs::join_all(
        cells,
        t.width,
        last * t.section + p.column,
        p.count,
        &begun[..],
        images::PIECE,
    );
}
