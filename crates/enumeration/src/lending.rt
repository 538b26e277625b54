// The scratch that a generated case is lent: the lengths where another way of planning begins, what its cells hold on entry, and what is to be left in them.
// It shares nothing with the planner.

ghost use Rattle.std.specs.Prelude.{◌≡◌, ◌+◌, ◌*◌, ◌^◌, ◌<◌, ◌≤◌, true, ◌↔◌, length};
ghost use Rattle.enumeration.specs.Lists.{room};
ghost use Rattle.enumeration.specs.Lists as lists;
ghost use Rattle.enumeration.specs.Lengths.{most_left, layer_of, one_less, length_for, length_of, used_of, lent_with, lent_of};
ghost use Rattle.enumeration.specs.Fillings.{left_at, cells_from};
ghost use Rattle.enumeration.specs.Fillings as fillings;

use crate::enumerator;
use crate::enumerator::Case;
use crate::numbers::{difference, times};

// Each case is tried with so many lengths.
pub const LENGTHS: u64 = 4;

// The long table, two layers, and one cell less than each.
#[derive(Clone, Copy, PartialEq, Eq)]
pub enum Length {
    Long,
    UnderLong,
    TwoLayers,
    UnderTwoLayers,
}

// By number, the last for every number above.
impl From<u64> for Length {
    ghost from_gives = { λ number length. length ≡ length_for number };

    fn from(number: u64) -> Length {
        match number {
            0 => Length::Long,
            1 => Length::UnderLong,
            2 => Length::TwoLayers,
            _ => Length::UnderTwoLayers,
        }
    }
}

// The cells lent, and how many of them planning uses: none where it is refused for want of cells.
#[derive(Clone, Copy)]
pub struct Lent {
    pub cells: usize,
    pub used: Option<usize>,
}

// ---- the lengths

// What a case is lent, the number saying which length: any number, as the definition `lent_of` has it.
pub fn lent_of(case: Case, number: u64) -> Lent
    ensures { result ≡ lent_of case number }
{
    let layer = layer_of(case);
    let two = 2 * layer;
    let long = times(layer, intervals_of(case) + 1);
    lend(long, two, length_of(long, two, Length::from(number)))
}

fn length_of(long: u64, two: u64, length: Length) -> u64
    ensures { result ≡ length_of long two length }
{
    match length {
        Length::Long => long,
        Length::UnderLong => one_less(long),
        Length::TwoLayers => two,
        Length::UnderTwoLayers => one_less(two),
    }
}

// One less than 0 is more than there are.
fn one_less(cells: u64) -> u64
    ensures { result ≡ one_less cells }
{
    cells.wrapping_sub(1)
}

fn lend(long: u64, two: u64, cells: u64) -> Lent
    ensures { result ≡ lent_with long two cells }
{
    Lent {
        cells: cells as usize,
        used: used_of(long, two, cells),
    }
}

// The long table where it fits, else two layers.
fn used_of(long: u64, two: u64, cells: u64) -> Option<usize>
    ensures { result ≡ used_of long two cells }
{
    if long <= cells {
        return Some(long as usize);
    }
    (two <= cells).then_some(two as usize)
}

fn intervals_of(case: Case) -> u64
    ensures { (result ≡ lists.intervals_of case) × (result ≤ room) }
{
    enumerator::intervals_of(case) as u64
}

#[tactic(auto, unfolding(crate::specs::Lengths::layer_of))]
// A cell for each state and for each number of starts, on-intervals and blocks that can be left.
fn layer_of(case: Case) -> u64
    ensures { (result ≡ layer_of case) × (result < 2 ^ 32) }
{
    let n = intervals_of(case);
    let limits = case.limits;
    cells_of(
        u64::from(case.mot) + u64::from(case.mdt),
        most_left(limits.starts, 1, 1, n),
        most_left(limits.hours, 4, 1, n),
        blocks_of(case, n),
    )
}

fn cells_of(states: u64, starts: u64, ons: u64, blocks: u64) -> u64
    requires { (states < 2 ^ 9) × (starts ≤ room) × (ons ≤ room) × (blocks < 2 ^ 12) }
    ensures { (result ≡ states * (starts + 1) * (ons + 1) * (blocks + 1)) × (result < 2 ^ 32) }
{
    states * (starts + 1) * (ons + 1) * (blocks + 1)
}

fn blocks_of(case: Case, n: u64) -> u64
    requires { n ≤ room }
    ensures { (result ≡ most_left case.limits.mwh 4 case.block (n * case.pmax)) × (result < 2 ^ 12) }
{
    most_left(
        case.limits.mwh,
        4,
        u64::from(case.block),
        n * u64::from(case.pmax),
    )
}

#[tactic(auto, unfolding(crate::specs::Lengths::most_left))]
// Counted up: so many, each of that size, as the limitation has room for, but no more than the intervals can use.
fn most_left(cap: Option<u32>, unit: u64, size: u64, usable: u64) -> u64
    requires { (unit ≤ 4) × (size < 2 ^ 8) × (usable < 2 ^ 12) }
    ensures { (result ≡ most_left cap unit size usable) × (result ≤ usable) }
{
    let Some(most) = cap else {
        return 0;
    };
    let room = times(u64::from(most), unit);
    for count in 0..usable {
        if room < times(count + 1, size) {
            return count;
        }
    }
    usable
}

// ---- the cells

// A number that is not 0, by the cell's place.
fn filling(place: usize) -> i64
    ensures { result ≡ fillings.filling place }
{
    difference(0, 7777 + (place % 1000) as u64)
}

// A cell that is left as it was still holds this, and no 0.
pub fn fill(scratch: &mut [i64])
    ensures { scratch.new ≡ cells_from fillings.filling 0 (length scratch.old) }
{
    for (i, cell) in scratch.iter_mut().enumerate() {
        *cell = filling(i);
    }
}

// Whether the cells used are 0, and those beyond as they were.
pub fn is_left(scratch: &[i64], used: usize) -> bool
    ensures { (result ≡ true) ↔ (scratch.now ≡ cells_from (left_at used) 0 (length scratch.now)) }
{
    for (i, cell) in scratch.iter().enumerate() {
        if *cell != left_at(i, used) {
            return false;
        }
    }
    true
}

fn left_at(place: usize, used: usize) -> i64
    ensures { result ≡ left_at used place }
{
    if place < used {
        return 0;
    }
    filling(place)
}
