// Energy bid curves: from points of level and average heat rate to segments whose prices rise strictly. One pass over the points: the last
// segment stays open until a dearer one closes it, so that a price is raised, and equal neighbours are merged, without a second look.

#![tactic(auto)]

ghost use Rattle.std.specs.Prelude.{◌≡◌, true, cond, ◌+◌, ◌<◌, length, set, get_or, Ok};
ghost use Rattle.curves.specs.Ranges as ranges;
ghost use Rattle.commitment.specs.Causes.{first_of};
ghost use Rattle.curves.specs.Ranges.{inputs_kept, count_kept, points_kept, level_checks, length_checks, curve_checked};
ghost use Rattle.curves.specs.Curve.{incremental_rate, price_fraction, own_price, final_curve};
ghost use Rattle.curves.specs.Answers as answers;
ghost use Rattle.curves.specs.Answers.{curved, froms_left, tos_left, prices_left, filled, from_of, to_of, price_of};
ghost use Rattle.curves.specs.Sizes.{InputSizes, PointSizes};
ghost use Rattle.curves.specs.Passes as passes;
ghost use Rattle.curves.specs.Passes.{own_at, open_after, stored};

use commitment::{Cause, MOST_MW};
use costs::{HEAT_UNITS, MOST_HEAT, MOST_TARIFF};

// The ends of the ranges that bid curves alone have. specs/Bounds.antt has the same.
const FEWEST_POINTS: usize = 2;

const MOST_POINTS: usize = 11;

const MOST_BID_ADDER: u64 = 1000000;

// Cents per MMBtu for gas, per MWh for the others. Laid out as in C, so that a host hands it over as it is.
#[repr(C)]
#[derive(Clone, Copy)]
pub struct CurveInputs {
    pub gas: u64,
    pub om: u64,
    pub gmc: u64,
    pub adder: u64,
}

// From a level to a level, MW, at a price in cents per MWh.
#[derive(Clone, Copy)]
pub struct Segment {
    pub from: u64,
    pub to: u64,
    pub price: i64,
}

// The final curve, and how many segments it has; or 3, 11 or 7. A point stands in the same place of two lists, a segment in that of three, as C lends them.
pub fn curve_into(
    inputs: CurveInputs,
    levels: &[u64],
    rates: &[u64],
    froms: &mut [u64],
    tos: &mut [u64],
    prices: &mut [i64],
) -> Result<usize, Cause>
    ensures value { result
        ≡ curved inputs levels.now rates.now (answers.room froms.old tos.old prices.old) }
    ensures froms_after { froms.new
        ≡ froms_left inputs levels.now rates.now froms.old tos.old prices.old }
    ensures tos_after { tos.new
        ≡ tos_left inputs levels.now rates.now froms.old tos.old prices.old }
    ensures prices_after { prices.new
        ≡ prices_left inputs levels.now rates.now froms.old tos.old prices.old }
{
    let room = integers::smaller(froms.len(), integers::smaller(tos.len(), prices.len()));
    check_curve(inputs, levels, rates, room)?;
    Ok(fill(inputs, levels, rates, froms, tos, prices))
}

// ---- the check

// 3 comes first: lists in their ranges can be walked.
fn check_curve(inputs: CurveInputs, levels: &[u64], rates: &[u64], room: usize) -> Result<(), Cause>
    ensures { result ≡ curve_checked inputs levels.now rates.now room }
{
    if !(inputs_kept(inputs) & points_kept(levels, rates)) {
        return Err(Cause::Range);
    }
    check_levels(levels, rates, room)
}

// Levels that rise differ, so that a price can be divided by their difference.
fn check_levels(levels: &[u64], rates: &[u64], room: usize) -> Result<(), Cause>
    requires { points_kept levels.now rates.now ≡ true }
    ensures { result ≡ first_of (level_checks levels.now rates.now room) }
{
    if !rising(levels) {
        return Err(Cause::Levels);
    }
    check_lengths(levels, rates, room)
}

// There are points, so that one can be taken from their number.
fn check_lengths(levels: &[u64], rates: &[u64], room: usize) -> Result<(), Cause>
    requires { points_kept levels.now rates.now ≡ true }
    ensures { result ≡ first_of (length_checks levels.now rates.now room) }
{
    if !((levels.len() == rates.len()) & (levels.len() - 1 <= room)) {
        return Err(Cause::Length);
    }
    Ok(())
}

fn inputs_kept(inputs: CurveInputs) -> bool
    ensures { result ≡ inputs_kept inputs }
{
    (inputs.gas <= MOST_TARIFF)
        & (inputs.om <= MOST_TARIFF)
        & (inputs.gmc <= MOST_TARIFF)
        & (inputs.adder <= MOST_BID_ADDER)
}

// Lists that are too long are not walked.
fn points_kept(levels: &[u64], rates: &[u64]) -> bool
    ensures { result ≡ points_kept levels.now rates.now }
{
    if !(count_kept(levels.len()) & count_kept(rates.len())) {
        return false;
    }
    costs::every_one_to(MOST_MW, levels) & costs::every_one_to(MOST_HEAT, rates)
}

fn count_kept(n: usize) -> bool
    ensures { result ≡ count_kept n }
{
    (FEWEST_POINTS <= n) & (n <= MOST_POINTS)
}

// Each is above the one before it.
fn rising(levels: &[u64]) -> bool
    ensures { result ≡ ranges.rising levels.now }
{
    levels.windows(2).all(|pair| pair[0] < pair[1])
}

// ---- the curve

// A segment is written when a dearer one follows, and the last one after the walk.
fn fill(
    inputs: CurveInputs,
    levels: &[u64],
    rates: &[u64],
    froms: &mut [u64],
    tos: &mut [u64],
    prices: &mut [i64],
) -> usize
    requires { curve_checked inputs levels.now rates.now (answers.room froms.old tos.old prices.old) ≡ Ok tt }
    ensures value { result ≡ length (final_curve inputs levels.now rates.now) }
    ensures froms_after { froms.new ≡ filled from_of (final_curve inputs levels.now rates.now) froms.old }
    ensures tos_after { tos.new ≡ filled to_of (final_curve inputs levels.now rates.now) tos.old }
    ensures prices_after { prices.new ≡ filled price_of (final_curve inputs levels.now rates.now) prices.old }
{
    let segments = levels.len() - 1;
    let mut last = own_segment(inputs, levels, rates, 0);
    let mut count = 0;
    for i in 1..segments {
        let next = own_segment(inputs, levels, rates, i);
        let closed = dearer(last, next);
        count = close_if(closed, last, count, froms, tos, prices);
        last = open_after(closed, last, next);
    }
    put(last, count, froms, tos, prices);
    count + 1
}

// A dearer segment closes the one that is open.
fn dearer(last: Segment, next: Segment) -> bool
    ensures { result ≡ passes.dearer last next }
{
    last.price < next.price
}

// The segment that is open then: the next one, or the last made longer, at its price.
fn open_after(closed: bool, last: Segment, next: Segment) -> Segment
    ensures { result ≡ open_after closed last next }
{
    if closed {
        return next;
    }
    Segment {
        to: next.to,
        ..last
    }
}

// A closed segment goes behind those before it. The count of them all.
fn close_if(
    closed: bool,
    last: Segment,
    count: usize,
    froms: &mut [u64],
    tos: &mut [u64],
    prices: &mut [i64],
) -> usize
    requires { (count < length froms.old) × (count < length tos.old) × (count < length prices.old) }
    ensures value { result ≡ cond closed (count + 1) count }
    ensures froms_after { froms.new ≡ stored closed count last.from froms.old }
    ensures tos_after { tos.new ≡ stored closed count last.to tos.old }
    ensures prices_after { prices.new ≡ stored closed count last.price prices.old }
{
    if closed {
        put(last, count, froms, tos, prices);
        return count + 1;
    }
    count
}

// The three lists share their places.
fn put(segment: Segment, at: usize, froms: &mut [u64], tos: &mut [u64], prices: &mut [i64])
    requires { (at < length froms.old) × (at < length tos.old) × (at < length prices.old) }
    ensures froms_after { froms.new ≡ set froms.old at segment.from }
    ensures tos_after { tos.new ≡ set tos.old at segment.to }
    ensures prices_after { prices.new ≡ set prices.old at segment.price }
{
    froms[at] = segment.from;
    tos[at] = segment.to;
    prices[at] = segment.price;
}

// ---- a segment's own price

// The segment between points i and i + 1.
fn own_segment(inputs: CurveInputs, levels: &[u64], rates: &[u64], i: usize) -> Segment
    requires input_sizes { InputSizes inputs }
    requires i_in_bounds { (i + 1 < length levels.now) × (i + 1 < length rates.now) }
    requires point_sizes { PointSizes (get_or levels.now i 0) (get_or rates.now i 0) (get_or levels.now (i + 1) 0) (get_or rates.now (i + 1) 0) }
    ensures { result ≡ own_at inputs levels.now rates.now i }
{
    let from = levels[i];
    let to = levels[i + 1];
    let price = own_price(inputs, from, rates[i], to, rates[i + 1]);
    Segment { from, to, price }
}

// Worked out in parts of a cent, as many as a thousand times the change in level, and rounded once.
fn own_price(inputs: CurveInputs, from: u64, from_rate: u64, to: u64, to_rate: u64) -> i64
    requires input_sizes { InputSizes inputs }
    requires point_sizes { PointSizes from from_rate to to_rate }
    ensures { result ≡ own_price inputs from from_rate to to_rate }
{
    let sum = price_units(inputs, from, from_rate, to, to_rate);
    rounding::rounded_signed(sum, (to - from) * HEAT_UNITS)
}

// The numerator of a segment's own price. The part for fuel may be negative.
fn price_units(inputs: CurveInputs, from: u64, from_rate: u64, to: u64, to_rate: u64) -> i64
    requires input_sizes { InputSizes inputs }
    requires point_sizes { PointSizes from from_rate to to_rate }
    ensures { result ≡ (price_fraction inputs from from_rate to to_rate).num }
{
    let fuel = heat_change(from, from_rate, to, to_rate) * integers::signed(inputs.gas);
    let fixed = (inputs.om + inputs.gmc + inputs.adder) * ((to - from) * HEAT_UNITS);
    fuel + integers::signed(fixed)
}

// The change in level × rate.
fn heat_change(from: u64, from_rate: u64, to: u64, to_rate: u64) -> i64
    requires { PointSizes from from_rate to to_rate }
    ensures { result ≡ (incremental_rate from from_rate to to_rate).num }
{
    integers::signed(to * to_rate) - integers::signed(from * from_rate)
}
