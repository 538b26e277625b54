// Bid curves: the first two segments of the sources' heat rate example, whose prices are found by counting cents up, too; a price that is rounded,
// segments that merge, halves above and below zero, and each cause for which there is no curve.

ghost use Rattle.std.specs.Prelude.{◌≤◌};

use curves::CurveInputs;
use enumeration::printing::{cells, line, text};
use std::io;

pub fn try_bids(rt: &impl Print) -> io::Result<()> {
    text(rt, b"bids,from,to,cents\n")?;
    let levels = [70, 150, 300];
    let rates = [14440, 11960, 10909];
    let inputs = gas_bid();
    try_points(rt, b"heat rate example", inputs, &levels, &rates)?;
    line(
        rt,
        b"counted up,",
        counted_up(150 * 11960 - 70 * 14440, 150 - 70),
    )?;
    line(
        rt,
        b"counted up,",
        counted_up(300 * 10909 - 150 * 11960, 300 - 150),
    )?;
    try_points(rt, b"33", at_gas(10000), &[1, 4], &[10, 5])?;
    try_points(
        rt,
        b"merged",
        at_gas(1000),
        &[1, 2, 3, 4],
        &[10000, 10000, 8000, 7500],
    )?;
    try_halves(rt, at_gas(500))?;
    try_refusals(rt, inputs, &levels, &rates)?;
    text(rt, b"\n")
}

// 1.5 and 2.5, which are one segment then, and 3.5; the same below zero.
fn try_halves(rt: &impl Print, inputs: CurveInputs) -> io::Result<()> {
    try_points(rt, b"halves", inputs, &[1, 2, 3, 4], &[1, 2, 3, 4])?;
    try_points(rt, b"half below zero", inputs, &[1, 2], &[5, 1])?;
    try_points(rt, b"half below zero", inputs, &[1, 2], &[7, 1])?;
    try_points(rt, b"half below zero", inputs, &[1, 2], &[9, 1])
}

// A gas price too high, levels that do not rise, and a rate too few.
fn try_refusals(
    rt: &impl Print,
    inputs: CurveInputs,
    levels: &[u64],
    rates: &[u64],
) -> io::Result<()> {
    try_points(rt, b"gas 10001", at_gas(10001), levels, rates)?;
    try_points(rt, b"levels 70 70 300", inputs, &[70, 70, 300], rates)?;
    try_points(rt, b"two rates", inputs, levels, &[14440, 11960])
}

// A line for each segment, or of the refusal.
fn try_points(
    rt: &impl Print,
    name: &[u8],
    inputs: CurveInputs,
    levels: &[u64],
    rates: &[u64],
) -> io::Result<()> {
    let mut froms = [0u64; 10];
    let mut tos = [0u64; 10];
    let mut prices = [0i64; 10];
    match curves::curve_into(inputs, levels, rates, &mut froms, &mut tos, &mut prices) {
        Err(cause) => {
            text(rt, name)?;
            line(rt, b" refused,", u64::from(cause))
        }
        Ok(count) => print_segments(rt, name, count, &froms, &tos, &prices),
    }
}

// As many as there are, from the front of the three slices.
fn print_segments(
    rt: &impl Print,
    name: &[u8],
    count: usize,
    froms: &[u64],
    tos: &[u64],
    prices: &[i64],
) -> io::Result<()> {
    for ((from, to), price) in froms.iter().zip(tos).zip(prices).take(count) {
        text(rt, name)?;
        cells(rt, &[*from, *to])?;
        line(rt, b",", *price)?;
    }
    Ok(())
}

// The price of heat over so many MW at the bid of the example. Cents are counted up by two, so that the count is even, and what is left is nearest to
// none, one or two: half a cent goes to none, one and a half to two. A while: division is what this is held beside.
fn counted_up(heat: u64, mw: u64) -> u64
    requires { (heat ≤ 25000000) × ((1 ≤ mw) × (mw ≤ 500)) }
{
    let cent = mw * 1000;
    let mut left = heat * 550 + (280 + 50 + 2500) * cent;
    let mut cents = 0;
    while 2 * cent <= left {
        left -= 2 * cent;
        cents += 2;
    }
    if 2 * left <= cent {
        return cents;
    }
    if 2 * left < 3 * cent {
        return cents + 1;
    }
    cents + 2
}

// The bid of the example: gas, om, gmc and the adder.
fn gas_bid() -> CurveInputs {
    CurveInputs {
        gas: 550,
        om: 280,
        gmc: 50,
        adder: 2500,
    }
}

fn at_gas(gas: u64) -> CurveInputs {
    CurveInputs {
        gas,
        om: 0,
        gmc: 0,
        adder: 0,
    }
}
