// C1 besides its plan: the cells that it needs, slices too short, schedules handed in, and those two where only hour 0 is permitted. The cells of other cases.

use crate::files::{contents, hand_in, try_case};
use casefile::Case;
use commitment::{Cause, UnitRecord};
use enumeration::lending;
use enumeration::printing::{line, text};
use planner::BestPlan;
use std::io;
use std::rt::Files;

// 0 where there is no refusal.
pub fn try_others(rt: &(impl Files + Print)) -> io::Result<()> {
    try_prices(rt)?;
    let mut prices = [0i64; 6];
    let unit = unit_in(rt, b"c1.csv", &mut prices)?;
    try_scratch(rt, unit, &prices)?;
    try_one_price(rt)?;
    try_schedules(rt, unit, &prices)?;
    try_first_hour(rt)?;
    try_two_layers(rt)?;
    text(rt, b"\n")
}

fn unit_in(rt: &(impl Files + Print), path: &[u8], prices: &mut [i64]) -> io::Result<UnitRecord> {
    let answer = read_from(rt, path, prices)?;
    Ok(casefile::unit_of(answer))
}

fn read_from(
    rt: &(impl Files + Print),
    path: &[u8],
    prices: &mut [i64],
) -> io::Result<Result<Case, Cause>> {
    let mut bytes = [0u8; 512];
    let size = contents(rt, path, &mut bytes)?;
    Ok(casefile::read_into(&bytes[..size], prices))
}

fn try_prices(rt: &(impl Files + Print)) -> io::Result<()> {
    let mut short = [0i64; 5];
    let answer = read_from(rt, b"c1.csv", &mut short)?;
    line(
        rt,
        b"c1 read into 5 prices,",
        commitment::number_in(&answer),
    )
}

// The long table, two layers with cells beyond them, two layers, and too few.
fn try_scratch(rt: &impl Print, unit: UnitRecord, prices: &[i64]) -> io::Result<()> {
    let mut long = [0i64; 588];
    let mut between = [0i64; 587];
    let mut two = [0i64; 168];
    let mut short = [0i64; 167];
    line(
        rt,
        b"c1 planned with 588 cells,",
        commitment::number_in(&planned(unit, prices, &mut long)),
    )?;
    lending::fill(&mut between);
    line(
        rt,
        b"c1 planned with 587 cells,",
        commitment::number_in(&planned(unit, prices, &mut between)),
    )?;
    line(
        rt,
        b"168 cells 0 and the others as they were,",
        u64::from(lending::is_left(&between, 168)),
    )?;
    line(
        rt,
        b"c1 planned with 168 cells,",
        commitment::number_in(&planned(unit, prices, &mut two)),
    )?;
    line(
        rt,
        b"c1 planned with 167 cells,",
        commitment::number_in(&planned(unit, prices, &mut short)),
    )
}

// Two layers are the long table.
fn try_one_price(rt: &(impl Files + Print)) -> io::Result<()> {
    let mut prices = [0i64; 1];
    let unit = unit_in(rt, b"c3.csv", &mut prices)?;
    let mut enough = [0i64; 32];
    let mut short = [0i64; 31];
    line(
        rt,
        b"c3 planned with 32 cells,",
        commitment::number_in(&planned(unit, &prices, &mut enough)),
    )?;
    line(
        rt,
        b"c3 planned with 31 cells,",
        commitment::number_in(&planned(unit, &prices, &mut short)),
    )
}

// Two layers and no cell more.
fn try_two_layers(rt: &(impl Files + Print)) -> io::Result<()> {
    let mut prices = [0i64; 6];
    let unit = unit_in(rt, b"c7.csv", &mut prices)?;
    let mut scratch = [0i64; 336];
    text(rt, b"\nc7 with 336 cells\n")?;
    try_case(rt, unit, &prices, &mut scratch)?;
    let mut prices = [0i64; 16];
    let unit = unit_in(rt, b"sixteen-prices.csv", &mut prices)?;
    let mut scratch = [0i64; 40];
    text(rt, b"\nsixteen prices with 40 cells\n")?;
    try_case(rt, unit, &prices, &mut scratch)
}

// With room for six intervals, the most that these cases have.
fn planned(unit: UnitRecord, prices: &[i64], scratch: &mut [i64]) -> Result<BestPlan, Cause> {
    let mut schedule = [0u64; 6];
    planner::plan_into(unit, prices, scratch, &mut schedule)
}

fn try_schedules(rt: &impl Print, unit: UnitRecord, prices: &[i64]) -> io::Result<()> {
    let mut scratch = [0i64; 588];
    let mut short = [0u64; 5];
    let answer = planner::plan_into(unit, prices, &mut scratch, &mut short);
    line(
        rt,
        b"c1 planned into 5 entries,",
        commitment::number_in(&answer),
    )?;
    hand_in(rt, unit, prices, &[0, 20, 20, 10, 20], 400000)?;
    hand_in(rt, unit, prices, &[0, 20, 20, 10, 20, 20], 400000)?;
    hand_in(rt, unit, prices, &[0, 20, 0, 0, 20, 20], 400000)
}

// C1's plan runs past hour 0.
fn try_first_hour(rt: &(impl Files + Print)) -> io::Result<()> {
    let mut prices = [0i64; 6];
    let unit = unit_in(rt, b"hours-first.csv", &mut prices)?;
    text(rt, b"c1 within hour 0\n")?;
    hand_in(rt, unit, &prices, &[0, 20, 20, 10, 20, 20], 400000)?;
    hand_in(rt, unit, &prices, &[0, 20, 20, 0, 0, 0], 200000)
}
