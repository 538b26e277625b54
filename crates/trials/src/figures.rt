// The cost figures: C10 to C12, a unit of 1 MW, figures at a half, the tops of all ranges, and each cause for which there are no figures.

use costs::CostInputs;
use enumeration::printing::{line, row, text};
use std::io;

pub fn try_figures(rt: &impl Print) -> io::Result<()> {
    text(rt, b"figures,vec,suc,mlc\n")?;
    let mws = [80];
    let heats = [9790];
    try_gas_unit(rt, &mws, &heats)?;
    try_halves(rt)?;
    try_refusals(rt, &mws, &heats)?;
    text(rt, b"\n")
}

fn try_gas_unit(rt: &impl Print, mws: &[u64], heats: &[u64]) -> io::Result<()> {
    let unit = gas_unit();
    try_inputs(rt, b"c10", unit, mws, heats)?;
    try_inputs(rt, b"c11", with_allowances(unit), mws, heats)?;
    try_inputs(rt, b"c12", with_start(unit), mws, heats)?;
    try_inputs(
        rt,
        b"c11 at 1 mw",
        of_one_mw(with_allowances(unit)),
        mws,
        heats,
    )?;
    try_inputs(rt, b"tops", tops(), &[], &[])
}

// A start of 10.5, minimum load of 52.5 and 53.5; then 11.5 and 52.5.
fn try_halves(rt: &impl Print) -> io::Result<()> {
    try_inputs(rt, b"halves", at_halves(63, 21), &[], &[])?;
    try_inputs(rt, b"halves", at_halves(65, 21), &[], &[])?;
    try_inputs(rt, b"halves", at_halves(59, 23), &[], &[])
}

// A heat rate too high, pmin over pmax, 80 MW of segments for 90, and more heat rates than segments.
fn try_refusals(rt: &impl Print, mws: &[u64], heats: &[u64]) -> io::Result<()> {
    let unit = gas_unit();
    try_inputs(rt, b"heat rate 50001", unit, mws, &[50001])?;
    try_inputs(rt, b"pmin 16", with_pmin(unit, 16), mws, heats)?;
    try_inputs(rt, b"pmin 6", with_pmin(unit, 6), mws, heats)?;
    try_inputs(rt, b"two heat rates", unit, mws, &[9790, 9790])
}

// A line of the figures, in the sequence vec, suc, mlc, or of the refusal.
fn try_inputs(
    rt: &impl Print,
    name: &[u8],
    inputs: CostInputs,
    mws: &[u64],
    heats: &[u64],
) -> io::Result<()> {
    text(rt, name)?;
    match costs::figures(inputs, mws, heats) {
        Err(cause) => line(rt, b" refused,", u64::from(cause)),
        Ok(figures) => row(rt, &[figures.vec, figures.suc, figures.mlc]),
    }
}

fn gas_unit() -> CostInputs {
    CostInputs {
        block: 10,
        pmin: 7,
        pmax: 15,
        gas: 550,
        transport: 0,
        allowance: 0,
        om: 280,
        gmc: 0,
        rate: 0,
        min_heat: 14440,
        fuel: 0,
        aux: 0,
        minutes: 0,
        start_adder: 0,
        load_adder: 0,
    }
}

fn with_allowances(unit: CostInputs) -> CostInputs {
    CostInputs {
        gmc: 50,
        allowance: 1300,
        rate: 531148,
        ..unit
    }
}

fn with_start(unit: CostInputs) -> CostInputs {
    CostInputs {
        fuel: 100,
        aux: 2,
        minutes: 30,
        gmc: 50,
        ..unit
    }
}

// The same span of 80 MW, above 1 MW.
fn of_one_mw(unit: CostInputs) -> CostInputs {
    CostInputs {
        block: 1,
        pmin: 1,
        pmax: 81,
        ..unit
    }
}

// 1 MW: a start costs half the grid charge, minimum load the charge and half the gas price.
fn at_halves(gas: u64, gmc: u64) -> CostInputs {
    CostInputs {
        pmax: 1,
        gas,
        om: 0,
        gmc,
        min_heat: 500,
        minutes: 60,
        ..of_one_mw(gas_unit())
    }
}

// Every input at the top of its range; 500 blocks are of 1 MW.
fn tops() -> CostInputs {
    CostInputs {
        block: 1,
        pmin: 500,
        pmax: 500,
        gas: 10000,
        transport: 10000,
        allowance: 10000,
        om: 10000,
        gmc: 10000,
        rate: 1000000,
        min_heat: 50000,
        fuel: 100000,
        aux: 1000,
        minutes: 1440,
        start_adder: 10000000,
        load_adder: 10000000,
    }
}

fn with_pmin(unit: CostInputs, pmin: u64) -> CostInputs {
    CostInputs { pmin, ..unit }
}
