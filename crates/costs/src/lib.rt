// The cost figures of a gas-fired unit: vec, suc and mlc by formulas (1), (2) and (3), in integers. Each figure is worked out over one
// common denominator and rounded once, by `rounding::rounded`.

#![tactic(auto)]

ghost use Rattle.std.specs.Prelude.{◌≡◌, true, ◌*◌, ◌^◌, ◌<◌, ◌≤◌, length, Ok};
ghost use Rattle.lists.specs.Every.{every};
ghost use Rattle.commitment.specs.Bounds.{most_mw};
ghost use Rattle.costs.specs.Figures.{vec_of, suc_of, mlc_of, total_mw};
ghost use Rattle.commitment.specs.Causes.{first_of};
ghost use Rattle.costs.specs.Bounds.{most_segments};
ghost use Rattle.costs.specs.Ranges.{Ranged, length_checks, total_checks, output_checks};
ghost use Rattle.costs.specs.Ranges.{one_to, sizes_kept, tariffs_kept, rates_kept, start_kept, inputs_kept, segments_kept, outputs_kept, inputs_checked};
ghost use Rattle.costs.specs.Answers.{costed, three_figures};
ghost use Rattle.costs.specs.Sizes.{HeatSizes, StartSizes, LoadSizes};
ghost use Rattle.costs.specs.Numerators.{heat_price, weighted_units, suc_units, mlc_units};

use commitment::{Cause, MOST_BLOCKS, MOST_MW};

// The ends of the ranges that the unit record does not have. specs/Bounds.antt has the same.
pub const MOST_TARIFF: u64 = 10000;

const MOST_RATE: u64 = 1000000;

pub const MOST_HEAT: u64 = 50000;

const MOST_SEGMENTS: usize = 10;

const MOST_FUEL: u64 = 100000;

const MOST_AUX: u64 = 1000;

const MOST_MINUTES: u64 = 1440;

const MOST_ADDER: u64 = 10000000;

// The inputs of the cost figures but for the segments, which are two lists. Laid out as in C, so that a host hands it over as it is.
#[repr(C)]
#[derive(Clone, Copy)]
pub struct CostInputs {
    pub block: u64,
    pub pmin: u64,
    pub pmax: u64,
    pub gas: u64,
    pub transport: u64,
    pub allowance: u64,
    pub om: u64,
    pub gmc: u64,
    pub rate: u64,
    pub min_heat: u64,
    pub fuel: u64,
    pub aux: u64,
    pub minutes: u64,
    pub start_adder: u64,
    pub load_adder: u64,
}

// In whole cents: per MWh, for a start, per hour.
#[derive(Clone, Copy)]
pub struct CostFigures {
    pub vec: u64,
    pub suc: u64,
    pub mlc: u64,
}

// The three figures, or the first cause for which there are none: 3, 4, 6 or 7.
pub fn figures(inputs: CostInputs, mws: &[u64], heats: &[u64]) -> Result<CostFigures, Cause>
    ensures { result ≡ costed inputs mws.now heats.now }
{
    check_inputs(inputs, mws, heats)?;
    Ok(three_figures(inputs, mws, heats))
}

// Of inputs that passed the check, so that every product fits.
fn three_figures(inputs: CostInputs, mws: &[u64], heats: &[u64]) -> CostFigures
    requires { inputs_checked inputs mws.now heats.now ≡ Ok tt }
    ensures { result ≡ three_figures inputs mws.now heats.now }
{
    CostFigures {
        vec: vec_of(inputs, mws, heats),
        suc: suc_of(inputs),
        mlc: mlc_of(inputs),
    }
}

// ---- the check

// 3 comes first: figures in their ranges can be multiplied.
fn check_inputs(inputs: CostInputs, mws: &[u64], heats: &[u64]) -> Result<(), Cause>
    ensures { result ≡ inputs_checked inputs mws.now heats.now }
{
    if !(inputs_kept(inputs) & segments_kept(mws, heats)) {
        return Err(Cause::Range);
    }
    check_outputs(inputs, mws, heats)
}

// 4, of sizes in their ranges.
fn check_outputs(inputs: CostInputs, mws: &[u64], heats: &[u64]) -> Result<(), Cause>
    requires { Ranged inputs mws.now heats.now }
    ensures { result ≡ first_of (output_checks inputs mws.now heats.now) }
{
    if !outputs_kept(inputs) {
        return Err(Cause::Shape);
    }
    check_total(inputs, mws, heats)
}

// Outputs that are kept have a range of MW, and the segments a sum.
fn check_total(inputs: CostInputs, mws: &[u64], heats: &[u64]) -> Result<(), Cause>
    requires { (Ranged inputs mws.now heats.now) × (outputs_kept inputs ≡ true) }
    ensures { result ≡ first_of (total_checks inputs mws.now heats.now) }
{
    let total = total_mw(mws);
    let range = (inputs.pmax - inputs.pmin) * inputs.block;
    if total != range {
        return Err(Cause::Segments);
    }
    check_lengths(mws.len(), heats.len())
}

// The last cause.
fn check_lengths(mws: usize, heats: usize) -> Result<(), Cause>
    ensures { result ≡ first_of (length_checks mws heats) }
{
    if mws != heats {
        return Err(Cause::Length);
    }
    Ok(())
}

fn inputs_kept(inputs: CostInputs) -> bool
    ensures { result ≡ inputs_kept inputs }
{
    sizes_kept(inputs) & tariffs_kept(inputs) & rates_kept(inputs) & start_kept(inputs)
}

fn sizes_kept(inputs: CostInputs) -> bool
    ensures { result ≡ sizes_kept inputs }
{
    ((1 <= inputs.block) & (inputs.block <= MOST_MW))
        & ((1 <= inputs.pmin) & (inputs.pmin <= MOST_BLOCKS))
        & ((1 <= inputs.pmax) & (inputs.pmax <= MOST_BLOCKS))
}

fn tariffs_kept(inputs: CostInputs) -> bool
    ensures { result ≡ tariffs_kept inputs }
{
    (inputs.gas <= MOST_TARIFF)
        & (inputs.transport <= MOST_TARIFF)
        & (inputs.allowance <= MOST_TARIFF)
        & (inputs.om <= MOST_TARIFF)
        & (inputs.gmc <= MOST_TARIFF)
}

fn rates_kept(inputs: CostInputs) -> bool
    ensures { result ≡ rates_kept inputs }
{
    (inputs.rate <= MOST_RATE) & ((1 <= inputs.min_heat) & (inputs.min_heat <= MOST_HEAT))
}

fn start_kept(inputs: CostInputs) -> bool
    ensures { result ≡ start_kept inputs }
{
    (inputs.fuel <= MOST_FUEL)
        & (inputs.aux <= MOST_AUX)
        & (inputs.minutes <= MOST_MINUTES)
        & (inputs.start_adder <= MOST_ADDER)
        & (inputs.load_adder <= MOST_ADDER)
}

// Lists that are too long are not walked.
fn segments_kept(mws: &[u64], heats: &[u64]) -> bool
    ensures { result ≡ segments_kept mws.now heats.now }
{
    if !((mws.len() <= MOST_SEGMENTS) & (heats.len() <= MOST_SEGMENTS)) {
        return false;
    }
    every_one_to(MOST_MW, mws) & every_one_to(MOST_HEAT, heats)
}

// Each entry is from 1 to the most.
pub fn every_one_to(most: u64, list: &[u64]) -> bool
    ensures { result ≡ every (one_to most) list.now }
{
    list.iter().all(|n| one_to(most, *n))
}

fn one_to(most: u64, n: u64) -> bool
    ensures { result ≡ one_to most n }
{
    (1 <= n) & (n <= most)
}

// The product is taken of sizes in range, where it cannot overflow.
fn outputs_kept(inputs: CostInputs) -> bool
    requires { inputs_kept inputs ≡ true }
    ensures { result ≡ outputs_kept inputs }
{
    (inputs.pmin <= inputs.pmax) & (inputs.pmax * inputs.block <= MOST_MW)
}

// Segments in their ranges are few and small, so that their sum fits.
fn total_mw(mws: &[u64]) -> u64
    requires { total_mw mws.now ≤ most_mw * most_segments }
    ensures { result ≡ total_mw mws.now }
{
    mws.iter().sum()
}

// ---- the figures

// Heat rates are in thousandths, rates of allowances in ten-millionths.
pub const HEAT_UNITS: u64 = 1000;

const RATE_UNITS: u64 = 10000000;

// So vec and mlc are worked out in ten-billionths of a cent.
const UNITS: u64 = HEAT_UNITS * RATE_UNITS;

// minutes / 60 × gmc / 2, and allowances in ten-millionths: suc is worked out in so many parts of a cent.
const START_UNITS: u64 = 120 * RATE_UNITS;

// (1)
fn vec_of(inputs: CostInputs, mws: &[u64], heats: &[u64]) -> u64
    requires { inputs_checked inputs mws.now heats.now ≡ Ok tt }
    ensures { result ≡ vec_of inputs mws.now heats.now }
{
    if mws.len() == 0 {
        return 0;
    }
    let price = heat_price(inputs);
    let sum = weighted_units(price, inputs.om, mws, heats);
    let total = total_mw(mws);
    rounding::rounded(sum, UNITS * total)
}

// Fuel and allowances for a unit of heat, in ten-millionths of a cent.
fn heat_price(inputs: CostInputs) -> u64
    requires { HeatSizes inputs }
    ensures { result ≡ heat_price inputs }
{
    (inputs.gas + inputs.transport) * RATE_UNITS + inputs.allowance * inputs.rate
}

// What the segments cost, each by its MW, in ten-billionths of a cent.
fn weighted_units(price: u64, om: u64, mws: &[u64], heats: &[u64]) -> u64
    requires mws_len { length mws.now ≡ length heats.now }
    requires mws_value { every (one_to most_mw) mws.now ≡ true }
    requires heats_bound { weighted_units price om mws.now heats.now < 2 ^ 64 }
    ensures { result ≡ weighted_units price om mws.now heats.now }
{
    let mut sum = 0;
    for (mw, heat) in mws.iter().zip(heats) {
        sum += mw * (heat * price + om * UNITS);
    }
    sum
}

// (2)
fn suc_of(inputs: CostInputs) -> u64
    requires { StartSizes inputs }
    ensures { result ≡ suc_of inputs }
{
    let sum = suc_units(inputs);
    rounding::rounded(sum, START_UNITS)
}

// (2) before it is rounded.
fn suc_units(inputs: CostInputs) -> u64
    requires { StartSizes inputs }
    ensures { result ≡ suc_units inputs }
{
    let cents = inputs.fuel * (inputs.gas + inputs.transport)
        + inputs.aux * 10 * inputs.gas
        + inputs.start_adder;
    let allowances = inputs.fuel * (inputs.allowance * inputs.rate);
    let grid = inputs.pmin * inputs.block * inputs.minutes * inputs.gmc;
    cents * START_UNITS + allowances * 120 + grid * RATE_UNITS
}

// (3)
fn mlc_of(inputs: CostInputs) -> u64
    requires { LoadSizes inputs }
    ensures { result ≡ mlc_of inputs }
{
    let sum = mlc_units(inputs);
    rounding::rounded(sum, UNITS)
}

// (3) before it is rounded.
fn mlc_units(inputs: CostInputs) -> u64
    requires { LoadSizes inputs }
    ensures { result ≡ mlc_units inputs }
{
    let mw = inputs.pmin * inputs.block;
    let fuel = inputs.min_heat * mw * (inputs.gas + inputs.transport);
    let allowances = inputs.allowance * inputs.rate * inputs.min_heat * mw;
    let cents = inputs.om * mw + inputs.load_adder + inputs.gmc * mw;
    fuel * RATE_UNITS + allowances + cents * UNITS
}
