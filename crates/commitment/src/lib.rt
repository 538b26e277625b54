// The types that every call shares. specs/ has the definitions that all is proved against, one topic a file; proofs/ what the checks of a case say as orders
// of numbers (Ranges, Passing), the laws of a list of checks (Causes) and of a margin (Margins).

#![tactic(auto)]

ghost use Rattle.std.specs.Prelude.{◌≡◌, ◌≤◌, nat_abs};
ghost use Rattle.commitment.specs.Profit as profits;
ghost use Rattle.commitment.specs.Causes.{number_of, answered_number};
ghost use Rattle.commitment.specs.Limits.{limit_for, with_limit, limited};
ghost use Rattle.commitment.specs.Bounds.{most_mw, most_vec, most_mlc, most_price};

pub mod cuts;
pub mod windows;

use calendar::Date;

// The ends of two ranges that every call with a unit has, in MW and in blocks. specs/Bounds.antt has the same.
pub const MOST_MW: u64 = 500;

pub const MOST_BLOCKS: u64 = 500;

// The unit itself: MW in a block, outputs in blocks, minimum times in intervals.
#[derive(Clone, Copy)]
pub struct Generator {
    pub block: u64,
    pub pmin: u64,
    pub pmax: u64,
    pub mot: u64,
    pub mdt: u64,
}

#[derive(Clone, Copy)]
pub struct Costs {
    pub vec: u64,
    pub mlc: u64,
    pub suc: u64,
}

// The state before interval 1, and the intervals spent in it. `was` is a number, since a record may hold any, and gets number 3 above 1 (`opening_kept`).
#[derive(Clone, Copy)]
pub struct Opening {
    pub was: u64,
    pub held: u64,
}

// The limitations of the permit, each at most a number, or not limited.
#[derive(Clone, Copy)]
pub struct Limits {
    pub starts: Option<u64>,
    pub hours: Option<u64>,
    pub mwh: Option<u64>,
}

// The date whose midnight opens interval 1, and the word whose bit h allows clock hour h.
#[derive(Clone, Copy)]
pub struct Window {
    pub date: Date,
    pub word: u64,
}

// The unit record (specification 2), in its groups. Without a window the permit allows the unit to run in any hour.
#[derive(Clone, Copy)]
pub struct UnitRecord {
    pub generator: Generator,
    pub costs: Costs,
    pub opening: Opening,
    pub limits: Limits,
    pub permit: Option<Window>,
}

// Which of the three limitations.
#[derive(Clone, Copy, Debug, PartialEq, Eq)]
pub enum Limitation {
    Starts,
    Hours,
    Mwh,
}

// Why a call refuses, in the order in which causes are given. specs/Causes.antt gives each its number.
#[derive(Clone, Copy, Debug, PartialEq, Eq)]
pub enum Cause {
    Form,
    Name,
    Range,
    Levels,
    Shape,
    Date,
    Horizon,
    Segments,
    Length,
    Scratch,
    NoSchedule,
    NotKept,
}

// What valuing a limitation comes to.
#[derive(Clone, Copy, Debug, PartialEq, Eq)]
pub enum Outcome {
    None,
    Empty,
    Never,
    Gap(i64),
}

#[derive(Clone, Copy)]
pub struct Outcomes {
    pub starts: Outcome,
    pub hours: Outcome,
    pub mwh: Outcome,
}

// ---- one of the three limitations

pub fn limit_for(limits: Limits, which: Limitation) -> Option<u64>
    ensures { result ≡ limit_for limits which }
{
    match which {
        Limitation::Starts => limits.starts,
        Limitation::Hours => limits.hours,
        Limitation::Mwh => limits.mwh,
    }
}

// The limitations with one of them replaced.
pub fn with_limit(limits: Limits, which: Limitation, limit: Option<u64>) -> Limits
    ensures { result ≡ with_limit limits which limit }
{
    match which {
        Limitation::Starts => Limits {
            starts: limit,
            ..limits
        },
        Limitation::Hours => Limits {
            hours: limit,
            ..limits
        },
        Limitation::Mwh => Limits {
            mwh: limit,
            ..limits
        },
    }
}

// The unit under other limitations.
pub fn under_limits(unit: UnitRecord, limits: Limits) -> UnitRecord
    ensures { result ≡ limited unit limits }
{
    UnitRecord { limits, ..unit }
}

// What an on-interval adds to the profit, of figures in their ranges.
pub fn margin(price: i64, output: u64, vec: u64, least: u64, mlc: u64) -> i64
    requires { (nat_abs price ≤ most_price) × (output ≤ most_mw) × (vec ≤ most_vec) × (least ≤ most_mw) × (mlc ≤ most_mlc) }
    ensures { result ≡ profits.margin price output vec least mlc }
{
    let m = integers::signed(output);
    let above = m - integers::signed(least);
    let cost = integers::signed(vec) * above;
    price * m - cost - integers::signed(mlc)
}

// ---- causes

// The number of a cause (specification 15).
impl From<Cause> for u64 {
    ghost from_gives = { λ cause n. n ≡ number_of cause };

    fn from(cause: Cause) -> u64 {
        match cause {
            Cause::Form => 1,
            Cause::Name => 2,
            Cause::Range => 3,
            Cause::Levels => 11,
            Cause::Shape => 4,
            Cause::Date => 12,
            Cause::Horizon => 5,
            Cause::Segments => 6,
            Cause::Length => 7,
            Cause::Scratch => 8,
            Cause::NoSchedule => 9,
            Cause::NotKept => 10,
        }
    }
}

// The number of a call's answer: 0, or that of the cause.
pub fn number_in<T>(answer: &Result<T, Cause>) -> u64
    ensures { result ≡ answered_number answer.now }
{
    match answer {
        Ok(_) => 0,
        Err(cause) => u64::from(*cause),
    }
}
