// Records and answers as structs of numbers, laid out as in C, and the way between them and the types of the calls. A kind, a flag or a cause stays a number
// here: C reads it.

ghost use Rattle.std.specs.Prelude.{◌≡◌};
ghost use Rattle.exports.specs.Records as records;
ghost use Rattle.exports.specs.Answers as answers;

use calendar::Date;
use casefile::Case;
use commitment::{Cause, Costs, Generator, Limits, Opening, Outcome, Outcomes, UnitRecord, Window};
use costs::CostFigures;
use planner::{BestPlan, Report};

// `none` as a number: of a limitation, and in each of the four of a permit for any hour.
pub const NONE: u64 = 18446744073709551615;

// The unit record, in the order of its fields (specification 16).
#[repr(C)]
#[derive(Clone, Copy)]
pub struct UnitNumbers {
    pub block: u64,
    pub pmin: u64,
    pub pmax: u64,
    pub mot: u64,
    pub mdt: u64,
    pub was: u64,
    pub held: u64,
    pub vec: u64,
    pub mlc: u64,
    pub suc: u64,
    pub starts: u64,
    pub hours: u64,
    pub mwh: u64,
    pub year: u64,
    pub month: u64,
    pub day: u64,
    pub window: u64,
}

// An outcome: 0 none, 1 empty, 2 never, 3 a gap; `gap` is 0 but for the last.
#[repr(C)]
#[derive(Clone, Copy)]
pub struct OutcomeNumbers {
    pub kind: u64,
    pub gap: i64,
}

#[repr(C)]
#[derive(Clone, Copy)]
pub struct OutcomesNumbers {
    pub starts: OutcomeNumbers,
    pub hours: OutcomeNumbers,
    pub mwh: OutcomeNumbers,
}

// Answers: `number` is 0, or that of the cause.
#[repr(C)]
#[derive(Clone, Copy)]
pub struct CaseNumbers {
    pub number: u64,
    pub count: usize,
    pub unit: UnitNumbers,
}

#[repr(C)]
#[derive(Clone, Copy)]
pub struct FiguresNumbers {
    pub number: u64,
    pub vec: u64,
    pub suc: u64,
    pub mlc: u64,
}

#[repr(C)]
#[derive(Clone, Copy)]
pub struct CurveNumbers {
    pub number: u64,
    pub count: usize,
}

#[repr(C)]
#[derive(Clone, Copy)]
pub struct AssessNumbers {
    pub number: u64,
    pub profit: i64,
}

#[repr(C)]
#[derive(Clone, Copy)]
pub struct CellsNumbers {
    pub number: u64,
    pub needed: usize,
    pub table: usize,
}

#[repr(C)]
#[derive(Clone, Copy)]
pub struct ClockNumbers {
    pub number: u64,
    pub hour: u64,
}

#[repr(C)]
#[derive(Clone, Copy)]
pub struct HoursNumbers {
    pub number: u64,
    pub count: usize,
}

#[repr(C)]
#[derive(Clone, Copy)]
pub struct PlanNumbers {
    pub number: u64,
    pub count: usize,
    pub profit: i64,
}

#[repr(C)]
#[derive(Clone, Copy)]
pub struct ValueNumbers {
    pub number: u64,
    pub outcomes: OutcomesNumbers,
}

#[repr(C)]
#[derive(Clone, Copy)]
pub struct ReportNumbers {
    pub number: u64,
    pub count: usize,
    pub profit: i64,
    pub outcomes: OutcomesNumbers,
}

#[repr(C)]
#[derive(Clone, Copy)]
pub struct WrittenNumbers {
    pub number: u64,
    pub bytes: usize,
}

// ---- records

// NONE stands for a limitation that is not there, which an Option says in Rattle.
fn limit_from(number: u64) -> Option<u64>
    ensures { result ≡ records.limit_from number }
{
    if number == NONE { None } else { Some(number) }
}

// The way back, for a text that was read.
fn limit_number(limit: Option<u64>) -> u64
    ensures { result ≡ records.limit_number limit }
{
    limit.unwrap_or(NONE)
}

// Without a date and word where all four are none; where some of them are, the window is beyond its ranges.
fn permit_from(date: Date, word: u64) -> Option<Window>
    ensures { result ≡ records.permit_from date word }
{
    if (date.year == NONE) & (date.month == NONE) & (date.day == NONE) & (word == NONE) {
        None
    } else {
        Some(Window { date, word })
    }
}

// The window of a permit, none in each figure where it is for any hour.
fn window_numbers(permit: Option<Window>) -> Window
    ensures { result ≡ records.window_numbers permit }
{
    permit.unwrap_or(Window {
        date: Date {
            year: NONE,
            month: NONE,
            day: NONE,
        },
        word: NONE,
    })
}

// NONE stands for a listing without the line of hours.
pub fn word_from(word: u64) -> Option<u64>
    ensures { result ≡ records.word_from word }
{
    limit_from(word)
}

// The host has one flat record; the library has its groups.
impl From<UnitNumbers> for UnitRecord {
    ghost from_gives = { λ numbers unit. unit ≡ records.record_of numbers };

    fn from(unit: UnitNumbers) -> UnitRecord {
        UnitRecord {
            generator: Generator {
                block: unit.block,
                pmin: unit.pmin,
                pmax: unit.pmax,
                mot: unit.mot,
                mdt: unit.mdt,
            },
            costs: Costs {
                vec: unit.vec,
                mlc: unit.mlc,
                suc: unit.suc,
            },
            opening: Opening {
                was: unit.was,
                held: unit.held,
            },
            limits: Limits {
                starts: limit_from(unit.starts),
                hours: limit_from(unit.hours),
                mwh: limit_from(unit.mwh),
            },
            permit: permit_from(
                Date {
                    year: unit.year,
                    month: unit.month,
                    day: unit.day,
                },
                unit.window,
            ),
        }
    }
}

// The way back, for a text that was read.
impl From<UnitRecord> for UnitNumbers {
    ghost from_gives = { λ unit numbers. numbers ≡ records.unit_numbers unit };

    fn from(unit: UnitRecord) -> UnitNumbers {
        let g = unit.generator;
        let k = unit.costs;
        let opening = unit.opening;
        let limits = unit.limits;
        let window = window_numbers(unit.permit);
        let date = window.date;
        UnitNumbers {
            block: g.block,
            pmin: g.pmin,
            pmax: g.pmax,
            mot: g.mot,
            mdt: g.mdt,
            was: opening.was,
            held: opening.held,
            vec: k.vec,
            mlc: k.mlc,
            suc: k.suc,
            starts: limit_number(limits.starts),
            hours: limit_number(limits.hours),
            mwh: limit_number(limits.mwh),
            year: date.year,
            month: date.month,
            day: date.day,
            window: window.word,
        }
    }
}

// Of a text that is refused: the limitations none, every other figure 0.
fn no_numbers() -> UnitNumbers
    ensures { result ≡ records.no_numbers }
{
    UnitNumbers {
        block: 0,
        pmin: 0,
        pmax: 0,
        mot: 0,
        mdt: 0,
        was: 0,
        held: 0,
        vec: 0,
        mlc: 0,
        suc: 0,
        starts: NONE,
        hours: NONE,
        mwh: NONE,
        year: 0,
        month: 0,
        day: 0,
        window: 0,
    }
}

// ---- outcomes

// A kind that is not known is read as none.
fn outcome_from(kind: u64, gap: i64) -> Outcome
    ensures { result ≡ records.outcome_from kind gap }
{
    match kind {
        1 => Outcome::Empty,
        2 => Outcome::Never,
        3 => Outcome::Gap(gap),
        _ => Outcome::None,
    }
}

impl From<Outcome> for OutcomeNumbers {
    ghost from_gives = { λ outcome numbers. numbers ≡ records.outcome_numbers outcome };

    fn from(outcome: Outcome) -> OutcomeNumbers {
        match outcome {
            Outcome::None => OutcomeNumbers { kind: 0, gap: 0 },
            Outcome::Empty => OutcomeNumbers { kind: 1, gap: 0 },
            Outcome::Never => OutcomeNumbers { kind: 2, gap: 0 },
            Outcome::Gap(gap) => OutcomeNumbers { kind: 3, gap },
        }
    }
}

// Outcomes come back from the host to be listed.
impl From<OutcomesNumbers> for Outcomes {
    ghost from_gives = { λ numbers outcomes. outcomes ≡ records.outcomes_from numbers };

    fn from(outcomes: OutcomesNumbers) -> Outcomes {
        let starts = outcomes.starts;
        let hours = outcomes.hours;
        let mwh = outcomes.mwh;
        Outcomes {
            starts: outcome_from(starts.kind, starts.gap),
            hours: outcome_from(hours.kind, hours.gap),
            mwh: outcome_from(mwh.kind, mwh.gap),
        }
    }
}

impl From<Outcomes> for OutcomesNumbers {
    ghost from_gives = { λ outcomes numbers. numbers ≡ records.outcomes_numbers outcomes };

    fn from(outcomes: Outcomes) -> OutcomesNumbers {
        OutcomesNumbers {
            starts: OutcomeNumbers::from(outcomes.starts),
            hours: OutcomeNumbers::from(outcomes.hours),
            mwh: OutcomeNumbers::from(outcomes.mwh),
        }
    }
}

// ---- answers: 0 or the number of the cause, and on a refusal 0 in all else

// A refused reading has no record to turn into numbers.
impl From<Result<Case, Cause>> for CaseNumbers {
    ghost from_gives = { λ answer numbers. numbers ≡ answers.case_numbers answer };

    fn from(answer: Result<Case, Cause>) -> CaseNumbers {
        match answer {
            Ok(case) => CaseNumbers {
                number: 0,
                count: case.count,
                unit: UnitNumbers::from(case.unit),
            },
            Err(cause) => CaseNumbers {
                number: u64::from(cause),
                count: 0,
                unit: no_numbers(),
            },
        }
    }
}

impl From<Result<CostFigures, Cause>> for FiguresNumbers {
    ghost from_gives = { λ answer numbers. numbers ≡ answers.figures_numbers answer };

    fn from(answer: Result<CostFigures, Cause>) -> FiguresNumbers {
        match answer {
            Ok(figures) => FiguresNumbers {
                number: 0,
                vec: figures.vec,
                suc: figures.suc,
                mlc: figures.mlc,
            },
            Err(cause) => FiguresNumbers {
                number: u64::from(cause),
                vec: 0,
                suc: 0,
                mlc: 0,
            },
        }
    }
}

impl From<Result<usize, Cause>> for CurveNumbers {
    ghost from_gives = { λ segments numbers. numbers ≡ answers.curve_numbers segments };

    fn from(segments: Result<usize, Cause>) -> CurveNumbers {
        CurveNumbers {
            number: commitment::number_in(&segments),
            count: segments.unwrap_or(0),
        }
    }
}

impl From<Result<i64, Cause>> for AssessNumbers {
    ghost from_gives = { λ answer numbers. numbers ≡ answers.assess_numbers answer };

    fn from(answer: Result<i64, Cause>) -> AssessNumbers {
        AssessNumbers {
            number: commitment::number_in(&answer),
            profit: assessment::profit_of(answer),
        }
    }
}

impl From<Result<u64, Cause>> for ClockNumbers {
    ghost from_gives = { λ answer numbers. numbers ≡ answers.clock_numbers answer };

    fn from(answer: Result<u64, Cause>) -> ClockNumbers {
        ClockNumbers {
            number: commitment::number_in(&answer),
            hour: answer.unwrap_or(0),
        }
    }
}

// The hours of a lent slice, as many as it has entries.
pub fn of_hours(answer: Result<(), Cause>, entries: usize) -> HoursNumbers
    ensures { result ≡ answers.hours_numbers answer entries }
{
    match answer {
        Ok(()) => HoursNumbers {
            number: 0,
            count: entries,
        },
        Err(cause) => HoursNumbers {
            number: u64::from(cause),
            count: 0,
        },
    }
}

impl From<Result<BestPlan, Cause>> for PlanNumbers {
    ghost from_gives = { λ answer numbers. numbers ≡ answers.plan_numbers answer };

    fn from(answer: Result<BestPlan, Cause>) -> PlanNumbers {
        PlanNumbers {
            number: commitment::number_in(&answer),
            count: planner::contents::planned_count(answer),
            profit: planner::contents::planned_profit(answer),
        }
    }
}

impl From<Result<Outcomes, Cause>> for ValueNumbers {
    ghost from_gives = { λ answer numbers. numbers ≡ answers.value_numbers answer };

    fn from(answer: Result<Outcomes, Cause>) -> ValueNumbers {
        ValueNumbers {
            number: commitment::number_in(&answer),
            outcomes: OutcomesNumbers::from(planner::contents::valued_outcomes(answer)),
        }
    }
}

impl From<Result<Report, Cause>> for ReportNumbers {
    ghost from_gives = { λ answer numbers. numbers ≡ answers.report_numbers answer };

    fn from(answer: Result<Report, Cause>) -> ReportNumbers {
        ReportNumbers {
            number: commitment::number_in(&answer),
            count: planner::contents::reported_count(answer),
            profit: planner::contents::reported_profit(answer),
            outcomes: OutcomesNumbers::from(planner::contents::reported_outcomes(answer)),
        }
    }
}

impl From<Result<usize, Cause>> for WrittenNumbers {
    ghost from_gives = { λ answer numbers. numbers ≡ answers.written_numbers answer };

    fn from(answer: Result<usize, Cause>) -> WrittenNumbers {
        WrittenNumbers {
            number: commitment::number_in(&answer),
            bytes: answer.unwrap_or(0),
        }
    }
}
