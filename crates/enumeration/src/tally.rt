// How many cases there were of each kind, so that a kind that never occurs shows.

ghost use Rattle.std.specs.Prelude.{◌≡◌, ◌<◌, true, not, ◌==◌, is_ok};
ghost use Rattle.enumeration.specs.Counting as counting;
ghost use Rattle.enumeration.specs.Expecting.{number_in};

use crate::enumerator;
use crate::enumerator::{Case, PerLimit, Worth};
use crate::expectation::{Expected, Refusal};
use crate::numbers::counted;
use std::cmp::Ordering;

// `dates` goes by the date of the permitted hours, `texts` by what reading says, `limited` by which limitations there are; `worths` by the outcomes of each
// limitation in the cases planned.
#[derive(Clone, Copy)]
pub struct Tally {
    pub cases: u64,
    pub planned: u64,
    pub refused: u64,
    pub missing: u64,
    pub negative: u64,
    pub tied: u64,
    pub was_on: u64,
    pub was_off: u64,
    pub differences: u64,
    pub dates: [u64; 5],
    pub texts: [u64; 3],
    pub limited: [u64; 8],
    pub worths: PerLimit<[u64; 6]>,
}

// Whether each call says the same.
#[derive(Clone, Copy)]
pub struct Agreed {
    pub plan: bool,
    pub value: bool,
    pub report: bool,
    pub assess: bool,
}

// Nothing is counted yet. Not a derive, so that `is_default` says `nothing`.
impl Default for Tally {
    ghost is_default = { λ tally. tally ≡ counting.nothing };

    fn default() -> Tally {
        Tally {
            cases: 0,
            planned: 0,
            refused: 0,
            missing: 0,
            negative: 0,
            tied: 0,
            was_on: 0,
            was_off: 0,
            differences: 0,
            dates: [0; 5],
            texts: [0; 3],
            limited: [0; 8],
            worths: PerLimit {
                starts: [0; 6],
                hours: [0; 6],
                mwh: [0; 6],
            },
        }
    }
}

pub fn with_case(tally: Tally, case: Case) -> Tally
    ensures { (result.cases ≡ counting.counted tally.cases true)
        × (result.was_on ≡ counting.counted tally.was_on case.was_on) × (result.differences ≡ tally.differences) }
{
    let at = limits_in(case);
    let date = date_in(case);
    let mut t = tally;
    t.cases = counted(t.cases, true);
    t.negative = counted(t.negative, has_negative_price(case));
    t.was_on = counted(t.was_on, case.was_on);
    t.was_off = counted(t.was_off, !case.was_on);
    t.limited[at] = counted(t.limited[at], true);
    t.dates[date] = counted(t.dates[date], true);
    t
}

// The column of the table that is printed, by which its counts stand: 1 for starts, 2 for hours, 4 for mwh, added up.
fn limits_in(case: Case) -> usize
    ensures { result < 8 }
{
    let PerLimit { starts, hours, mwh } = case.limits;
    (u64::from(starts.is_some())
        + 2 * u64::from(hours.is_some())
        + 4 * u64::from(mwh.is_some())) as usize
}

// The column: no hours, a date that does not exist, a date on which time does not change, the Sunday of March, that of November.
fn date_in(case: Case) -> usize
    ensures { result < 5 }
{
    let Some(allowed) = case.allowed else {
        return 0;
    };
    if !enumerator::date_exists(case) {
        return 1;
    }
    if enumerator::goes_forward(allowed) {
        return 3;
    }
    if enumerator::goes_back(allowed) {
        return 4;
    }
    2
}

fn has_negative_price(case: Case) -> bool {
    let n = enumerator::intervals_of(case);
    case.up[..n].iter().any(|up| *up < case.down)
}

pub fn with_expected(tally: Tally, expected: Expected) -> Tally
    ensures { (result.planned ≡ counting.counted tally.planned (is_ok expected.answer))
        × (result.refused ≡ counting.counted tally.refused (number_in expected == 9))
        × (result.missing ≡ counting.counted tally.missing (number_in expected == 12)) × (result.differences ≡ tally.differences) }
{
    let mut t = tally;
    match expected.answer {
        Ok(plan) => {
            t.planned = counted(t.planned, true);
            t.tied = counted(t.tied, plan.tied);
            t.worths = with_worths(t.worths, plan.worths);
        }
        Err(number) => {
            t.refused = counted(t.refused, number == u64::from(Refusal::NoSchedule));
            t.missing = counted(t.missing, number == u64::from(Refusal::Date));
        }
    }
    t
}

fn with_worths(counts: PerLimit<[u64; 6]>, worths: PerLimit<Worth>) -> PerLimit<[u64; 6]> {
    PerLimit {
        starts: with_worth(counts.starts, worths.starts),
        hours: with_worth(counts.hours, worths.hours),
        mwh: with_worth(counts.mwh, worths.mwh),
    }
}

fn with_worth(counts: [u64; 6], worth: Worth) -> [u64; 6] {
    let mut outcomes = counts;
    let at = column_of(worth);
    outcomes[at] = counted(outcomes[at], true);
    outcomes
}

// The column: a gap below 0 has one, so that it would show.
fn column_of(worth: Worth) -> usize
    ensures { result < 6 }
{
    match worth {
        Worth::None => 0,
        Worth::Empty => 1,
        Worth::Never => 2,
        Worth::Gap(gap) => match gap.cmp(&0) {
            Ordering::Less => 3,
            Ordering::Equal => 4,
            Ordering::Greater => 5,
        },
    }
}

// Each call that does not agree is a difference.
pub fn with_agreed(tally: Tally, agreed: Agreed) -> Tally
    ensures { (result.differences ≡ counting.differing tally.differences agreed) × (result.cases ≡ tally.cases) }
{
    let mut t = tally;
    t.differences = [agreed.plan, agreed.value, agreed.report, agreed.assess]
        .iter()
        .fold(t.differences, |count, agrees| differing(count, *agrees));
    t
}

fn differing(differences: u64, agrees: bool) -> u64
    ensures { result ≡ counting.counted differences (not agrees) }
{
    counted(differences, !agrees)
}

// A text that is read otherwise is a difference, too. A refusal is any number, as `refused` takes it.
pub fn with_text(tally: Tally, reading: Result<(), u64>, agrees: bool) -> Tally
    ensures { (result.differences ≡ counting.counted tally.differences (not agrees)) × (result.cases ≡ tally.cases) }
{
    let at = text_in(reading);
    let mut t = tally;
    t.texts[at] = counted(t.texts[at], true);
    t.differences = differing(t.differences, agrees);
    t
}

// The column.
fn text_in(reading: Result<(), u64>) -> usize
    ensures { result < 3 }
{
    match reading {
        Ok(()) => 0,
        Err(number) if number == u64::from(Refusal::Name) => 1,
        Err(_) => 2,
    }
}
