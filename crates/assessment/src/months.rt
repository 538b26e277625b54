// Whether a schedule keeps the figures of every calendar month.

ghost use Rattle.std.specs.Prelude.{◌≡◌, cond, ◌≤◌, ◌<◌, length};
ghost use Rattle.calendar.specs.Dates.{last_year, Within};
ghost use Rattle.calendar.specs.Months.{year_intervals};
ghost use Rattle.commitment.specs.Bounds.{most_mw};
ghost use Rattle.commitment.specs.Months.{months_of, keeps_months};
ghost use Rattle.assessment.specs.Walking.{SmallLimits};
ghost use Rattle.assessment.specs.Counting.{counts_of, Room, Outputs};
ghost use Rattle.assessment.specs.Counting as counting;

use calendar::Date;
use commitment::{Limits, cuts};

// What a part of a schedule spends, and whether the unit is on after it.
#[derive(Clone, Copy)]
pub struct Counts {
    pub on: bool,
    pub starts: u64,
    pub running: u64,
    pub output: u64,
}

// Month by month from a date on, to the first that does not keep its figures. Every month counts anew, from the state that the one before left.
pub fn months_kept(date: Date, limits: Limits, was: bool, schedule: &[u64]) -> bool
    requires within { (Within last_year date) × (1 ≤ length schedule.now) × (length schedule.now ≤ year_intervals) }
    requires small_limits { (SmallLimits limits) × (Outputs schedule.now) }
    ensures { result ≡ keeps_months (months_of date limits (length schedule.now)) was schedule.now }
{
    let cuts = cuts::cuts_of(date, schedule.len());
    let mut on = was;
    for k in 0..cuts.count {
        let from = cuts.at[k];
        let to = cuts.at[k + 1];
        let spent = counts_in(on, &schedule[from..to]);
        if !crate::spent_within(limits, spent.starts, spent.running, spent.output) {
            return false;
        }
        on = spent.on;
    }
    true
}

// Of one month.
fn counts_in(was: bool, part: &[u64]) -> Counts
    requires { (length part.now ≤ year_intervals) × (Outputs part.now) }
    ensures { result ≡ counts_of was part.now }
{
    let mut at = Counts {
        on: was,
        starts: 0,
        running: 0,
        output: 0,
    };
    for output in part {
        at = counted(at, *output);
    }
    at
}

// One interval more. The first that is on after one that is off is a start.
fn counted(at: Counts, output: u64) -> Counts
    requires { (Room at) × (output ≤ most_mw) }
    ensures { result ≡ counting.counted at output }
{
    if output == 0 {
        return Counts { on: false, ..at };
    }
    Counts {
        on: true,
        starts: at.starts + u64::from(!at.on),
        running: at.running + 1,
        output: at.output + output,
    }
}
