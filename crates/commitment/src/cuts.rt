// Where the calendar months cut a horizon.

ghost use Rattle.std.specs.Prelude.{◌≡◌, ◌≤◌};
ghost use Rattle.calendar.specs.Dates.{last_year, Within};
ghost use Rattle.calendar.specs.Months.{year_intervals, most_months};
ghost use Rattle.commitment.specs.Months.{month_ends};
ghost use Rattle.commitment.specs.Cuts.{CutsOf};

use calendar::Date;

// Month k, counted from 0, has the intervals from `at[k]` to before `at[k + 1]`. A horizon of a year has thirteen months at most.
// Nothing is allocated, so there is room for them all, and `count` says how many there are.
#[derive(Clone, Copy)]
pub struct Cuts {
    pub at: [usize; 14],
    pub count: usize,
}

// The cuts of so many intervals from a date's midnight on.
pub fn cuts_of(date: Date, intervals: usize) -> Cuts
    requires { (Within last_year date) × (1 ≤ intervals) × (intervals ≤ year_intervals) }
    ensures { CutsOf date intervals result }
{
    let count = calendar::month_of(date, (intervals - 1) as u64) as usize;
    let mut at: [usize; 14] = [0; 14];
    for k in 0..count + 1 {
        at[k] = month_ends(date, intervals, k);
    }
    Cuts { at, count }
}

// Where so many months are over: where the next begins, or the horizon ends.
fn month_ends(date: Date, intervals: usize, month: usize) -> usize
    requires { (Within last_year date) × (month ≤ most_months) }
    ensures { result ≡ month_ends date intervals month }
{
    let begins = calendar::month_begins(date, month as u64 + 1) as usize;
    if begins < intervals {
        return begins;
    }
    intervals
}
