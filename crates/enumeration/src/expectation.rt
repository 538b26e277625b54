// What the enumerator says of a case.

ghost use Rattle.std.specs.Prelude.{◌≡◌};
ghost use Rattle.enumeration.specs.Lists.{in_front, untouched};
ghost use Rattle.enumeration.specs.Dates.{refusal_of};
ghost use Rattle.enumeration.specs.Expecting.{ExpectedOf, Refused};
ghost use Rattle.enumeration.specs.Refusals.{number_of};

use crate::enumerator;
use crate::enumerator::{Case, PerLimit, ROOM, Which, Worth};

// What no output of a small case is: entries that a call leaves as they were still hold it.
pub const UNTOUCHED: u64 = 7777;

// Why a small case, its text or a schedule of it is refused.
#[derive(Clone, Copy, PartialEq, Eq)]
pub enum Refusal {
    Name,
    Date,
    Scratch,
    NoSchedule,
    NotKept,
}

impl From<Refusal> for u64 {
    ghost from_gives = { λ refusal number. number ≡ number_of refusal };

    fn from(refusal: Refusal) -> u64 {
        match refusal {
            Refusal::Name => 2,
            Refusal::Scratch => 8,
            Refusal::NoSchedule => 9,
            Refusal::NotKept => 10,
            Refusal::Date => 12,
        }
    }
}

// What is said of a plan besides its schedule.
#[derive(Clone, Copy)]
pub struct Plan {
    pub tied: bool,
    pub profit: i64,
    pub worths: PerLimit<Worth>,
}

// The entries of the slice lent for the schedule, and the plan or the number of the refusal. `refused` takes any number, so that it is one here.
#[derive(Clone, Copy)]
pub struct Expected {
    pub schedule: [u64; ROOM],
    pub answer: Result<Plan, u64>,
}

pub fn expected_of(case: Case) -> Expected
    ensures { ExpectedOf case result }
{
    let Some(best) = enumerator::best_of(case) else {
        return refused(refusal_of(case, u64::from(Refusal::NoSchedule)));
    };
    Expected {
        schedule: schedule_of(case, best.number),
        answer: Ok(Plan {
            tied: best.tied,
            profit: enumerator::profit_of(best),
            worths: PerLimit {
                starts: enumerator::worth_of(case, Which::Starts),
                hours: enumerator::worth_of(case, Which::Hours),
                mwh: enumerator::worth_of(case, Which::Mwh),
            },
        }),
    }
}

// A refused call leaves the schedule as it was.
pub fn refused(number: u64) -> Expected
    ensures { Refused number result }
{
    Expected {
        schedule: [UNTOUCHED; ROOM],
        answer: Err(number),
    }
}

// The number of the call's refusal, or that of a date that does not exist.
pub fn refusal_of(case: Case, number: u64) -> u64
    ensures { result ≡ refusal_of case number }
{
    if enumerator::date_exists(case) {
        number
    } else {
        u64::from(Refusal::Date)
    }
}

// The list in the front of a slice that was lent.
pub fn schedule_of(case: Case, number: u64) -> [u64; ROOM]
    ensures { result ≡ in_front case number untouched }
{
    let list = enumerator::list_of(case, number);
    let n = enumerator::intervals_of(case);
    let mut schedule = [UNTOUCHED; ROOM];
    for (i, output) in list[..n].iter().enumerate() {
        schedule[i] = u64::from(*output);
    }
    schedule
}
