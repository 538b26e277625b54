// From the text of a case to the bytes that are printed for it: read, planned and valued in the call's own slices, and listed into a lent buffer.

#![tactic(auto)]

ghost use Rattle.std.specs.Prelude.{◌≡◌, length, Err};
ghost use Rattle.commitment.specs.Causes.{number_of};
ghost use Rattle.listing.specs.Listing.{refusal, fitted, written_by, buffer_after};
ghost use Rattle.planner.specs.Planning.{plan_checked};
ghost use Rattle.answers.specs.Answering.{word_of, answered_by, answered_for, printed_for, answered, printed};
ghost use Rattle.answers.specs.Sizes.{cell_room, price_room};

use commitment::{Cause, UnitRecord, Window};

// What the program has room for. specs/Sizes.antt has the same.
pub const TEXT_ROOM: usize = casetext::form::MOST_BYTES + 1;

pub const OUT_ROOM: usize = 26930;

pub const PRICE_ROOM: usize = 6144;

pub const CELL_ROOM: usize = 4000;

// 0 or the number of the cause, and how many bytes were written to the front of the buffer. No Result: a refusal has its bytes, too.
#[derive(Clone, Copy)]
pub struct Answered {
    pub number: u64,
    pub bytes: usize,
}

// What is printed for a text, into the front of the buffer; where it does not fit the buffer is as it was, and a plan gets 7.
pub fn answer(text: &[u8], out: &mut [u8]) -> Answered
    ensures value { result ≡ answered text.now (length out.old) }
    ensures out_after { out.new ≡ buffer_after (printed text.now) out.old }
{
    let mut prices = [0i64; PRICE_ROOM];
    match casefile::read_into(text, &mut prices) {
        Err(unread) => refuse(unread, out),
        Ok(case) => report(case.unit, &prices[..case.count], out),
    }
}

// A case that was read, in the program's scratch and schedule.
fn report(unit: UnitRecord, prices: &[i64], out: &mut [u8]) -> Answered
    ensures value { result
        ≡ answered_for (plan_checked unit prices.now cell_room price_room) unit prices.now (length out.old) }
    ensures out_after { out.new
        ≡ buffer_after (printed_for (plan_checked unit prices.now cell_room price_room) unit prices.now) out.old }
{
    let mut scratch = [0i64; CELL_ROOM];
    let mut schedule = [0u64; PRICE_ROOM];
    report_in(unit, prices, &mut scratch, &mut schedule, out)
}

// The listing of its best plan, or its refusal.
fn report_in(
    unit: UnitRecord,
    prices: &[i64],
    scratch: &mut [i64],
    schedule: &mut [u64],
    out: &mut [u8],
) -> Answered
    ensures value { result
        ≡ answered_for (plan_checked unit prices.now (length scratch.old) (length schedule.old)) unit
        prices.now (length out.old) }
    ensures out_after { out.new
        ≡ buffer_after
        (printed_for (plan_checked unit prices.now (length scratch.old) (length schedule.old)) unit prices.now)
        out.old }
{
    match planner::report_into(unit, prices, scratch, &mut *schedule) {
        Err(cause) => refuse(cause, out),
        Ok(report) => {
            let count = report.count;
            let plan = &schedule[..count];
            let word = word_of(unit.permit);
            let written = listing::write_listing(plan, report.profit, report.outcomes, word, out);
            Answered {
                number: commitment::number_in(&written),
                bytes: written.unwrap_or(0),
            }
        }
    }
}

// The hour word of a permit that has one.
fn word_of(permit: Option<Window>) -> Option<u64>
    ensures { result ≡ word_of permit }
{
    permit.map(|window| window.word)
}

// The line of a refusal; where it does not fit, the number alone.
fn refuse(cause: Cause, out: &mut [u8]) -> Answered
    ensures value { result ≡ answered_by (Err cause) (written_by (fitted (length (refusal (number_of cause))) (length out.old))) }
    ensures out_after { out.new ≡ buffer_after (refusal (number_of cause)) out.old }
{
    let number = u64::from(cause);
    let written = listing::write_refusal(number, out);
    Answered {
        number,
        bytes: written.unwrap_or(0),
    }
}
