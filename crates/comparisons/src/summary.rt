// What was counted, and each call that differs, with the number of its case.

use enumeration::enumerator::PerLimit;
use enumeration::printing::{line, row, text};
use enumeration::tally::{Agreed, Tally};
use std::io;

// The number of a case is enough to find it again.
pub fn tell(rt: &impl Print, number: u64, agreed: Agreed) -> io::Result<()> {
    tell_unless(rt, agreed.plan, b"plan differs on case ", number)?;
    tell_unless(rt, agreed.value, b"value differs on case ", number)?;
    tell_unless(rt, agreed.report, b"report differs on case ", number)?;
    tell_unless(rt, agreed.assess, b"assess differs on case ", number)
}

pub fn tell_unless(rt: &impl Print, agrees: bool, words: &[u8], number: u64) -> io::Result<()> {
    if agrees {
        return Ok(());
    }
    line(rt, words, number)
}

pub fn print(rt: &impl Print, tally: Tally) -> io::Result<()> {
    print_cases(rt, tally)?;
    print_limited(rt, tally)?;
    print_worths(rt, tally)?;
    line(rt, b"differences,", tally.differences)
}

pub fn print_dates(rt: &impl Print, tally: Tally) -> io::Result<()> {
    text(
        rt,
        b"\nhours,none,no such date,another day,clocks forward,clocks back\ncases",
    )?;
    row(rt, &tally.dates)?;
    line(rt, b"refused 12,", tally.missing)?;
    text(rt, b"\ntexts,read,refused 2,refused 12\ncases")?;
    row(rt, &tally.texts)?;
    text(rt, b"\n")
}

fn print_cases(rt: &impl Print, t: Tally) -> io::Result<()> {
    text(
        rt,
        b"generated,all,planned,refused 9,negative price,tie,was on,was off\ncases",
    )?;
    row(
        rt,
        &[
            t.cases, t.planned, t.refused, t.negative, t.tied, t.was_on, t.was_off,
        ],
    )
}

fn print_limited(rt: &impl Print, tally: Tally) -> io::Result<()> {
    text(
        rt,
        b"\nlimited,none,starts,hours,starts and hours,mwh,starts and mwh,hours and mwh,all\ncases",
    )?;
    row(rt, &tally.limited)
}

fn print_worths(rt: &impl Print, tally: Tally) -> io::Result<()> {
    let PerLimit { starts, hours, mwh } = tally.worths;
    text(
        rt,
        b"\noutcome,none,empty,never,gap below 0,gap 0,gap above 0\nstarts",
    )?;
    row(rt, &starts)?;
    text(rt, b"hours")?;
    row(rt, &hours)?;
    text(rt, b"mwh")?;
    row(rt, &mwh)
}
