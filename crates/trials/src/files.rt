// The texts of the data folder, in the sequence of the program's arguments: each is read, planned and valued with the slices that the
// planning program lends, and its plan is handed in.

ghost use Rattle.std.specs.Prelude.{◌≡◌, ◌≤◌, length, take};
ghost use Rattle.std.specs.Io.{ReadsAtMost};

use commitment::{Outcomes, UnitRecord};
use enumeration::printing::{line, text};
use std::env::{Env, FillError};
use std::io::Read;
use std::rt::Files;
use std::{fs, io, str};

// The list of arguments ends at the first that is missing. One that is longer than a path may be counts as an empty path.
pub fn try_texts(rt: &(impl Env + Files + Print)) -> io::Result<()> {
    for i in 1..usize::MAX {
        let mut path = [0u8; 64];
        match rt.arg(i, &mut path) {
            Err(FillError::NotPresent) => break,
            Err(FillError::TooLong) => try_path(rt, b"")?,
            Ok(n) => try_path(rt, &path[..n])?,
        }
    }
    Ok(())
}

fn try_path(rt: &(impl Files + Print), path: &[u8]) -> io::Result<()> {
    text(rt, path)?;
    text(rt, b"\n")?;
    let mut bytes = [0u8; answers::TEXT_ROOM];
    let size = contents(rt, path, &mut bytes)?;
    let mut prices = [0i64; answers::PRICE_ROOM];
    try_text(rt, &bytes[..size], &mut prices)?;
    text(rt, b"\n")
}

// A file's bytes in the front of the slice: so many. A file that is missing shows.
pub fn contents(rt: &(impl Files + Print), path: &[u8], bytes: &mut [u8]) -> io::Result<usize>
    ensures { ReadsAtMost result bytes.new }
{
    match opened(rt, path) {
        Err(_) => {
            text(rt, b"no such file\n")?;
            Ok(0)
        }
        Ok(mut file) => read_full(&mut file, bytes),
    }
}

// A file is named by a text: bytes that are none name no file.
fn opened<R: Files>(rt: &R, path: &[u8]) -> io::Result<R::File> {
    match str::from_utf8(path) {
        Err(_) => Err(io::Error::from(io::ErrorKind::NotFound)),
        Ok(name) => fs::open(rt, name),
    }
}

// Reads until the file ends or the slice is full. A while: each turn goes on by as much as was read.
fn read_full(file: &mut impl Read, bytes: &mut [u8]) -> io::Result<usize>
    ensures { ReadsAtMost result bytes.new }
{
    let mut done = 0;
    while done < bytes.len() {
        let more = file.read(&mut bytes[done..])?;
        if more == 0 {
            break;
        }
        done += more;
    }
    Ok(done)
}

// Read by both calls that read: one gives the record, the other the prices.
fn try_text(rt: &impl Print, bytes: &[u8], prices: &mut [i64]) -> io::Result<()> {
    let unit = casefile::unit_of(casefile::read_into(bytes, &mut *prices));
    let mut number = 0;
    let part = casefile::read(bytes, prices, &mut number);
    if number != 0 {
        return refused(rt, number);
    }
    let mut scratch = [0i64; answers::CELL_ROOM];
    try_case(rt, unit, &part[..], &mut scratch)
}

// Valued first: where that is refused, nothing is planned.
pub fn try_case(
    rt: &impl Print,
    unit: UnitRecord,
    prices: &[i64],
    scratch: &mut [i64],
) -> io::Result<()> {
    match planner::value(unit, prices, &mut *scratch) {
        Err(cause) => refused(rt, u64::from(cause)),
        Ok(outcomes) => try_plan(rt, unit, prices, outcomes, scratch),
    }
}

fn try_plan(
    rt: &impl Print,
    unit: UnitRecord,
    prices: &[i64],
    outcomes: Outcomes,
    scratch: &mut [i64],
) -> io::Result<()> {
    let mut schedule = [0u64; answers::PRICE_ROOM];
    let mut number = 0;
    let mut profit = 0;
    let plan = planner::plan(
        unit,
        prices,
        scratch,
        &mut schedule,
        &mut number,
        &mut profit,
    );
    let word = unit.permit.map(|window| window.word);
    planned(rt, &plan[..], profit, outcomes, word)?;
    hand_in(rt, unit, prices, &plan[..], profit)
}

fn planned(
    rt: &impl Print,
    schedule: &[u64],
    profit: i64,
    outcomes: Outcomes,
    word: Option<u64>,
) -> io::Result<()> {
    let mut out = [0u8; 32768];
    let bytes = put_listing(schedule, profit, outcomes, word, &mut out);
    text(rt, &out[..bytes])
}

// Its contract says that the count stays within the buffer.
fn put_listing(
    schedule: &[u64],
    profit: i64,
    outcomes: Outcomes,
    word: Option<u64>,
    out: &mut [u8],
) -> usize
    ensures within { result ≤ length out.new }
    ensures front { result ≡ length (take result out.new) }
{
    listing::write_listing(schedule, profit, outcomes, word, out).unwrap_or(0)
}

// The number is that which `casefile::read` gives.
fn refused(rt: &impl Print, number: u64) -> io::Result<()> {
    let mut out = [0u8; 32];
    let bytes = put_refusal(number, &mut out);
    text(rt, &out[..bytes])
}

fn put_refusal(number: u64, out: &mut [u8]) -> usize
    ensures within { result ≤ length out.new }
    ensures front { result ≡ length (take result out.new) }
{
    listing::write_refusal(number, out).unwrap_or(0)
}

// A schedule handed in: whether it earns the profit named, or the number of its refusal.
pub fn hand_in(
    rt: &impl Print,
    unit: UnitRecord,
    prices: &[i64],
    schedule: &[u64],
    profit: i64,
) -> io::Result<()> {
    match assessment::assess(unit, prices, schedule) {
        Err(cause) => line(rt, b"handed in and refused,", u64::from(cause)),
        Ok(earned) => line(
            rt,
            b"handed in with that profit,",
            u64::from(earned == profit),
        ),
    }
}
