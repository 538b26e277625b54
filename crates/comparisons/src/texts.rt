// A generated case as a text, its names in some sequence, the four of the permitted hours among them or a part of the four: it is read and planned as the case
// is, or refused.

ghost use Rattle.std.specs.Prelude.{◌≤◌};

use crate::comparison;
use crate::comparison::same_number;
use enumeration::enumerator;
use enumeration::enumerator::{Allowed, Case, PerLimit, ROOM};
use enumeration::expectation::{Expected, Refusal};
use std::fmt::Write;
use std::{array, fmt};

// More than a small case takes.
const PAGE: usize = 512;

// The bytes written so far, in memory of a fixed size: what a page has no room for is left out.
#[derive(Clone, Copy)]
pub struct Page {
    pub bytes: [u8; PAGE],
    pub used: usize,
    ghost within: { used ≤ 512 },
}

// Two parts of the thirteen names, and each of the four of the permitted hours.
#[derive(Clone, Copy, PartialEq, Eq)]
pub enum Part {
    Unit,
    Rest,
    Year,
    Month,
    Day,
    Window,
}

const PARTS: [Part; 6] = [
    Part::Unit,
    Part::Rest,
    Part::Year,
    Part::Month,
    Part::Day,
    Part::Window,
];

// The sequence of the parts, and which of the last four stand.
#[derive(Clone, Copy)]
pub struct Sheet {
    pub sequence: [Part; 6],
    pub four: [bool; 4],
}

// What reading the text says.
pub fn reading_of(case: Case, number: u64) -> Result<(), u64> {
    if is_part(number) {
        return Err(u64::from(Refusal::Name));
    }
    if !enumerator::date_exists(case) {
        return Err(u64::from(Refusal::Date));
    }
    Ok(())
}

// Whether reading says that, and what is read is planned as expected.
pub fn same_text(
    case: Case,
    hours: Allowed,
    number: u64,
    expected: Expected,
    scratch: &mut [i64],
) -> bool {
    let page = text_of(case, hours, sheet_of(case, number));
    let n = enumerator::intervals_of(case);
    let mut prices = [0i64; ROOM];
    match (
        casefile::read_into(page.written(), &mut prices),
        reading_of(case, number),
    ) {
        (Err(cause), Err(number)) => same_number(cause, number),
        (Ok(read), Ok(())) => {
            (read.count == n) & comparison::same_plan(read.unit, &prices[..n], expected, scratch)
        }
        _ => false,
    }
}

// ---- the sequence of the names

// Every fifth text has one to three of the four names.
fn is_part(number: u64) -> bool {
    number % 5 == 4
}

fn sheet_of(case: Case, number: u64) -> Sheet {
    Sheet {
        sequence: sequence_of(number),
        four: four_of(case, number),
    }
}

// Round from any of the parts, forwards or backwards.
fn sequence_of(number: u64) -> [Part; 6] {
    let start = (number % 6) as usize;
    let step = if number / 6 % 2 == 0 { 1 } else { 5 };
    array::from_fn(|i| PARTS[(start + i * step) % 6])
}

// None or all of the four names, or one to three of them, which is refused.
fn four_of(case: Case, number: u64) -> [bool; 4] {
    if is_part(number) {
        let set = number % 14 + 1;
        return [
            set % 2 == 1,
            set / 2 % 2 == 1,
            set / 4 % 2 == 1,
            set / 8 % 2 == 1,
        ];
    }
    [case.allowed.is_some(); 4]
}

fn stands(part: Part, four: [bool; 4]) -> bool {
    match part {
        Part::Unit | Part::Rest => true,
        Part::Year => four[0],
        Part::Month => four[1],
        Part::Day => four[2],
        Part::Window => four[3],
    }
}

// ---- the text

// The hours are those drawn, of which a part may stand where the case has none.
fn text_of(case: Case, hours: Allowed, sheet: Sheet) -> Page {
    let mut page = Page::new();
    put_line(&mut page, sheet, put_name);
    put_line(
        &mut page,
        sheet,
        |page, part| put_value(page, part, case, hours),
    );
    page.push_all(b"\nprice\n");
    put_prices(&mut page, case);
    page
}

// A line of the parts that stand, in their sequence.
fn put_line<Put: Fn(&mut Page, Part)>(page: &mut Page, sheet: Sheet, put: Put)
    requires { Put.IsAlwaysCallable put }
{
    for part in sheet.sequence {
        if stands(part, sheet.four) {
            put(&mut *page, part);
        }
    }
    page.push(b'\n');
}

fn put_name(page: &mut Page, part: Part) {
    page.push_comma();
    page.push_all(names_of(part));
}

fn names_of(part: Part) -> &'static [u8] {
    match part {
        Part::Unit => b"block,pmin,pmax,mot,mdt,was",
        Part::Rest => b"held,vec,mlc,suc,starts,hours,mwh",
        Part::Year => b"year",
        Part::Month => b"month",
        Part::Day => b"day",
        Part::Window => b"window",
    }
}

fn put_value(page: &mut Page, part: Part, case: Case, hours: Allowed) {
    match part {
        Part::Unit => put_unit(page, case),
        Part::Rest => put_rest(page, case),
        Part::Year => page.push_figure(u64::from(hours.year)),
        Part::Month => page.push_figure(u64::from(hours.month)),
        Part::Day => page.push_figure(u64::from(hours.day)),
        Part::Window => page.push_figure(u64::from(hours.word)),
    }
}

fn put_unit(page: &mut Page, case: Case) {
    for size in [case.block, case.pmin, case.pmax, case.mot, case.mdt] {
        page.push_figure(u64::from(size));
    }
    page.push_figure(u64::from(case.was_on));
}

fn put_rest(page: &mut Page, case: Case) {
    page.push_figure(u64::from(case.held));
    page.push_figure(u64::from(case.vec));
    page.push_figure(u64::from(case.mlc));
    page.push_figure(u64::from(case.suc));
    let PerLimit { starts, hours, mwh } = case.limits;
    for cap in [starts, hours, mwh] {
        put_cap(page, cap);
    }
}

fn put_cap(page: &mut Page, cap: Option<u32>) {
    match cap {
        Some(most) => page.push_figure(u64::from(most)),
        None => {
            page.push_comma();
            page.push_all(b"none");
        }
    }
}

fn put_prices(page: &mut Page, case: Case) {
    let n = enumerator::intervals_of(case);
    for up in &case.up[..n] {
        if *up < case.down {
            page.push(b'-');
        }
        page.push_number(u64::from(up.abs_diff(case.down)));
        page.push(b'\n');
    }
}

// ---- bytes

impl Page {
    fn new() -> Page {
        Page {
            bytes: [0; PAGE],
            used: 0,
        }
    }

    fn written(&self) -> &[u8] {
        &self.bytes[..self.used]
    }

    fn push(&mut self, byte: u8) {
        if self.used < PAGE {
            self.bytes[self.used] = byte;
            self.used += 1;
        }
    }

    fn push_all(&mut self, word: &[u8]) {
        for byte in word {
            self.push(*byte);
        }
    }

    // A comma, but where a line begins.
    fn push_comma(&mut self) {
        match self.written().last() {
            None | Some(b'\n') => {}
            Some(_) => self.push(b','),
        }
    }

    fn push_figure(&mut self, figure: u64) {
        self.push_comma();
        self.push_number(figure);
    }

    // No write to a page fails.
    fn push_number(&mut self, number: u64) {
        let _ = write!(self, "{number}");
    }
}

impl fmt::Write for Page {
    fn write_str(&mut self, s: &str) -> fmt::Result {
        self.push_all(s.as_bytes());
        Ok(())
    }
}
