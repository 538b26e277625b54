// Every list of outputs of a small case, tried in order (specification 7) and judged by the rules of specification 4 to 6. It shares nothing with the planner.
// Money is kept as what is earned and what is spent, two natural numbers, so that no sum is signed.

ghost use Rattle.std.specs.Prelude.{◌≡◌, IfSome, false, ◌+◌, ◌*◌, ◌/◌, ◌^◌, ◌<◌, ◌≤◌, length};
ghost use Rattle.enumeration.specs.Lists.{room, most_outputs, intervals_of, outputs_of, output_of, lists_of, in_front};
ghost use Rattle.enumeration.specs.Dates.{is_sunday, goes_forward, goes_back, days_of, date_exists};
ghost use Rattle.enumeration.specs.Expecting.{Summed, OneMore, cap_of, earnings, WorthOf};
ghost use Rattle.enumeration.specs.Limits.{for_limit, with_limit};

pub use crate::found::Found;
use crate::numbers::{difference, times};

// The intervals that a list has room for, so that the third hour of the day is reached, and the outputs of an interval. specs/Lists.antt has the same.
pub const ROOM: usize = 9;

const MOST_OUTPUTS: u64 = 64;

#[derive(Clone, Copy, PartialEq, Eq)]
pub enum Which {
    Starts,
    Hours,
    Mwh,
}

// A value for each limitation.
#[derive(Clone, Copy, PartialEq, Eq)]
pub struct PerLimit<T> {
    pub starts: T,
    pub hours: T,
    pub mwh: T,
}

// The permitted hours: the date whose midnight opens interval 1, and the word whose bit h allows clock hour h.
#[derive(Clone, Copy)]
pub struct Allowed {
    pub year: u16,
    pub month: u8,
    pub day: u8,
    pub word: u32,
}

// A case in plain numbers: each limitation and the permitted hours where there are any. The price of interval i + 1 is up[i] − down. Nothing is
// allocated, so `up` has room for the most intervals.
#[derive(Clone, Copy)]
pub struct Case {
    pub intervals: u8,
    pub block: u8,
    pub pmin: u8,
    pub pmax: u8,
    pub mot: u8,
    pub mdt: u8,
    pub was_on: bool,
    pub held: u8,
    pub vec: u16,
    pub mlc: u32,
    pub suc: u32,
    pub limits: PerLimit<Option<u32>>,
    pub allowed: Option<Allowed>,
    pub up: [u16; ROOM],
    pub down: u16,
}

// What the intervals of a list add up to, and whether the last of them is on. Its bounds stand in contracts and not here, since they grow with the intervals.
#[derive(Clone, Copy, Default)]
pub struct Sums {
    pub on: bool,
    pub starts: u64,
    pub running: u64,
    pub output: u64,
    pub earned: u64,
    pub spent: u64,
}

// What a limitation is worth: the four outcomes (specification 9).
#[derive(Clone, Copy, PartialEq, Eq)]
pub enum Worth {
    None,
    Empty,
    Never,
    Gap(i64),
}

impl<T: Copy> PerLimit<T> {
    pub fn of(self, which: Which) -> T
        ensures { result ≡ for_limit self which }
    {
        match which {
            Which::Starts => self.starts,
            Which::Hours => self.hours,
            Which::Mwh => self.mwh,
        }
    }

    // With another value for one limitation, the other two as they are.
    pub fn with(self, which: Which, value: T) -> PerLimit<T>
        ensures { result ≡ with_limit self which value }
    {
        let mut limits = self;
        match which {
            Which::Starts => limits.starts = value,
            Which::Hours => limits.hours = value,
            Which::Mwh => limits.mwh = value,
        }
        limits
    }
}

// ---- the lists, by number

// The lists have room for so many intervals.
pub fn intervals_of(case: Case) -> usize
    ensures { (result ≡ intervals_of case) × (result ≤ room) }
{
    usize::from(case.intervals).min(ROOM)
}

// Off, or pmin to pmax blocks.
fn outputs_of(case: Case) -> u64
    ensures { (result ≡ outputs_of case) × (1 ≤ result) × (result ≤ most_outputs) }
{
    if case.pmax < case.pmin {
        return 1;
    }
    (u64::from(case.pmax - case.pmin) + 2).min(MOST_OUTPUTS)
}

// Output 0 is off, output 1 is pmin × block, and so on up.
fn output_of(case: Case, choice: u64) -> u64
    requires { choice < most_outputs }
    ensures { (result ≡ output_of case choice) × (result < 2 ^ 32) }
{
    if choice == 0 {
        return 0;
    }
    (u64::from(case.pmin) + choice - 1) * u64::from(case.block)
}

// How many lists there are.
pub fn lists_of(case: Case) -> u64
    ensures { result ≡ lists_of case }
{
    outputs_of(case).pow(intervals_of(case) as u32)
}

// The number's digits, the first interval's the most significant: counting up goes by the order of schedules. An array and no slice: the contract
// says what stands past the intervals, too.
pub fn list_of(case: Case, number: u64) -> [u32; ROOM]
    ensures { result ≡ in_front case number 0 }
{
    let outputs = outputs_of(case);
    let mut list = [0u32; ROOM];
    let mut rest = number;
    for i in (0..intervals_of(case)).rev() {
        list[i] = output_of(case, rest % outputs) as u32;
        rest /= outputs;
    }
    list
}

// ---- keeping the case (specification 5), by the times and by the limitations

// Every spell on, or every spell off, that the other state ends lasts at least so many intervals, those before interval 1 included.
fn spells_last(list: &[u32], on: bool, before: u64, least: u64) -> bool {
    let mut spell = before;
    for output in list {
        let stays = (0 < *output) == on;
        if !stays && 0 < spell && spell < least {
            return false;
        }
        spell = if stays { spell.saturating_add(1) } else { 0 };
    }
    true
}

// The intervals spent before interval 1 in the state asked for.
fn held_in(case: Case, on: bool) -> u64
    ensures { result < 2 ^ 8 }
{
    if case.was_on == on {
        u64::from(case.held)
    } else {
        0
    }
}

// Starts are counted by ones; hours and MWh in quarters, four to the unit.
fn within(cap: Option<u32>, unit: u64, count: u64) -> bool
    requires { unit ≤ 4 }
{
    cap.is_none_or(|most| count <= times(u64::from(most), unit))
}

fn times_kept(case: Case, list: &[u32]) -> bool {
    spells_last(list, true, held_in(case, true), u64::from(case.mot))
        && spells_last(list, false, held_in(case, false), u64::from(case.mdt))
}

fn limits_kept(case: Case, sums: Sums) -> bool
    requires { Summed room sums }
{
    let limits = case.limits;
    within(limits.starts, 1, sums.starts)
        && within(limits.hours, 4, sums.running)
        && within(limits.mwh, 4, sums.output)
}

// ---- the permitted hours

// Off in each interval whose clock hour is not allowed.
fn hours_kept(case: Case, list: &[u32]) -> bool
    requires { length list.now ≤ room }
{
    let Some(allowed) = case.allowed else {
        return true;
    };
    for (i, output) in list.iter().enumerate() {
        if 0 < *output && !may_run(allowed, (i / 4) as u64) {
            return false;
        }
    }
    true
}

// By the clock hour that begins after so many hours.
fn may_run(allowed: Allowed, passed: u64) -> bool
    requires { passed < 20 }
{
    let hour = hour_after(allowed, passed);
    (u64::from(allowed.word) >> hour) % 2 == 1
}

// From midnight on the hours are 0 and 1, and then 2; on one Sunday of March 3 comes after 1, on one of November 1 again.
fn hour_after(allowed: Allowed, passed: u64) -> u64
    requires { passed < 20 }
    ensures { result < 24 }
{
    if passed < 2 {
        return passed;
    }
    if goes_forward(allowed) {
        return passed + 1;
    }
    if goes_back(allowed) {
        return passed - 1;
    }
    passed
}

// The second Sunday of March.
pub fn goes_forward(allowed: Allowed) -> bool
    ensures { result ≡ goes_forward allowed }
{
    (allowed.month == 3) & (7 < allowed.day) & (allowed.day < 15) & is_sunday(allowed)
}

// The first Sunday of November.
pub fn goes_back(allowed: Allowed) -> bool
    ensures { result ≡ goes_back allowed }
{
    (allowed.month == 11) & (allowed.day < 8) & is_sunday(allowed)
}

// Zeller's congruence, for a year from 2000 to 2099 and a month from March on.
fn is_sunday(allowed: Allowed) -> bool
    ensures { result ≡ is_sunday allowed }
{
    let year = u64::from(allowed.year) % 100;
    let month = u64::from(allowed.month);
    (u64::from(allowed.day) + 13 * (month + 1) / 5 + year + year / 4) % 7 == 1
}

// A date that is given is one of its month.
#[tactic(auto, unfolding(crate::specs::Dates::date_exists))]
pub fn date_exists(case: Case) -> bool
    ensures { result ≡ date_exists case }
{
    match case.allowed {
        None => true,
        Some(allowed) => u64::from(allowed.day) <= days_of(allowed),
    }
}

// From 2004 to 2096 every fourth year is leap.
fn days_of(allowed: Allowed) -> u64
    ensures { result ≡ days_of allowed }
{
    match allowed.month {
        2 => 28 + u64::from(allowed.year % 4 == 0),
        4 | 6 | 9 | 11 => 30,
        _ => 31,
    }
}

// ---- what a list adds up to: the counts of the limitations, and formula 7

fn sums_of(case: Case, list: &[u32]) -> Sums
    requires { length list.now ≤ room }
    ensures { Summed room result }
{
    let mut sums = Sums {
        on: case.was_on,
        ..Sums::default()
    };
    for (output, up) in list.iter().zip(case.up.iter()) {
        sums = with_interval(case, sums, u64::from(*output), u64::from(*up));
    }
    sums
}

// An interval on after one that is off is a start.
fn with_interval(case: Case, sums: Sums, output: u64, price: u64) -> Sums
    requires { Summed room sums × (output < 2 ^ 32) × (price < 2 ^ 16) }
    ensures { OneMore sums result }
{
    let on = 0 < output;
    let start = u64::from(!sums.on & on);
    Sums {
        on,
        starts: sums.starts + start,
        running: sums.running + u64::from(on),
        output: sums.output + output,
        earned: sums.earned + times(output, price),
        spent: sums.spent + times(u64::from(case.suc), 4 * start) + spent_on(case, output),
    }
}

// An interval's output: what lowers its price, vec above the lowest output, and mlc. No output on is below the lowest.
fn spent_on(case: Case, output: u64) -> u64
    requires { output < 2 ^ 32 }
    ensures { result < 2 ^ 50 }
{
    if output == 0 {
        return 0;
    }
    let above = output.saturating_sub(output_of(case, 1));
    times(output, u64::from(case.down)) + times(above, u64::from(case.vec)) + u64::from(case.mlc)
}

// ---- the first best

// Only a list that keeps the times and the hours is added up.
pub fn judged(case: Case, number: u64) -> Option<Found>
    ensures { IfSome result (λ found. (found.number ≡ number) × (found.tied ≡ false) × (found.earned < 2 ^ 60) × (found.spent < 2 ^ 60)) }
{
    let outputs = list_of(case, number);
    let list = &outputs[..intervals_of(case)];
    if !(date_exists(case) && times_kept(case, list) && hours_kept(case, list)) {
        return None;
    }
    let sums = sums_of(case, list);
    if !limits_kept(case, sums) {
        return None;
    }
    Some(Found {
        tied: false,
        number,
        earned: sums.earned,
        spent: sums.spent,
    })
}

// The better of two, the first where they tie. Field by field, since a struct with ghost fields takes no `..`.
fn better(first: Found, next: Found) -> Found {
    let one = first.earned + next.spent;
    let other = next.earned + first.spent;
    if one < other {
        return next;
    }
    Found {
        tied: first.tied | (one == other),
        number: first.number,
        earned: first.earned,
        spent: first.spent,
    }
}

// The better of what was found and what comes next.
fn best_with(best: Option<Found>, next: Option<Found>) -> Option<Found> {
    match (best, next) {
        (Some(first), Some(next)) => Some(better(first, next)),
        (None, next) => next,
        (best, None) => best,
    }
}

// By counting up, so that of lists that tie the first stays.
pub fn best_of(case: Case) -> Option<Found>
    ensures { IfSome result (λ found. (found.earned < 2 ^ 60) × (found.spent < 2 ^ 60)) }
{
    let mut best = None;
    for number in 0..lists_of(case) {
        best = best_with(best, judged(case, number));
    }
    best
}

pub fn profit_of(found: Found) -> i64
    ensures { result ≡ earnings found }
{
    difference(found.earned, found.spent)
}

// ---- valuing a limitation (specification 9)

// The best with one limitation at another figure, the other two whole.
fn best_at(case: Case, which: Which, figure: u32) -> Option<Found> {
    let mut lowered = case;
    lowered.limits = case.limits.with(which, Some(figure));
    best_of(lowered)
}

fn nine_tenths(figure: u32) -> u32
    ensures { result ≡ figure * 9 / 10 }
{
    (u64::from(figure) * 9 / 10) as u32
}

pub fn worth_of(case: Case, which: Which) -> Worth
    ensures { WorthOf (cap_of case which) result }
{
    let Some(most) = case.limits.of(which) else {
        return Worth::None;
    };
    let figure = nine_tenths(most);
    if figure == 0 {
        return Worth::Empty;
    }
    match (
        best_at(case, which, figure),
        best_at(case, which, figure - 1),
    ) {
        (Some(first), Some(lower)) => Worth::Gap(difference(
            first.earned + lower.spent,
            first.spent + lower.earned,
        )),
        _ => Worth::Never,
    }
}
