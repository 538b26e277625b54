// The bytes that the planning program prints, written into a lent buffer.

#![tactic(auto)]

ghost use Rattle.std.specs.Prelude.{◌≡◌, true, ◌+◌, ◌≤◌, ◌<◌, length, [], ◌∷◌, ◌++◌};
ghost use Rattle.calendar.specs.Words.{past_words};
ghost use Rattle.listing.specs.Numbers.{number, signed_number};
ghost use Rattle.listing.specs.Listing.{outcome_text, closed, interval_line, interval_lines, profit_line, outcome_lines, listing, refusal};
ghost use Rattle.listing.specs.Listing.{word_kept, hours_line, window_line, listing_written, listing_after};
ghost use Rattle.listing.specs.Listing.{fitted, written_by, buffer_after};
ghost use Rattle.listing.specs.Writing.{Put, written};

use commitment::{Cause, Outcome, Outcomes};

// The listing of a plan: interval and MW, then profit, the three outcomes and the hours that its word allows, where it has one. So many bytes from the
// front; or 3 for a word of more than 24 bits, or 7 for a buffer too short.
pub fn write_listing(
    schedule: &[u64],
    profit: i64,
    outcomes: Outcomes,
    word: Option<u64>,
    out: &mut [u8],
) -> Result<usize, Cause>
    ensures value { result ≡ listing_written schedule.now profit outcomes word (length out.old) }
    ensures out_after { out.new ≡ listing_after schedule.now profit outcomes word out.old }
{
    if word_kept(word) {
        return write_kept(schedule, profit, outcomes, word, out);
    }
    Err(Cause::Range)
}

// A word has a bit for each of the 24 hours, and no other.
fn word_kept(word: Option<u64>) -> bool
    ensures { result ≡ word_kept word }
{
    word.is_none_or(|hours| hours < calendar::PAST_WORDS)
}

// Nothing is written where not all of it fits.
fn write_kept(
    schedule: &[u64],
    profit: i64,
    outcomes: Outcomes,
    word: Option<u64>,
    out: &mut [u8],
) -> Result<usize, Cause>
    requires { word_kept word ≡ true }
    ensures value { result ≡ written_by (fitted (length (listing schedule.now profit outcomes word)) (length out.old)) }
    ensures out_after { out.new ≡ buffer_after (listing schedule.now profit outcomes word) out.old }
{
    let fit = listing_fit(schedule, profit, outcomes, word, out.len());
    let bytes = fit.ok_or(Cause::Length)?;
    put_listing(out, schedule, profit, outcomes, word);
    Ok(bytes)
}

// The line of a refusal. It takes any number, since C hands in any (`ralwinga_refusal`).
pub fn write_refusal(number: u64, out: &mut [u8]) -> Result<usize, Cause>
    ensures value { result ≡ written_by (fitted (length (refusal number)) (length out.old)) }
    ensures out_after { out.new ≡ buffer_after (refusal number) out.old }
{
    let bytes = 9 + number_length(number);
    if out.len() < bytes {
        return Err(Cause::Length);
    }
    let value = put_text(&mut *out, 0, b"refused,");
    let end = put_number(&mut *out, value, number);
    put_byte(out, end, 10);
    Ok(bytes)
}

// ---- leaves: each writes at a place and gives the place after it

fn put_byte(out: &mut [u8], at: usize, byte: u8) -> usize
    requires { at < length out.old }
    ensures { Put out.old at (byte ∷ []) result out.new }
{
    out[at] = byte;
    at + 1
}

// The digits but the last, then the last.
fn put_number(out: &mut [u8], at: usize, n: u64) -> usize
    requires { at + length (number n) ≤ length out.old }
    ensures { Put out.old at (number n) result out.new }
{
    if n < 10 {
        return put_byte(out, at, (48 + n) as u8);
    }
    let next = put_number(&mut *out, at, n / 10);
    put_byte(out, next, (48 + n % 10) as u8)
}

fn put_text(out: &mut [u8], at: usize, text: &[u8]) -> usize
    requires { at + length text.now ≤ length out.old }
    ensures { Put out.old at text.now result out.new }
{
    // A `for`: the library's copy of a slice would have the C archive ask for `memmove`, which it needs for nothing else.
    for (i, byte) in text.iter().enumerate() {
        out[at + i] = *byte;
    }
    at + text.len()
}

// The magnitude is taken unsigned, since the least number has no positive one.
fn put_signed(out: &mut [u8], at: usize, value: i64) -> usize
    requires { at + length (signed_number value) ≤ length out.old }
    ensures { Put out.old at (signed_number value) result out.new }
{
    if value < 0 {
        let next = put_byte(&mut *out, at, 45);
        return put_number(out, next, integers::magnitude(value));
    }
    put_number(out, at, integers::magnitude(value))
}

fn put_outcome(out: &mut [u8], at: usize, outcome: Outcome) -> usize
    requires { at + length (outcome_text outcome) ≤ length out.old }
    ensures { Put out.old at (outcome_text outcome) result out.new }
{
    match outcome {
        Outcome::None => put_text(out, at, b"none"),
        Outcome::Empty => put_text(out, at, b"empty"),
        Outcome::Never => put_text(out, at, b"never"),
        Outcome::Gap(gap) => put_signed(out, at, gap),
    }
}

// ---- lines

fn put_interval(out: &mut [u8], at: usize, interval: u64, mw: u64) -> usize
    requires { at + length (interval_line interval mw) ≤ length out.old }
    ensures { Put out.old at (interval_line interval mw) result out.new }
{
    let comma = put_number(&mut *out, at, interval);
    let output = put_byte(&mut *out, comma, 44);
    let end = put_number(&mut *out, output, mw);
    put_byte(out, end, 10)
}

// Intervals are numbered from 1.
fn put_intervals(out: &mut [u8], at: usize, schedule: &[u64]) -> usize
    requires { at + length (interval_lines 1 schedule.now) ≤ length out.old }
    ensures { Put out.old at (interval_lines 1 schedule.now) result out.new }
{
    let mut place = at;
    for (i, mw) in schedule.iter().enumerate() {
        place = put_interval(&mut *out, place, i as u64 + 1, *mw);
    }
    place
}

fn put_profit(out: &mut [u8], at: usize, profit: i64) -> usize
    requires { at + length (profit_line profit) ≤ length out.old }
    ensures { Put out.old at (profit_line profit) result out.new }
{
    let value = put_text(&mut *out, at, b"profit,");
    let end = put_signed(&mut *out, value, profit);
    put_byte(out, end, 10)
}

fn put_outcome_line(out: &mut [u8], at: usize, name: &[u8], outcome: Outcome) -> usize
    requires { at + length (closed (name.now ++ outcome_text outcome)) ≤ length out.old }
    ensures { Put out.old at (closed (name.now ++ outcome_text outcome)) result out.new }
{
    let value = put_text(&mut *out, at, name);
    let end = put_outcome(&mut *out, value, outcome);
    put_byte(out, end, 10)
}

fn put_outcomes(out: &mut [u8], at: usize, outcomes: Outcomes) -> usize
    requires { at + length (outcome_lines outcomes) ≤ length out.old }
    ensures { Put out.old at (outcome_lines outcomes) result out.new }
{
    let second = put_outcome_line(&mut *out, at, b"starts,", outcomes.starts);
    let third = put_outcome_line(&mut *out, second, b"hours,", outcomes.hours);
    put_outcome_line(out, third, b"mwh,", outcomes.mwh)
}

// The count is taken of words of 24 bits alone.
fn put_hours(out: &mut [u8], at: usize, word: u64) -> usize
    requires { (word < past_words) × (at + length (hours_line word) ≤ length out.old) }
    ensures { Put out.old at (hours_line word) result out.new }
{
    let hours = calendar::hours_allowed(word);
    let value = put_text(&mut *out, at, b"window,");
    let end = put_number(&mut *out, value, hours);
    put_byte(out, end, 10)
}

// A case without a date has no such line.
fn put_window(out: &mut [u8], at: usize, word: Option<u64>) -> usize
    requires { (word_kept word ≡ true) × (at + length (window_line word) ≤ length out.old) }
    ensures { Put out.old at (window_line word) result out.new }
{
    match word {
        None => at,
        Some(hours) => put_hours(out, at, hours),
    }
}

// The caller has found that it fits.
fn put_listing(out: &mut [u8], schedule: &[u64], profit: i64, outcomes: Outcomes, word: Option<u64>)
    requires { (word_kept word ≡ true) × (length (listing schedule.now profit outcomes word) ≤ length out.old) }
    ensures { out.new ≡ written out.old 0 (listing schedule.now profit outcomes word) }
{
    let intervals = put_text(&mut *out, 0, b"interval,mw\n");
    let heading = put_intervals(&mut *out, intervals, schedule);
    let value = put_text(&mut *out, heading, b"\nwhat,value\n");
    let lines = put_profit(&mut *out, value, profit);
    let window = put_outcomes(&mut *out, lines, outcomes);
    put_window(out, window, word);
}

// ---- lengths: nothing is written before it is known to fit

// 0 has one digit. A while: each turn goes by the digits that are left.
fn number_length(n: u64) -> usize
    ensures { result ≡ length (number n) }
{
    let mut digits = 1;
    let mut rest = n;
    while 10 <= rest {
        rest /= 10;
        digits += 1;
    }
    digits
}

// A minus takes a byte.
fn signed_length(value: i64) -> usize
    ensures { result ≡ length (signed_number value) }
{
    let digits = number_length(integers::magnitude(value));
    if value < 0 {
        return digits + 1;
    }
    digits
}

fn outcome_length(outcome: Outcome) -> usize
    ensures { result ≡ length (outcome_text outcome) }
{
    match outcome {
        Outcome::None => 4,
        Outcome::Empty => 5,
        Outcome::Never => 5,
        Outcome::Gap(gap) => signed_length(gap),
    }
}

// The listing but for the intervals' lines and the window's: two headings of 12 bytes, and each name, comma and line end.
fn totals_length(profit: i64, outcomes: Outcomes) -> usize
    ensures { result ≡ 24 + (length (profit_line profit) + length (outcome_lines outcomes)) }
{
    24 + 8
        + signed_length(profit)
        + 8
        + outcome_length(outcomes.starts)
        + 7
        + outcome_length(outcomes.hours)
        + 5
        + outcome_length(outcomes.mwh)
}

// As in `put_window`: no date, no line.
fn window_length(word: Option<u64>) -> usize
    requires { word_kept word ≡ true }
    ensures { result ≡ length (window_line word) }
{
    match word {
        None => 0,
        Some(hours) => 8 + number_length(calendar::hours_allowed(hours)),
    }
}

// To the first line that does not fit, so that no sum overflows.
fn intervals_fit(schedule: &[u64], room: usize) -> Option<usize>
    ensures { result ≡ fitted (length (interval_lines 1 schedule.now)) room }
{
    let mut bytes = 0;
    for (i, mw) in schedule.iter().enumerate() {
        let line = number_length(i as u64 + 1) + number_length(*mw) + 2;
        if room - bytes < line {
            return None;
        }
        bytes += line;
    }
    Some(bytes)
}

// The intervals get the room that the other lines leave.
fn listing_fit(
    schedule: &[u64],
    profit: i64,
    outcomes: Outcomes,
    word: Option<u64>,
    room: usize,
) -> Option<usize>
    requires { word_kept word ≡ true }
    ensures { result ≡ fitted (length (listing schedule.now profit outcomes word)) room }
{
    let totals = totals_length(profit, outcomes) + window_length(word);
    if room < totals {
        return None;
    }
    let bytes = intervals_fit(schedule, room - totals)?;
    Some(bytes + totals)
}
