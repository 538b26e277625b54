// Reading the text of a case: the record and the prices, or the first cause that holds. Nothing is written before all is checked.

#![tactic(auto)]

ghost use Rattle.std.specs.Prelude.{◌≡◌, length};
ghost use Rattle.commitment.specs.Causes.{answered_number};
ghost use Rattle.casefile.specs.Answers.{read_by, case_found, read_case, read_prices, read_part, read_count, read_unit, no_unit};
ghost use Rattle.casefile.specs.Reading.{unit_in, prices_in, case_in};

use commitment::{Cause, Costs, Generator, Limits, Opening, UnitRecord};

// The record of a text, and how many prices it has, which go into a slice that is lent: nothing is allocated.
#[derive(Clone, Copy)]
pub struct Case {
    pub unit: UnitRecord,
    pub count: usize,
}

// What a text holds, before anything is written: its record and how many prices; or 1, 2, 3, 4, 12 or 5.
pub fn found(text: &[u8]) -> Result<Case, Cause>
    ensures { result ≡ case_found text.now }
{
    if !casetext::form::form_kept(text) {
        return Err(Cause::Form);
    }
    if !casetext::naming::names_kept(text) {
        return Err(Cause::Name);
    }
    found_under(text)
}

// The causes of the case that stands under the names.
fn found_under(text: &[u8]) -> Result<Case, Cause>
    ensures { result ≡ read_by (case_in text.now) (unit_in text.now) (length (prices_in text.now)) }
{
    let unit = fields::unit_in(text);
    let priced = pricing::prices_kept(text);
    let count = pricing::prices_counted(text);
    checking::check_case(unit, priced, count)?;
    Ok(Case { unit, count })
}

// The case of a text, its prices into the front of the slice; or what was found, or 7, and the slice is as it was.
pub fn read_into(text: &[u8], prices: &mut [i64]) -> Result<Case, Cause>
    ensures { (result ≡ read_case text.now (length prices.old))
        × (prices.new ≡ read_prices text.now prices.old) }
{
    let case = found(text)?;
    if prices.len() < case.count {
        return Err(Cause::Length);
    }
    pricing::store(text, prices);
    Ok(case)
}

// The same, with the filled front part of the caller's own slice as the answer, empty on a refusal. The number goes through a reference, since its clause
// `number.new` holds of an outside call.
pub fn read<'a>(text: &[u8], prices: &'a mut [i64], number: &mut u64) -> &'a mut [i64]
    ensures { (result.now ≡ read_part text.now (length prices.old))
        × ((result.ref_ptr ≡ prices.entry.ref_ptr)
        × (number.new ≡ answered_number (read_case text.now (length prices.old)))) }
{
    let answer = read_into(text, &mut *prices);
    *number = commitment::number_in(&answer);
    let count = count_of(answer);
    &mut prices[..count]
}

// How many prices were read, 0 on a refusal.
pub fn count_of(answer: Result<Case, Cause>) -> usize
    ensures { result ≡ read_count answer }
{
    answer.map_or(0, |case| case.count)
}

// The record, on a refusal one of zeros with no limitation.
pub fn unit_of(answer: Result<Case, Cause>) -> UnitRecord
    ensures { result ≡ read_unit answer }
{
    answer.map_or(no_unit(), |case| case.unit)
}

// The record of no case.
fn no_unit() -> UnitRecord
    ensures { result ≡ no_unit }
{
    UnitRecord {
        generator: Generator {
            block: 0,
            pmin: 0,
            pmax: 0,
            mot: 0,
            mdt: 0,
        },
        costs: Costs {
            vec: 0,
            mlc: 0,
            suc: 0,
        },
        opening: Opening { was: 0, held: 0 },
        limits: Limits {
            starts: None,
            hours: None,
            mwh: None,
        },
        permit: None,
    }
}

mod fields;
mod pricing;
