// What an answer holds: its count, its profit, its outcomes. Its number is `commitment::number_in`.

ghost use Rattle.std.specs.Prelude.{◌≡◌};
ghost use Rattle.planner.specs.Planning.{planned_profit, planned_count};
ghost use Rattle.commitment.specs.Valuing.{no_outcomes};
ghost use Rattle.planner.specs.Reporting.{plan_in, reported_count, reported_profit, reported_outcomes};
ghost use Rattle.planner.specs.Valuing.{valued_outcomes};

use crate::{BestPlan, Report};
use commitment::{Cause, Outcome, Outcomes};

// The profit, or 0 on a refusal.
pub fn planned_profit(answer: Result<BestPlan, Cause>) -> i64
    ensures { result ≡ planned_profit answer }
{
    answer.map_or(0, |plan| plan.profit)
}

// The intervals planned, 0 on a refusal.
pub fn planned_count(answer: Result<BestPlan, Cause>) -> usize
    ensures { result ≡ planned_count answer }
{
    answer.map_or(0, |plan| plan.count)
}

// A report without its outcomes.
pub fn plan_of(answer: Result<Report, Cause>) -> Result<BestPlan, Cause>
    ensures { result ≡ plan_in answer }
{
    let report = answer?;
    Ok(BestPlan {
        count: report.count,
        profit: report.profit,
    })
}

// ---- a report: 0 and `none` on a refusal

pub fn reported_count(answer: Result<Report, Cause>) -> usize
    ensures { result ≡ reported_count answer }
{
    answer.map_or(0, |report| report.count)
}

pub fn reported_profit(answer: Result<Report, Cause>) -> i64
    ensures { result ≡ reported_profit answer }
{
    answer.map_or(0, |report| report.profit)
}

pub fn reported_outcomes(answer: Result<Report, Cause>) -> Outcomes
    ensures { result ≡ reported_outcomes answer }
{
    answer.map_or(no_outcomes(), |report| report.outcomes)
}

// ---- the outcomes alone

pub fn valued_outcomes(answer: Result<Outcomes, Cause>) -> Outcomes
    ensures { result ≡ valued_outcomes answer }
{
    answer.unwrap_or(no_outcomes())
}

fn no_outcomes() -> Outcomes
    ensures { result ≡ no_outcomes }
{
    Outcomes {
        starts: Outcome::None,
        hours: Outcome::None,
        mwh: Outcome::None,
    }
}
