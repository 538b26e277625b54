// The runs of valuing, each a look at one cell of the first layer.

#![tactic(auto)]

ghost use Rattle.std.specs.Prelude.{◌≡◌, ◌<◌, nat_abs, Some};
ghost use Rattle.commitment.specs.Best.{best, profit_of};
ghost use Rattle.commitment.specs.Limits.{limit_for, limited};
ghost use Rattle.commitment.specs.Valuing.{run_at, gap_between, gap_at, outcome_of, outcomes_of};
ghost use Rattle.optimality.specs.Runs.{AtMost, Under};
ghost use Rattle.valuation.specs.Telling.{ToldBy, amount, most_amount};

use commitment::{Limitation, Limits, Outcome, Outcomes, UnitRecord};
use optimality::Figures;

// A case, its figures, and the first layer, which tells the best profit of every cell: a run with less is a cell with less left.
#[derive(Clone, Copy)]
pub struct Runs<'a> {
    pub unit: UnitRecord,
    pub figures: Figures,
    pub prices: &'a [i64],
    pub cells: &'a [i64],
    ghost told: { ToldBy figures unit prices.now cells.now },
}

impl<'a> Runs<'a> {
    // All from one first layer.
    pub fn outcomes(&self) -> Outcomes
        ensures { result ≡ outcomes_of self.now.unit self.now.prices.now }
    {
        Outcomes {
            starts: self.outcome(Limitation::Starts),
            hours: self.outcome(Limitation::Hours),
            mwh: self.outcome(Limitation::Mwh),
        }
    }

    // What is not limited is not valued.
    fn outcome(&self, which: Limitation) -> Outcome
        ensures { result ≡ outcome_of self.now.unit self.now.prices.now which }
    {
        match commitment::limit_for(self.unit.limits, which) {
            None => Outcome::None,
            Some(figure) => self.pair(which, budgets::lowered(figure)),
        }
    }

    // The run at the lowered figure, and the lower run.
    fn pair(&self, which: Limitation, figure: u64) -> Outcome
        requires { AtMost (Some figure) (limit_for self.now.unit.limits which) }
        ensures { result ≡ gap_at (λ k. profit_of (best (run_at self.now.unit which k) self.now.prices.now)) figure }
    {
        if figure == 0 {
            return Outcome::Empty;
        }
        let first = self.profit(which, figure);
        let lower = self.profit(which, figure - 1);
        gap_between(first, lower)
    }

    // The best profit with one limitation at a figure, the other two whole.
    fn profit(&self, which: Limitation, figure: u64) -> Option<i64>
        requires { AtMost (Some figure) (limit_for self.now.unit.limits which) }
        ensures { result ≡ profit_of (best (run_at self.now.unit which figure) self.now.prices.now) }
    {
        let lower = commitment::with_limit(self.unit.limits, which, Some(figure));
        self.profit_under(lower)
    }

    // The best profit of the case itself.
    pub fn whole_profit(&self) -> Option<i64>
        ensures { result ≡ profit_of (best self.now.unit self.now.prices.now) }
    {
        self.profit_under(self.unit.limits)
    }

    // Under limitations at most the unit's.
    fn profit_under(&self, limits: Limits) -> Option<i64>
        requires { Under limits self.now.unit.limits }
        ensures { result ≡ profit_of (best (limited self.now.unit limits) self.now.prices.now) }
    {
        let run = commitment::under_limits(self.unit, limits);
        let opening = budgets::opening_cell(run, self.prices.len());
        table::best_at(self.cells, self.figures, opening)
    }
}

// Without a schedule of the lower run there is nothing to compare with.
fn gap_between(first: Option<i64>, lower: Option<i64>) -> Outcome
    requires { (nat_abs (amount first) < most_amount) × (nat_abs (amount lower) < most_amount) }
    ensures { result ≡ gap_between first lower }
{
    let Some(least) = lower else {
        return Outcome::Never;
    };
    let Some(most) = first else {
        return Outcome::Never;
    };
    Outcome::Gap(most - least)
}
