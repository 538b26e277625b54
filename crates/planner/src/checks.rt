// What is found before any work.

ghost use Rattle.std.specs.Prelude.{◌≡◌};
ghost use Rattle.commitment.specs.Causes.{first_of};
ghost use Rattle.commitment.specs.Ranges.{InOrder};
ghost use Rattle.planner.specs.Planning.{slices_checks, lent_checked};

use commitment::{Cause, UnitRecord};

// 3, 4, 12, 5, then 7 where a schedule slice is not long enough, then 8.
pub fn check_lent(unit: UnitRecord, prices: &[i64], long: bool, scratch: usize) -> Result<(), Cause>
    ensures { result ≡ lent_checked unit prices.now long scratch }
{
    let priced = checking::prices_kept(prices);
    checking::check_case(unit, priced, prices.len())?;
    check_slices(unit, prices.len(), long, scratch)
}

// 7 and 8.
pub fn check_slices(unit: UnitRecord, n: usize, long: bool, scratch: usize) -> Result<(), Cause>
    requires { InOrder unit n }
    ensures { result ≡ first_of (slices_checks unit n long scratch) }
{
    if !long {
        return Err(Cause::Length);
    }
    if scratch < budgets::cells_needed(unit, n) {
        return Err(Cause::Scratch);
    }
    Ok(())
}
