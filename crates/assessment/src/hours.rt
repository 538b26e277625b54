// Whether a schedule is off wherever the permit shuts.

ghost use Rattle.std.specs.Prelude.{◌≡◌, ◌||◌, ◌≤◌, ◌<◌, eqb, length};
ghost use Rattle.commitment.specs.Bounds.{most_intervals};
ghost use Rattle.commitment.specs.Keeping.{off_where_shut, keeps_window};
ghost use Rattle.commitment.specs.Ranges.{InOrder};
ghost use Rattle.commitment.specs.Windows.{opens, Clocked};

use commitment::windows::Allowed;
use commitment::{UnitRecord, windows};

// A unit that may run in any hour keeps this with every schedule.
pub fn hours_kept(unit: UnitRecord, schedule: &[u64]) -> bool
    requires { InOrder unit (length schedule.now) }
    ensures { result ≡ keeps_window unit schedule.now }
{
    off_where_shut(windows::hours_of(unit.permit), schedule)
}

// To the first interval that is on in a shut hour.
fn off_where_shut(hours: Option<Allowed>, schedule: &[u64]) -> bool
    requires { (length schedule.now ≤ most_intervals) × (Clocked hours) }
    ensures { result ≡ off_where_shut (opens hours) 0 schedule.now }
{
    for (i, output) in schedule.iter().enumerate() {
        if !may_have(hours, i, *output) {
            return false;
        }
    }
    true
}

// Off, or in an interval that is open.
fn may_have(hours: Option<Allowed>, interval: usize, output: u64) -> bool
    requires { (interval < most_intervals) × (Clocked hours) }
    ensures { result ≡ (eqb output 0 || opens hours interval) }
{
    (output == 0) | windows::opens_in(hours, interval)
}
