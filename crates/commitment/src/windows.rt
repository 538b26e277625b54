// The hours of a permit over a horizon, asked interval by interval.

ghost use Rattle.std.specs.Prelude.{◌≡◌, ◌/◌, ◌≤◌, ◌<◌, true, Some};
ghost use Rattle.calendar.specs.Dates.{exists};
ghost use Rattle.calendar.specs.Clock.{most_ahead, shown};
ghost use Rattle.calendar.specs.Words.{allows};
ghost use Rattle.commitment.specs.Bounds.{most_intervals};
ghost use Rattle.commitment.specs.Ranges.{window_kept, permit_kept, date_kept};
ghost use Rattle.commitment.specs.Windows.{opens, Clocked, HoursOf};

use crate::Window;
use calendar::Clock;

// A word of permitted hours, and the clock from its date's midnight on.
#[derive(Clone, Copy)]
pub struct Allowed {
    pub word: u64,
    pub clock: Clock,
}

// The hours of a permit in its ranges, whose date exists; without a window, all of them.
pub fn hours_of(permit: Option<Window>) -> Option<Allowed>
    requires { (permit_kept permit ≡ true) × (date_kept permit ≡ true) }
    ensures { HoursOf permit result }
{
    permit.map(hours_within)
}

// The clock is worked out once, and then asked for each interval.
fn hours_within(window: Window) -> Allowed
    requires { (window_kept window ≡ true) × (exists window.date ≡ true) }
    ensures { HoursOf (Some window) (Some result) }
{
    Allowed {
        word: window.word,
        clock: calendar::clock_from(window.date),
    }
}

// Whether the unit may run in an interval, counted from 0.
pub fn opens_in(hours: Option<Allowed>, interval: usize) -> bool
    requires { (interval < most_intervals) × (Clocked hours) }
    ensures { result ≡ opens hours interval }
{
    hours.is_none_or(|allowed| allowed_in(allowed, interval))
}

// Four intervals to an hour.
fn allowed_in(allowed: Allowed, interval: usize) -> bool
    requires { (interval < most_intervals) × (allowed.clock.ahead ≤ most_ahead) }
    ensures { result ≡ allows allowed.word (shown allowed.clock (interval / 4)) }
{
    let hour = calendar::hour_after(allowed.clock, (interval / 4) as u64);
    calendar::allows(allowed.word, hour)
}
