// What follows a close.
ghost use Rattle.std.specs.Prelude.{◌≡◌};
ghost use Rattle.rules.specs.Steps.{next_hours, next_day};

use super::Hours;

impl Hours {
    // Day and evening alternate.
    pub fn next(self) -> Hours
        ensures { result ≡ next_hours self }
    {
        match self {
            Hours::Day => Hours::Evening,
            Hours::Evening => Hours::Day,
        }
    }

    // The day after a close: an evening's is the next, but none past the last trading day.
    pub fn next_day(self, today: u16, last: u16) -> u16
        ensures { result ≡ next_day self today last }
    {
        match self {
            Hours::Day => today,
            Hours::Evening => today.saturating_add(1).min(last),
        }
    }
}
