// The days of a period, and the period that a call closes.
ghost use Rattle.std.specs.Prelude.{◌≡◌, ◌+◌, ◌≤◌};
ghost use Rattle.ledger.specs.Limits.{last_call_day};
ghost use Rattle.intake.specs.Periods.{days_of, closed_period, resumed_start};

use tariff::{BillingPeriod, Fuel};

// The period from its first day to a closing on this day: what its price depends on, beside its volume.
pub fn closed_period(start: u16, day: u16, fuel: Fuel) -> BillingPeriod
    requires day_le_last_call_day { day ≤ last_call_day }
    requires start_bound { start ≤ day + 1 }
    ensures { result ≡ closed_period start day fuel }
{
    BillingPeriod {
        days: days_of(start, day),
        closing_day: day,
        fuel,
    }
}

// The days of a period, its first day and the closing day counted: 14(3).
fn days_of(start: u16, day: u16) -> u16
    requires day_le_last_call_day { day ≤ last_call_day }
    requires start_bound { start ≤ day + 1 }
    ensures { result ≡ days_of start day }
{
    day + 1 - start
}

// The period begins on the day of a resumption, and on the day after where that is the stop day: 14(3).
pub fn resumed_start(stop: u16, day: u16) -> u16
    requires { day ≤ last_call_day }
    ensures { result ≡ resumed_start stop day }
{
    if stop == day { day + 1 } else { day }
}
