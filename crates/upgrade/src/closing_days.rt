// Request b of document 02: estimates have closing days. An account kept from before has none, and 0 in their place.
ghost use Rattle.std.specs.Prelude.{◌≡◌, map};
ghost use Rattle.upgrade.specs.ClosingDays.{closed_on, followed_by, with_closing_days};

use account::Account;
use intake::Status;
use meter::{Estimate, Estimates, MOST_MISSES};

// The account with the closing days of its standing estimates worked out.
#[tactic(auto, unfolding(crate::specs::ClosingDays::with_closing_days))]
pub fn with_closing_days(account: Account) -> Account
    ensures { result ≡ with_closing_days account }
{
    let status = account.status;
    let count = account.estimates.count;
    let mut periods = account.estimates.periods;
    let standing = &mut periods[..count.min(MOST_MISSES)];
    if let Status::Supplied { start } = status {
        follow(standing, start);
    } else {
        close_all(standing, account.latest);
    }
    Account {
        estimates: Estimates { count, periods },
        ..account
    }
}

// Each closed where the one behind it begins, the latest on the day before the period that runs.
fn follow(estimates: &mut [Estimate], start: u16)
    ensures { estimates.new ≡ followed_by start estimates.old }
{
    let mut closing_day = start.saturating_sub(1);
    for i in (0..estimates.len()).rev() {
        estimates[i].period.closing_day = closing_day;
        closing_day = closing_day.saturating_sub(estimates[i].period.days);
    }
}

// All closed on one day.
fn close_all(estimates: &mut [Estimate], day: u16)
    ensures { estimates.new ≡ map (closed_on day) estimates.old }
{
    for estimate in estimates {
        estimate.period.closing_day = day;
    }
}
