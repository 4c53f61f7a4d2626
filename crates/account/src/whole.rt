// Accounts that are known to be whole: number 41 declines every other. A walk over the open items and one over the standing estimates; a new
// account is as made.
ghost use Rattle.std.specs.Prelude.{◌≡◌, true, cond, is_some, IfSome};
ghost use Rattle.lists.specs.Every.{every};
ghost use Rattle.ledger.specs.Interest.{is_price};
ghost use Rattle.ledger.specs.Limits.{most_price, most_interest};
ghost use Rattle.account.specs.Whole.{whole_estimate, whole_item, whole_ledger, whole_meter, whole_parts, whole};

use crate::Account;
use duedays::limits::{LAST_CALL_DAY, LAST_DUE_DAY};
use intake::Status;
use intake::limits::{
    MOST_CHARGE, MOST_DAYS, MOST_MISSES, MOST_VOLUME, digits_allowed, fuel_allowed, on_dial,
};
use ledger::limits::{CAPACITY, MOST_CREDIT, MOST_GATHERED, MOST_INTEREST, MOST_PRICE};
use ledger::{Item, Kind, Ledger};
use meter::Estimate;

// A whole account.
#[derive(Drop)]
pub struct WholeAccount {
    pub account: Account,
    ghost is_whole: { whole account ≡ true },
}

impl WholeAccount {
    // None for an account that is not whole: 41.
    pub fn of(account: Account) -> Option<WholeAccount>
        ensures is_whole { is_some result ≡ whole account }
        ensures same { IfSome result (λ known. known.account ≡ account) }
    {
        if is_whole(&account) {
            Some(WholeAccount { account })
        } else {
            None
        }
    }
}

#[tactic(auto, unfolding(crate::specs::Whole::whole_status, crate::specs::Whole::whole))]
fn is_whole(account: &Account) -> bool
    ensures { result ≡ whole account.now }
{
    let status = account.status;
    match status {
        Status::New => *account == Account::new(),
        Status::Supplied { start } => {
            (u32::from(start) <= u32::from(account.latest) + 1) & whole_parts(account)
        }
        Status::Stopped { stop } => (stop <= account.latest) & whole_parts(account),
        Status::Cancelled => (account.ledger.held == 0) & whole_parts(account),
    }
}

#[tactic(auto, unfolding(crate::specs::Whole::whole_parts))]
fn whole_parts(account: &Account) -> bool
    ensures { result ≡ whole_parts account.now }
{
    whole_meter(account) & whole_ledger(account.latest, &account.ledger)
}

// The latest day, the meter and the estimates that stand. The digits are asked before the span, the count before the walk.
fn whole_meter(account: &Account) -> bool
    ensures { result ≡ whole_meter account.now }
{
    let meter = account.meter;
    if !digits_allowed(meter.digits) {
        return false;
    }
    if account.estimates.count > MOST_MISSES {
        return false;
    }
    (account.latest <= LAST_CALL_DAY)
        & on_dial(meter.digits, meter.dial)
        & (meter.pool <= MOST_VOLUME)
        & (meter.basis <= MOST_VOLUME)
        & whole_estimates(account.latest, account.estimates.standing().periods)
}

fn whole_estimates(latest: u16, estimates: &[Estimate]) -> bool
    ensures { result ≡ every (whole_estimate latest) estimates.now }
{
    estimates
        .iter()
        .all(|estimate| whole_estimate(latest, *estimate))
}

#[tactic(auto, unfolding(crate::specs::Whole::whole_estimate))]
fn whole_estimate(latest: u16, estimate: Estimate) -> bool
    ensures { result ≡ whole_estimate latest estimate }
{
    (1..=MOST_DAYS).contains(&estimate.period.days)
        & fuel_allowed(estimate.period.fuel)
        & (estimate.period.closing_day <= latest)
        & (estimate.volume <= MOST_VOLUME)
        & (estimate.charged <= MOST_CHARGE)
}

// The open items, interest held and credit. The count is asked before the walk.
fn whole_ledger(latest: u16, ledger: &Ledger) -> bool
    ensures { result ≡ whole_ledger latest ledger.now }
{
    if ledger.count > CAPACITY {
        return false;
    }
    whole_items(latest, &ledger.items[..ledger.count])
        & (ledger.held <= MOST_INTEREST)
        & (ledger.credit <= MOST_CREDIT)
        & ((ledger.credit == 0) | (ledger.count == 0))
}

fn whole_items(latest: u16, items: &[Item]) -> bool
    ensures { result ≡ every (whole_item latest) items.now }
{
    items.iter().all(|item| whole_item(latest, *item))
}

#[tactic(auto, unfolding(crate::specs::Whole::whole_item))]
fn whole_item(latest: u16, item: Item) -> bool
    ensures { result ≡ whole_item latest item }
{
    (1..=item.amount).contains(&item.unpaid)
        & (item.amount <= amount_limit(item.kind))
        & (item.obligation <= latest)
        & (item.due <= LAST_DUE_DAY)
        & (item.share <= item.unpaid)
        & (item.gathered <= MOST_GATHERED)
}

// The largest amount of an item.
fn amount_limit(kind: Kind) -> u64
    ensures { result ≡ cond (is_price kind) most_price most_interest }
{
    match kind {
        Kind::Price => MOST_PRICE,
        Kind::Interest => MOST_INTEREST,
    }
}
