// Numbers 41 and 14: accounts with one field made wrong, and whole ones beside them, by a list of closed days that is one and by one that
// is not.
//
// A line has the number of a call, the number of a payment on the account that it handed back, and what was handed in.
// The call is a payment of 1 yen on day 100 where nothing else is named.
#![tactic(auto)]

use account::Account;
use intake::Status;
use ledger::{Item, Ledger};
use samples::{FUEL, INTEREST, OPEN, but, line, show, supplied};
use std::io;
use tariff::Fuel;

fn main(rt: HostRuntime) -> io::Result<()> {
    statuses(&rt)?;
    meters(&rt)?;
    estimate_days(&rt)?;
    estimate_fuels(&rt)?;
    estimate_amounts(&rt)?;
    estimate_counts(&rt)?;
    item_amounts(&rt)?;
    item_parts(&rt)?;
    item_days(&rt)?;
    item_counts(&rt)?;
    balances(&rt)?;
    calls(&rt)?;
    lists(&rt)
}

fn statuses(rt: &impl Print) -> io::Result<()> {
    show(rt, Account::new(), "new")?;
    show(rt, supplied(), "supplied")?;
    show(rt, stopped(90), "stopped")?;
    show(rt, cancelled(0), "cancelled")?;
    show(rt, cancelled(1), "cancelled, 1 held")?;
    changed(
        rt,
        |account| account.status = Status::Supplied { start: 101 },
        "period start 101, latest day 100",
    )?;
    changed(
        rt,
        |account| account.status = Status::Supplied { start: 102 },
        "period start 102, latest day 100",
    )?;
    show(rt, stopped(100), "stop day 100, latest day 100")?;
    show(rt, stopped(101), "stop day 101, latest day 100")
}

fn meters(rt: &impl Print) -> io::Result<()> {
    changed(rt, |account| account.latest = 36_094, "latest day 36094")?;
    changed(rt, |account| account.latest = 36_095, "latest day 36095")?;
    show(rt, with_dial(0, 0), "0 digits")?;
    show(rt, with_dial(3, 130), "3 digits")?;
    show(rt, with_dial(5, 130), "5 digits")?;
    show(rt, with_dial(6, 130), "6 digits")?;
    show(rt, with_dial(4, 9_999), "dial 9999 of 4 digits")?;
    show(rt, with_dial(4, 10_000), "dial 10000 of 4 digits")?;
    show(rt, with_dial(5, 99_999), "dial 99999 of 5 digits")?;
    show(rt, with_dial(5, 100_000), "dial 100000 of 5 digits")?;
    show(rt, with_pool(99_999), "pool 99999")?;
    show(rt, with_pool(100_000), "pool 100000")?;
    changed(rt, |account| account.meter.basis = 99_999, "basis 99999")?;
    changed(rt, |account| account.meter.basis = 100_000, "basis 100000")
}

fn estimate_days(rt: &impl Print) -> io::Result<()> {
    changed(
        rt,
        |account| account.estimates.periods[1].period.days = 0,
        "estimate of 0 days",
    )?;
    changed(
        rt,
        |account| account.estimates.periods[1].period.days = 1,
        "estimate of 1 day",
    )?;
    changed(
        rt,
        |account| account.estimates.periods[1].period.days = 36_495,
        "estimate of 36495 days",
    )?;
    changed(
        rt,
        |account| account.estimates.periods[1].period.days = 36_496,
        "estimate of 36496 days",
    )?;
    changed(
        rt,
        |account| account.estimates.periods[1].period.closing_day = 100,
        "estimate closed on day 100, latest day 100",
    )?;
    changed(
        rt,
        |account| account.estimates.periods[1].period.closing_day = 101,
        "estimate closed on day 101, latest day 100",
    )
}

fn estimate_fuels(rt: &impl Print) -> io::Result<()> {
    show(rt, with_fuel(300_000, 300_000), "estimate at fuel 300000")?;
    show(rt, with_fuel(300_010, 75_000), "estimate at LNG 300010")?;
    show(rt, with_fuel(15, 75_000), "estimate at LNG 15")?;
    show(rt, with_fuel(83_130, 300_010), "estimate at propane 300010")?;
    show(rt, with_fuel(83_130, 15), "estimate at propane 15")
}

fn estimate_amounts(rt: &impl Print) -> io::Result<()> {
    changed(
        rt,
        |account| account.estimates.periods[1].volume = 99_999,
        "estimate of 99999 m3",
    )?;
    changed(
        rt,
        |account| account.estimates.periods[1].volume = 100_000,
        "estimate of 100000 m3",
    )?;
    changed(
        rt,
        |account| account.estimates.periods[1].charged = 100_000_000,
        "estimate charged 100000000",
    )?;
    changed(
        rt,
        |account| account.estimates.periods[1].charged = 100_000_001,
        "estimate charged 100000001",
    )
}

fn estimate_counts(rt: &impl Print) -> io::Result<()> {
    changed(rt, |account| account.estimates.count = 6, "6 estimates")?;
    changed(rt, |account| account.estimates.count = 7, "7 estimates")?;
    show(
        rt,
        counted_estimates(2),
        "2 estimates, wrong in the third place",
    )?;
    show(
        rt,
        counted_estimates(3),
        "3 estimates, wrong in the third place",
    )
}

fn item_amounts(rt: &impl Print) -> io::Result<()> {
    show(rt, with_price(6_650, 0), "item with 0 unpaid")?;
    show(rt, with_price(6_650, 1), "item with 1 unpaid")?;
    show(
        rt,
        with_price(6_650, 6_650),
        "item of 6650 with 6650 unpaid",
    )?;
    show(
        rt,
        with_price(6_650, 6_651),
        "item of 6650 with 6651 unpaid",
    )?;
    show(rt, with_price(1_000_000_000, 1), "price item of 1000000000")?;
    show(rt, with_price(1_000_000_001, 1), "price item of 1000000001")?;
    show(
        rt,
        with_interest(1_000_000_000_000),
        "interest item of 1000000000000",
    )?;
    show(
        rt,
        with_interest(1_000_000_000_001),
        "interest item of 1000000000001",
    )
}

// The first item is due on day 89: a yen of its body, paid on day 100, gathers 11.
fn item_parts(rt: &impl Print) -> io::Result<()> {
    show(rt, with_price_parts(5_650, 0), "5650 of the body unpaid")?;
    show(rt, with_price_parts(5_651, 0), "5651 of the body unpaid")?;
    show(
        rt,
        with_interest_share(13),
        "interest item of 13 with a body share of 13",
    )?;
    show(
        rt,
        with_interest_share(14),
        "interest item of 13 with a body share of 14",
    )?;
    show(
        rt,
        with_price_parts(5_158, 100_000_000_000_000),
        "100000000000000 gathered",
    )?;
    show(
        rt,
        with_price_parts(5_158, 100_000_000_000_001),
        "100000000000001 gathered",
    )?;
    changed(
        rt,
        |account| account.ledger.items[0].gathered = 99_999_999_999_989,
        "99999999999989 gathered, 11 more by the payment",
    )?;
    changed(
        rt,
        |account| account.ledger.items[0].gathered = 99_999_999_999_990,
        "99999999999990 gathered, 11 more by the payment",
    )
}

fn item_days(rt: &impl Print) -> io::Result<()> {
    show(
        rt,
        with_item_days(100, 130),
        "obligation day 100, latest day 100",
    )?;
    show(
        rt,
        with_item_days(101, 131),
        "obligation day 101, latest day 100",
    )?;
    show(rt, with_item_days(59, 36_524), "due day 36524")?;
    show(rt, with_item_days(59, 36_525), "due day 36525")
}

fn item_counts(rt: &impl Print) -> io::Result<()> {
    show(rt, with_credit(72, 0), "72 items")?;
    show(rt, with_credit(73, 0), "73 items")?;
    show(rt, counted_items(71), "71 items, wrong in the 72nd place")?;
    show(rt, counted_items(72), "72 items, wrong in the 72nd place")
}

fn balances(rt: &impl Print) -> io::Result<()> {
    changed(
        rt,
        |account| account.ledger.held = 1_000_000_000_000,
        "1000000000000 held",
    )?;
    changed(
        rt,
        |account| account.ledger.held = 1_000_000_000_001,
        "1000000000001 held",
    )?;
    show(rt, with_credit(0, 1), "credit 1, no item open")?;
    show(rt, with_credit(1, 1), "credit 1, an item open")?;
    show(rt, with_credit(0, 999_999_999), "credit 999999999")?;
    show(rt, with_credit(0, 1_000_000_000), "credit 1000000000")
}

// The line of a supplied account, changed.
fn changed<F: FnOnce(&mut Account)>(rt: &impl Print, change: F, name: &str) -> io::Result<()>
    requires { F.IsAlwaysCallable change }
{
    show(rt, but(supplied(), change), name)
}

fn stopped(stop: u16) -> Account {
    but(
        supplied(),
        |account| account.status = Status::Stopped { stop },
    )
}

fn cancelled(held: u64) -> Account {
    but(supplied(), |account| {
        account.status = Status::Cancelled;
        account.ledger.held = held;
    })
}

fn with_dial(digits: u8, dial: u32) -> Account {
    but(supplied(), |account| {
        account.meter.digits = digits;
        account.meter.dial = dial;
    })
}

fn with_pool(pool: u32) -> Account {
    but(supplied(), |account| account.meter.pool = pool)
}

fn with_fuel(lng: u32, propane: u32) -> Account {
    but(
        supplied(),
        |account| account.estimates.periods[1].period.fuel = Fuel { lng, propane },
    )
}

// The third place holds an estimate of 0 days.
fn counted_estimates(count: usize) -> Account {
    but(supplied(), |account| {
        account.estimates.count = count;
        account.estimates.periods[2].period.days = 0;
    })
}

// Nothing of its body is unpaid.
fn with_price(amount: u64, unpaid: u64) -> Account {
    with_item(Item {
        amount,
        unpaid,
        share: 0,
        ..OPEN
    })
}

fn with_price_parts(share: u64, gathered: u64) -> Account {
    with_item(Item {
        share,
        gathered,
        ..OPEN
    })
}

fn with_interest_share(share: u64) -> Account {
    with_item(Item { share, ..INTEREST })
}

fn with_interest(amount: u64) -> Account {
    with_item(Item { amount, ..INTEREST })
}

fn with_item_days(obligation: u16, due: u16) -> Account {
    with_item(Item {
        obligation,
        due,
        ..OPEN
    })
}

// The second item is as given.
fn with_item(second: Item) -> Account {
    but(supplied(), |account| account.ledger.items[1] = second)
}

// The 72nd place holds an item with 0 unpaid.
fn counted_items(count: usize) -> Account {
    let mut items = [OPEN; 72];
    items[71].unpaid = 0;
    items[71].share = 0;
    with_ledger(count, items, 0)
}

fn with_credit(count: usize, credit: u64) -> Account {
    with_ledger(count, [OPEN; 72], credit)
}

fn with_ledger(count: usize, items: [Item; 72], credit: u64) -> Account {
    but(supplied(), |account| {
        account.ledger = Ledger {
            count,
            items,
            held: 0,
            credit,
        };
    })
}

// Each call on a whole account that allows it, then on one account that is not whole.
fn calls(rt: &impl Print) -> io::Result<()> {
    println!(rt; "a new account")?;
    other_calls(rt, Account::new(), &[])?;
    println!(rt; "a stopped account")?;
    other_calls(rt, stopped(90), &[])?;
    println!(rt; "a supplied account")?;
    supplied_calls(rt, supplied(), &[])?;
    println!(rt; "a supplied account with pool 100000")?;
    supplied_calls(rt, with_pool(100_000), &[])?;
    other_calls(rt, with_pool(100_000), &[])
}

// 14 comes before 41 and before 1, and leaves the account as it was: what a payment by no list then meets.
fn lists(rt: &impl Print) -> io::Result<()> {
    let equal = [5u16, 5];
    println!(rt; "two equal days, a supplied account")?;
    supplied_calls(rt, supplied(), &equal)?;
    other_calls(rt, supplied(), &equal)?;
    println!(rt; "two equal days, a supplied account with pool 100000")?;
    supplied_calls(rt, with_pool(100_000), &equal)?;
    other_calls(rt, with_pool(100_000), &equal)
}

fn other_calls(rt: &impl Print, account: Account, holidays: &[u16]) -> io::Result<()> {
    line(rt, account.begin_supply(holidays, 100, 0, 4), "01")?;
    line(rt, account.reconnect(holidays, 100, 0, 4), "07")?;
    line(rt, account.cancel_stopped(holidays, 100), "0a")
}

fn supplied_calls(rt: &impl Print, account: Account, holidays: &[u16]) -> io::Result<()> {
    line(rt, account.read_meter(holidays, 100, 140, FUEL), "02")?;
    line(rt, account.miss_reading(holidays, 100, FUEL), "03")?;
    line(rt, account.note_absence(holidays, 100, FUEL), "04")?;
    line(rt, account.exchange_meter(holidays, 100, 140, 0, 4), "05")?;
    line(rt, account.disconnect(holidays, 100, 140, FUEL), "06")?;
    line(rt, account.cancel(holidays, 100, 140, FUEL), "08")?;
    line(rt, account.pay(holidays, 100, 1), "09")
}
