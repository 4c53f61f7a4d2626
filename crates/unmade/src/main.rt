// Number 41: new accounts with one field, or one place of an array, not as made.
//
// A line is as in `spoiled`.
#![tactic(auto)]

use account::Account;
use ledger::{Item, Kind};
use meter::Estimate;
use samples::{but, show};
use std::io;

fn main(rt: HostRuntime) -> io::Result<()> {
    meters(&rt)?;
    lists(&rt)?;
    blank_places(&rt)?;
    periods(&rt)?;
    items(&rt)
}

fn meters(rt: &impl Print) -> io::Result<()> {
    changed(rt, |new| new.latest = 1, "new, latest day 1")?;
    changed(rt, |new| new.meter.digits = 4, "new, 4 digits")?;
    changed(rt, |new| new.meter.dial = 1, "new, dial 1")?;
    changed(rt, |new| new.meter.pool = 1, "new, pool 1")?;
    changed(rt, |new| new.meter.basis = 1, "new, basis 1")
}

fn lists(rt: &impl Print) -> io::Result<()> {
    changed(
        rt,
        |new| new.estimates.count = 1,
        "new, an estimate counted",
    )?;
    changed(rt, |new| new.ledger.count = 1, "new, an item counted")?;
    changed(rt, |new| new.ledger.held = 1, "new, 1 held")?;
    changed(rt, |new| new.ledger.credit = 1, "new, credit 1")
}

fn blank_places(rt: &impl Print) -> io::Result<()> {
    changed(
        rt,
        |new| new.estimates.periods[0] = Estimate::default(),
        "new, the first place of the estimates blank",
    )?;
    changed(
        rt,
        |new| new.estimates.periods[5] = Estimate::default(),
        "new, the last place of the estimates blank",
    )?;
    changed(
        rt,
        |new| new.ledger.items[0] = Item::default(),
        "new, the first place of the items blank",
    )?;
    changed(
        rt,
        |new| new.ledger.items[71] = Item::default(),
        "new, the last place of the items blank",
    )
}

fn periods(rt: &impl Print) -> io::Result<()> {
    changed(
        rt,
        |new| new.estimates.periods[0].absent = true,
        "new, absence in the first place of the estimates",
    )?;
    changed(
        rt,
        |new| new.estimates.periods[1].period.days = 1,
        "new, 1 day in the second place of the estimates",
    )?;
    changed(
        rt,
        |new| new.estimates.periods[2].period.fuel.lng = 10,
        "new, LNG 10 in the third place of the estimates",
    )?;
    changed(
        rt,
        |new| new.estimates.periods[3].period.fuel.propane = 10,
        "new, propane 10 in the fourth place of the estimates",
    )?;
    changed(
        rt,
        |new| new.estimates.periods[4].period.closing_day = 1,
        "new, closing day 1 in the fifth place of the estimates",
    )?;
    changed(
        rt,
        |new| new.estimates.periods[4].volume = 1,
        "new, 1 m3 in the fifth place of the estimates",
    )?;
    changed(
        rt,
        |new| new.estimates.periods[5].charged = 1,
        "new, 1 yen charged in the last place of the estimates",
    )
}

fn items(rt: &impl Print) -> io::Result<()> {
    changed(
        rt,
        |new| new.ledger.items[0].kind = Kind::Price,
        "new, a price in the first place of the items",
    )?;
    changed(
        rt,
        |new| new.ledger.items[1].amount = 1,
        "new, amount 1 in the second place of the items",
    )?;
    changed(
        rt,
        |new| new.ledger.items[35].unpaid = 1,
        "new, 1 unpaid in the 36th place of the items",
    )?;
    changed(
        rt,
        |new| new.ledger.items[36].share = 1,
        "new, 1 yen of a body in the 37th place of the items",
    )?;
    changed(
        rt,
        |new| new.ledger.items[37].gathered = 1,
        "new, 1 gathered in the 38th place of the items",
    )?;
    changed(
        rt,
        |new| new.ledger.items[70].obligation = 1,
        "new, obligation day 1 in the 71st place of the items",
    )?;
    changed(
        rt,
        |new| new.ledger.items[71].due = 1,
        "new, due day 1 in the last place of the items",
    )
}

// The line of a new account, changed.
fn changed<F: FnOnce(&mut Account)>(rt: &impl Print, change: F, name: &str) -> io::Result<()>
    requires { F.IsAlwaysCallable change }
{
    show(rt, but(Account::new(), change), name)
}
