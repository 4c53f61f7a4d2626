// Worked figures that are tests (those that are theorems are in specs/Starred), the edges of the calendar, and due days by lists of
// closed days, a line each.
#![tactic(auto)]

ghost use Rattle.std.specs.Prelude.{◌≡◌, ◌+◌, ◌≤◌};
ghost use Rattle.duedays.specs.Limits.{last_call_day, term};
ghost use Rattle.tariff.specs.Limits.{most_volume};
ghost use Rattle.meter.specs.Dial.{OnDial};
ghost use Rattle.ledger.specs.Limits.{most_price};
ghost use Rattle.figures.specs.Starred.{Starred};

use account::Account;
use calendar::{Date, Day};
use duedays::limits::TERM;
use intake::Status;
use ledger::{Item, Kind};
use meter::StandingPeriods;
use samples::{FUEL, INTEREST, MISSED};
use std::io;
use tariff::{BillingPeriod, Fuel};
use upgrade::basis::with_basis;
use upgrade::closing_days::with_closing_days;
use upgrade::parts::with_parts;

// The average is 82,970, 120 below the base; and 84,850, 1,760 above it.
const LOWER: Fuel = Fuel {
    lng: 83_000,
    propane: 75_000,
};

const HIGHER: Fuel = Fuel {
    lng: 85_000,
    propane: 75_000,
};

const CHEAPEST: Fuel = Fuel { lng: 0, propane: 0 };

const DEAREST: Fuel = Fuel {
    lng: 300_000,
    propane: 300_000,
};

fn main(rt: HostRuntime) -> io::Result<()> {
    starred_figures();
    prices(&rt)?;
    prices_by_tax(&rt)?;
    extremes(&rt)?;
    interest_by_tax(&rt)?;
    interest_by_parts(&rt)?;
    revision_by_tax(&rt)?;
    closing_days(&rt)?;
    parts_kept(&rt)?;
    basis_kept(&rt)?;
    interest_with_a_share(&rt)?;
    advances(&rt)?;
    half_span(&rt, 5_000)?;
    half_span(&rt, 5_001)?;
    after_one_miss(&rt, 40)?;
    after_one_miss(&rt, 30)?;
    range(&rt)?;
    dates(&rt)?;
    days(&rt)?;
    due_days(&rt)?;
    lists(&rt)
}

// The figures that are theorems need no line.
pub fn starred_figures()
    ensures { Starred }
{}

fn prices(rt: &impl Print) -> io::Result<()> {
    println!(rt;
        "21 m3 in 30 days {}",
        tariff::price(closing(30, FUEL, 30), 21)
    )?;
    println!(rt;
        "80 m3 in 30 days {}",
        tariff::price(closing(30, FUEL, 30), 80)
    )?;
    println!(rt;
        "20 m3 in 25 days {}",
        tariff::price(closing(25, FUEL, 30), 20)
    )?;
    println!(rt; "0 m3 in 1 day {}", tariff::price(closing(1, FUEL, 30), 0))
}

// The base unit 18,000 on either side of the first day at ten per cent: 17,991 and 17,990, 18,150 and 18,153. A period that begins
// before that day and closes from it on is wholly at ten per cent.
fn prices_by_tax(rt: &impl Print) -> io::Result<()> {
    for day in [7_212, 7_213, 7_220] {
        let lower = tariff::price(closing(30, LOWER, day), 31);
        let higher = tariff::price(closing(30, HIGHER, day), 40);
        println!(rt;
            "closing day {day}: 31 m3 at k 1 below {lower}, 40 m3 at k 17 above {higher}"
        )?;
    }
    Ok(())
}

// The lowest unit, 9,649 and 9,513, and the dearest period.
fn extremes(rt: &impl Print) -> io::Result<()> {
    for day in [7_212, 7_213] {
        let least = tariff::price(closing(30, CHEAPEST, day), 100);
        let most = tariff::price(closing(36_495, DEAREST, day), 99_999);
        println!(rt; "closing day {day}: 100 m3 at fuel 0 {least}, 99999 m3 in 36495 days {most}")?;
    }
    Ok(())
}

// The body by the obligation day.
fn interest_by_tax(rt: &impl Print) -> io::Result<()> {
    for day in [7_212, 7_213] {
        let eleven = settled_late(15_650, day, 11);
        let fourteen = settled_late(4_850, day, 14);
        println!(rt;
            "obligation day {day}: 15650 settled 11 days late {eleven}, 4850 14 days late {fourteen}"
        )?;
    }
    Ok(())
}

// The interest of a price item that is settled in one sum so many days late.
fn settled_late(amount: u64, obligation: u16, late: u16) -> u64
    requires some { 1 ≤ amount }
    requires amount { amount ≤ most_price }
    requires days { obligation + term + late ≤ last_call_day }
{
    let due = obligation + TERM;
    let item = Item::made(due, Kind::Price, obligation, amount, amount);
    item.interest_on(due + late)
}

// 15,650 yen are due on 119, with a body of 14,491. 10,000 paid 10 days late add nothing; 5,000 paid 11 days late add 4,491 x 11; the last
// 650, 30 days late, are all tax: 49,401 x 274 is 13. In one sum 11 days late it is 14,491 x 11 x 274, 43.
fn interest_by_parts(rt: &impl Print) -> io::Result<()> {
    let first = billed().pay(&[], 129, 10_000).account;
    let second = first.pay(&[], 130, 5_000).account;
    let last = second.pay(&[], 149, 650).account;
    show_parts(rt, first, "10000 paid 10 days late")?;
    show_parts(rt, second, "5000 paid 11 days late")?;
    show_parts(rt, last, "650 paid 30 days late")?;
    let in_time = billed().pay(&[], 129, 15_650).account;
    let late = billed().pay(&[], 130, 15_650).account;
    show_parts(rt, in_time, "15650 paid 10 days late")?;
    show_parts(rt, late, "15650 paid 11 days late")
}

// 80 m3 in 30 days.
fn billed() -> Account {
    Account::new()
        .begin_supply(&[], 60, 0, 4)
        .account
        .read_meter(&[], 89, 80, FUEL)
        .account
}

// What the oldest item carries, and the interest held.
fn show_parts(rt: &impl Print, account: Account, name: &str) -> io::Result<()> {
    let oldest = account.ledger.items[0];
    let held = account.ledger.held;
    println!(rt;
        "{name}: share {}, gathered {}, held {held}",
        oldest.share, oldest.gathered
    )
}

// 80 m3 estimated in 30 days that close on 7,212, at unit 17,991 charged 15,642. The reading of 7,242 shares 62 m3: the estimate's 31 m3
// are 6,827 at its own rate, this period's 6,826.
fn revision_by_tax(rt: &impl Print) -> io::Result<()> {
    let opened = Account::new().begin_supply(&[], 7_153, 0, 4).account;
    let read = opened.read_meter(&[], 7_182, 80, LOWER).account;
    let missed = read.miss_reading(&[], 7_212, LOWER);
    let revised = missed.account.read_meter(&[], 7_242, 142, LOWER);
    println!(rt;
        "estimate of 7212 {}, revised on 7242: net {}",
        missed.answer.net, revised.answer.net
    )
}

// Closing days of an account kept from before, in place of 0: its third estimate closed on the day before the period that runs.
fn closing_days(rt: &impl Print) -> io::Result<()> {
    let mut kept = Account::new()
        .begin_supply(&[], 60, 0, 4)
        .account
        .miss_reading(&[], 89, FUEL)
        .account
        .note_absence(&[], 120, FUEL)
        .account
        .miss_reading(&[], 150, FUEL)
        .account;
    for estimate in kept.estimates.periods.iter_mut() {
        estimate.period.closing_day = 0;
    }
    show_closing_days(rt, kept, "supplied from 151")?;
    kept.status = Status::Supplied { start: 50 };
    show_closing_days(rt, kept, "supplied from 50")?;
    kept.status = Status::Stopped { stop: 140 };
    show_closing_days(rt, kept, "stopped")
}

fn show_closing_days(rt: &impl Print, kept: Account, name: &str) -> io::Result<()> {
    let periods = with_closing_days(kept).estimates.periods;
    print!(rt; "{name}, latest day 150:")?;
    for estimate in periods {
        print!(rt; " {}", estimate.period.closing_day)?;
    }
    println!(rt)
}

// The oldest item of an account kept from before starts with the body less what is paid, not below 0, and a sum of 0.
fn parts_kept(rt: &impl Print) -> io::Result<()> {
    for paid in [1, 10_000, 15_000] {
        let mut kept = billed().pay(&[], 130, paid).account;
        kept.ledger.items[0].share = 7;
        show_parts(rt, with_parts(kept), "kept from before")?;
    }
    Ok(())
}

// An account kept from before, with estimates of 20 m3 and of an absence, bills on the last volume that it had.
fn basis_kept(rt: &impl Print) -> io::Result<()> {
    let kept = Account::new()
        .begin_supply(&[], 60, 0, 4)
        .account
        .read_meter(&[], 89, 20, FUEL)
        .account
        .miss_reading(&[], 119, FUEL)
        .account
        .note_absence(&[], 149, FUEL)
        .account;
    for last_volume in [0, 7, 99_999, 100_000] {
        let missed = with_basis(kept, last_volume)
            .miss_reading(&[], 179, FUEL)
            .answer;
        println!(rt;
            "kept from before, last volume {last_volume}: number {}, estimated {}",
            missed.number, missed.estimated
        )?;
    }
    Ok(())
}

// Of an interest item handed in with a body share the share falls and gathers as a price's does, and bears nothing.
fn interest_with_a_share(rt: &impl Print) -> io::Result<()> {
    let mut account = billed();
    account.ledger.items[0] = Item {
        share: 13,
        obligation: 59,
        due: 119,
        ..INTEREST
    };
    let first = account.pay(&[], 130, 10).account;
    let last = first.pay(&[], 130, 3).account;
    show_parts(rt, first, "10 of 13 interest paid 11 days late")?;
    show_parts(rt, last, "3 more")
}

// A period of so many days at these prices, which closes on this day.
fn closing(days: u16, fuel: Fuel, closing_day: u16) -> BillingPeriod
    ensures { result ≡ record { days = days; closing_day = closing_day; fuel = fuel } }
{
    BillingPeriod {
        days,
        closing_day,
        fuel,
    }
}

// Both dials at their edges; and, of five digits, past 0 and between numbers with the same last four.
#[tactic(auto, unfolding(meter::specs::Dial::span))]
fn advances(rt: &impl Print) -> io::Result<()> {
    edges(rt, 4, 9_999)?;
    edges(rt, 5, 99_999)?;
    advance(rt, 5, 99_990, 15)?;
    advance(rt, 5, 12_345, 2_345)?;
    advance(rt, 5, 2_345, 12_345)
}

// At rest, past 0, and as far as a dial with this last number goes.
fn edges(rt: &impl Print, digits: u8, last: u32) -> io::Result<()>
    requires { OnDial digits 1 last }
{
    advance(rt, digits, 0, 0)?;
    advance(rt, digits, last, last)?;
    advance(rt, digits, last, 0)?;
    advance(rt, digits, 0, last)?;
    advance(rt, digits, 1, 0)
}

fn advance(rt: &impl Print, digits: u8, old: u32, new: u32) -> io::Result<()>
    requires { OnDial digits old new }
{
    let turned = meter::dial_advance(digits, old, new);
    println!(rt; "{digits} digits, from {old} to {new}: {turned}")
}

fn half_span(rt: &impl Print, volume: u32) -> io::Result<()> {
    let answer = if meter::within_half(4, volume) {
        "passes"
    } else {
        "is 9"
    };
    println!(rt; "advance {volume} {answer}")
}

// The last of the volumes that a reading after one miss of 30 m3 makes final.
fn after_one_miss(rt: &impl Print, pool: u32) -> io::Result<()>
    requires { pool ≤ most_volume }
{
    let mut volumes = [0u32; 7];
    let standing = StandingPeriods { periods: &[MISSED] };
    standing.final_volumes(pool, &mut volumes);
    println!(rt; "pool {pool} gives {}", volumes[1])
}

fn range(rt: &impl Print) -> io::Result<()> {
    println!(rt; "first day {}", Day::FIRST.number)?;
    println!(rt; "last day {}", Day::LAST.number)
}

fn dates(rt: &impl Print) -> io::Result<()> {
    for day in [0, 29, 59, 60, 366, 36_524, 36_525, 4_294_967_295] {
        date_of(rt, day)?;
    }
    Ok(())
}

fn date_of(rt: &impl Print, day: u32) -> io::Result<()> {
    match Day::to_date(day) {
        Some(date) => println!(rt;
            "day {day} is {:04}{:02}{:02}",
            date.year, date.month, date.day
        ),
        None => println!(rt; "day {day} is none"),
    }
}

fn days(rt: &impl Print) -> io::Result<()> {
    for (year, month, day) in [
        (2000, 1, 1),
        (2000, 2, 29),
        (2001, 2, 29),
        (2004, 2, 29),
        (2000, 2, 30),
        (2099, 12, 31),
        (2100, 1, 1),
        (1999, 12, 31),
        (2010, 0, 1),
        (2010, 13, 1),
        (2010, 4, 31),
        (2010, 4, 0),
    ] {
        day_of(rt, year, month, day)?;
    }
    Ok(())
}

fn day_of(rt: &impl Print, year: u32, month: u32, day: u32) -> io::Result<()> {
    print!(rt; "date {year} {month} {day} is ")?;
    match Day::from_date(Date { year, month, day }) {
        Some(found) => println!(rt; "{}", found.number),
        None => println!(rt; "none"),
    }
}

// A due day is the first day from obligation day + 30 on that isn't listed.
fn due_days(rt: &impl Print) -> io::Result<()> {
    due_by(rt, &[], "none", 0)?;
    due_by(rt, &[], "none", 36_094)?;
    due_by(rt, &[], "none", 36_095)?;
    due_by(rt, &[30], "30", 0)?;
    due_by(rt, &[29], "29", 0)?;
    due_by(rt, &[31], "31", 0)?;
    due_by(rt, &[29, 30, 31, 33], "29 30 31 33", 0)?;
    due_by(rt, &[29, 30, 31, 33], "29 30 31 33", 1)?;
    due_by(rt, &[29, 30, 31, 33], "29 30 31 33", 3)?;
    due_by(rt, &[29, 30, 31, 33], "29 30 31 33", 4)?;
    due_by(rt, &[36_124, 36_524], "36124 36524", 36_094)
}

fn lists(rt: &impl Print) -> io::Result<()> {
    due_by(rt, &[30, 30], "30 30", 0)?;
    due_by(rt, &[31, 30], "31 30", 0)?;
    due_by(rt, &[30, 36_525], "30 36525", 0)?;
    due_by(rt, &[0, 36_524], "0 36524", 0)
}

// The due day of what a first day's reading is charged, or the number that declines the opening.
fn due_by(rt: &impl Print, holidays: &[u16], list: &str, day: u16) -> io::Result<()> {
    print!(rt; "closed {list}, of day {day} ")?;
    let opened = Account::new().begin_supply(holidays, day, 0, 4);
    if opened.answer.number != 0 {
        return println!(rt; "is {}", opened.answer.number);
    }
    let read = opened.account.read_meter(holidays, day, 0, FUEL);
    println!(rt; "due {}", read.account.ledger.items[0].due)
}
