// The plan of each call.
ghost use Rattle.std.specs.Prelude.{◌≡◌, true, false, ◌≤◌};
ghost use Rattle.ledger.specs.Limits.{last_call_day};
ghost use Rattle.ledger.specs.Posting.{NetBounds};
ghost use Rattle.intake.specs.Statuses.{is_new, is_stopped, stop_of};
ghost use Rattle.intake.specs.Periods.{resumed_start};
ghost use Rattle.intake.specs.Limits.{most_volume};
ghost use Rattle.intake.specs.Refusals.{begins, dial_refusal, miss_refusal, exchange_refusal, payment_refusal};
ghost use Rattle.plan.specs.Plans.{status_after, quiet_plan, PlannedAs, begun_plan, exchanged_plan, payment_plan, stopped_plan};
ghost use Rattle.plan.specs.Plans.{asking_plan, money_entry, charge_entry, miss_plan, missed_volume, figured_plan, ReadPlanned};
ghost use Rattle.plan.specs.Plans.{read_volumes, Planned, planned_volumes};
ghost use Rattle.meter.specs.Sharing.{filled_with};

use crate::{Change, ClosingRead, Plan, Then};
use closing::{Billing, Figures};
use common::Refusal;
use intake::periods::{closed_period, resumed_start};
use intake::{Call, Head, Status};
use ledger::{Entry, charge_of, credit_of};
use meter::{MOST_FINAL, Meter};
use tariff::{Fuel, price};

// Any call, over the estimates that stand. The three calls that read the meter to close a period go one road. Fuel prices are
// taken apart and made anew, so that the compiler keeps the call out of memory.
#[tactic(auto, unfolding(intake::specs::Refusals::first_refusal, crate::specs::Plans::planned_volumes, crate::specs::Plans::passed_plan, crate::specs::Plans::passed_volumes))]
pub fn plan_with(
    billing: Billing<'_>,
    call: Call,
    volumes: &mut [u32; MOST_FINAL],
) -> Result<Plan, Refusal>
    ensures value { Planned billing.entry.head billing.entry.standing.periods.now call result }
    ensures volumes_after { volumes.new ≡
        filled_with (planned_volumes billing.entry.head billing.entry.standing.periods.now call) volumes.old }
{
    let read = match call {
        Call::Opening {
            day,
            reading,
            digits,
        } => return plan_opening(billing.head, day, reading, digits),
        Call::Reading {
            day,
            reading,
            fuel: Fuel { lng, propane },
        } => ClosingRead {
            day,
            reading,
            fuel: Fuel { lng, propane },
            then: Then::Goes,
        },
        Call::Missed {
            day,
            fuel: Fuel { lng, propane },
        } => return plan_miss(billing, day, Fuel { lng, propane }, false),
        Call::Absent {
            day,
            fuel: Fuel { lng, propane },
        } => return plan_miss(billing, day, Fuel { lng, propane }, true),
        Call::Exchange {
            day,
            old,
            new,
            digits,
        } => return plan_exchange(billing, day, old, new, digits),
        Call::Disconnection {
            day,
            reading,
            fuel: Fuel { lng, propane },
        } => ClosingRead {
            day,
            reading,
            fuel: Fuel { lng, propane },
            then: Then::Stops,
        },
        Call::Reconnection {
            day,
            reading,
            digits,
        } => return plan_reconnection(billing.head, day, reading, digits),
        Call::Cancellation {
            day,
            reading,
            fuel: Fuel { lng, propane },
        } => ClosingRead {
            day,
            reading,
            fuel: Fuel { lng, propane },
            then: Then::Ends,
        },
        Call::Payment { day, yen } => return plan_payment(billing.head, day, yen),
        Call::StoppedCancellation { day } => return plan_stopped(billing.head, day),
    };
    plan_reading(billing, read, volumes)
}

// 01: opening
fn plan_opening(head: Head, day: u16, reading: u32, digits: u8) -> Result<Plan, Refusal>
    ensures { PlannedAs (dial_refusal (is_new head.status) head day reading digits)
        (begun_plan head day reading digits day) result }
{
    if !head.status.is_new() {
        return Err(Refusal::Status);
    }
    head.allow_dial(day, reading, digits)?;
    Ok(begin_period(head, day, reading, digits, day))
}

// 07: resumption
fn plan_reconnection(head: Head, day: u16, reading: u32, digits: u8) -> Result<Plan, Refusal>
    ensures { PlannedAs (dial_refusal (is_stopped head.status) head day reading digits)
        (begun_plan head day reading digits (resumed_start (stop_of head.status) day)) result }
{
    let stop = head.status.stopped_on()?;
    head.allow_dial(day, reading, digits)?;
    let start = resumed_start(stop, day);
    Ok(begin_period(head, day, reading, digits, start))
}

// The dial is set and a period begins.
fn begin_period(head: Head, day: u16, reading: u32, digits: u8, start: u16) -> Plan
    ensures { result ≡ begun_plan head day reading digits start }
{
    quiet(Head {
        status: Status::Supplied { start },
        latest: day,
        meter: Meter {
            digits,
            dial: reading,
            ..head.meter
        },
        ..head
    })
}

// 05: the old meter's advance goes to the pool, and the new meter goes on.
fn plan_exchange(
    billing: Billing<'_>,
    day: u16,
    old: u32,
    new: u32,
    digits: u8,
) -> Result<Plan, Refusal>
    ensures { PlannedAs (exchange_refusal billing.entry.head day old new digits)
        (exchanged_plan billing.entry.head day old new digits) result }
{
    let head = billing.head;
    head.allow_exchange(day, old, new, digits)?;
    let pool = head.meter.pool_to(old);
    Ok(quiet(Head {
        latest: day,
        meter: Meter {
            digits,
            dial: new,
            pool,
            ..head.meter
        },
        ..head
    }))
}

// 09: interest that the payment brings is held, and on a cancelled account posted at once.
fn plan_payment(head: Head, day: u16, yen: u32) -> Result<Plan, Refusal>
    ensures { PlannedAs (payment_refusal head day yen) (payment_plan head day yen) result }
{
    head.allow_payment(day, yen)?;
    let entry = money_entry(day, u64::from(yen), head.status.is_cancelled());
    Ok(asking(head, head.status, entry))
}

// 0a: interest held is posted, as by a closing with no net.
fn plan_stopped(head: Head, day: u16) -> Result<Plan, Refusal>
    ensures { PlannedAs (begins (is_stopped head.status) head.latest day 0) (stopped_plan head day) result }
{
    head.status.stopped_on()?;
    head.allow_day(day)?;
    Ok(asking(head, Status::Cancelled, charge_entry(day, 0)))
}

// Money comes in.
fn money_entry(day: u16, money: u64, posts: bool) -> Entry
    ensures { result ≡ money_entry day money posts }
{
    Entry {
        day,
        money,
        posts,
        ..Entry::default()
    }
}

// A closing posts what it charges and the interest held: with a charge of 0, the interest alone.
fn charge_entry(day: u16, charge: u64) -> Entry
    ensures { result ≡ charge_entry day charge }
{
    Entry {
        day,
        charge: Some(charge),
        ..Entry::default()
    }
}

// A plan that asks something of the ledger, and no more.
fn asking(head: Head, status: Status, entry: Entry) -> Plan
    ensures { result ≡ asking_plan head status entry }
{
    let head = Head {
        status,
        latest: entry.day,
        ..head
    };
    Plan {
        entry: Some(entry),
        ..quiet(head)
    }
}

// 03 and 04: a missed reading.
#[inline(always)]
fn plan_miss(billing: Billing<'_>, day: u16, fuel: Fuel, absent: bool) -> Result<Plan, Refusal>
    ensures { PlannedAs (miss_refusal billing.entry.head day fuel)
        (miss_plan billing.entry.head day fuel absent (missed_volume billing.entry.head absent)) result }
{
    billing.head.allow_miss(day, fuel)?;
    let volume = missed_volume(billing.head, absent);
    Ok(estimate_period(billing, day, fuel, absent, volume))
}

// 03 bills the basis of missed readings, 04 bills 0.
fn missed_volume(head: Head, absent: bool) -> u32
    ensures { result ≡ missed_volume head absent }
{
    if absent { 0 } else { head.meter.basis }
}

// The period is billed on an estimate, which stands until a reading. An 04 leaves the basis of missed readings as it is.
#[tactic(auto, using(crate::proofs::Bounds::missed_most))]
fn estimate_period(billing: Billing<'_>, day: u16, fuel: Fuel, absent: bool, volume: u32) -> Plan
    requires fuel_value { miss_refusal billing.head day fuel ≡ 0 }
    requires volume_le_most_volume { volume ≤ most_volume }
    ensures { result ≡ miss_plan billing.entry.head day fuel absent volume }
{
    let head = billing.head;
    let period = closed_period(head.status.start(), day, fuel);
    let charged = price(period, volume);
    let head = Head {
        status: Status::Supplied { start: day + 1 },
        latest: day,
        meter: Meter {
            basis: if absent { head.meter.basis } else { volume },
            ..head.meter
        },
        standing: head.standing + 1,
    };
    Plan {
        change: Change::Added {
            absent,
            days: period.days,
            fuel,
        },
        entry: Some(charge_entry(day, u64::from(charged))),
        estimated: volume,
        net: charged as i32,
        ..quiet(head)
    }
}

// 02, 06 and 08, over the estimates that stand.
fn plan_reading(
    billing: Billing<'_>,
    read: ClosingRead,
    volumes: &mut [u32; MOST_FINAL],
) -> Result<Plan, Refusal>
    ensures value { ReadPlanned billing.entry.head billing.entry.standing.periods.now read result }
    ensures volumes_after { volumes.new ≡
        filled_with (read_volumes billing.entry.head billing.entry.standing.periods.now read) volumes.old }
{
    let head = billing.head;
    head.allow_reading(read.day, read.reading, read.fuel)?;
    let figures = billing.close(read.day, read.reading, read.fuel, volumes);
    Ok(after_reading(head, read, figures))
}

// All volumes are final, so no estimate stands and the pool is 0. A cancellation posts the interest that it brings, too.
fn after_reading(head: Head, read: ClosingRead, figures: Figures) -> Plan
    requires day_le_last_call_day { read.day ≤ last_call_day }
    requires net_bounds { NetBounds figures.net }
    ensures { result ≡ figured_plan head read.day read.reading read.then figures }
{
    let net = figures.net;
    let entry = Entry {
        day: read.day,
        money: credit_of(net),
        charge: Some(charge_of(net)),
        posts: matches!(read.then, Then::Ends),
    };
    let head = Head {
        status: status_after(read.then, read.day),
        latest: read.day,
        meter: Meter {
            dial: read.reading,
            pool: 0,
            basis: figures.volume,
            ..head.meter
        },
        standing: 0,
    };
    Plan {
        change: Change::Cleared,
        entry: Some(entry),
        count: figures.count,
        net,
        ..quiet(head)
    }
}

// The next period begins the day after the reading. A stop falls on its day.
fn status_after(then: Then, day: u16) -> Status
    requires { day ≤ last_call_day }
    ensures { result ≡ status_after then day }
{
    match then {
        Then::Goes => Status::Supplied { start: day + 1 },
        Then::Stops => Status::Stopped { stop: day },
        Then::Ends => Status::Cancelled,
    }
}

// A plan that asks nothing of the ledger.
pub fn quiet(head: Head) -> Plan
    ensures { result ≡ quiet_plan head }
{
    Plan {
        head,
        change: Change::Kept,
        entry: None,
        estimated: 0,
        count: 0,
        net: 0,
    }
}
