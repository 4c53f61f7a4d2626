// Accounts to hand in: whole ones, and ones with a field made wrong; and the line that says how one is answered.
#![tactic(auto)]

ghost use Rattle.std.specs.Fn.{FnOnceReturnsAtMut};

use account::{Account, Outcome};
use intake::Status;
use ledger::{Item, Kind, Ledger};
use meter::{Estimate, Estimates, Meter};
use std::io;
use tariff::{BillingPeriod, Fuel};

// k is 0 at these prices.
pub const FUEL: Fuel = Fuel {
    lng: 83_130,
    propane: 75_000,
};

const METER: Meter = Meter {
    digits: 4,
    dial: 130,
    pool: 10,
    basis: 30,
};

// A period of 30 days, at the old rate of tax.
pub const MONTH: BillingPeriod = BillingPeriod {
    days: 30,
    closing_day: 89,
    fuel: FUEL,
};

// A missed period of 30 days and 30 m3.
pub const MISSED: Estimate = Estimate {
    absent: false,
    period: MONTH,
    volume: 30,
    charged: 6_650,
};

// Its price, with 1,000 yen paid in time: so much less of its body of 6,158.
pub const OPEN: Item = Item {
    amount: 6_650,
    unpaid: 5_650,
    share: 5_158,
    gathered: 0,
    obligation: 59,
    due: 89,
    kind: Kind::Price,
};

pub const INTEREST: Item = Item {
    amount: 13,
    unpaid: 13,
    share: 0,
    gathered: 0,
    obligation: 100,
    due: 130,
    kind: Kind::Interest,
};

// The line of a payment of 1 yen on day 100, with no day closed.
pub fn show(rt: &impl Print, account: Account, name: &str) -> io::Result<()> {
    line(rt, account.pay(&[], 100, 1), name)
}

// A call's number, that of such a payment on the account that it handed back, and what was handed in.
pub fn line(rt: &impl Print, outcome: Outcome, name: &str) -> io::Result<()> {
    let again = outcome.account.pay(&[], 100, 1);
    println!(rt; "{} {} {name}", outcome.answer.number, again.answer.number)
}

// An account, changed.
pub fn but<F: FnOnce(&mut Account)>(account: Account, change: F) -> Account
    requires { F.IsAlwaysCallable change }
    ensures { FnOnceReturnsAtMut F.FnOnce change account tt result }
{
    let mut account = account;
    change(&mut account);
    account
}

// A supplied account with two estimates, two items and interest held. The places behind them hold the like.
pub fn supplied() -> Account {
    let mut items = [OPEN; 72];
    items[1] = INTEREST;
    let periods = [MISSED; 6];
    Account {
        status: Status::Supplied { start: 90 },
        latest: 100,
        meter: METER,
        estimates: Estimates { count: 2, periods },
        ledger: Ledger {
            count: 2,
            items,
            held: 5,
            credit: 0,
        },
    }
}
