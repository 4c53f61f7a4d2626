// The ledger of an account: the queue of open items, settling, posting and late interest. Articles 20(1), 27 and 28 of the supply terms.
#![tactic(auto)]

ghost use Rattle.std.specs.Prelude.{◌≡◌, [], ◌+◌, ◌≤◌};
ghost use Rattle.ledger.specs.Interest.{body, body_of, counted_days, gathered_with, interest_on};
ghost use Rattle.ledger.specs.Settling.{reduced, unpaid_of};
ghost use Rattle.ledger.specs.Posting.{made, stored, standing, charge_of, credit_of, ItemBounds, OpenBounds, NetBounds};
ghost use Rattle.ledger.specs.Limits.{last_call_day, lane_places};
ghost use Rattle.ledger.specs.Numbers.{queue_in, ledger_of};

pub mod limits;
pub mod numbers;

use crate::limits::{CAPACITY, DAYS_OF_GRACE, MILLIONTHS_A_DAY};
use tax::tax_rate;

#[derive(Clone, Copy, PartialEq, Eq, Debug, Default)]
pub enum Kind {
    #[default]
    Interest,
    Price,
}

#[derive(Clone, Copy, PartialEq, Eq, Debug, Default)]
pub struct Item {
    pub amount: u64,
    pub unpaid: u64,
    // what of its body is still unpaid
    pub share: u64,
    // body yen × late days of the parts paid so far
    pub gathered: u64,
    pub obligation: u16,
    pub due: u16,
    pub kind: Kind,
}

// The open items from the front, oldest first; interest held until the next closing; the credit balance.
#[derive(Clone, Copy, PartialEq, Eq, Debug)]
pub struct Ledger {
    pub count: usize,
    pub items: [Item; CAPACITY],
    pub held: u64,
    pub credit: u64,
}

// The items from the front that an amount covers, what is left of it, and the interest that they bring.
#[derive(Clone, Copy, PartialEq, Eq, Debug)]
pub struct Coverage {
    pub covered: usize,
    pub left: u64,
    pub arisen: u64,
}

// What a call asks of the ledger: money that comes in, and a charge where it closes; with `posts`, interest that is held then is posted as one last item.
#[derive(Clone, Copy, PartialEq, Eq, Debug, Default)]
pub struct Entry {
    pub day: u16,
    pub money: u64,
    pub charge: Option<u64>,
    pub posts: bool,
}

// The numbers of a queue of items that lie from `front` on; `owed` is what is unpaid of them.
#[derive(Clone, Copy, PartialEq, Eq, Debug)]
pub struct Queue {
    pub front: usize,
    pub count: usize,
    pub owed: u64,
    pub held: u64,
    pub credit: u64,
}

// What lies in a place that holds no item.
pub const BLANK: Item = Item {
    amount: 0,
    unpaid: 0,
    share: 0,
    gathered: 0,
    obligation: 0,
    due: 0,
    kind: Kind::Interest,
};

impl Ledger {
    pub fn new() -> Ledger
        ensures { result ≡ stored (record { open_items = []; credit = 0; held = 0 }) }
    {
        Ledger {
            count: 0,
            items: [BLANK; CAPACITY],
            held: 0,
            credit: 0,
        }
    }

    // What is unpaid over all open items.
    #[tactic(auto, using(crate::proofs::Within::unpaid_is_sum, crate::proofs::Within::owed_most))]
    pub fn unpaid(&self) -> u64
        requires { OpenBounds self.now }
        ensures { result ≡ unpaid_of (standing self.now).open_items }
    {
        self.items[..self.count]
            .iter()
            .map(|item| item.unpaid)
            .sum()
    }

    // Its numbers, the items at the front.
    pub fn queue(&self) -> Queue
        requires { OpenBounds self.now }
        ensures { result ≡ queue_in self.now }
    {
        Queue {
            front: 0,
            count: self.count,
            owed: self.unpaid(),
            held: self.held,
            credit: self.credit,
        }
    }
}

impl Queue {
    // The place behind the last item.
    pub fn end(self) -> usize
        requires { self.front + self.count ≤ lane_places }
        ensures { result ≡ self.front + self.count }
    {
        self.front + self.count
    }

    // Its ledger, the items gathered at the front.
    pub fn ledger(self, items: [Item; CAPACITY]) -> Ledger
        ensures { result ≡ ledger_of self items }
    {
        Ledger {
            count: self.count,
            items,
            held: self.held,
            credit: self.credit,
        }
    }
}

impl Item {
    // An item of which so much is unpaid, and nothing was paid late.
    pub fn made(due: u16, kind: Kind, obligation: u16, amount: u64, unpaid: u64) -> Item
        ensures { result ≡ made due kind obligation amount unpaid }
    {
        Item {
            amount,
            unpaid,
            share: body_of(kind, amount, obligation).saturating_sub(amount.saturating_sub(unpaid)),
            gathered: 0,
            obligation,
            due,
            kind,
        }
    }

    // What a part paid on a day leaves of it: 28.
    pub fn reduced(self, money: u64, day: u16) -> Item
        requires part { money ≤ self.unpaid }
        requires bounds { ItemBounds self }
        ensures { result ≡ reduced day self money }
    {
        Item {
            unpaid: self.unpaid - money,
            share: self.share.saturating_sub(money),
            gathered: self.gathered_with(money, day),
            ..self
        }
    }

    // The interest that it brings where it is settled on a day: 27. Most are paid in time.
    #[tactic(auto, using(crate::proofs::Interest::sum_most))]
    pub fn interest_on(self, day: u16) -> u64
        requires called { day ≤ last_call_day }
        requires bounds { ItemBounds self }
        ensures { result ≡ interest_on self day }
    {
        let kind = self.kind;
        match kind {
            Kind::Interest => 0,
            Kind::Price => {
                let gathered = self.gathered_with(self.share, day);
                if gathered == 0 {
                    0
                } else {
                    gathered * MILLIONTHS_A_DAY / 1_000_000
                }
            }
        }
    }

    // What it has gathered of body yen × late days, with a part paid on a day.
    fn gathered_with(self, money: u64, day: u16) -> u64
        requires { ItemBounds self }
        ensures { result ≡ gathered_with day self money }
    {
        self.gathered + self.share.min(money) * u64::from(counted_days(self.due, day))
    }
}

// The late days of a payment that count: 27(1).
#[tactic(auto, unfolding(crate::specs::Interest::counted_days))]
fn counted_days(due: u16, day: u16) -> u16
    ensures { result ≡ counted_days due day }
{
    let late = day.saturating_sub(due);
    if late > DAYS_OF_GRACE { late } else { 0 }
}

// The part of a net that is charged.
pub fn charge_of(net: i32) -> u64
    ensures { result ≡ charge_of net }
{
    net.max(0) as u64
}

// The part of a net that is credited.
pub fn credit_of(net: i32) -> u64
    requires { NetBounds net }
    ensures { result ≡ credit_of net }
{
    u64::from(net.min(0).unsigned_abs())
}

// The amount of a price without the tax in it, at the rate of its obligation day: 27(2). Interest has no body.
fn body_of(kind: Kind, amount: u64, obligation: u16) -> u64
    ensures { result ≡ body_of kind amount obligation }
{
    match kind {
        Kind::Interest => 0,
        Kind::Price => body(amount, obligation),
    }
}

// 8/108 and 10/110 of any amount, in lowest terms, so that no product overflows.
#[tactic(auto, using(crate::proofs::Interest::body_at_eight, crate::proofs::Interest::body_at_ten))]
fn body(amount: u64, obligation: u16) -> u64
    ensures { result ≡ body amount obligation }
{
    if tax_rate(obligation) == 8 {
        amount - (amount / 27 * 2 + amount % 27 * 2 / 27)
    } else {
        amount - amount / 11
    }
}
