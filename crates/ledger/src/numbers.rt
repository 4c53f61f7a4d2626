// An entry worked on numbers alone: specs/Numbers.
ghost use Rattle.std.specs.Prelude.{◌≡◌, ◌+◌, ◌≤◌, ◌<◌, IfOk};
ghost use Rattle.common.specs.Refusals.{told};
ghost use Rattle.ledger.specs.Limits.{lane_places, most_owed};
ghost use Rattle.ledger.specs.Entries.{limit_number};
ghost use Rattle.ledger.specs.Numbers.{posting, paying, tally_in, settled_number, settled_by, NumberBounds, StepMost};

use crate::limits::{CAPACITY, MOST_CREDIT};
use crate::{Coverage, Entry, Queue};
use common::Refusal;

// How many items are open, what is unpaid of them, and the credit.
#[derive(Clone, Copy, PartialEq, Eq, Debug)]
pub struct Tally {
    pub count: usize,
    pub owed: u64,
    pub credit: u64,
}

// A sum that is posted, and what stays unpaid of it (0: no item).
#[derive(Clone, Copy, PartialEq, Eq, Debug)]
pub struct Posted {
    pub sum: u64,
    pub unpaid: u64,
}

// What an entry comes to: the queue, what is paid of the oldest item that stays, and what is posted as interest held, as the charge and as the interest
// that arose.
#[derive(Clone, Copy, PartialEq, Eq, Debug)]
pub struct Settled {
    pub queue: Queue,
    pub paid: u64,
    pub held: Posted,
    pub charge: Posted,
    pub arisen: Posted,
}

// What an entry comes to, if it is within 12 and 13.
#[tactic(auto, unfolding(crate::specs::Numbers::settled_number, crate::specs::Numbers::settled_by))]
pub fn settle_numbers(queue: Queue, entry: Entry, cover: Coverage) -> Result<Settled, Refusal>
    requires { NumberBounds queue entry cover }
    ensures number { told result ≡ settled_number queue entry cover }
    ensures settled { IfOk result (λ settled. settled ≡ settled_by queue entry cover) }
{
    let mut tally = Tally::from(queue);
    let paid = tally.pay(queue.credit + entry.money, cover);
    let held_asked = if entry.charge.is_some() {
        queue.held
    } else {
        0
    };
    let held = tally.post(held_asked);
    let charge = tally.post(entry.charge.unwrap_or(0));
    let kept = queue.held - held_asked + cover.arisen;
    let arisen = tally.post(if entry.posts { kept } else { 0 });
    within_limits(tally)?;
    Ok(Settled {
        queue: Queue {
            front: queue.front + cover.covered,
            count: tally.count,
            owed: tally.owed,
            held: kept - arisen.sum,
            credit: tally.credit,
        },
        paid,
        held,
        charge,
        arisen,
    })
}

impl From<Queue> for Tally {
    ghost from_gives = { λ queue tally. tally ≡ tally_in queue };

    // The numbers of a queue that an entry changes step by step.
    fn from(queue: Queue) -> Tally {
        Tally {
            count: queue.count,
            owed: queue.owed,
            credit: queue.credit,
        }
    }
}

impl Tally {
    // Money settles the items that it covers, and pays a part of the oldest that stays: that part. 28.
    #[tactic(auto, unfolding(crate::specs::Numbers::paying))]
    fn pay(&mut self, money: u64, cover: Coverage) -> u64
        requires covered_le_count { cover.covered ≤ self.old.count }
        requires money_le_owed { cover.covered < self.old.count → money ≤ self.old.owed }
        ensures tally { self.new ≡ (paying self.old money cover).tally }
        ensures paid { result ≡ (paying self.old money cover).part }
        ensures most { StepMost (paying self.old money cover) self.old.count self.old.owed }
    {
        self.count -= cover.covered;
        if self.count == 0 {
            self.owed = 0;
            self.credit = cover.left;
            return 0;
        }
        self.owed -= money;
        self.credit = 0;
        cover.left
    }

    // A sum is posted: the credit covers it, or what it does not cover is one more open item.
    #[tactic(auto, unfolding(crate::specs::Numbers::posting))]
    fn post(&mut self, sum: u64) -> Posted
        requires count_le_lane_places { self.old.count ≤ lane_places }
        requires owed_le_most_owed { self.old.owed ≤ most_owed }
        requires sum_le_most_owed { sum ≤ most_owed }
        ensures tally { self.new ≡ (posting self.old sum).tally }
        ensures posted { result ≡ record { sum = sum; unpaid = (posting self.old sum).part } }
        ensures most { StepMost (posting self.old sum) (self.old.count + 1) (self.old.owed + sum) }
    {
        if sum <= self.credit {
            self.credit -= sum;
            return Posted { sum, unpaid: 0 };
        }
        let unpaid = sum - self.credit;
        self.count += 1;
        self.owed += unpaid;
        self.credit = 0;
        Posted { sum, unpaid }
    }
}

// 12 and 13.
fn within_limits(tally: Tally) -> Result<(), Refusal>
    ensures { told result ≡ limit_number tally.count tally.credit }
{
    if tally.count > CAPACITY {
        return Err(Refusal::ManyItems);
    }
    if tally.credit > MOST_CREDIT {
        return Err(Refusal::LargeCredit);
    }
    Ok(())
}
