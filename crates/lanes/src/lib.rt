// The open items of a ledger while entries are worked: specs/OpenItems.
#![tactic(auto)]

ghost use Rattle.std.specs.Prelude.{◌≡◌, ◌++◌, ℕ, ◌+◌, ◌-◌, ◌≤◌, ◌<◌, length, take, IfOk};
ghost use Rattle.common.specs.Refusals.{told};
ghost use Rattle.duedays.specs.Limits.{last_call_day};
ghost use Rattle.duedays.specs.DueDays.{due_day};
ghost use Rattle.lists.specs.Pad.{pad};
ghost use Rattle.ledger.specs.Limits.{capacity, lane_places};
ghost use Rattle.ledger.specs.Settling.{unpaid_of};
ghost use Rattle.ledger.specs.Posting.{standing, stored, coverage, blank, OpenBounds};
ghost use Rattle.ledger.specs.Entries.{asked, number_of, next, interest_posted, EntryBounds, Within};
ghost use Rattle.ledger.specs.Numbers.{taken_up, posted, with_posted, items_after, part, lying, Lies};
ghost use Rattle.lanes.specs.OpenItems.{Kept, Coverable, Storable};

use common::Refusal;
use duedays::Holidays;
use ledger::limits::{CAPACITY, LANE_PLACES, MOST_END};
use ledger::numbers::{Posted, Settled, settle_numbers};
use ledger::{BLANK, Coverage, Entry, Item, Kind, Ledger, Queue};
use std::marker::Model;

// The open items lie one after another among more places than a ledger has, and their queue says where. To settle items moves its front and no item.
#[derive(Drop)]
pub struct OpenItems {
    places: [Item; LANE_PLACES],
    queue: Queue,
}

impl Model for OpenItems {
    ghost use Rattle.ledger.specs.Posting.{Standing};

    ghost Value = { Standing };

    ghost use Rattle.ledger.specs.Numbers.{lying};
    ghost use Rattle.lanes.specs.OpenItems.{Kept};

    ghost view = { λ o. lying o.places o.queue };

    ghost invariant = { λ o. Kept o.places o.queue };
}

impl OpenItems {
    // The open items of a ledger.
    pub fn of(ledger: &Ledger) -> OpenItems
        requires { OpenBounds ledger.now }
        ensures { result ≡ standing ledger.now }
    {
        let mut places = [BLANK; LANE_PLACES];
        spread(&ledger.items, &mut places);
        OpenItems {
            places,
            queue: ledger.queue(),
        }
    }

    // The ledger that holds them.
    pub fn ledger(&self) -> Ledger
        ensures { result ≡ stored self.now }
    {
        let queue = self.queue;
        queue.ledger(gathered(&self.places[queue.front..queue.end()]))
    }

    // What is unpaid over all of them.
    pub fn unpaid(&self) -> u64
        ensures { result ≡ unpaid_of self.now.open_items }
    {
        self.queue.owed
    }

    pub fn credit(&self) -> u64
        ensures { result ≡ self.now.credit }
    {
        self.queue.credit
    }

    // An entry, and the interest that it posts; one that is refused changes nothing.
    pub fn enter(&mut self, holidays: Holidays<'_>, entry: Entry) -> Result<u64, Refusal>
        requires within { Within self.old }
        requires bounds { EntryBounds entry }
        ensures number { told result ≡ number_of (asked holidays.entry.days.now entry self.old) }
        ensures stands { self.new ≡ next holidays.entry.days.now entry self.old }
        ensures interest { IfOk result (λ interest. interest ≡ interest_posted holidays.entry.days.now entry self.old) }
    {
        let queue = self.queue;
        let end = queue.end();
        let cover = cover(
            &self.places[queue.front..end],
            entry.day,
            queue.credit + entry.money,
        );
        let settled = settle_numbers(queue, entry, cover)?;
        store(&mut self.places, end, holidays, entry.day, settled);
        self.queue = make_room(&mut self.places, settled.queue);
        Ok(settled.held.sum + settled.arisen.sum)
    }
}

// The items of a ledger, put at the front of the places.
pub fn spread(items: &[Item; CAPACITY], places: &mut [Item; LANE_PLACES])
    ensures front { take capacity places.new ≡ items.now }
    ensures long { length places.new ≡ lane_places }
{
    places[..CAPACITY].copy_from_slice(items);
}

// Items as a ledger holds them.
pub fn gathered(items: &[Item]) -> [Item; CAPACITY]
    requires { length items.now ≤ capacity }
    ensures { result ≡ pad capacity blank items.now }
{
    let mut places = [BLANK; CAPACITY];
    places[..items.len()].copy_from_slice(items);
    places
}

// As many items as money covers: 28.
fn cover(items: &[Item], day: u16, money: u64) -> Coverage
    requires { Coverable items.now day }
    ensures { result ≡ coverage day money items.now }
{
    let mut cover = Coverage {
        covered: 0,
        left: money,
        arisen: 0,
    };
    for item in items {
        if cover.left < item.unpaid {
            break;
        }
        cover.left -= item.unpaid;
        cover.arisen += item.interest_on(day);
        cover.covered += 1;
    }
    cover
}

// What is settled, stored: the oldest item that stays is paid a part, and what is posted goes behind the last.
fn store(
    places: &mut [Item; LANE_PLACES],
    end: usize,
    holidays: Holidays<'_>,
    day: u16,
    settled: Settled,
)
    requires storable { Storable places.old settled.queue.front end settled }
    requires called { day ≤ last_call_day }
    ensures long { length places.new ≡ lane_places }
    ensures lie { part settled.queue.front (with_posted settled (end - settled.queue.front)) places.new ≡
        items_after (due_day holidays.entry.days.now day) day settled (part settled.queue.front (end - settled.queue.front) places.old) }
{
    let oldest = settled.queue.front;
    if settled.paid > 0 {
        places[oldest] = places[oldest].reduced(settled.paid, day);
    }
    let second = post(places, end, holidays, Kind::Interest, day, settled.held);
    let third = post(places, second, holidays, Kind::Price, day, settled.charge);
    post(places, third, holidays, Kind::Interest, day, settled.arisen);
}

// A sum posted at a place if something of it stays unpaid, and the place behind it.
#[tactic(auto, using(ledger::proofs::Places::part_none, ledger::proofs::Places::part_behind, ledger::proofs::Places::taken_up_none, ledger::proofs::Places::taken_up_some))]
fn post(
    places: &mut [Item; LANE_PLACES],
    at: usize,
    holidays: Holidays<'_>,
    kind: Kind,
    day: u16,
    amount: Posted,
) -> usize
    requires room { at < lane_places }
    requires called { day ≤ last_call_day }
    ensures end { result ≡ at + taken_up amount.unpaid }
    ensures lie { (front count : ℕ) → front + count ≡ at
        → part front (count + taken_up amount.unpaid) places.new ≡
        part front count places.old ++ posted (due_day holidays.entry.days.now day) kind day amount.sum amount.unpaid }
{
    if amount.unpaid == 0 {
        return at;
    }
    let due = holidays.due_day(day);
    places[at] = Item::made(due, kind, day, amount.sum, amount.unpaid);
    at + 1
}

// A queue with room for three more items behind it: where it ends too far back, its items are moved to the front.
fn make_room(places: &mut [Item; LANE_PLACES], queue: Queue) -> Queue
    requires lies { Lies places.old queue }
    requires few { queue.count ≤ capacity }
    ensures stands { lying places.new result ≡ lying places.old queue }
    ensures kept { Kept places.new result }
{
    if queue.end() <= MOST_END {
        return queue;
    }
    places.copy_within(queue.front..queue.end(), 0);
    Queue { front: 0, ..queue }
}
