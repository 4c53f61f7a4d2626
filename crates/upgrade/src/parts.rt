// Request d of document 02: items carry what of their body is unpaid and a gathered sum. An account kept from before has none, and 0 in
// their places.
ghost use Rattle.std.specs.Prelude.{◌≡◌, map};
ghost use Rattle.upgrade.specs.Parts.{started, with_parts};

use account::Account;
use ledger::limits::CAPACITY;
use ledger::{Item, Ledger};

// The account whose open items start with the body less what is paid, and a sum of 0.
#[tactic(auto, unfolding(crate::specs::Parts::with_parts))]
pub fn with_parts(account: Account) -> Account
    ensures { result ≡ with_parts account }
{
    let count = account.ledger.count;
    let mut items = account.ledger.items;
    start_all(&mut items[..count.min(CAPACITY)]);
    Account {
        ledger: Ledger {
            items,
            ..account.ledger
        },
        ..account
    }
}

fn start_all(items: &mut [Item])
    ensures { items.new ≡ map started items.old }
{
    for item in items {
        *item = Item::made(
            item.due,
            item.kind,
            item.obligation,
            item.amount,
            item.unpaid,
        );
    }
}
