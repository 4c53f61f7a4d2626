// From the bytes of a household's file to the bytes that the programs write.
#![tactic(auto)]

ghost use Rattle.std.specs.Prelude.{◌≡◌, ◌+◌, ◌*◌, ◌≤◌, length};
ghost use Rattle.account.specs.Calls.{new_account};
ghost use Rattle.frames.specs.Digits.{written};
ghost use Rattle.answers.specs.Answers.{longest_answer};
ghost use Rattle.answers.specs.Notices.{notice_length};
ghost use Rattle.text.specs.Output.{account_after, notices_of, open_notices, bill, notice, longest_input, size_of};
ghost use Rattle.text.specs.Output.{fitted_at, fitted, worked};
ghost use Rattle.text.specs.Lines.{ends_in, lines_of};
ghost use Rattle.text.specs.Pieces.{Sums};

use account::Account;
use answers::{LONGEST_ANSWER, NOTICE_LENGTH};
use ledger::Item;
use ledger::limits::CAPACITY;
use lines::State;

// What a whole input leaves: the account, and the size of what `bill` writes for it.
#[derive(Clone, Copy)]
pub struct Billed {
    pub account: Account,
    pub size: usize,
}

// No file is longer.
const LONGEST_INPUT: usize = 281_474_976_710_656;

// What is returned for a longer one in place of a size.
const TOO_LONG: usize = usize::MAX;

// Line ends are counted in blocks of so many bytes.
const COUNTED_BLOCK: usize = 240;

// What is fed at a time writes at most so much.
const OUTPUT_PART: usize = 4096;

// What `bill` writes for an input, and its size; where out is too short for it, nothing is written. Where there is room for the longest
// answer to each line it is written as it is worked, and else measured first.
pub fn write_bill(input: &[u8], holidays: &[u16], out: &mut [u8]) -> usize
    ensures value { result ≡ size_of input.now (bill holidays.now input.now) }
    ensures out_after { out.new ≡ worked input.now out.old (bill holidays.now input.now) }
    ensures sums { Sums holidays.now (lines_of input.now) }
{
    if input.len() > LONGEST_INPUT {
        return TOO_LONG;
    }
    if LONGEST_ANSWER * (count_ends(input) + 1) <= out.len() {
        return write_at_once(input, holidays, out);
    }
    let measured = work_input(input, holidays, &mut []);
    if measured.size <= out.len() {
        work_input(input, holidays, out);
    }
    measured.size
}

// The line ends in an input. Those of a block fit a byte, and so the compiler counts sixteen at a time.
fn count_ends(input: &[u8]) -> usize
    ensures value { result ≡ ends_in input.now }
    ensures upper_bound { result ≤ length input.now }
{
    let mut ends = 0;
    for block in input.chunks(COUNTED_BLOCK) {
        ends += usize::from(ends_in_block(block));
    }
    ends
}

#[tactic(auto, using(crate::proofs::Lines::ends_are_summed, crate::proofs::Lines::ends_most))]
fn ends_in_block(block: &[u8]) -> u8
    requires { length block.now ≤ 240 }
    ensures { result ≡ ends_in block.now }
{
    block.iter().map(|byte| u8::from(*byte == b'\n')).sum()
}

// What `bill` writes, written as the input is worked, and its size.
fn write_at_once(input: &[u8], holidays: &[u16], out: &mut [u8]) -> usize
    requires { longest_answer * (ends_in input.now + 1) ≤ length out.old }
    ensures value { result ≡ length (bill holidays.now input.now) }
    ensures upper_bound { result ≤ length out.old }
    ensures out_after { out.new ≡ written out.old 0 (bill holidays.now input.now) }
{
    let fed = feeding::feed(State::new(), holidays, input, out);
    let mut space = [0u8; LONGEST_ANSWER];
    let last = feeding::finish(fed.state, holidays, &mut space);
    put_part(&space[..last.written], out, fed.written);
    fed.written + last.written
}

// What `notice` writes for an input, and its size; where out is too short for it, nothing is written.
pub fn write_notice(input: &[u8], holidays: &[u16], out: &mut [u8]) -> usize
    ensures value { result ≡ size_of input.now (notice holidays.now input.now) }
    ensures out_after { out.new ≡ worked input.now out.old (notice holidays.now input.now) }
{
    if input.len() > LONGEST_INPUT {
        return TOO_LONG;
    }
    let worked = work_input(input, holidays, &mut []);
    put_notices(worked.account, out)
}

// Works an input to its end, and puts each part of what `bill` writes in out as it is made. Lent an empty slice, where only a part
// with no bytes fits, it measures.
fn work_input(input: &[u8], holidays: &[u16], out: &mut [u8]) -> Billed
    requires { length input.now ≤ longest_input }
    ensures value { result ≡ record {
      account = account_after holidays.now new_account (lines_of input.now);
      size = length (bill holidays.now input.now);
    } }
    ensures out_after { length (bill holidays.now input.now) ≤ length out.old
        → out.new ≡ written out.old 0 (bill holidays.now input.now) }
{
    let mut state = State::new();
    let mut space = [0u8; OUTPUT_PART];
    let mut taken: usize = 0;
    let mut size: usize = 0;
    while taken < input.len() {
        let fed = feeding::feed(state, holidays, &input[taken..], &mut space);
        put_part(&space[..fed.written], out, size);
        state = fed.state;
        taken += fed.taken;
        size += fed.written;
    }
    let last = feeding::finish(state, holidays, &mut space);
    put_part(&space[..last.written], out, size);
    size += last.written;
    Billed {
        account: last.state.account,
        size,
    }
}

// A part of the output, at its place, where it fits there. It looks at the room that is left, and trusts no size measured before:
// a caller in another language may have changed the input since.
fn put_part(part: &[u8], out: &mut [u8], at: usize)
    ensures { out.new ≡ fitted_at out.old at part.now }
{
    if at <= out.len() && part.len() <= out.len() - at {
        out[at..at + part.len()].copy_from_slice(part);
    }
}

// The notices of an account's open items, and their length; where out is too short for it, nothing is written.
pub fn put_notices(account: Account, out: &mut [u8]) -> usize
    ensures value { result ≡ length (open_notices account) }
    ensures out_after { out.new ≡ fitted out.old (open_notices account) }
{
    let ledger = account.ledger;
    let shown = ledger.count.min(CAPACITY);
    let size = NOTICE_LENGTH * shown;
    if size <= out.len() {
        put_items(&ledger.items[..shown], &mut out[..size]);
    }
    size
}

fn put_items(items: &[Item], out: &mut [u8])
    requires { length out.old ≡ notice_length * length items.now }
    ensures { out.new ≡ notices_of items.now }
{
    for (i, item) in items.iter().enumerate() {
        let place = NOTICE_LENGTH * i;
        answers::put_notice(*item, &mut out[place..place + NOTICE_LENGTH]);
    }
}
