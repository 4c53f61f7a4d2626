// The lines of a household's file, fed in pieces of any size: each is read, planned, entered and answered.
#![tactic(auto)]

ghost use Rattle.std.specs.Prelude.{◌≡◌, ◌≤◌, length, take, IfSome};
ghost use Rattle.ledger.specs.Entries.{EntryBounds, Within};
ghost use Rattle.ledger.specs.Posting.{OpenBounds};
ghost use Rattle.account.specs.Outcomes.{outcome};
ghost use Rattle.frames.specs.Digits.{written};
ghost use Rattle.answers.specs.Answers.{answer_line, longest_answer};
ghost use Rattle.lines.specs.Feeding.{feeding, finishing, fed_of};
ghost use Rattle.feeding.specs.Reached.{Ready};
ghost use Rattle.feeding.specs.Working.{account_in, laid_out, state_on, answer_of, Lain, Feedable, EntersAs, Comes, Runs};

use closing::Billing;
use common::Refusal;
use duedays::Holidays;
use intake::{Call, Head};
use lanes::OpenItems;
use ledger::Entry;
use lines::{Fed, KeptLine, Next, State};
use meter::{Estimates, MOST_FINAL, Meter};
use plan::Plan;
use plan::plans::plan_with;

// A state as its lines are worked: its account in parts, with the open items of its ledger.
#[derive(Drop)]
pub struct Desk {
    pub head: Head,
    pub estimates: Estimates,
    pub items: OpenItems,
    pub line: KeptLine,
}

impl Desk {
    // A state, its account laid out in parts.
    #[inline(always)]
    fn of(state: &State) -> Desk
        requires { OpenBounds state.now.account.ledger }
        ensures { result ≡ laid_out state.now }
    {
        Desk {
            head: Head::from(&state.account),
            estimates: state.account.estimates,
            items: OpenItems::of(&state.account.ledger),
            line: state.line,
        }
    }

    // The state that lies on it.
    #[inline(always)]
    fn state(&self) -> State
        ensures { result ≡ state_on self.now }
    {
        State {
            account: account::calls::account_of(self.head, self.estimates, self.items.ledger()),
            line: self.line,
        }
    }
}

// The bytes of a piece that were taken and the bytes written.
#[derive(Clone, Copy)]
pub struct Went {
    pub taken: usize,
    pub written: usize,
}

// What an accepted call plans, and the interest that its entry posts.
#[derive(Clone, Copy)]
pub struct Worked {
    pub plan: Plan,
    pub interest: u64,
}

// Takes a piece of the input and fills out from its start. What is not taken for want of room is to be fed again.
// The list's bounds are looked at once for a piece. Every account that a new one leads to is whole, so number 41 is not asked.
pub fn feed(state: State, holidays: &[u16], input: &[u8], out: &mut [u8]) -> Fed
    requires { Ready holidays.now state }
    ensures value { result ≡ fed_of (feeding holidays.now (length out.old) state input.now) }
    ensures out_after { out.new ≡ written out.old 0
        (feeding holidays.now (length out.old) state input.now).output }
    ensures taken_in_bounds { (result.taken ≤ length input.now) × (result.written ≤ length out.old) }
    ensures ready { Ready holidays.now result.state }
{
    let Some(holidays) = Holidays::of(holidays) else {
        return lines::decline_lines(state, input, out);
    };
    let mut desk = Desk::of(&state);
    let went = feed_lines(&mut desk, holidays, input, out);
    Fed {
        state: desk.state(),
        taken: went.taken,
        written: went.written,
    }
}

// The lines of a piece, one after another: each is read, planned on the head, entered among the open items, and its answer written.
fn feed_lines(desk: &mut Desk, holidays: Holidays<'_>, input: &[u8], out: &mut [u8]) -> Went
    requires { Feedable holidays.days.now desk.old }
    ensures { Runs holidays.entry.days.now input.now out.old desk.old desk.new out.new result }
{
    // a local, so that the compiler keeps it in registers
    let mut head = desk.head;
    let mut taken: usize = 0;
    let mut written: usize = 0;
    while taken < input.len() {
        let found = lines::next_line(input, taken, &mut desk.line, out.len() - written);
        taken = found.taken;
        let mut volumes = [0u32; MOST_FINAL];
        let worked = match found.next {
            Next::Waits => break,
            Next::NoFrame => Err(Refusal::NotAFrame),
            Next::Frame(frame) => work_call(
                head,
                &desk.estimates,
                &mut desk.items,
                holidays,
                Call::from(frame),
                &mut volumes,
            ),
        };
        match worked {
            Ok(worked) => {
                written += put_line(worked, &volumes, &desk.items, &mut out[written..]);
                head = head_after(worked.plan);
                // where their number stays, the estimates do too
                if head.standing != desk.estimates.count {
                    desk.estimates = account::calls::changed(worked.plan, &desk.estimates);
                }
            }
            Err(refusal) => {
                written += answers::put_refusal(refusal.number(), &mut out[written..]);
            }
        }
    }
    desk.head = head;
    Went { taken, written }
}

// A call planned over the estimates that stand, and what its plan asks of the ledger entered.
#[inline(always)]
fn work_call(
    head: Head,
    estimates: &Estimates,
    items: &mut OpenItems,
    holidays: Holidays<'_>,
    call: Call,
    volumes: &mut [u32; MOST_FINAL],
) -> Result<Worked, Refusal>
    requires { Lain holidays.days.now head estimates.now items.old }
    ensures { Comes head estimates.now items.old
        (outcome holidays.entry.days.now (account_in head estimates.now items.old) call) result items.new volumes.new }
{
    let billing = Billing {
        head,
        standing: estimates.standing(),
    };
    let plan = plan_with(billing, call, volumes)?;
    let interest = enter_plan(items, holidays, plan.entry)?;
    Ok(Worked { plan, interest })
}

// What a plan asks of the ledger, entered among its open items, and the interest that it posts.
#[inline(always)]
fn enter_plan(
    items: &mut OpenItems,
    holidays: Holidays<'_>,
    asked: Option<Entry>,
) -> Result<u64, Refusal>
    requires within { Within items.old }
    requires bounds { IfSome asked EntryBounds }
    ensures { EntersAs holidays.entry.days.now asked items.old result items.new }
{
    match asked {
        Some(entry) => items.enter(holidays, entry),
        None => Ok(0),
    }
}

// The head behind an accepted call. It is made anew, though it is the plan's, so that the compiler keeps the plan out of memory.
fn head_after(plan: Plan) -> Head
    ensures { result ≡ plan.head }
{
    let next = plan.head;
    let meter = next.meter;
    Head {
        latest: next.latest,
        meter: Meter {
            dial: meter.dial,
            ..meter
        },
        ..next
    }
}

// The answer of an accepted call, at the front of `out`, and its length.
fn put_line(worked: Worked, volumes: &[u32; MOST_FINAL], items: &OpenItems, out: &mut [u8]) -> usize
    requires volumes_len { length (take worked.plan.count volumes.now) ≡ worked.plan.count }
    requires room { longest_answer ≤ length out.old }
    ensures out_after { out.new ≡ written out.old 0 (answer_line (answer_of worked volumes.now items.now)) }
    ensures value { result ≡ length (answer_line (answer_of worked volumes.now items.now)) }
    ensures upper_bound { result ≤ longest_answer }
{
    let plan = worked.plan;
    answers::put_accepted(
        plan.estimated,
        &volumes[..plan.count],
        plan.net,
        worked.interest,
        items.unpaid(),
        items.credit(),
        out,
    )
}

// The end of the input: ends a line that has begun.
pub fn finish(state: State, holidays: &[u16], out: &mut [u8]) -> Fed
    requires { Ready holidays.now state }
    ensures value { result ≡ fed_of (finishing holidays.now (length out.old) state) }
    ensures out_after { out.new ≡ written out.old 0
        (finishing holidays.now (length out.old) state).output }
    ensures written_in_bounds { result.written ≤ length out.old }
{
    if !state.line.is_begun() {
        return Fed {
            state,
            taken: 0,
            written: 0,
        };
    }
    feed(state, holidays, b"\n", out)
}
