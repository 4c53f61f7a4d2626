// Lines that go out: an answer to its frame, an open item to its notice.
#![tactic(auto)]

ghost use Rattle.std.specs.Prelude.{◌≡◌, ◌*◌, ◌≤◌, length};
ghost use Rattle.frames.specs.Digits.{glyph, digits, bytes, written};
ghost use Rattle.calendar.specs.Conversions.{to_date};
ghost use Rattle.answers.specs.Answers.{volumes_bytes, head_bytes, amounts_bytes, answer_line, longest_answer};
ghost use Rattle.account.specs.Outcomes.{acceptance, declining};
ghost use Rattle.answers.specs.Notices.{kind_number, date_digits, notice_line, notice_length};

mod pairs;

use crate::pairs::PAIRS;
use calendar::Day;
use ledger::{Item, Kind};

// The characters of an answer's head: its number, estimated volume and n.
const HEAD_LENGTH: usize = 12;

// Those of its number.
const NUMBER_LENGTH: usize = 2;

// Those of a volume.
const VOLUME_LENGTH: usize = 8;

// Those of its amounts: net, interest posted, unpaid and credit.
const AMOUNTS_LENGTH: usize = 48;

// Those of an answer without volumes.
const SHORTEST_LENGTH: usize = HEAD_LENGTH + AMOUNTS_LENGTH;

// The longest line of `bill`: seven volumes, and its LF.
pub const LONGEST_ANSWER: usize = SHORTEST_LENGTH + 7 * VOLUME_LENGTH + 1;

// A notice and its LF.
pub const NOTICE_LENGTH: usize = 35;

// The line of a call that is accepted, at the front of `out`, and its length. The volumes are those that the call made final.
pub fn put_accepted(
    estimated: u32,
    volumes: &[u32],
    net: i32,
    interest: u64,
    unpaid: u64,
    credit: u64,
    out: &mut [u8],
) -> usize
    requires few { length volumes.now ≤ 7 }
    requires room { longest_answer ≤ length out.old }
    ensures out_after { out.new ≡
        written out.old 0 (answer_line (acceptance estimated volumes.now net interest unpaid credit)) }
    ensures value { result ≡ length (answer_line (acceptance estimated volumes.now net interest unpaid credit)) }
    ensures upper_bound { result ≤ longest_answer }
{
    let amounts = HEAD_LENGTH + VOLUME_LENGTH * volumes.len();
    let end = amounts + AMOUNTS_LENGTH;
    put_head(&mut out[..HEAD_LENGTH], estimated, volumes.len());
    put_volumes(&mut out[HEAD_LENGTH..amounts], volumes);
    put_amounts(&mut out[amounts..end], net, interest, unpaid, credit);
    out[end] = b'\n';
    end + 1
}

// The line of a call that is declined, at the front of `out`, and its length.
pub fn put_refusal(number: u8, out: &mut [u8]) -> usize
    requires { longest_answer ≤ length out.old }
    ensures out_after { out.new ≡ written out.old 0 (answer_line (declining number)) }
    ensures value { result ≡ length (answer_line (declining number)) }
    ensures upper_bound { result ≤ longest_answer }
{
    put_bytes::<1>(&mut out[..NUMBER_LENGTH], u64::from(number));
    out[NUMBER_LENGTH..SHORTEST_LENGTH].fill(b'0');
    out[SHORTEST_LENGTH] = b'\n';
    SHORTEST_LENGTH + 1
}

// Number 0, estimated volume and n.
fn put_head(out: &mut [u8], estimated: u32, count: usize)
    requires { length out.old ≡ 12 }
    ensures { out.new ≡ head_bytes 0 estimated count }
{
    put_bytes::<1>(&mut out[..2], 0);
    put_bytes::<4>(&mut out[2..10], u64::from(estimated));
    put_bytes::<1>(&mut out[10..12], count as u64);
}

// The volumes, 4 bytes each.
fn put_volumes(out: &mut [u8], volumes: &[u32])
    requires { length out.old ≡ 8 * length volumes.now }
    ensures { out.new ≡ volumes_bytes volumes.now }
{
    for (i, volume) in volumes.iter().enumerate() {
        put_bytes::<4>(&mut out[8 * i..8 * i + 8], u64::from(*volume));
    }
}

// Net, interest posted, unpaid and credit.
fn put_amounts(out: &mut [u8], net: i32, interest: u64, unpaid: u64, credit: u64)
    requires { length out.old ≡ 48 }
    ensures { out.new ≡ amounts_bytes net interest unpaid credit }
{
    put_bytes::<4>(&mut out[..8], u64::from(net.cast_unsigned()));
    put_bytes::<8>(&mut out[8..24], interest);
    put_bytes::<8>(&mut out[24..40], unpaid);
    put_bytes::<4>(&mut out[40..48], credit);
}

// The last bytes of a number. Most numbers of a line are 0.
#[inline(always)]
fn put_bytes<const BYTES: usize>(out: &mut [u8], value: u64)
    requires { length out.old ≡ 2 * BYTES }
    ensures { out.new ≡ bytes BYTES value }
{
    if value == 0 {
        out.fill(b'0');
        return;
    }
    let mut rest = value;
    for i in (0..BYTES).rev() {
        let byte = (rest % 256) as usize;
        out[2 * i] = PAIRS[2 * byte];
        out[2 * i + 1] = PAIRS[2 * byte + 1];
        rest /= 256;
    }
}

// The line of an open item, at the front of `out`.
pub fn put_notice(item: Item, out: &mut [u8])
    requires { notice_length ≤ length out.old }
    ensures { out.new ≡ written out.old 0 (notice_line item) }
{
    put_bytes::<1>(&mut out[..2], kind_number(item.kind));
    put_date(&mut out[2..10], item.obligation);
    put_date(&mut out[10..18], item.due);
    put_bytes::<8>(&mut out[18..34], item.unpaid);
    out[34] = b'\n';
}

// 01 interest, 02 price
fn kind_number(kind: Kind) -> u64
    ensures { result ≡ kind_number kind }
{
    match kind {
        Kind::Interest => 1,
        Kind::Price => 2,
    }
}

// The date of a day as eight digits.
fn put_date(out: &mut [u8], day: u16)
    requires { length out.old ≡ 8 }
    ensures { out.new ≡ date_digits (to_date day) }
{
    match Day::to_date(u32::from(day)) {
        Some(date) => {
            put_decimal::<4>(&mut out[..4], date.year);
            put_decimal::<2>(&mut out[4..6], date.month);
            put_decimal::<2>(&mut out[6..8], date.day);
        }
        None => out.fill(b'0'),
    }
}

// The last decimal digits of a number.
fn put_decimal<const DIGITS: usize>(out: &mut [u8], value: u32)
    requires { length out.old ≡ DIGITS }
    ensures { out.new ≡ digits 10 DIGITS value }
{
    let mut rest = value;
    for i in (0..DIGITS).rev() {
        out[i] = b'0' + (rest % 10) as u8;
        rest /= 10;
    }
}
