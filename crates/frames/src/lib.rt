// Lines that come in: a line to the call that it is the frame of.
#![tactic(auto)]

ghost use Rattle.std.specs.Prelude.{◌≡◌, ◌≤◌, ◌<◌, ◌^◌, length, get_or, IfSome, MatchOption};
ghost use Rattle.frames.specs.Digits.{number_in};
ghost use Rattle.frames.specs.Numbers.{call_of, BeginsKind, FrameAt, KindOf};

mod values;

use intake::Call;
use tariff::Fuel;

// The characters of the longest frame.
const LONGEST_FRAME: usize = 30;

// The kinds of frame, a call each.
#[derive(Clone, Copy, PartialEq, Eq, Debug)]
pub enum FrameKind {
    Opening,
    Reading,
    Missed,
    Absent,
    Exchange,
    Disconnection,
    Reconnection,
    Cancellation,
    Payment,
    StoppedCancellation,
}

// What stands in a frame: its kind, and the numbers of its fields.
#[derive(Clone, Copy, PartialEq, Eq, Debug)]
pub struct Frame {
    pub kind: FrameKind,
    pub day: u16,
    pub first: u32,
    pub second: u32,
    pub third: u32,
    pub short: u8,
}

// The frame that, with its LF behind it, begins some bytes, and its width. There is room for the longest.
#[inline(always)]
#[tactic(auto, using(crate::proofs::Numbers::other_beginning, crate::proofs::Numbers::other_kind))]
pub fn frame_at(bytes: &[u8]) -> Option<(Frame, usize)>
    ensures { FrameAt bytes.now result }
{
    if bytes.len() <= LONGEST_FRAME {
        return None;
    }
    if bytes[0] != b'0' {
        return None;
    }
    let kind = kind_of(bytes[1])?;
    match kind {
        FrameKind::Reading | FrameKind::Disconnection | FrameKind::Cancellation => {
            fields_of::<8, 8, 8, 0>(bytes, kind)
        }
        FrameKind::Opening | FrameKind::Reconnection => fields_of::<8, 0, 0, 2>(bytes, kind),
        FrameKind::Missed | FrameKind::Absent => fields_of::<8, 8, 0, 0>(bytes, kind),
        FrameKind::Exchange => fields_of::<8, 8, 0, 2>(bytes, kind),
        FrameKind::Payment => fields_of::<8, 0, 0, 0>(bytes, kind),
        FrameKind::StoppedCancellation => fields_of::<0, 0, 0, 0>(bytes, kind),
    }
}

// The kind by its second character; the first is 0.
#[inline(always)]
fn kind_of(character: u8) -> Option<FrameKind>
    ensures { KindOf character result }
{
    match character {
        b'1' => Some(FrameKind::Opening),
        b'2' => Some(FrameKind::Reading),
        b'3' => Some(FrameKind::Missed),
        b'4' => Some(FrameKind::Absent),
        b'5' => Some(FrameKind::Exchange),
        b'6' => Some(FrameKind::Disconnection),
        b'7' => Some(FrameKind::Reconnection),
        b'8' => Some(FrameKind::Cancellation),
        b'9' => Some(FrameKind::Payment),
        b'a' => Some(FrameKind::StoppedCancellation),
        _ => None,
    }
}

// The frame whose fields behind the day have so many characters, if digits stand in all of them, and LF behind them.
#[inline(always)]
fn fields_of<const FIRST: usize, const SECOND: usize, const THIRD: usize, const SHORT: usize>(
    bytes: &[u8],
    kind: FrameKind,
) -> Option<(Frame, usize)>
    requires { BeginsKind bytes.now kind FIRST SECOND THIRD SHORT }
    ensures { FrameAt bytes.now result }
{
    let second_at = 6 + FIRST;
    let third_at = second_at + SECOND;
    let short_at = third_at + THIRD;
    let end = short_at + SHORT;
    let last = bytes[end];
    if last != b'\n' {
        return None;
    }
    let frame = Frame {
        kind,
        day: number(&bytes[2..6])? as u16,
        first: number(&bytes[6..second_at])?,
        second: number(&bytes[second_at..third_at])?,
        third: number(&bytes[third_at..short_at])?,
        short: number(&bytes[short_at..end])? as u8,
    };
    Some((frame, end))
}

// The number that at most eight characters show, if they are digits.
#[inline(always)]
pub fn number(digits: &[u8]) -> Option<u32>
    requires { length digits.now ≤ 8 }
    ensures value { result ≡ number_in digits.now }
    ensures bound { IfSome result (λ n. n < 16 ^ length digits.now) }
{
    let mut n: u64 = 0;
    for digit in digits {
        n = n * 16 + values::value(*digit);
    }
    u32::try_from(n).ok()
}

impl From<Frame> for Call {
    ghost from_gives = { λ frame call. call ≡ call_of frame };

    // The call of a frame.
    #[inline(always)]
    fn from(frame: Frame) -> Call {
        let Frame {
            kind,
            day,
            first,
            second,
            third,
            short,
        } = frame;
        // the prices of 03 and 04, and those behind a reading
        let alone = Fuel {
            lng: first,
            propane: second,
        };
        let behind = Fuel {
            lng: second,
            propane: third,
        };
        match kind {
            FrameKind::Opening => Call::Opening {
                day,
                reading: first,
                digits: short,
            },
            FrameKind::Reading => Call::Reading {
                day,
                reading: first,
                fuel: behind,
            },
            FrameKind::Missed => Call::Missed { day, fuel: alone },
            FrameKind::Absent => Call::Absent { day, fuel: alone },
            FrameKind::Exchange => Call::Exchange {
                day,
                old: first,
                new: second,
                digits: short,
            },
            FrameKind::Disconnection => Call::Disconnection {
                day,
                reading: first,
                fuel: behind,
            },
            FrameKind::Reconnection => Call::Reconnection {
                day,
                reading: first,
                digits: short,
            },
            FrameKind::Cancellation => Call::Cancellation {
                day,
                reading: first,
                fuel: behind,
            },
            FrameKind::Payment => Call::Payment { day, yen: first },
            FrameKind::StoppedCancellation => Call::StoppedCancellation { day },
        }
    }
}
