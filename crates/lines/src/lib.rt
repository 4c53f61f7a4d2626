// The next line of a household's file that comes in pieces: a frame where it lies, and else its characters as they come.
#![tactic(auto)]

ghost use Rattle.std.specs.Prelude.{◌≡◌, false, not, List, ℕ, ◌+◌, ◌≤◌, ◌<◌, length, take, get_or, eqb, IfSome};
ghost use Rattle.duedays.specs.DueDays.{list_allowed};
ghost use Rattle.std.specs.Option.{option_map};
ghost use Rattle.std.specs.List.{between};
ghost use Rattle.frames.specs.Digits.{line_feed};
ghost use Rattle.frames.specs.Frames.{parsed};
ghost use Rattle.frames.specs.Numbers.{call_of, FrameAt};
ghost use Rattle.answers.specs.Answers.{longest_answer};
ghost use Rattle.lines.specs.Begun.{kept_most, blank_line, begun_with, none_begun, keeping};
ghost use Rattle.lines.specs.Feeding.{fresh};
ghost use Rattle.lines.specs.Going.{NoEnd, Keeps, Finds, Declines};

use account::Account;
use answers::LONGEST_ANSWER;
use common::Refusal;
use frames::Frame;
use std::marker::Model;

// The characters kept of a line: one more than the longest frame has.
pub const KEPT_MOST: usize = 31;

// What is kept between pieces: the account, and the first characters of a line that has begun.
#[derive(Clone, Copy)]
pub struct State {
    pub account: Account,
    pub line: KeptLine,
}

// The state behind a piece, the bytes of the piece that were taken and the bytes written.
#[derive(Clone, Copy)]
pub struct Fed {
    pub state: State,
    pub taken: usize,
    pub written: usize,
}

impl State {
    pub fn new() -> State
        ensures { result ≡ fresh }
    {
        State {
            account: Account::new(),
            line: KeptLine::new(),
        }
    }
}

// The characters kept of a line that has begun. Where none has begun no character is kept.
#[derive(Clone, Copy)]
pub struct KeptLine {
    length: usize,
    characters: [u8; KEPT_MOST],
}

impl Model for KeptLine {
    ghost use Rattle.std.specs.Prelude.{◌≡◌};
    ghost use Rattle.lines.specs.Begun.{Begun, blank_line};

    ghost Value = { Begun };

    ghost view = { λ k. record { length = k.length; characters = k.characters } };

    ghost inverse = { λ b. record { length = b.length; characters = b.characters } };

    ghost invariant = { λ k. k.length ≡ 0 → k.characters ≡ blank_line };
}

impl KeptLine {
    // A line of which so many characters are kept, at the front of the array.
    pub fn of(length: usize, characters: [u8; KEPT_MOST]) -> KeptLine
        requires { length ≡ 0 → characters ≡ blank_line }
        ensures { result ≡ begun_with length characters }
    {
        KeptLine { length, characters }
    }

    pub fn new() -> KeptLine
        ensures { result ≡ none_begun }
    {
        KeptLine {
            length: 0,
            characters: [0; KEPT_MOST],
        }
    }

    pub fn is_begun(&self) -> bool
        ensures value { result ≡ not (eqb self.now.length 0) }
        ensures none { result ≡ false → self.now ≡ none_begun }
    {
        self.length != 0
    }

    // How many characters are kept, and the array at whose front they are.
    pub fn parts(&self) -> (usize, [u8; KEPT_MOST])
        ensures { result ≡ (self.now.length, self.now.characters) }
    {
        (self.length, self.characters)
    }

    // Keeps a character where there is room for it.
    fn keep(&mut self, character: u8)
        ensures { self.new ≡ keeping self.old character }
    {
        if self.length < KEPT_MOST {
            self.characters[self.length] = character;
            self.length += 1;
        }
    }

    // The frame that the characters kept are. A line of more than the longest frame has is none.
    pub fn read(&self) -> Option<Frame>
        ensures { option_map call_of result ≡ parsed (take self.now.length self.now.characters) }
    {
        if self.length >= KEPT_MOST {
            return None;
        }
        let mut ended = self.characters;
        ended[self.length] = b'\n';
        let (frame, width) = frames::frame_at(&ended)?;
        (width == self.length).then_some(frame)
    }
}

// What the next line is read as, where it ended.
#[derive(Clone, Copy, PartialEq, Eq, Debug)]
pub enum Next {
    Waits,
    NoFrame,
    Frame(Frame),
}

// What is found of the next line, and the bytes taken up to there.
#[derive(Clone, Copy, PartialEq, Eq, Debug)]
pub struct Found {
    pub next: Next,
    pub taken: usize,
}

// The next line. Where none has begun, a whole frame is read where it lies; and where none lies though the longest had room, the line is
// none, whatever its characters.
pub fn next_line(input: &[u8], from: usize, line: &mut KeptLine, room: usize) -> Found
    requires { from < length input.now }
    ensures { Finds input.now from room line.old line.new result }
{
    if !line.is_begun() && room >= LONGEST_ANSWER {
        let rest = &input[from..];
        if let Some((frame, width)) = frames::frame_at(rest) {
            return Found {
                next: Next::Frame(frame),
                taken: from + width + 1,
            };
        }
        if rest.len() >= KEPT_MOST {
            return other_line(input, from, line, room);
        }
    }
    kept_line(input, from, line, room)
}

// A line that is no frame where it lies, though the longest had room there. If it ends, none of its characters is kept.
#[cold]
#[inline(never)]
fn other_line(input: &[u8], from: usize, line: &mut KeptLine, room: usize) -> Found
    requires none_begun { line.old ≡ none_begun }
    requires room_left { longest_answer ≤ room }
    requires wide { from + kept_most ≤ length input.now }
    requires no_frame { FrameAt (between from (length input.now) input.now) None }
    ensures { Finds input.now from room line.old line.new result }
{
    let rest = &input[from..];
    let size = line_length(rest);
    if size < rest.len() {
        return Found {
            next: Next::NoFrame,
            taken: from + size + 1,
        };
    }
    keep_front(input, from, size, line);
    Found {
        next: Next::Waits,
        taken: input.len(),
    }
}

// Where the line ends that begins some bytes.
fn line_end(bytes: &[u8]) -> Option<usize>
    ensures none { result ≡ None → NoEnd bytes.now }
    ensures within { IfSome result (λ end. end < length bytes.now) }
    ensures ends { IfSome result (λ end. get_or bytes.now end 0 ≡ line_feed) }
    ensures none_before { IfSome result (λ end. NoEnd (take end bytes.now)) }
{
    bytes.iter().position(|character| *character == b'\n')
}

// The next line, kept character by character. Before an end that the room left might not hold, it waits.
#[cold]
#[inline(never)]
fn kept_line(input: &[u8], from: usize, line: &mut KeptLine, room: usize) -> Found
    requires { from < length input.now }
    ensures { Finds input.now from room line.old line.new result }
{
    let taken = keep_characters(input, from, line);
    if taken == input.len() || room < LONGEST_ANSWER {
        return Found {
            next: Next::Waits,
            taken,
        };
    }
    let next = match line.read() {
        Some(frame) => Next::Frame(frame),
        None => Next::NoFrame,
    };
    *line = KeptLine::new();
    Found {
        next,
        taken: taken + 1,
    }
}

// The lines of a piece by a list that breaks its bounds: 14 for each.
pub fn decline_lines(state: State, input: &[u8], out: &mut [u8]) -> Fed
    ensures { (holidays : List ℕ) → list_allowed holidays ≡ false
        → Declines holidays input.now out.old state out.new result }
{
    let account = state.account;
    let mut line = state.line;
    let mut taken: usize = 0;
    let mut written: usize = 0;
    loop {
        let rest = &input[taken..];
        let size = line_length(rest);
        if size == rest.len() || out.len() - written < LONGEST_ANSWER {
            keep_front(input, taken, size, &mut line);
            return Fed {
                state: State { account, line },
                taken: taken + size,
                written,
            };
        }
        written += answers::put_refusal(Refusal::ClosedDays.number(), &mut out[written..]);
        line = KeptLine::new();
        taken += size + 1;
    }
}

// Keeps the first characters of a line, up to its end: where that is.
fn keep_characters(input: &[u8], from: usize, line: &mut KeptLine) -> usize
    requires { from ≤ length input.now }
    ensures { Keeps input.now from line.old line.new result }
{
    let size = line_length(&input[from..]);
    keep_front(input, from, size, line);
    from + size
}

// Keeps the first characters of a line that is so long.
#[cold]
#[inline(never)]
fn keep_front(input: &[u8], from: usize, size: usize, line: &mut KeptLine)
    requires from_in_bounds { from ≤ length input.now }
    requires within { size ≤ length (between from (length input.now) input.now) }
    requires ends { size < length (between from (length input.now) input.now)
        → get_or (between from (length input.now) input.now) size 0 ≡ line_feed }
    requires none_before { NoEnd (take size (between from (length input.now) input.now)) }
    ensures { Keeps input.now from line.old line.new (from + size) }
{
    let rest = &input[from..];
    for character in &rest[..size.min(KEPT_MOST)] {
        line.keep(*character);
    }
}

// How far the line goes that begins some bytes, up to its end or theirs.
fn line_length(bytes: &[u8]) -> usize
    ensures within { result ≤ length bytes.now }
    ensures ends { result < length bytes.now → get_or bytes.now result 0 ≡ line_feed }
    ensures none_before { NoEnd (take result bytes.now) }
{
    line_end(bytes).unwrap_or(bytes.len())
}
