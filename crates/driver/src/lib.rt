// Reads the file `closed`, then standard input to its end, and feeds it to the account in blocks of 64 KiB.
#![tactic(auto)]

ghost use Rattle.std.specs.Prelude.{◌≡◌, ◌++◌, ◌+◌, ◌≤◌, take, IfOk, OnOk, IfSome};
ghost use Rattle.std.specs.Io.KnownBytes.{Appends};
ghost use Rattle.text.specs.Output.{bill};
ghost use Rattle.text.specs.Pieces.{Follows, AtEnd, Behind, Finished, made};
ghost use Rattle.closedfile.specs.ClosedFile.{longest_file, list_in, held};
ghost use Rattle.feeding.specs.Reached.{Ready};
ghost use Rattle.driver.specs.Runs.{FromFile, Served, printed, Prints, with_output};

use answers::LONGEST_ANSWER;
use closedfile::{ClosedDays, LONGEST_FILE, list_in};
use lines::State;
use std::io::{ErrorKind, Input, Read, Write};
use std::rt::Files;
use std::{fs, io};
use thiserror::Error;

// What could not be read or written, and why.
#[derive(Debug, Drop, Error)]
pub enum Failure {
    #[error("closed: {0}")]
    Closed(io::Error),
    #[error("standard input: {0}")]
    Input(io::Error),
    #[error("standard output: {0}")]
    Output(io::Error),
}

// The first bytes of a file, as many as there are or as tell its list.
#[derive(Clone, Copy)]
pub struct Front {
    pub bytes: [u8; FRONT_LENGTH],
    pub length: usize,
}

// Feeds an input by a list of closed days, and prints what that makes, or nothing.
#[derive(Drop)]
pub struct Feeder<'a, W> {
    pub output: &'a mut W,
    pub holidays: &'a [u16],
    pub is_printing: bool,
}

// One byte more than the longest file of the form has.
const FRONT_LENGTH: usize = LONGEST_FILE + 1;

// What is read and written at a time.
const BLOCK_LENGTH: usize = 65_536;

// Feeds all of standard input by the list of the file `closed`, to the state that it leaves. Where that file can't be read, nothing is fed.
pub fn serve<R: Files + Input + Print>(rt: &R, is_printing: bool) -> Result<State, Failure>
    ensures { IfOk result (λ state. Served state) }
{
    let list = read_closed(rt)?;
    let days = list.days;
    let count = list.count;
    let mut input = rt.reader();
    let mut output = io::writer(rt);
    let mut feeder = Feeder {
        output: &mut output,
        holidays: &days[..count],
        is_printing,
    };
    feeder.feed_input(&mut input)
}

// No such file is an empty list.
fn read_closed<R: Files>(rt: &R) -> Result<ClosedDays, Failure>
    ensures { IfOk result (λ list. FromFile list) }
{
    match fs::open(rt, "closed") {
        Ok(mut file) => list_of(&mut file),
        Err(e) if e.kind() == ErrorKind::NotFound => Ok(list_in(&[])),
        Err(e) => Err(Failure::Closed(e)),
    }
}

// The list that an open file has.
fn list_of<F: Read>(file: &mut F) -> Result<ClosedDays, Failure>
    ensures from_file { IfOk result (λ list. FromFile list) }
    ensures known { IfOk result (λ list. IfSome (F.remaining file.old) (λ bytes. list ≡ held (list_in bytes))) }
{
    let front = read_front(file)?;
    let bytes = front.bytes;
    let length = front.length;
    Ok(list_in(&bytes[..length]))
}

// The first bytes of a file, read to its end or to one byte more than a list has.
fn read_front<F: Read>(file: &mut F) -> Result<Front, Failure>
    ensures length { IfOk result (λ front. front.length ≤ longest_file + 1) }
    ensures known { IfOk result (λ front. IfSome (F.remaining file.old)
        (λ bytes. take front.length front.bytes ≡ take (longest_file + 1) bytes)) }
{
    let mut bytes = [0u8; FRONT_LENGTH];
    let mut length: usize = 0;
    while length < FRONT_LENGTH {
        let count = match file.read(&mut bytes[length..]) {
            Ok(count) => count,
            Err(e) => return Err(Failure::Closed(e)),
        };
        if count == 0 {
            return Ok(Front { bytes, length });
        }
        length += count;
    }
    Ok(Front { bytes, length })
}

impl<W: Write> Feeder<'_, W> {
    // Feeds all of an input, to the account that all its lines leave: no line is left half read. What is printed is what `bill` writes for it.
    // What a failed read leaves half read is not taken for a line.
    pub fn feed_input<R: Read>(&mut self, input: &mut R) -> Result<State, Failure>
        ensures finished { IfOk result (λ state. Finished self.old.holidays.now state) }
        ensures at_end { IfOk result (λ state. IfSome (R.remaining input.old) (λ bytes. AtEnd self.old.holidays.now bytes state)) }
        ensures billed { OnOk result (IfSome (R.remaining input.old) (λ bytes.
            Appends (W.contents self.old.output.now) (W.contents self.new.output.now)
            (printed self.old.is_printing (bill self.old.holidays.now bytes)))) }
        ensures same { self.new ≡ with_output self.old self.new.output.now }
    {
        let mut state = State::new();
        let mut block = [0u8; BLOCK_LENGTH];
        // a proved loop has to end, and nothing says that the input does: no run uses up these turns
        for _ in 0..u64::MAX {
            let count = match input.read(&mut block) {
                Ok(count) => count,
                Err(e) => return Err(Failure::Input(e)),
            };
            if count == 0 {
                return self.end_input(state);
            }
            state = self.feed_block(state, &block[..count])?;
        }
        Err(Failure::Input(io::Error::other("it has no end")))
    }

    // The end of the input.
    fn end_input(&mut self, state: State) -> Result<State, Failure>
        requires { Behind self.old.holidays.now state }
        ensures at_end { IfOk result (λ end. (b : Behind self.old.holidays.now state) → AtEnd self.old.holidays.now b.seen end) }
        ensures prints { OnOk result ((b : Behind self.old.holidays.now state) → Prints self.old.is_printing
            (made self.old.holidays.now b.seen) (bill self.old.holidays.now b.seen)
            (W.contents self.old.output.now) (W.contents self.new.output.now)) }
        ensures same { self.new ≡ with_output self.old self.new.output.now }
    {
        let mut out = [0u8; LONGEST_ANSWER];
        let fed = feeding::finish(state, self.holidays, &mut out);
        let written = fed.written;
        self.print(&out[..written])?;
        Ok(fed.state)
    }

    // Feeds a block from its start to its end.
    fn feed_block(&mut self, state: State, block: &[u8]) -> Result<State, Failure>
        requires { Behind self.old.holidays.now state }
        ensures ready { IfOk result (λ next. Ready self.old.holidays.now next) }
        ensures follows { IfOk result (λ next. (b : Behind self.old.holidays.now state)
            → Follows self.old.holidays.now (b.seen ++ block.now) next) }
        ensures prints { OnOk result ((b : Behind self.old.holidays.now state) → Prints self.old.is_printing
            (made self.old.holidays.now b.seen) (made self.old.holidays.now (b.seen ++ block.now))
            (W.contents self.old.output.now) (W.contents self.new.output.now)) }
        ensures same { self.new ≡ with_output self.old self.new.output.now }
    {
        let mut state = state;
        let mut out = [0u8; BLOCK_LENGTH];
        let mut at: usize = 0;
        while at < block.len() {
            let fed = feeding::feed(state, self.holidays, &block[at..], &mut out);
            let written = fed.written;
            state = fed.state;
            at += fed.taken;
            self.print(&out[..written])?;
        }
        Ok(state)
    }

    // Writes what is to be printed.
    fn print(&mut self, text: &[u8]) -> Result<(), Failure>
        ensures printed { OnOk result (Appends (W.contents self.old.output.now) (W.contents self.new.output.now) (printed self.old.is_printing text.now)) }
        ensures same { self.new ≡ with_output self.old self.new.output.now }
    {
        if !self.is_printing {
            return Ok(());
        }
        self.output.write_all(text).map_err(Failure::Output)
    }
}
