// Prints the open items that a household's file leaves, oldest first, a line each.
#![tactic(auto)]

ghost use Rattle.std.specs.Prelude.{OnOk};
ghost use Rattle.std.specs.Io.KnownBytes.{Appends};
ghost use Rattle.text.specs.Output.{open_notices};

use account::Account;
use answers::NOTICE_LENGTH;
use driver::Failure;
use ledger::limits::CAPACITY;
use std::io;
use std::io::Write;

// The notices of a full ledger.
const LONGEST_NOTICES: usize = CAPACITY * NOTICE_LENGTH;

fn main(rt: HostRuntime) -> anyhow::Result<()> {
    let state = driver::serve(&rt, false)?;
    print_notices(&mut io::writer(&rt), state.account)?;
    Ok(())
}

fn print_notices<W: Write>(output: &mut W, account: Account) -> Result<(), Failure>
    ensures { OnOk result (Appends (W.contents output.old) (W.contents output.new) (open_notices account)) }
{
    let mut out = [0u8; LONGEST_NOTICES];
    let size = text::put_notices(account, &mut out);
    output.write_all(&out[..size]).map_err(Failure::Output)
}
