// Bills a household's file: its lines on standard input, a frame for each line on standard output.
#![tactic(auto)]

fn main(rt: HostRuntime) -> anyhow::Result<()> {
    driver::serve(&rt, true)?;
    Ok(())
}
