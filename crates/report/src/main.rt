// The report of the files policy.bin and events.bin, of the folder that it is run in.
#![tactic(auto)]

use std::io;

fn main(rt: HostRuntime) -> io::Result<()> {
    reports::print(&rt, &mut io::writer(&rt), b"policy.bin", b"events.bin")?;
    Ok(())
}
