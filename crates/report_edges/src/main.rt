// The report at the edges of what its files may be; what is printed is held to the file stdout.
#![tactic(auto)]

use std::io;
use std::rt::Files;

fn edge<R: Files + Print>(
    rt: &R,
    label: &str,
    policy_path: &[u8],
    events_path: &[u8],
) -> io::Result<()> {
    println!(rt; "{label}")?;
    reports::print(rt, &mut io::writer(rt), policy_path, events_path)?;
    Ok(())
}

fn main(rt: HostRuntime) -> io::Result<()> {
    edge(&rt, "no policy file:", b"absent.bin", b"most.bin")?;
    edge(&rt, "a policy of 511 bytes:", b"short.bin", b"most.bin")?;
    edge(&rt, "a policy of 513 bytes:", b"long.bin", b"most.bin")?;
    edge(&rt, "a policy with a cell of 5:", b"five.bin", b"most.bin")?;
    edge(&rt, "no events file:", b"good.bin", b"absent.bin")?;
    edge(&rt, "events of 25 bytes:", b"good.bin", b"broken.bin")?;
    edge(&rt, "2,001 events:", b"good.bin", b"excess.bin")?;
    edge(
        &rt,
        "2,001 events and a bad policy:",
        b"five.bin",
        b"excess.bin",
    )?;
    edge(&rt, "2,000 events:", b"good.bin", b"most.bin")?;
    Ok(())
}
