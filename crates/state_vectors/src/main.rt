// A good state damaged at each of its 1,320 bytes, and the answers of `check`, `find` and `suite_record`; what is printed is
// held to the file stdout.
#![tactic(auto)]

use device::{Response, Suite};
use std::{array, io};

// Every cell is met in every domain.
fn policy() -> [u8; 512] {
    array::from_fn(|i| ((i / 64 + i % 64) % 5) as u8)
}

// Suite 10 runs, with two grants and a revocation for its session; all of its four kinds of sets have members.
fn running(state: [u8; 1320]) -> [u8; 1320] {
    let mut b = state;
    b[0] = 10;
    b[8] = 4;
    b[9] = 1;
    b[16] = 64;
    b[40] = 10;
    b[48] = 30;
    b[55] = 128;
    b[56] = 224;
    b[57] = 33;
    b[64] = 8;
    b[71] = 128;
    b[72] = 2;
    b
}

// Suite 258 in slot 3, suite 65535 in slot 32, the other slots free.
fn good() -> [u8; 1320] {
    let mut b = running([0u8; 1320]);
    b[120] = 2;
    b[121] = 1;
    b[122] = 7;
    b[128] = 23;
    b[136] = 72;
    b[144] = 2;
    b[152] = 17;
    b[1280] = 255;
    b[1281] = 255;
    b[1282] = 3;
    b[1296] = 255;
    b[1303] = 255;
    b
}

fn checked(rt: &impl Print, policy: &[u8], state: &[u8]) -> io::Result<()> {
    print!(rt; " {}", Response::from(checks::check(policy, state)).number)
}

// Each byte in turn with the bits of x turned over, a line for each record.
fn damaged(rt: &impl Print, x: u8) -> io::Result<()> {
    let policy = policy();
    let good = good();
    for (k, byte) in good.iter().enumerate() {
        if k % 40 == 0 {
            print!(rt; "\nrecord")?;
            print!(rt; " {}", (k / 40) as u8)?;
            print!(rt; ":")?;
        }
        let mut bad = good;
        bad[k] = *byte ^ x;
        checked(rt, &policy, &bad)?;
    }
    Ok(())
}

fn sizes(rt: &impl Print) -> io::Result<()> {
    let cells = [1u8; 513];
    let zeros = [0u8; 1321];
    print!(rt; "\na state of 0, 1319, 1320 and 1321 bytes:")?;
    checked(rt, &cells[..512], &zeros[..0])?;
    checked(rt, &cells[..512], &zeros[..1319])?;
    checked(rt, &cells[..512], &zeros[..1320])?;
    checked(rt, &cells[..512], &zeros)?;
    print!(rt; "\na policy of 0, 511 and 513 bytes, and of 513 with a bad state:")?;
    checked(rt, &cells[..0], &zeros[..1320])?;
    checked(rt, &cells[..511], &zeros[..1320])?;
    checked(rt, &cells, &zeros[..1320])?;
    checked(rt, &cells, &zeros)?;
    Ok(())
}

fn cells(rt: &impl Print) -> io::Result<()> {
    let state = good();
    let mut first = policy();
    first[0] = 5;
    let mut last = policy();
    last[511] = 5;
    let mut odd = policy();
    odd[511] = 4;
    print!(rt; "\na cell of 5 first, last, and one of 4 last:")?;
    checked(rt, &first, &state)?;
    checked(rt, &last, &state)?;
    checked(rt, &odd, &state)?;
    Ok(())
}

// The number of `find`, and the bytes of the part.
fn found(rt: &impl Print, suite: u16) -> io::Result<()> {
    let policy = policy();
    let state = good();
    let found = checks::find(&policy, &state, Suite(suite));
    print!(rt; "\nfind:")?;
    print!(rt; " {}", Response::from(found).number)?;
    print!(rt; ", the part:")?;
    bytes(rt, checks::suite_record(&policy, &state, Suite(suite)))?;
    Ok(())
}

fn bytes(rt: &impl Print, part: &[u8]) -> io::Result<()> {
    for byte in part {
        print!(rt; " {}", *byte)?;
    }
    Ok(())
}

fn finds(rt: &impl Print) -> io::Result<()> {
    print!(rt; "\nsuites 10, 258, 65535, 0, 1 and 255:")?;
    found(rt, 10)?;
    found(rt, 258)?;
    found(rt, 65535)?;
    found(rt, 0)?;
    found(rt, 1)?;
    found(rt, 255)?;
    Ok(())
}

fn main(rt: HostRuntime) -> io::Result<()> {
    let rt = &rt;
    print!(rt; "Stored states: what check answers")?;
    print!(rt; "\nbit 1 of each byte turned over:")?;
    damaged(rt, 1)?;
    print!(rt; "\nbit 16 of each byte turned over:")?;
    damaged(rt, 16)?;
    print!(rt; "\nevery bit of each byte turned over:")?;
    damaged(rt, 255)?;
    sizes(rt)?;
    cells(rt)?;
    finds(rt)?;
    println!(rt; "")
}
