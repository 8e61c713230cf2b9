// Outside vectors through `read_event` and `write_event`; what is printed is held to the file stdout.
#![tactic(auto)]

ghost use Rattle.std.specs.Prelude.{◌<◌};

use device::{Descriptor, Domain, Event, Mode, Permission, Refusal, Response, Suite, UserAnswer};
use std::io;

// A record by the low bytes of its fields, the sets empty.
fn made(kind: u8, domain: u8, suite: u8, permission: u8, answer: u8) -> [u8; 24] {
    let mut r = [0u8; 24];
    r[0] = kind;
    r[1] = domain;
    r[2] = suite;
    r[4] = permission;
    r[5] = answer;
    r
}

fn install() -> [u8; 24] {
    let mut r = made(1, 2, 10, 0, 0);
    r[8] = 3;
    r[16] = 28;
    r
}

fn remove() -> [u8; 24] {
    made(2, 0, 10, 0, 0)
}

fn start() -> [u8; 24] {
    made(3, 0, 10, 0, 0)
}

fn terminate() -> [u8; 24] {
    made(4, 0, 0, 0, 0)
}

fn request() -> [u8; 24] {
    made(5, 0, 0, 3, 2)
}

// 18 for bytes that are no event; 0 for a record that is read and written back the same, and 99 for one that is not.
fn through(bytes: &[u8]) -> u8 {
    let mut back = [7u8; 24];
    match events::write_event(events::read_event(bytes), &mut back) {
        Err(refusal) => Response::from(refusal).number,
        Ok(()) if bytes == back.as_slice() => 0,
        Ok(()) => 99,
    }
}

// A record with a byte stored at each of its 24 places in turn.
fn damaged(rt: &impl Print, label: &str, good: [u8; 24], byte: u8) -> io::Result<()> {
    print!(rt; "\n{label}")?;
    for place in 0..good.len() {
        let mut bad = good;
        bad[place] = byte;
        print!(rt; " {}", through(&bad))?;
    }
    Ok(())
}

// A record with two of its bytes at their edges.
fn edge(rt: &impl Print, good: [u8; 24], at: usize, low: u8, high: u8) -> io::Result<()>
    requires { at < 23 }
{
    let mut r = good;
    r[at] = low;
    r[at + 1] = high;
    print!(rt; " {}", through(&r))?;
    Ok(())
}

fn response_number(outcome: Result<(), Refusal>) -> u8 {
    Response::from(outcome).number
}

// The number of a write into 24 bytes, and of one into 23.
fn written(rt: &impl Print, event: Event) -> io::Result<()> {
    let mut whole = [7u8; 24];
    print!(rt;
        " {}",
        response_number(events::write_event(event, &mut whole))
    )?;
    let mut short = [7u8; 23];
    print!(rt;
        " {}",
        response_number(events::write_event(event, &mut short))
    )?;
    Ok(())
}

fn damages(rt: &impl Print) -> io::Result<()> {
    damaged(rt, "install with 255 in each place:", install(), 255)?;
    damaged(rt, "install with 1 in each place:", install(), 1)?;
    damaged(rt, "remove with 255 in each place:", remove(), 255)?;
    damaged(rt, "remove with 1 in each place:", remove(), 1)?;
    damaged(rt, "start with 255 in each place:", start(), 255)?;
    damaged(rt, "start with 1 in each place:", start(), 1)?;
    damaged(rt, "terminate with 255 in each place:", terminate(), 255)?;
    damaged(rt, "terminate with 1 in each place:", terminate(), 1)?;
    damaged(rt, "request with 255 in each place:", request(), 255)?;
    damaged(rt, "request with 1 in each place:", request(), 1)?;
    Ok(())
}

fn sizes(rt: &impl Print) -> io::Result<()> {
    print!(rt; "\n0, 23, 24 and 25 bytes:")?;
    let mut whole = [0u8; 24];
    whole[0] = 4;
    let long = [4u8; 25];
    print!(rt; " {}", through(&whole[..0]))?;
    print!(rt; " {}", through(&whole[..23]))?;
    print!(rt; " {}", through(&whole))?;
    print!(rt; " {}", through(&long))?;
    Ok(())
}

fn reads(rt: &impl Print) -> io::Result<()> {
    print!(rt; "\nan install with kind and domain 0 2, 6 2, 1 0, 1 7, 1 8:")?;
    edge(rt, install(), 0, 0, 2)?;
    edge(rt, install(), 0, 6, 2)?;
    edge(rt, install(), 0, 1, 0)?;
    edge(rt, install(), 0, 1, 7)?;
    edge(rt, install(), 0, 1, 8)?;
    print!(rt; "\na start of suite 0, 1, 256, 65535:")?;
    edge(rt, start(), 2, 0, 0)?;
    edge(rt, start(), 2, 1, 0)?;
    edge(rt, start(), 2, 0, 1)?;
    edge(rt, start(), 2, 255, 255)?;
    print!(rt; "\na request with permission and answer 0 0, 63 6, 64 6, 63 7:")?;
    edge(rt, request(), 4, 0, 0)?;
    edge(rt, request(), 4, 63, 6)?;
    edge(rt, request(), 4, 64, 6)?;
    edge(rt, request(), 4, 63, 7)?;
    Ok(())
}

fn writes(rt: &impl Print) -> io::Result<()> {
    let both = Descriptor {
        required: 18446744073709551615,
        optional: 1,
    };
    let no = UserAnswer::Deny(Mode::Blanket);
    print!(rt; "\nan install of suite 65535 in domain 7, 0 in 7, 1 in 8, into 24 and 23 bytes:")?;
    written(rt, Event::Install(Suite(65535), both, Domain(7)))?;
    written(rt, Event::Install(Suite(0), both, Domain(7)))?;
    written(rt, Event::Install(Suite(1), both, Domain(8)))?;
    print!(rt; "\na remove of 65535, of 0, a start of 1, of 0, into 24 and 23 bytes:")?;
    written(rt, Event::Remove(Suite(65535)))?;
    written(rt, Event::Remove(Suite(0)))?;
    written(rt, Event::Start(Suite(1)))?;
    written(rt, Event::Start(Suite(0)))?;
    print!(rt;
        "\na request of 63, of 64, a terminate, an unreadable event, into 24 and 23 bytes:"
    )?;
    written(rt, Event::Request(Permission(63), no))?;
    written(rt, Event::Request(Permission(64), no))?;
    written(rt, Event::Terminate)?;
    written(rt, Event::Unreadable)?;
    Ok(())
}

fn main(rt: HostRuntime) -> io::Result<()> {
    let rt = &rt;
    print!(rt; "Event records: 0 read and written back, or written; else the refusal")?;
    damages(rt)?;
    sizes(rt)?;
    reads(rt)?;
    writes(rt)?;
    println!(rt; "")
}
