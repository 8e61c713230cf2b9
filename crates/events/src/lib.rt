// An event record, read and written.
#![tactic(auto)]

ghost use Rattle.std.specs.Prelude.{◌≡◌};
ghost use Rattle.device.specs.Answers.{done};
ghost use Rattle.model.specs.Events.{fields_at, field_bytes, fields_of, event_of, carried, read_event};
ghost use Rattle.model.specs.Calls.{reading, read_call, leaving, write_call};

use device::{Descriptor, Domain, Event, Fields, Permission, Refusal, Suite, UserAnswer};
use words::Word;

pub const EVENT_SIZE: usize = 24;

// The event that a record's numbers may say. No `From`, here or below: a type of this crate around `Fields` would be made and
// opened at each call.
#[tactic(auto, unfolding(model::specs::Events::event_of))]
fn event_of(f: Fields) -> Event
    ensures { result ≡ event_of f }
{
    match f.kind {
        1 => {
            let descriptor = Descriptor {
                required: f.required,
                optional: f.optional,
            };
            Event::Install(Suite(f.suite), descriptor, Domain(f.domain))
        }
        2 => Event::Remove(Suite(f.suite)),
        3 => Event::Start(Suite(f.suite)),
        4 => Event::Terminate,
        5 => Event::Request(Permission(f.permission), UserAnswer::from(f.answer)),
        _ => Event::Unreadable,
    }
}

// The numbers of an event's record: what its kind does not use is 0.
fn fields_of(e: Event) -> Fields
    ensures { result ≡ fields_of e }
{
    let unused = Fields {
        kind: 0,
        domain: 0,
        suite: 0,
        permission: 0,
        answer: 0,
        pad: 0,
        required: 0,
        optional: 0,
    };
    match e {
        Event::Unreadable => unused,
        Event::Install(i, x, d) => Fields {
            kind: 1,
            domain: d.0,
            suite: i.0,
            required: x.required,
            optional: x.optional,
            ..unused
        },
        Event::Remove(i) => Fields {
            kind: 2,
            suite: i.0,
            ..unused
        },
        Event::Start(i) => Fields {
            kind: 3,
            suite: i.0,
            ..unused
        },
        Event::Terminate => Fields { kind: 4, ..unused },
        Event::Request(p, u) => Fields {
            kind: 5,
            permission: p.0,
            answer: u8::from(u),
            ..unused
        },
    }
}

// A record can carry the event's values; the types bound the sets and the suite from above.
fn fits(e: Event) -> bool
    ensures { result ≡ carried e }
{
    match e {
        Event::Unreadable => false,
        Event::Install(i, _, d) => i.in_range() & d.in_range(),
        Event::Remove(i) => i.in_range(),
        Event::Start(i) => i.in_range(),
        Event::Terminate => true,
        Event::Request(p, _) => p.in_range(),
    }
}

#[tactic(auto, unfolding(model::specs::Events::fields_at))]
fn fields_at(bytes: &[u8; EVENT_SIZE]) -> Fields
    ensures { result ≡ fields_at bytes.now }
{
    Fields {
        kind: bytes[0],
        domain: bytes[1],
        suite: u16::read(bytes, 2),
        permission: bytes[4],
        answer: bytes[5],
        pad: u16::read(bytes, 6),
        required: u64::read(bytes, 8),
        optional: u64::read(bytes, 16),
    }
}

fn put_fields(bytes: &mut [u8; EVENT_SIZE], f: Fields)
    ensures { bytes.new ≡ field_bytes f }
{
    f.kind.write(bytes, 0);
    f.domain.write(bytes, 1);
    f.suite.write(bytes, 2);
    f.permission.write(bytes, 4);
    f.answer.write(bytes, 5);
    f.pad.write(bytes, 6);
    f.required.write(bytes, 8);
    f.optional.write(bytes, 16);
}

// The event of a record; `Unreadable`, which is refusal 18, for every other list of bytes.
#[tactic(auto, using(crate::proofs::Laws::read_other))]
pub fn read_event(bytes: &[u8]) -> Event
    ensures { reading result ≡ read_call bytes.now }
{
    let Some(record) = bytes.as_array() else {
        return Event::Unreadable;
    };
    let numbers = fields_at(record);
    let event = event_of(numbers);
    let good = fits(event) & (fields_of(event) == numbers);
    if !good {
        return Event::Unreadable;
    }
    event
}

// The event into 24 lent bytes: 18 for a value that no record carries, then 30 for another size.
#[tactic(auto, unfolding(model::specs::Calls::write_call))]
pub fn write_event(event: Event, bytes: &mut [u8]) -> Result<(), Refusal>
    ensures { leaving bytes.new (done result) ≡ write_call event bytes.old }
{
    if !fits(event) {
        return Err(Refusal::BadEvent);
    }
    let Some(record) = bytes.as_mut_array() else {
        return Err(Refusal::BadLength);
    };
    put_fields(record, fields_of(event));
    Ok(())
}

// The event whose record has these numbers; `Unreadable` where no record has.
pub fn event_with(numbers: Fields) -> Event
    ensures { result ≡ read_event (field_bytes numbers) }
{
    let mut record = [0u8; EVENT_SIZE];
    put_fields(&mut record, numbers);
    read_event(&record)
}
