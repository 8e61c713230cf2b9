// The monitor for C: a slice is a pointer and a length, an answer is `number | detail << 8`. Each call takes every input and has no
// precondition.
#![tactic(auto)]

ghost use Rattle.std.specs.Prelude.{◌≡◌, suc, ◌*◌, ◌<◌};
ghost use Rattle.device.specs.Device.{slot_count};
ghost use Rattle.device.specs.Answers.{done};
ghost use Rattle.model.specs.State.{record_size};
ghost use Rattle.model.specs.Events.{field_bytes, numbers, read_event};
ghost use Rattle.model.specs.Calls.{new_call, read_answer, read_call, write_call, check_call, step_call, run_call, find_call, part_call};
ghost use Rattle.export.specs.Packed.{packed, packed_part, sent, packed_call, sent_run, packed_run};

use device::{Event, Fields, Refusal, Response, Suite};

// What the detail is worth in a packed answer, and the length in a packed part.
const DETAIL: u32 = 256;

const LENGTH: u64 = 4294967296;

const RECORD_SIZE: u64 = store::RECORD_SIZE as u64;

// No `From`: a type of this crate around the number would be opened at each call.
fn pack(response: Response) -> u32
    ensures { result ≡ packed response }
{
    u32::from(response.number) + DETAIL * u32::from(response.detail)
}

#[unsafe(no_mangle)]
pub extern "C" fn tm_new_state(state: &mut [u8]) -> u32
    ensures { sent result state.new ≡ packed_call (new_call state.old) }
{
    pack(monitor::new_state(state).into())
}

#[unsafe(no_mangle)]
pub extern "C" fn tm_check(policy: &[u8], state: &[u8]) -> u32
    ensures { result ≡ packed (check_call policy.now state.now) }
{
    pack(monitor::check(policy, state).into())
}

fn read_answer(event: Event) -> Result<(), Refusal>
    ensures { done result ≡ read_answer event }
{
    match event {
        Event::Unreadable => Err(Refusal::BadEvent),
        _ => Ok(()),
    }
}

#[unsafe(no_mangle)]
pub extern "C" fn tm_read_event(bytes: &[u8]) -> u32
    ensures { result ≡ packed (read_call bytes.now).response }
{
    pack(read_answer(monitor::read_event(bytes)).into())
}

#[unsafe(no_mangle)]
pub extern "C" fn tm_write_event(
    kind: u8,
    domain: u8,
    suite: u16,
    permission: u8,
    answer: u8,
    required: u64,
    optional: u64,
    bytes: &mut [u8],
) -> u32
    ensures { sent result bytes.new
        ≡ packed_call (write_call (read_event (field_bytes (numbers kind domain suite permission answer required optional))) bytes.old) }
{
    let event = events::event_with(Fields {
        kind,
        domain,
        suite,
        permission,
        answer,
        pad: 0,
        required,
        optional,
    });
    pack(monitor::write_event(event, bytes).into())
}

#[unsafe(no_mangle)]
pub extern "C" fn tm_step(policy: &[u8], state: &mut [u8], event: &[u8]) -> u32
    ensures { sent result state.new
        ≡ packed_call (step_call policy.now state.old event.now) }
{
    pack(monitor::step(policy, state, event).into())
}

#[unsafe(no_mangle)]
pub extern "C" fn tm_run(
    policy: &[u8],
    state: &mut [u8],
    events: &[u8],
    out: &mut [u8],
    count: &mut u64,
) -> u32
    ensures { sent_run result count.new state.new out.new
        ≡ packed_run (run_call policy.now state.old events.now out.old) }
{
    let outcome = monitor::run(policy, state, events, out);
    *count = outcome.unwrap_or(0) as u64;
    pack(outcome.map(|_| ()).into())
}

#[unsafe(no_mangle)]
pub extern "C" fn tm_find(policy: &[u8], state: &[u8], suite: u16) -> u32
    ensures { result ≡ packed (find_call policy.now state.now (record { 0 = suite })) }
{
    pack(monitor::find(policy, state, Suite(suite)).into())
}

// The record of slot k, as `checks::place` bounds it: `offset | length << 32`.
fn slot_part(k: usize) -> u64
    requires { k < slot_count }
    ensures { result ≡ packed_part (record { from = record_size * suc k; size = record_size }) }
{
    LENGTH * RECORD_SIZE + RECORD_SIZE * (k as u64) + RECORD_SIZE
}

#[tactic(auto, unfolding(checks::specs::Parts::place_call, model::specs::Calls::part_call))]
#[unsafe(no_mangle)]
pub extern "C" fn tm_record(policy: &[u8], state: &[u8], suite: u16) -> u64
    ensures { result ≡ packed_part (part_call policy.now state.now (record { 0 = suite })) }
{
    match checks::place(policy, state, Suite(suite)) {
        Ok(k) => slot_part(k),
        Err(_) => 0,
    }
}
