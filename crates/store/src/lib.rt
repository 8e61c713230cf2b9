// The lent state: one record read or written in place, and the place of a suite.
#![tactic(auto)]

ghost use Rattle.std.specs.Prelude.{◌≡◌, ◌+◌, ◌≤◌, length, get_or};
ghost use Rattle.std.proofs.lemmas.List.Edits.{sets};
ghost use Rattle.device.specs.Empty.{free};
ghost use Rattle.model.specs.State.{record_size, with_session, place, read_state};
ghost use Rattle.model.specs.State.{session_bytes, session_zeros, slot_at, slot_bytes, slot_zeros};
ghost use Rattle.store.specs.Holds.{Holds, WellFormed, with_slot, found};

use device::{Decisions, Descriptor, Domain, Session, Slot, Suite};
use words::Word;

// A record for the session, and behind it one for each slot.
pub const RECORD_SIZE: usize = 40;

pub const SLOT_COUNT: usize = 32;

pub const STATE_SIZE: usize = RECORD_SIZE * (SLOT_COUNT + 1);

// The slot whose record begins at place a, as the definitions have it: an array of 40 would be cut out by the same bounds.
#[tactic(auto, unfolding(model::specs::State::slot_at))]
fn slot_at(state: &[u8], a: usize) -> Slot
    requires { a + record_size ≤ length state.now }
    ensures { result ≡ slot_at state.now a }
{
    Slot {
        suite: Suite(u16::read(state, a)),
        domain: Domain(state[a + 2]),
        descriptor: Descriptor {
            required: u64::read(state, a + 8),
            optional: u64::read(state, a + 16),
        },
        decisions: Decisions {
            granted: u64::read(state, a + 24),
            revoked: u64::read(state, a + 32),
        },
    }
}

fn put_slot(state: &mut [u8], a: usize, x: Slot)
    requires { a + record_size ≤ length state.old }
    ensures { state.new ≡ sets state.old a (slot_bytes x) }
{
    x.suite.0.write(state, a);
    x.domain.0.write(state, a + 2);
    0u8.write(state, a + 3);
    0u32.write(state, a + 4);
    x.descriptor.required.write(state, a + 8);
    x.descriptor.optional.write(state, a + 16);
    x.decisions.granted.write(state, a + 24);
    x.decisions.revoked.write(state, a + 32);
}

#[tactic(auto, unfolding(model::specs::State::session_bytes, words::specs::Numbers::bytes_of))]
fn put_session(state: &mut [u8; STATE_SIZE], r: Session)
    ensures { state.new ≡ sets state.old 0 (session_bytes r) }
{
    r.suite.0.write(state, 0);
    0u16.write(state, 2);
    0u32.write(state, 4);
    r.decisions.granted.write(state, 8);
    r.decisions.revoked.write(state, 16);
    0u64.write(state, 24);
    0u64.write(state, 32);
}

#[tactic(auto, unfolding(model::specs::State::read_state, model::specs::State::session_at))]
pub fn read_session(state: &[u8; STATE_SIZE]) -> Session
    ensures { result ≡ (read_state state.now).session }
{
    Session {
        suite: Suite(u16::read(state, 0)),
        decisions: Decisions {
            granted: u64::read(state, 8),
            revoked: u64::read(state, 16),
        },
    }
}

// Slot k, from 0; a free one where there is none, and no `Option`: it can't fail, and its clause says so of every k.
#[tactic(auto, using(crate::proofs::Records::slot_reads), unfolding(model::specs::State::read_state))]
pub fn read_slot(state: &[u8; STATE_SIZE], k: usize) -> Slot
    ensures { result ≡ get_or (read_state state.now).slots k free }
{
    if SLOT_COUNT <= k {
        return Slot::free();
    }
    slot_at(state, RECORD_SIZE + RECORD_SIZE * k)
}

// `WellFormed` is a clause here: a type that held the bytes would stand inside `Terminal`, which has it as a field.
pub fn write_session(state: &mut [u8; STATE_SIZE], r: Session)
    requires { WellFormed state.old }
    ensures { Holds state.new (with_session r (read_state state.old)) }
{
    put_session(state, r);
}

// Slot k, from 0; nothing where there is none, as its clause says of every k.
#[tactic(auto, using(crate::proofs::Holding::hold_none))]
pub fn write_slot(state: &mut [u8; STATE_SIZE], k: usize, x: Slot)
    requires { WellFormed state.old }
    ensures { Holds state.new (with_slot k x (read_state state.old)) }
{
    if k < SLOT_COUNT {
        put_slot(state, RECORD_SIZE + RECORD_SIZE * k, x);
    }
}

// The place of the first slot with that number, from 0; of suite 0, that of the lowest free slot.
#[tactic(auto, using(crate::proofs::Places::place_pass), unfolding(model::specs::State::read_state))]
pub fn place_of(state: &[u8; STATE_SIZE], suite: Suite) -> Option<usize>
    ensures { result ≡ found (place suite (read_state state.now).slots) }
{
    for k in 0..SLOT_COUNT {
        if Suite(u16::read(state, RECORD_SIZE + RECORD_SIZE * k)) == suite {
            return Some(k);
        }
    }
    None
}

// The bytes of record 0 that no field has are zero.
pub fn session_zeros(state: &[u8; STATE_SIZE]) -> bool
    ensures { result ≡ session_zeros state.now }
{
    ((u16::read(state, 2) == 0) & (u32::read(state, 4) == 0))
        & ((u64::read(state, 24) == 0) & (u64::read(state, 32) == 0))
}

// The same of the slot record that begins at place a.
pub fn slot_zeros(state: &[u8], a: usize) -> bool
    requires { a + record_size ≤ length state.now }
    ensures { result ≡ slot_zeros state.now a }
{
    (state[a + 3] == 0) & (u32::read(state, a + 4) == 0)
}
