// What a terminal lends, checked for itself: the policy, and the whole stored state, a word at a time.
#![tactic(auto)]

ghost use Rattle.std.specs.Prelude.{◌≡◌, true, not, ◌&&◌, [], suc, ◌+◌, ◌*◌, ◌<◌, ◌≤◌, length, MatchResult};
ghost use Rattle.device.specs.declared.Mode.{Mode};
ghost use Rattle.device.specs.declared.Mode.TheVariants.{Oneshot};
ghost use Rattle.device.specs.Device.{domain_count, slot_count, has, every};
ghost use Rattle.device.specs.Answers.{done, refusing, DONE};
ghost use Rattle.model.specs.Policy.{Fixed, fixed_by, policy_valid};
ghost use Rattle.model.specs.State.{record_size, session_zeros, read_state};
ghost use Rattle.model.specs.Valid.{◌⇒◌, all_fit, fits, slot_sound, own_number, slot_decided};
ghost use Rattle.model.specs.Valid.{session_decided, session_valid, state_valid};
ghost use Rattle.model.specs.Calls.{leaving, new_call, check_call, find_call, part_call};
ghost use Rattle.checks.specs.Rows.{low_bits, admitting, row_of, rows_of, RowIs};
ghost use Rattle.checks.specs.Walk.{lower_of, slot_record_valid, slot_records_valid};
ghost use Rattle.checks.specs.Parts.{IsPart, placing, place_call};

use device::{Decisions, Domain, Refusal, Session, Slot, Suite};
use words::Word;

const DOMAIN_COUNT: usize = Domain::COUNT as usize;

pub const POLICY_SIZE: usize = device::ROW_SIZE * DOMAIN_COUNT;

// What a domain says of the permissions: those that it offers, those that it has the user asked about, and those of
// them that may be granted for a session, and for good.
#[derive(Clone, Copy)]
struct Row {
    offered: u64,
    asked: u64,
    session: u64,
    blanket: u64,
}

// A policy with its rows.
#[derive(Clone, Copy)]
struct Policy<'a> {
    cells: &'a [u8],
    rows: [Row; DOMAIN_COUNT],
    ghost made: { rows ≡ rows_of (fixed_by cells.now) },
}

// The policy has its size, and no cell is above 4.
#[tactic(auto, unfolding(model::specs::Policy::policy_valid))]
pub fn check_policy(policy: &[u8]) -> bool
    ensures { result ≡ policy_valid policy.now }
{
    if policy.len() != POLICY_SIZE {
        return false;
    }
    let mut valid = true;
    for cell in policy {
        valid &= *cell <= device::ALLOWING;
    }
    valid
}

// ---- sets, a word at a time

#[tactic(auto, using(crate::proofs::Sets::within_every))]
fn within(a: u64, b: u64) -> bool
    ensures { result ≡ every (λ p. has a p ⇒ has b p) }
{
    a & b == a
}

#[tactic(auto, using(crate::proofs::Sets::apart_every))]
fn apart(a: u64, b: u64) -> bool
    ensures { result ≡ every (λ p. not (has a p && has b p)) }
{
    a & b == 0
}

// ---- the rows of the policy

// What the bytes 1, 2 and 3 of a word are worth.
const BYTE_1: u32 = 256;

const BYTE_2: u32 = 256 * BYTE_1;

const BYTE_3: u32 = 256 * BYTE_2;

// A product with `GATHER` has the bit worth 1 of byte i at `GATHERED` times 2 to the power i, and no two of its terms meet.
const GATHERED: u64 = 2097152;

const GATHER: u64 = 1 + 128 + 128 * 128 + GATHERED;

// What four bits can hold, and so what a set is worth behind the bits of four more permissions.
const FOUR_BITS: u64 = 16;

// The lowest bits of four cells, the first one's lowest.
#[tactic(auto, using(crate::proofs::Rows::by_product))]
fn low_bits(cells: u32) -> u64
    ensures { result ≡ low_bits 4 cells }
{
    let bits = cells % 2
        + BYTE_1 * (cells / BYTE_1 % 2)
        + BYTE_2 * (cells / BYTE_2 % 2)
        + BYTE_3 * (cells / BYTE_3 % 2);
    u64::from(bits) * GATHER / GATHERED % FOUR_BITS
}

// From the three bits of its cells: 1, 2 and 3 have the user asked, and 4 is the one that has the bit worth 4. Four cells at a time.
#[tactic(auto, using(crate::proofs::Rows::row_sizes), unfolding(crate::specs::Rows::set_from))]
fn row_of(policy: &[u8], domain: usize) -> Row
    requires { (policy_valid policy.now ≡ true) × (domain < domain_count) }
    ensures { result ≡ row_of (fixed_by policy.now) (record { 0 = domain }) }
{
    let start = device::ROW_SIZE * domain;
    let mut ones: u64 = 0;
    let mut twos: u64 = 0;
    let mut fours: u64 = 0;
    for i in (0..device::ROW_SIZE / 4).rev() {
        let cells = u32::read(policy, start + 4 * i);
        ones = FOUR_BITS * ones + low_bits(cells);
        twos = FOUR_BITS * twos + low_bits(cells / 2);
        fours = FOUR_BITS * fours + low_bits(cells / 4);
    }
    Row {
        offered: ones | twos | fours,
        asked: ones | twos,
        session: twos,
        blanket: ones & twos,
    }
}

fn rows_of(policy: &[u8]) -> [Row; DOMAIN_COUNT]
    requires { policy_valid policy.now ≡ true }
    ensures { result ≡ rows_of (fixed_by policy.now) }
{
    std::array::from_fn(|domain| row_of(policy, domain))
}

// ---- a slot

// The row of x's domain is looked up once, and goes with x to each of the tests.
#[tactic(auto, using(crate::proofs::Slots::sound_free, crate::proofs::Slots::sound_astray))]
fn slot_sound(x: Slot, row: Row) -> bool
    ensures { (f : Fixed) → RowIs f x.domain row → result ≡ slot_sound f x }
{
    if x.suite == Suite(0) {
        return x == Slot::free();
    }
    x.domain.in_range() && within(x.descriptor.required, row.offered)
}

// No lower slot than k has the number. `k < slot_count` is no type: k counts in `for k in 0..SLOT_COUNT`.
#[tactic(auto, unfolding(model::specs::Valid::among, crate::specs::Walk::lower_of), using(crate::proofs::Slots::lower_next))]
fn own_number(state: &[u8; store::STATE_SIZE], k: usize, suite: Suite) -> bool
    requires { k < slot_count }
    ensures { result ≡ own_number (lower_of state.now k) suite }
{
    if suite == Suite(0) {
        return true;
    }
    let mut seen = false;
    for j in 0..k {
        seen |= Suite(u16::read(state, store::RECORD_SIZE + store::RECORD_SIZE * j)) == suite;
    }
    !seen
}

// The decisions d of x's suite: grants are declared and of the sort that may be granted, revocations declared and of
// the sort that is asked, and none is both.
fn fits(d: Decisions, x: Slot, grantable: u64, asked: u64) -> bool
    ensures { (f : Fixed) (m : Mode) → grantable ≡ admitting f x.domain m
        → asked ≡ admitting f x.domain Oneshot → result ≡ all_fit d (fits f x m d) }
{
    let declared = x.descriptor.required | x.descriptor.optional;
    within(d.granted, declared & grantable)
        & (within(d.revoked, declared & asked) & apart(d.granted, d.revoked))
}

fn slot_decided(x: Slot, row: Row) -> bool
    ensures { (f : Fixed) → row ≡ row_of f x.domain → result ≡ slot_decided f x }
{
    fits(x.decisions, x, row.blanket, row.asked)
}

// ---- the session

fn session_decided(r: Session, x: Slot, row: Row) -> bool
    ensures { (f : Fixed) → row ≡ row_of f x.domain → result ≡ session_decided f r x }
{
    let held = r.decisions;
    let kept = x.decisions;
    fits(held, x, row.session, row.asked)
        & apart(held.granted | held.revoked, kept.granted | kept.revoked)
}

// ---- the state

impl<'a> Policy<'a> {
    // A byte that is no domain takes some other row, and its slot is wrong in itself: no byte drives the index out of range.
    #[tactic(auto, using(crate::proofs::Rows::row_is))]
    fn row(&self, domain: Domain) -> Row
        ensures { RowIs (fixed_by self.now.cells.now) domain result }
    {
        self.rows[usize::from(domain.0) % DOMAIN_COUNT]
    }

    // Slot k: wrong in itself, a number seen before, a decision wrong.
    fn slot_valid(&self, state: &[u8; store::STATE_SIZE], k: usize) -> bool
        requires { k < slot_count }
        ensures { result ≡ slot_record_valid (fixed_by self.now.cells.now) state.now k }
    {
        let x = store::read_slot(state, k);
        let row = self.row(x.domain);
        store::slot_zeros(state, store::RECORD_SIZE + store::RECORD_SIZE * k)
            && slot_sound(x, row)
            && own_number(state, k, x.suite)
            && slot_decided(x, row)
    }

    #[tactic(auto, unfolding(crate::specs::Walk::lower_of), using(crate::proofs::Slots::walk))]
    fn slots_valid(&self, state: &[u8; store::STATE_SIZE]) -> bool
        ensures { result ≡ slot_records_valid (fixed_by self.now.cells.now) state.now [] slot_count record_size }
    {
        for k in 0..store::SLOT_COUNT {
            if !self.slot_valid(state, k) {
                return false;
            }
        }
        true
    }

    // Record 0, behind valid slots: wrong in itself, a decision wrong.
    fn session_valid(&self, state: &[u8; store::STATE_SIZE]) -> bool
        requires { slot_records_valid (fixed_by self.now.cells.now) state.now [] slot_count record_size ≡ true }
        ensures { result ≡ (session_zeros state.now && session_valid (fixed_by self.now.cells.now) (read_state state.now)) }
    {
        if !store::session_zeros(state) {
            return false;
        }
        let r = store::read_session(state);
        if r.suite == Suite(0) {
            return r == Session::idle();
        }
        let Some(k) = store::place_of(state, r.suite) else {
            return false;
        };
        let x = store::read_slot(state, k);
        session_decided(r, x, self.row(x.domain))
    }

    #[tactic(auto, using(crate::proofs::Slots::state_records))]
    fn state_valid(&self, state: &[u8; store::STATE_SIZE]) -> bool
        ensures { result ≡ state_valid (fixed_by self.now.cells.now) state.now }
    {
        self.slots_valid(state) && self.session_valid(state)
    }
}

// ---- the calls

// A new state, all zero; 17 for another size.
#[tactic(auto, unfolding(model::specs::Calls::new_call))]
pub fn new_state(state: &mut [u8]) -> Result<(), Refusal>
    ensures { leaving state.new (done result) ≡ new_call state.old }
{
    if state.len() != store::STATE_SIZE {
        return Err(Refusal::BadState);
    }
    state.fill(0);
    Ok(())
}

// What `check` says, with the whole state where both are valid.
#[tactic(auto, unfolding(model::specs::Calls::check_call, model::specs::Valid::state_valid))]
fn checked<'a>(policy: &[u8], state: &'a [u8]) -> Result<&'a [u8; store::STATE_SIZE], Refusal>
    ensures { MatchResult result (λ whole. (whole.now ≡ state.now) × (check_call policy.now state.now ≡ DONE))
        (λ refusal. check_call policy.now state.now ≡ refusing refusal) }
{
    if !check_policy(policy) {
        return Err(Refusal::BadPolicy);
    }
    let Some(whole) = state.as_array() else {
        return Err(Refusal::BadState);
    };
    let rows = rows_of(policy);
    let passed = Policy {
        cells: policy,
        rows,
    };
    if !passed.state_valid(whole) {
        return Err(Refusal::BadState);
    }
    Ok(whole)
}

// The policy and the state: 16, 17.
pub fn check(policy: &[u8], state: &[u8]) -> Result<(), Refusal>
    ensures { done result ≡ check_call policy.now state.now }
{
    checked(policy, state)?;
    Ok(())
}

// What `find` says, with the place of the suite's slot, from 0, where it is installed.
#[tactic(auto, unfolding(crate::specs::Parts::place_call, model::specs::Calls::find_call))]
pub fn place(policy: &[u8], state: &[u8], suite: Suite) -> Result<usize, Refusal>
    ensures { placing result ≡ place_call policy.now state.now suite }
{
    let whole = checked(policy, state)?;
    if !suite.in_range() {
        return Err(Refusal::NotInstalled);
    }
    store::place_of(whole, suite).ok_or(Refusal::NotInstalled)
}

// Whether the suite is installed: 16, 17, then 21; suite 0 never is.
#[tactic(auto, unfolding(crate::specs::Parts::place_call))]
pub fn find(policy: &[u8], state: &[u8], suite: Suite) -> Result<(), Refusal>
    ensures { done result ≡ find_call policy.now state.now suite }
{
    place(policy, state, suite)?;
    Ok(())
}

fn slot_part(state: &[u8], k: usize) -> &[u8]
    requires { record_size * suc k + record_size ≤ length state.now }
    ensures { IsPart state.entry (record { from = record_size * suc k; size = record_size }) result }
{
    let a = store::RECORD_SIZE + store::RECORD_SIZE * k;
    &state[a..a + store::RECORD_SIZE]
}

// The suite's 40 bytes, where they lie in the state; none of them, as `part_call` has it, exactly when `find` refuses.
#[tactic(auto, unfolding(crate::specs::Parts::place_call, model::specs::Calls::part_call))]
pub fn suite_record<'a>(policy: &[u8], state: &'a [u8], suite: Suite) -> &'a [u8]
    ensures { IsPart state.entry (part_call policy.now state.now suite) result }
{
    match place(policy, state, suite) {
        Ok(k) => slot_part(state, k),
        Err(_) => &state[..0],
    }
}
