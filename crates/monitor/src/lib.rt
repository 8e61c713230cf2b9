// The calls that a terminal links. Each takes every input, however damaged, and has no precondition.
#![tactic(auto)]

ghost use Rattle.std.specs.Prelude.{◌≡◌, true, [], ◌∷◌, ◌+◌, ◌*◌, ◌≤◌, length};
ghost use Rattle.std.proofs.lemmas.List.Edits.{sets};
ghost use Rattle.device.specs.Answers.{done, answered};
ghost use Rattle.model.specs.Policy.{policy_valid, fixed_by};
ghost use Rattle.model.specs.State.{read_state};
ghost use Rattle.model.specs.Events.{read_event, event_size};
ghost use Rattle.model.specs.Step.{step};
ghost use Rattle.model.specs.Calls.{reading, read_call, leaving, new_call, write_call, check_call, step_call, record_at, events_from, answer_size, run_call};
ghost use Rattle.model.specs.Calls.{ran, find_call, part_call};
ghost use Rattle.store.specs.Holds.{WellFormed};
ghost use Rattle.checks.specs.Parts.{IsPart};
ghost use Rattle.steps.specs.Did.{Did, named};
ghost use Rattle.monitor.specs.Turned.{Turned, RanThrough};

use device::{Answer, Event, Refusal, Response, Suite};
use events::EVENT_SIZE;
use steps::Terminal;
use store::STATE_SIZE;
use words::Word;

// An answer in a run's output: its number, and its detail.
pub const ANSWER_SIZE: usize = 2;

// A new state, all zero: 17 for another size than 1,320 bytes.
pub fn new_state(state: &mut [u8]) -> Result<(), Refusal>
    ensures { leaving state.new (done result) ≡ new_call state.old }
{
    checks::new_state(state)
}

// The event whose record it is, or `Unreadable`, which is refusal 18.
pub fn read_event(bytes: &[u8]) -> Event
    ensures { reading result ≡ read_call bytes.now }
{
    events::read_event(bytes)
}

// The event's record: 18, 30.
pub fn write_event(event: Event, bytes: &mut [u8]) -> Result<(), Refusal>
    ensures { leaving bytes.new (done result) ≡ write_call event bytes.old }
{
    events::write_event(event, bytes)
}

// The policy alone, for a caller that has no state yet.
pub fn check_policy(policy: &[u8]) -> bool
    ensures { result ≡ policy_valid policy.now }
{
    checks::check_policy(policy)
}

// 16, 17.
pub fn check(policy: &[u8], state: &[u8]) -> Result<(), Refusal>
    ensures { done result ≡ check_call policy.now state.now }
{
    checks::check(policy, state)
}

// Whether the suite is installed: 16, 17, 21.
pub fn find(policy: &[u8], state: &[u8], suite: Suite) -> Result<(), Refusal>
    ensures { done result ≡ find_call policy.now state.now suite }
{
    checks::find(policy, state, suite)
}

// The suite's 40 bytes, where they lie in the state; none of them exactly when `find` refuses.
pub fn suite_record<'a>(policy: &[u8], state: &'a [u8], suite: Suite) -> &'a [u8]
    ensures { IsPart state.entry (part_call policy.now state.now suite) result }
{
    checks::suite_record(policy, state, suite)
}

// The checks are done before this.
fn step_once(policy: &[u8], state: &mut [u8; STATE_SIZE], event: Event) -> Result<Answer, Refusal>
    requires holds { WellFormed state.old }
    requires named { named event ≡ true }
    ensures { Did (step (fixed_by policy.now) (read_state state.old) event) state.new (answered result) }
{
    let mut terminal = Terminal {
        policy,
        state,
        place: None,
    };
    terminal.step(event)
}

// One event: 16, 17, 18, then by event.
#[tactic(auto, using(crate::proofs::Laws::step_laws))]
pub fn step(policy: &[u8], state: &mut [u8], bytes: &[u8]) -> Result<Answer, Refusal>
    ensures { leaving state.new (answered result) ≡ step_call policy.now state.old bytes.now }
{
    check(policy, state)?;
    let checked = state.as_mut_array().unwrap();
    step_once(policy, checked, read_event(bytes))
}

fn put_answer(out: &mut [u8], i: usize, response: Response)
    requires { answer_size * i + answer_size ≤ length out.old }
    ensures { out.new ≡ sets out.old (answer_size * i) (response.number ∷ response.detail ∷ []) }
{
    response.number.write(out, ANSWER_SIZE * i);
    response.detail.write(out, ANSWER_SIZE * i + 1);
}

// Event i of the records, and its answer into its own two bytes.
#[tactic(auto, using(crate::proofs::Laws::named_read))]
fn turn(terminal: &mut Terminal, records: &[u8], out: &mut [u8], i: usize)
    requires recorded { event_size * i + event_size ≤ length records.now }
    requires room { answer_size * i + answer_size ≤ length out.old }
    ensures turned { Turned (fixed_by terminal.old.policy.now) (read_state terminal.old.state.now)
        (read_event (record_at records.now i)) i out.old terminal.new.state.now out.new terminal.new.place }
    ensures policy { terminal.new.policy ≡ terminal.old.policy }
    ensures lent { terminal.new.state.ghost_name ≡ terminal.old.state.ghost_name }
{
    let a = EVENT_SIZE * i;
    let event = read_event(&records[a..a + EVENT_SIZE]);
    let outcome = terminal.step(event);
    put_answer(out, i, Response::from(outcome));
}

// Each event in turn. The place of the running suite's slot is carried on.
fn turns(terminal: &mut Terminal, records: &[u8], out: &mut [u8], n: usize)
    requires recorded { event_size * n ≤ length records.now }
    requires room { length out.old ≡ answer_size * n }
    ensures through { RanThrough (fixed_by terminal.old.policy.now) (read_state terminal.old.state.now)
        (events_from records.now n 0) terminal.new.state.now out.new }
    ensures lent { terminal.new.state.ghost_name ≡ terminal.old.state.ghost_name }
{
    for i in 0..n {
        turn(terminal, records, out, i);
    }
}

// The checks are done before this.
fn run_events(policy: &[u8], state: &mut [u8; STATE_SIZE], records: &[u8], out: &mut [u8], n: usize)
    requires holds { WellFormed state.old }
    requires recorded { event_size * n ≤ length records.now }
    requires room { length out.old ≡ answer_size * n }
    ensures { RanThrough (fixed_by policy.now) (read_state state.old) (events_from records.now n 0) state.new out.new }
{
    let mut terminal = Terminal {
        policy,
        state,
        place: None,
    };
    turns(&mut terminal, records, out, n);
}

// Every event, one after another: 16, 17, 30, else every event answered in its own two bytes, and their number.
#[tactic(auto, using(crate::proofs::Laws::run_laws))]
pub fn run(
    policy: &[u8],
    state: &mut [u8],
    records: &[u8],
    out: &mut [u8],
) -> Result<usize, Refusal>
    ensures { ran result state.new out.new ≡ run_call policy.now state.old records.now out.old }
{
    check(policy, state)?;
    let n = records.len() / EVENT_SIZE;
    let whole = (records.len() % EVENT_SIZE == 0) & (out.len() == ANSWER_SIZE * n);
    if !whole {
        return Err(Refusal::BadLength);
    }
    let checked = state.as_mut_array().unwrap();
    run_events(policy, checked, records, out, n);
    Ok(n)
}
