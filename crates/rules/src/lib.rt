// The decision on a request, by value: from what is declared, the cell, what stands and what the user answers.
#![tactic(auto)]

ghost use Rattle.std.specs.Prelude.{◌≡◌, ◌<◌};
ghost use Rattle.device.specs.Cells.{offered, admits};
ghost use Rattle.device.specs.Device.{permission_count};
ghost use Rattle.device.specs.Answers.{answering, answered};
ghost use Rattle.model.specs.Valid.{declared};
ghost use Rattle.model.specs.Decision.{standing, stands, given, too_wide, settled, decision, grant, revoke};

use device::{Answer, Decisions, Mode, Permission, Refusal, Slot, Standing, UserAnswer};

// `p.0 < permission_count` is no invariant of `Permission`: an event may name 64, which `write_event` refuses.
#[tactic(auto, unfolding(model::specs::Valid::declared), using(words::proofs::Sets::member_or))]
pub fn declared(x: Slot, p: Permission) -> bool
    requires { p.0 < permission_count }
    ensures { result ≡ declared x p }
{
    words::has(x.descriptor.required | x.descriptor.optional, p.0)
}

// For the session or for good: the session's decisions, and those of its suite's own slot.
#[tactic(auto, unfolding(model::specs::Decision::standing), using(words::proofs::Sets::member_or))]
pub fn standing(p: Permission, session: Decisions, slot: Decisions) -> Standing
    requires { p.0 < permission_count }
    ensures { result ≡ standing p session slot }
{
    if words::has(session.granted | slot.granted, p.0) {
        return Standing::Granted;
    }
    if words::has(session.revoked | slot.revoked, p.0) {
        return Standing::Revoked;
    }
    Standing::Nothing
}

fn stands(w: Standing) -> bool
    ensures { result ≡ stands w }
{
    w != Standing::Nothing
}

fn given(u: UserAnswer) -> bool
    ensures { result ≡ given u }
{
    u != UserAnswer::None
}

// By the modes' numbers: by their order, a run of mixed events is a tenth slower.
fn admits(cell: u8, m: Mode) -> bool
    ensures { result ≡ admits cell m }
{
    Mode::highest(cell).is_some_and(|most| u8::from(m) <= u8::from(most))
}

// A denial has no bound.
fn too_wide(cell: u8, u: UserAnswer) -> bool
    ensures { result ≡ too_wide cell u }
{
    match u {
        UserAnswer::None => false,
        UserAnswer::Allow(m) => !admits(cell, m),
        UserAnswer::Deny(_) => false,
    }
}

fn settled(cell: u8, w: Standing, u: UserAnswer) -> Answer
    ensures { answering result ≡ settled cell w u }
{
    match (w, u) {
        (Standing::Granted, _) => Answer::Allowed,
        (Standing::Revoked, _) => Answer::Denied,
        (Standing::Nothing, UserAnswer::None) => Answer::Ask(cell),
        (Standing::Nothing, UserAnswer::Allow(_)) => Answer::Allowed,
        (Standing::Nothing, UserAnswer::Deny(_)) => Answer::Denied,
    }
}

// The refusals come first: 26, 27, 28, 29.
#[tactic(auto, unfolding(model::specs::Decision::decision))]
pub fn decision(declared: bool, cell: u8, w: Standing, u: UserAnswer) -> Result<Answer, Refusal>
    ensures { answered result ≡ decision declared cell w u }
{
    if !declared {
        return Err(Refusal::NotDeclared);
    }
    if !device::offered(cell) {
        return Err(Refusal::NoRight);
    }
    let stands = stands(w);
    let free = device::unconditional(cell);
    let unasked = given(u) & (free | stands);
    if unasked {
        return Err(Refusal::AnswerNotAsked);
    }
    let wide = too_wide(cell, u) & !stands;
    if wide {
        return Err(Refusal::ModeTooWide(cell));
    }
    if free {
        return Ok(Answer::Allowed);
    }
    Ok(settled(cell, w, u))
}

pub fn grant(d: Decisions, p: Permission) -> Decisions
    requires { p.0 < permission_count }
    ensures { result ≡ grant p d }
{
    Decisions {
        granted: words::with(d.granted, p.0),
        ..d
    }
}

pub fn revoke(d: Decisions, p: Permission) -> Decisions
    requires { p.0 < permission_count }
    ensures { result ≡ revoke p d }
{
    Decisions {
        revoked: words::with(d.revoked, p.0),
        ..d
    }
}
