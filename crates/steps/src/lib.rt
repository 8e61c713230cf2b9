// The five events, in place: from bytes that hold a state to bytes that hold the next one.
#![tactic(auto)]

mod terminal;

ghost use Rattle.std.specs.Prelude.{◌≡◌, true, ◌<◌};
ghost use Rattle.device.specs.declared.Decisions.{Decisions};
ghost use Rattle.device.specs.declared.Event.TheVariants.{Install, Remove, Start, Terminate, Request};
ghost use Rattle.device.specs.Device.{permission_count};
ghost use Rattle.device.specs.Answers.{answered};
ghost use Rattle.model.specs.Policy.{fixed_by};
ghost use Rattle.model.specs.State.{read_state};
ghost use Rattle.model.specs.Step.{running_slot, keep, enter};
ghost use Rattle.store.specs.Holds.{found};
ghost use Rattle.steps.specs.Did.{Running, lacking_one, running_place, Knows, named};
ghost use Rattle.steps.specs.Carried.{Carried, Left};

use device::{
    Answer, Decisions, Descriptor, Domain, Event, Mode, Permission, Refusal, Session, Slot, Suite,
    UserAnswer,
};
use store::STATE_SIZE;
pub use terminal::Terminal;

// The cell of a permission in a domain; 0 where the policy has none.
#[tactic(auto, unfolding(model::specs::Policy::fixed_by))]
fn cell(policy: &[u8], domain: Domain, p: Permission) -> u8
    ensures { result ≡ (fixed_by policy.now).cell domain p }
{
    let i = device::ROW_SIZE * usize::from(domain.0) + usize::from(p.0);
    policy.get(i).copied().unwrap_or(0)
}

// The lowest permission that is required and not offered.
fn lacking(policy: &[u8], x: Descriptor, domain: Domain) -> Option<Permission>
    ensures { result ≡ lacking_one (fixed_by policy.now) x domain }
{
    for p in 0..Permission::COUNT {
        let offers = device::offered(cell(policy, domain, Permission(p)));
        if words::has(x.required, p) & !offers {
            return Some(Permission(p));
        }
    }
    None
}

// What runs; 19 where nothing does.
fn running(state: &[u8; STATE_SIZE]) -> Result<Session, Refusal>
    ensures { Running (read_state state.now).session result }
{
    let session = store::read_session(state);
    if session.suite == Suite(0) {
        return Err(Refusal::NoSession);
    }
    Ok(session)
}

// The place of the running suite's slot, looked up where it is not known.
fn running_at(state: &[u8; STATE_SIZE], known: Option<usize>, running: Suite) -> Option<usize>
    requires known { Knows (read_state state.now) known }
    requires running { running ≡ (read_state state.now).session.suite }
    ensures { result ≡ found (running_place (read_state state.now)) }
{
    known.or_else(|| store::place_of(state, running))
}

impl Terminal<'_> {
    #[tactic(auto, unfolding(model::specs::Step::step, crate::specs::Did::lacking_one), using(store::proofs::Places::carries_rules, model::proofs::Slots::amend_place))]
    fn install(&mut self, i: Suite, x: Descriptor, domain: Domain) -> Result<Answer, Refusal>
        ensures { Carried self.old self.new (Install i x domain) (answered result) }
    {
        self.place = None;
        if store::place_of(self.state, i).is_some() {
            return Err(Refusal::Installed);
        }
        if let Some(p) = lacking(self.policy, x, domain) {
            return Err(Refusal::NotOffered(p));
        }
        let room = store::place_of(self.state, Suite(0)).ok_or(Refusal::NoRoom)?;
        store::write_slot(
            self.state,
            room,
            Slot {
                suite: i,
                domain,
                descriptor: x,
                decisions: Decisions::none(),
            },
        );
        Ok(Answer::Done)
    }

    #[tactic(auto, unfolding(model::specs::Step::step), using(store::proofs::Places::carries_rules, model::proofs::Slots::amend_place))]
    fn remove(&mut self, i: Suite) -> Result<Answer, Refusal>
        ensures { Carried self.old self.new (Remove i) (answered result) }
    {
        self.place = None;
        let k = store::place_of(self.state, i).ok_or(Refusal::NotInstalled)?;
        if store::read_session(self.state).suite == i {
            return Err(Refusal::Active);
        }
        store::write_slot(self.state, k, Slot::free());
        Ok(Answer::Done)
    }

    #[tactic(auto, unfolding(model::specs::Step::step), using(store::proofs::Places::carries_rules))]
    fn start(&mut self, i: Suite) -> Result<Answer, Refusal>
        ensures { Carried self.old self.new (Start i) (answered result) }
    {
        self.place = None;
        if store::read_session(self.state).suite != Suite(0) {
            return Err(Refusal::Busy);
        }
        let k = store::place_of(self.state, i).ok_or(Refusal::NotInstalled)?;
        store::write_session(
            self.state,
            Session {
                suite: i,
                decisions: Decisions::none(),
            },
        );
        self.place = Some(k);
        Ok(Answer::Done)
    }

    #[tactic(auto, unfolding(model::specs::Step::step))]
    fn terminate(&mut self) -> Result<Answer, Refusal>
        ensures { Carried self.old self.new Terminate (answered result) }
    {
        self.place = None;
        running(self.state)?;
        store::write_session(self.state, Session::idle());
        Ok(Answer::Done)
    }

    // A decision that holds as long as m says: in the session, in the slot at k, nowhere.
    #[tactic(auto, using(model::proofs::Slots::amend_place))]
    fn keep<F: FnOnce(Decisions) -> Decisions>(
        &mut self,
        k: usize,
        m: Mode,
        session: Session,
        slot: Slot,
        decide: F,
    )
        requires place { k ≡ running_place (read_state self.old.state.now) }
        requires session { session ≡ (read_state self.old.state.now).session }
        requires slot { slot ≡ running_slot (read_state self.old.state.now) }
        requires callable { F.IsAlwaysCallable decide }
        ensures { (g : Decisions → Decisions) → ((d r : Decisions) → F.post decide d r → r ≡ g d)
            → Left self.old self.new (keep m g (read_state self.old.state.now)) }
    {
        match m {
            Mode::Oneshot => {}
            Mode::Session => {
                let decisions = decide(session.decisions);
                store::write_session(
                    self.state,
                    Session {
                        decisions,
                        ..session
                    },
                );
            }
            Mode::Blanket => {
                let decisions = decide(slot.decisions);
                store::write_slot(self.state, k, Slot { decisions, ..slot });
            }
        }
    }

    // The user's answer is entered for the running suite, which has this session and this slot.
    fn enter(&mut self, k: usize, session: Session, slot: Slot, p: Permission, u: UserAnswer)
        requires place { k ≡ running_place (read_state self.old.state.now) }
        requires session { session ≡ (read_state self.old.state.now).session }
        requires slot { slot ≡ running_slot (read_state self.old.state.now) }
        requires permission { p.0 < permission_count }
        ensures { Left self.old self.new (enter u p (read_state self.old.state.now)) }
    {
        match u {
            UserAnswer::None => {}
            UserAnswer::Allow(m) => self.keep(k, m, session, slot, |d| rules::grant(d, p)),
            UserAnswer::Deny(m) => self.keep(k, m, session, slot, |d| rules::revoke(d, p)),
        }
    }

    // The one look-up of a standing decision: in the session, and in the running suite's own slot, which has its number.
    #[tactic(auto, unfolding(model::specs::Step::step, model::specs::Step::request, model::specs::Step::judged), using(crate::proofs::Requests::answers))]
    fn request(&mut self, p: Permission, u: UserAnswer) -> Result<Answer, Refusal>
        requires { p.0 < permission_count }
        ensures { Carried self.old self.new (Request p u) (answered result) }
    {
        let known = self.place.take();
        let session = running(self.state)?;
        self.place = running_at(self.state, known, session.suite);
        let Some(k) = self.place else {
            // A suite without a slot declares nothing.
            return Err(Refusal::NotDeclared);
        };
        let slot = store::read_slot(self.state, k);
        let answer = rules::decision(
            rules::declared(slot, p),
            cell(self.policy, slot.domain, p),
            rules::standing(p, session.decisions, slot.decisions),
            u,
        )?;
        self.enter(k, session, slot, p, u);
        Ok(answer)
    }

    // Any event.
    pub fn step(&mut self, event: Event) -> Result<Answer, Refusal>
        requires { named event ≡ true }
        ensures { Carried self.old self.new event (answered result) }
    {
        match event {
            Event::Unreadable => {
                self.place = None;
                Err(Refusal::BadEvent)
            }
            Event::Install(i, x, d) => self.install(i, x, d),
            Event::Remove(i) => self.remove(i),
            Event::Start(i) => self.start(i),
            Event::Terminate => self.terminate(),
            Event::Request(p, u) => self.request(p, u),
        }
    }
}
