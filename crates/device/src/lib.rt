// The types of the monitor, after documents 01 and 000, and the functions on them alone.
#![tactic(auto)]

ghost use Rattle.std.specs.Prelude.{◌≡◌};
ghost use Rattle.device.specs.Device.{is_suite, is_permission, is_domain, width, mode_of};
ghost use Rattle.device.specs.Cells.{offered, unconditional, highest};
ghost use Rattle.device.specs.UserAnswers.{answer_no, answer_of};
ghost use Rattle.device.specs.Empty.{undecided, free, idle};
ghost use Rattle.device.specs.Answers.{plain, refused, answering, refusing, done, answered};

// 000's three sets (3.1), kept apart: a suite's number, 0 for no suite, as in the stored bytes; a permission's; a domain's.
#[derive(Clone, Copy, PartialEq, Eq)]
pub struct Suite(pub u16);

#[derive(Clone, Copy, PartialEq, Eq)]
pub struct Permission(pub u8);

#[derive(Clone, Copy, PartialEq, Eq)]
pub struct Domain(pub u8);

// How long a user's decision holds: for one use, for the session, until the suite is removed.
#[derive(Clone, Copy, PartialEq, Eq, PartialOrd, Ord)]
pub enum Mode {
    Oneshot,
    Session,
    Blanket,
}

// One enum and no `Option`, as document 01 wants it.
#[derive(Clone, Copy, PartialEq, Eq)]
pub enum UserAnswer {
    None,
    Allow(Mode),
    Deny(Mode),
}

// The decision that stands on a permission, for the session or for good: three values, as the definitions have it.
#[derive(Clone, Copy, PartialEq, Eq)]
pub enum Standing {
    Nothing,
    Granted,
    Revoked,
}

// Sets of permissions, bit p for permission p.
#[derive(Clone, Copy, PartialEq, Eq)]
pub struct Descriptor {
    pub required: u64,
    pub optional: u64,
}

#[derive(Clone, Copy, PartialEq, Eq)]
pub struct Decisions {
    pub granted: u64,
    pub revoked: u64,
}

// An installed suite with its blanket decisions, or a free slot.
#[derive(Clone, Copy, PartialEq, Eq)]
pub struct Slot {
    pub suite: Suite,
    pub domain: Domain,
    pub descriptor: Descriptor,
    pub decisions: Decisions,
}

// The running suite with its session decisions, or nothing.
#[derive(Clone, Copy, PartialEq, Eq)]
pub struct Session {
    pub suite: Suite,
    pub decisions: Decisions,
}

// The numbers of an event record, in the order of its bytes; `pad` is what no event uses.
#[derive(Clone, Copy, PartialEq, Eq)]
pub struct Fields {
    pub kind: u8,
    pub domain: u8,
    pub suite: u16,
    pub permission: u8,
    pub answer: u8,
    pub pad: u16,
    pub required: u64,
    pub optional: u64,
}

// 000, Table 1. A record that is no event is an event of its own, which is refused; no `Option`, since `step` and the theorems
// over all records speak of it.
#[derive(Clone, Copy, PartialEq, Eq)]
pub enum Event {
    Unreadable,
    Install(Suite, Descriptor, Domain),
    Remove(Suite),
    Start(Suite),
    Terminate,
    Request(Permission, UserAnswer),
}

// The monitor's answer, where it is no refusal; ASK has the cell.
#[derive(Clone, Copy, PartialEq, Eq)]
pub enum Answer {
    Done,
    Allowed,
    Denied,
    Ask(u8),
}

// Why an event or a call is refused; 23 has the permission, 29 the cell.
#[derive(Clone, Copy, PartialEq, Eq)]
pub enum Refusal {
    BadPolicy,
    BadState,
    BadEvent,
    NoSession,
    Busy,
    NotInstalled,
    Installed,
    NotOffered(Permission),
    NoRoom,
    Active,
    NotDeclared,
    NoRight,
    AnswerNotAsked,
    ModeTooWide(u8),
    BadLength,
}

// An answer or a refusal as a terminal sees it.
#[derive(Clone, Copy, PartialEq, Eq)]
pub struct Response {
    pub number: u8,
    pub detail: u8,
}

// A row of the policy has a cell for each permission.
pub const ROW_SIZE: usize = Permission::COUNT as usize;

// The highest cell, which allows and has nobody asked.
pub const ALLOWING: u8 = 4;

// A cell is a byte: what is said of it is said of every byte.
pub fn offered(cell: u8) -> bool
    ensures { result ≡ offered cell }
{
    (1 <= cell) & (cell <= ALLOWING)
}

pub fn unconditional(cell: u8) -> bool
    ensures { result ≡ unconditional cell }
{
    cell == ALLOWING
}

// Three types, and the suites' bound is from below: one generic function would want an impl for each, with its number and bound.
impl Suite {
    pub fn in_range(self) -> bool
        ensures { result ≡ is_suite self }
    {
        0 < self.0
    }
}

impl Permission {
    pub const COUNT: u8 = 64;

    pub fn in_range(self) -> bool
        ensures { result ≡ is_permission self }
    {
        self.0 < Permission::COUNT
    }
}

impl Domain {
    pub const COUNT: u8 = 8;

    pub fn in_range(self) -> bool
        ensures { result ≡ is_domain self }
    {
        self.0 < Domain::COUNT
    }
}

impl Mode {
    pub const ONESHOT: u8 = 1;

    pub const SESSION: u8 = 2;

    pub const BLANKET: u8 = 3;

    // The highest mode of a consent at a cell of the policy, for every byte; none where nobody is asked.
    #[tactic(auto, unfolding(crate::specs::Cells::highest))]
    pub fn highest(cell: u8) -> Option<Mode>
        ensures { result ≡ highest cell }
    {
        let asks = (Mode::ONESHOT <= cell) & (cell <= Mode::BLANKET);
        asks.then(|| Mode::from(cell))
    }
}

impl From<Mode> for u8 {
    ghost from_gives = { λ mode number. number ≡ width mode };

    fn from(mode: Mode) -> u8 {
        match mode {
            Mode::Oneshot => Mode::ONESHOT,
            Mode::Session => Mode::SESSION,
            Mode::Blanket => Mode::BLANKET,
        }
    }
}

// The mode with that number; the widest for a number that is none's.
impl From<u8> for Mode {
    ghost from_gives = { λ number mode. mode ≡ mode_of number };

    #[tactic(auto, unfolding(crate::specs::Device::mode_of))]
    fn from(number: u8) -> Mode {
        match number {
            Mode::ONESHOT => Mode::Oneshot,
            Mode::SESSION => Mode::Session,
            _ => Mode::Blanket,
        }
    }
}

impl From<UserAnswer> for u8 {
    ghost from_gives = { λ answer number. number ≡ answer_no answer };

    fn from(answer: UserAnswer) -> u8 {
        match answer {
            UserAnswer::None => 0,
            UserAnswer::Allow(mode) => u8::from(mode),
            UserAnswer::Deny(mode) => Mode::BLANKET + u8::from(mode),
        }
    }
}

// The answer with that number, for every byte; none where there is none.
impl From<u8> for UserAnswer {
    ghost from_gives = { λ number answer. answer ≡ answer_of number };

    #[tactic(auto, unfolding(crate::specs::UserAnswers::answer_of))]
    fn from(number: u8) -> UserAnswer {
        if number == 0 {
            return UserAnswer::None;
        }
        if number <= Mode::BLANKET {
            return UserAnswer::Allow(Mode::from(number));
        }
        if number <= Mode::BLANKET + Mode::BLANKET {
            return UserAnswer::Deny(Mode::from(number - Mode::BLANKET));
        }
        UserAnswer::None
    }
}

impl Decisions {
    pub fn none() -> Decisions
        ensures { result ≡ undecided }
    {
        Decisions {
            granted: 0,
            revoked: 0,
        }
    }
}

impl Slot {
    pub fn free() -> Slot
        ensures { result ≡ free }
    {
        Slot {
            suite: Suite(0),
            domain: Domain(0),
            descriptor: Descriptor {
                required: 0,
                optional: 0,
            },
            decisions: Decisions::none(),
        }
    }
}

impl Session {
    pub fn idle() -> Session
        ensures { result ≡ idle }
    {
        let suite = Suite(0);
        let decisions = Decisions::none();
        Session { suite, decisions }
    }
}

impl Response {
    const FIRST_REFUSAL: u8 = 16;

    fn plain(number: u8) -> Response
        ensures { result ≡ plain number }
    {
        Response { number, detail: 0 }
    }

    // For a caller that has the response alone, as it stands in a run's output.
    pub fn refused(self) -> bool
        ensures { result ≡ refused self }
    {
        Response::FIRST_REFUSAL <= self.number
    }
}

impl From<Answer> for Response {
    ghost from_gives = { λ answer response. response ≡ answering answer };

    fn from(answer: Answer) -> Response {
        match answer {
            Answer::Done => Response::plain(0),
            Answer::Allowed => Response::plain(1),
            Answer::Denied => Response::plain(2),
            Answer::Ask(cell) => Response {
                number: 3,
                detail: cell,
            },
        }
    }
}

// Each number stands once, above and here. The number and the detail apart: the machine code then has no jump by the case.
impl Refusal {
    fn number(self) -> u8
        ensures { result ≡ (refusing self).number }
    {
        match self {
            Refusal::BadPolicy => 16,
            Refusal::BadState => 17,
            Refusal::BadEvent => 18,
            Refusal::NoSession => 19,
            Refusal::Busy => 20,
            Refusal::NotInstalled => 21,
            Refusal::Installed => 22,
            Refusal::NotOffered(_) => 23,
            Refusal::NoRoom => 24,
            Refusal::Active => 25,
            Refusal::NotDeclared => 26,
            Refusal::NoRight => 27,
            Refusal::AnswerNotAsked => 28,
            Refusal::ModeTooWide(_) => 29,
            Refusal::BadLength => 30,
        }
    }

    fn detail(self) -> u8
        ensures { result ≡ (refusing self).detail }
    {
        match self {
            Refusal::NotOffered(permission) => permission.0,
            Refusal::ModeTooWide(cell) => cell,
            _ => 0,
        }
    }
}

impl From<Refusal> for Response {
    ghost from_gives = { λ refusal response. response ≡ refusing refusal };

    fn from(refusal: Refusal) -> Response {
        Response {
            number: refusal.number(),
            detail: refusal.detail(),
        }
    }
}

impl From<Result<Answer, Refusal>> for Response {
    ghost from_gives = { λ outcome response. response ≡ answered outcome };

    fn from(outcome: Result<Answer, Refusal>) -> Response {
        match outcome {
            Ok(answer) => Response::from(answer),
            Err(refusal) => Response::from(refusal),
        }
    }
}

// Of a call that has no answer but DONE.
impl From<Result<(), Refusal>> for Response {
    ghost from_gives = { λ outcome response. response ≡ done outcome };

    fn from(outcome: Result<(), Refusal>) -> Response {
        Response::from(outcome.map(|()| Answer::Done))
    }
}
