// What a terminal lends for its events.
ghost use Rattle.model.specs.State.{read_state};
ghost use Rattle.store.specs.Holds.{WellFormed};
ghost use Rattle.steps.specs.Did.{Knows, Knows_prop};

use store::STATE_SIZE;

// A policy, the bytes of a state, and the place of the running suite's slot, if it is known.
#[derive(Drop)]
pub struct Terminal<'a> {
    pub policy: &'a [u8],
    pub state: &'a mut [u8; STATE_SIZE],
    pub place: Option<usize>,
    ghost holds: { WellFormed state.now },
    ghost knows: { Knows (read_state state.now) place } by { Knows_prop (read_state state.now) place },
}
