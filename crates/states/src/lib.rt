// States: their bytes, whether they are sound, and the verdicts that they show. Document 01, "Image and row machine", from "State".
#![tactic(auto)]

ghost use Rattle.std.specs.Prelude.{◌≡◌, true, cond, eqb, ◌↔◌, ◌+◌, ◌^◌, ◌<◌, ◌≤◌, length};
ghost use Rattle.states.specs.Limits.{head_bytes};
ghost use Rattle.states.specs.States.{state_of, head_of, all_at_most, sound, Numbers};
ghost use Rattle.states.specs.Verdicts.{verdict};
ghost use Rattle.states.specs.Refusals.{state_length_test, state_test, count_test};
ghost use Rattle.states.specs.Premises.{SoundHead, Answering};

use records::{Fault, Field, Test, Verdict};

// The bytes of a state before its row values.
pub const HEAD_BYTES: usize = 10;

// The most periods that a state counts.
const MAX_PERIODS: u32 = u32::MAX;

// ---- a state's head

// What a state's periods have come to, with its number there.
#[derive(Clone, Copy)]
pub enum Outcome {
    Undecided,
    Satisfied,
    Violated,
}

// A number that is no outcome's.
#[derive(Clone, Copy)]
pub struct NoOutcome;

impl TryFrom<u8> for Outcome {
    type Error = NoOutcome;

    ghost try_from_gives = { Numbers };

    fn try_from(n: u8) -> Result<Self, NoOutcome> {
        match n {
            0 => Ok(Outcome::Undecided),
            1 => Ok(Outcome::Satisfied),
            2 => Ok(Outcome::Violated),
            _ => Err(NoOutcome),
        }
    }
}

// A state's first fields: the outcome's number, which in a state under test may be no outcome's, blame, periods taken and decision period.
#[derive(Clone, Copy)]
pub struct StateHead {
    pub outcome: u8,
    pub blame: u8,
    pub periods: u32,
    pub decision: u32,
}

impl StateHead {
    #[tactic(auto, unfolding(crate::specs::States::state_of))]
    pub fn read(state: &[u8]) -> StateHead
        requires { head_bytes ≤ length state.now }
        ensures { result ≡ head_of (state_of state.now) }
    {
        StateHead {
            outcome: state[0],
            blame: state[1],
            periods: u32::get(state, 2),
            decision: u32::get(state, 6),
        }
    }

    // Whether the outcome is that of an undecided state.
    pub fn is_undecided(self) -> bool
        ensures { result ≡ eqb self.outcome 0 }
    {
        self.outcome == Outcome::Undecided as u8
    }

    // Whether the decision period is one of those taken.
    fn is_decided(self) -> bool
        ensures { (result ≡ true) ↔ ((0 < self.decision) × (self.decision ≤ self.periods)) }
    {
        0 < self.decision && self.decision <= self.periods
    }

    // Whether these are the first fields of a sound state.
    #[tactic(auto, using(crate::proofs::Soundness::undecided_iff, crate::proofs::Soundness::satisfied_iff, crate::proofs::Soundness::violated_iff))]
    fn is_sound(self) -> bool
        ensures { (result ≡ true) ↔ SoundHead self.outcome self.blame self.periods self.decision }
    {
        match Outcome::try_from(self.outcome) {
            Ok(Outcome::Undecided) => self.blame == 0 && self.decision == 0,
            Ok(Outcome::Satisfied) => self.blame == 0 && self.is_decided(),
            Ok(Outcome::Violated) => 0 < self.blame && self.blame <= 3 && self.is_decided(),
            Err(_) => false,
        }
    }

    // The greatest value that a row can have.
    fn top_value(self) -> u8
        ensures { result ≡ cond (eqb self.periods 0) 0 1 }
    {
        if self.periods == 0 { 0 } else { 1 }
    }
}

// ---- refusal 10

// How many values are looked at together.
const BLOCK: usize = 64;

// Whether every value of a block is at most `top`: whether the greatest is, which takes no branch at each value.
fn block_at_most(values: &[u8], top: u8) -> bool
    ensures { result ≡ all_at_most top values.now }
{
    values.iter().fold(0, |greatest: u8, v| greatest.max(*v)) <= top
}

// Whether every value is at most `top`: the first block with a greater one ends the search.
fn all_at_most(values: &[u8], top: u8) -> bool
    ensures { result ≡ all_at_most top values.now }
{
    for block in values.chunks(BLOCK) {
        if !block_at_most(block, top) {
            return false;
        }
    }
    true
}

// Whether the state is sound.
#[tactic(auto, using(crate::proofs::Soundness::unsound), unfolding(crate::specs::States::state_of))]
fn sound(state: &[u8]) -> bool
    requires { head_bytes ≤ length state.now }
    ensures { result ≡ sound (state_of state.now) }
{
    let head = StateHead::read(state);
    head.is_sound() && all_at_most(&state[HEAD_BYTES..], head.top_value())
}

// The state's length, for an image of n rows.
pub fn length_test(n: usize, state: &[u8]) -> Test
    requires { n < 2 ^ 32 }
    ensures { result ≡ state_length_test n state.now }
{
    records::require(state.len() == HEAD_BYTES + n, Fault::BadState, 0)
}

// The state's length, and whether it is sound.
#[tactic(auto, unfolding(crate::specs::Refusals::state_test))]
pub fn state_test(n: usize, state: &[u8]) -> Test
    requires { n < 2 ^ 32 }
    ensures { result ≡ state_test n state.now }
{
    length_test(n, state)?;
    records::require(sound(state), Fault::BadState, 0)
}

// ---- refusal 12

// Whether n more periods can be counted after so many.
#[tactic(auto, unfolding(crate::specs::Refusals::count_test))]
pub fn count_test(taken: u32, n: usize) -> Test
    ensures { result ≡ count_test taken n }
{
    let left = (MAX_PERIODS - taken) as usize;
    records::require(n <= left, Fault::FullCount, left)
}

// ---- what a state shows

// The verdict that a state shows.
pub fn verdict(state: &[u8]) -> Verdict
    requires { Answering state.now }
    ensures { result ≡ verdict (state_of state.now) }
{
    let head = StateHead::read(state);
    let later = head.decision < head.periods;
    match (Outcome::try_from(head.outcome), later) {
        (Ok(Outcome::Undecided), _) => Verdict::Open,
        (Ok(Outcome::Satisfied), false) => Verdict::Met,
        (Ok(Outcome::Satisfied), true) => Verdict::MetAfter,
        (_, false) => Verdict::Broken,
        (_, true) => Verdict::BrokenAfter,
    }
}
