// The runner: begins a state for an image, and takes periods. Document 01, "Calls".
#![tactic(auto)]

ghost use Rattle.std.specs.Prelude.{◌≡◌, ◌≤◌, length};
ghost use Rattle.std.proofs.lemmas.List.Edits.{sets};
ghost use Rattle.records.specs.Refusals.{given};
ghost use Rattle.records.specs.Replies.{left, Gives};
ghost use Rattle.periods.specs.Traces.{period_records, trace_periods, period_in};
ghost use Rattle.layout.specs.Images.{image_of};
ghost use Rattle.states.specs.States.{state_of, state_bytes};
ghost use Rattle.states.specs.Premises.{Answering};
ghost use Rattle.machine.specs.Machine.{after_period, after_periods};
ghost use Rattle.machine.specs.Premises.{Ready};
ghost use Rattle.calls.specs.Refusals.{begin_test, ready_test, step_test, run_test};
ghost use Rattle.calls.specs.Calls.{step_reply_bytes, begin, step, run};
ghost use Rattle.runner.specs.Answers.{answer_of, reply_with};

use records::{Refusal, Test};
use states::StateHead;

// Begin's reply has the first three fields alone.
pub const BEGIN_REPLY_BYTES: usize = records::REPLY_HEAD;

// Step's and run's: number (4 bytes), verdict (4), place (8), blame (4), decision period (4).
pub const STEP_REPLY_BYTES: usize = records::REPLY_HEAD + 8;

// ---- the tests of each call

// Begin: the image, then the state's length.
#[tactic(auto, using(layout::proofs::Images::passed_good), unfolding(calls::specs::Refusals::begin_test))]
fn begin_test(image: &[u8], state: &[u8]) -> Test
    ensures { result ≡ begin_test image.now state.now }
{
    layout::image_test(image)?;
    states::length_test(layout::row_count(image), state)
}

// What step and run have in common: the image, then the state.
#[tactic(auto, using(layout::proofs::Images::passed_good), unfolding(calls::specs::Refusals::ready_test))]
fn ready_test(image: &[u8], state: &[u8]) -> Test
    ensures { result ≡ ready_test image.now state.now }
{
    layout::image_test(image)?;
    states::state_test(layout::row_count(image), state)
}

// Step: then the record, then the count. Run has another test of the two and another count, so a chain of its own. Neither is inlined:
// the calls take less stack so.
#[tactic(auto, using(calls::proofs::Refusals::ready_head), unfolding(calls::specs::Refusals::step_test))]
#[inline(never)]
fn step_test(image: &[u8], state: &[u8], period: &[u8]) -> Test
    ensures { result ≡ step_test image.now state.now period.now }
{
    ready_test(image, state)?;
    periods::period_test(period)?;
    states::count_test(StateHead::read(state).periods, 1)
}

// Run: then the trace, then the count.
#[tactic(auto, using(calls::proofs::Refusals::ready_head), unfolding(calls::specs::Refusals::run_test))]
#[inline(never)]
fn run_test(image: &[u8], state: &[u8], trace: &[u8]) -> Test
    ensures { result ≡ run_test image.now state.now trace.now }
{
    ready_test(image, state)?;
    periods::trace_test(trace)?;
    states::count_test(
        StateHead::read(state).periods,
        periods::period_records(trace),
    )
}

// ---- what step and run answer

// The verdict, the blame and the decision period that a state shows, as the numbers of a reply.
#[derive(Clone, Copy)]
struct StepAnswer {
    verdict: u32,
    blame: u32,
    decision: u32,
}

fn answer_of(state: &[u8]) -> StepAnswer
    requires { Answering state.now }
    ensures { result ≡ answer_of (state_of state.now) }
{
    let head = StateHead::read(state);
    StepAnswer {
        verdict: states::verdict(state) as u32,
        blame: u32::from(head.blame),
        decision: head.decision,
    }
}

// Takes the first n records of a trace, and gives the answer of the state that they leave. Inlined, which takes less stack.
#[inline(always)]
fn take(image: &[u8], state: &mut [u8], trace: &[u8], n: usize) -> StepAnswer
    requires { Ready image.now state.old n × (n ≤ period_records trace.now) }
    ensures leaves { state.new ≡ state_bytes (after_periods (image_of image.now) (state_of state.old) (trace_periods trace.now n)) }
    ensures answers { result ≡ answer_of (after_periods (image_of image.now) (state_of state.old) (trace_periods trace.now n)) }
{
    machine::take_periods(image, state, trace, n);
    answer_of(state)
}

// Takes one period record where the tests are passed.
#[tactic(auto, unfolding(periods::specs::Traces::periods_of, machine::specs::Machine::after_periods))]
fn take_step(image: &[u8], state: &mut [u8], period: &[u8]) -> Result<StepAnswer, Refusal>
    ensures leaves { state.new ≡ left (step_test image.now state.old period.now) state.old (state_bytes (after_period (image_of image.now) (period_in period.now) (state_of state.old))) }
    ensures answers { result ≡ given (step_test image.now state.old period.now) (answer_of (after_period (image_of image.now) (period_in period.now) (state_of state.old))) }
{
    step_test(image, state, period)?;
    Ok(take(image, state, period, 1))
}

// Takes a whole trace where the tests are passed.
fn take_run(image: &[u8], state: &mut [u8], trace: &[u8]) -> Result<StepAnswer, Refusal>
    ensures leaves { let n = period_records trace.now in state.new ≡ left (run_test image.now state.old trace.now) state.old (state_bytes (after_periods (image_of image.now) (state_of state.old) (trace_periods trace.now n))) }
    ensures answers { let n = period_records trace.now in result ≡ given (run_test image.now state.old trace.now) (answer_of (after_periods (image_of image.now) (state_of state.old) (trace_periods trace.now n))) }
{
    run_test(image, state, trace)?;
    Ok(take(image, state, trace, periods::period_records(trace)))
}

// Writes step's or run's reply.
fn put_answer(reply: &mut [u8], answer: Result<StepAnswer, Refusal>)
    requires { step_reply_bytes ≤ length reply.old }
    ensures { reply.new ≡ sets reply.old 0 (reply_with answer) }
{
    match answer {
        Ok(a) => records::put_reply(reply, Ok(()), a.verdict, &[a.blame, a.decision]),
        Err(refusal) => records::put_reply(reply, Err(refusal), 0, &[0, 0]),
    }
}

// ---- the calls

// Begins a state for an image. The result is 1, or 0 where the reply area is too short.
#[tactic(auto, unfolding(calls::specs::Calls::begin, records::specs::Replies::call))]
pub fn monitor_begin(image: &[u8], state: &mut [u8], reply: &mut [u8]) -> u32
    ensures { Gives (begin image.now state.old reply.old) result state.new reply.new }
{
    if reply.len() < BEGIN_REPLY_BYTES {
        return 0;
    }
    let t = begin_test(image, state);
    records::put_head(reply, t, 0);
    if t.is_ok() {
        state.fill(0);
    }
    1
}

// Takes one period record. The result is 1, or 0 where the reply area is too short.
#[tactic(auto, unfolding(calls::specs::Calls::step, records::specs::Replies::call))]
pub fn monitor_step(image: &[u8], state: &mut [u8], period: &[u8], reply: &mut [u8]) -> u32
    ensures { Gives (step image.now state.old period.now reply.old) result state.new reply.new }
{
    if reply.len() < STEP_REPLY_BYTES {
        return 0;
    }
    put_answer(reply, take_step(image, state, period));
    1
}

// Takes a trace of zero or more period records. The result is 1, or 0 where the reply area is too short.
#[tactic(auto, unfolding(calls::specs::Calls::run, records::specs::Replies::call))]
pub fn monitor_run(image: &[u8], state: &mut [u8], trace: &[u8], reply: &mut [u8]) -> u32
    ensures { Gives (run image.now state.old trace.now reply.old) result state.new reply.new }
{
    if reply.len() < STEP_REPLY_BYTES {
        return 0;
    }
    put_answer(reply, take_run(image, state, trace));
    1
}
