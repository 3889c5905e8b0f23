// Decide: reads a trace from its first record to the decision. Document 02, "Stop reading once it is decided".
#![tactic(auto)]

ghost use Rattle.std.specs.Prelude.{◌≡◌};
ghost use Rattle.records.specs.Refusals.{Passed};
ghost use Rattle.records.specs.Replies.{Gives};
ghost use Rattle.layout.specs.Images.{row_count};
ghost use Rattle.states.specs.States.{fresh_bytes};
ghost use Rattle.calls.specs.Refusals.{unread_test};
ghost use Rattle.calls.specs.Calls.{decide};
ghost use Rattle.decider.specs.Decisions.{decision_of};

use records::{Fault, Refusal, Test};
use states::StateHead;

// Decide's reply: number (4 bytes), outcome (4), place (8), blame (4), decision period (4), records read (4), a zero (4).
pub const DECIDE_REPLY_BYTES: usize = records::REPLY_HEAD + 16;

// Before a record is read: the image, the first record's mark, the trace's length, the number of its records.
#[tactic(auto, unfolding(calls::specs::Refusals::unread_test))]
fn unread_test(image: &[u8], trace: &[u8]) -> Test
    ensures { result ≡ unread_test image.now trace.now }
{
    layout::image_test(image)?;
    periods::start_test(trace)?;
    states::count_test(0, periods::period_records(trace))
}

// ---- the answer

// Outcome, blame and decision period of the state that the records read leave, and how many these are: the numbers of a reply.
#[derive(Clone, Copy)]
struct Decision {
    outcome: u32,
    blame: u32,
    period: u32,
    read: u32,
}

// Reads a trace into a fresh state. Where it stops undecided before the end, the next record has another mark.
fn read_trace(image: &[u8], state: &mut [u8], trace: &[u8]) -> Result<Decision, Refusal>
    requires trace_value { unread_test image.now trace.now ≡ Passed }
    requires state_value { state.old ≡ fresh_bytes (row_count image.now) }
    ensures { result ≡ decision_of image.now trace.now }
{
    let n = periods::period_records(trace);
    let read = machine::take_while_undecided(image, state, trace, n);
    let head = StateHead::read(state);
    if read < n && head.is_undecided() {
        return Err(Refusal {
            fault: Fault::BadPeriod,
            place: read,
        });
    }
    Ok(Decision {
        outcome: u32::from(head.outcome),
        blame: u32::from(head.blame),
        period: head.decision,
        read: read as u32,
    })
}

// Reads a trace from its first record to the decision.
#[tactic(auto, unfolding(crate::specs::Decisions::decision_of, calls::specs::Refusals::decide_test))]
fn decide(image: &[u8], trace: &[u8]) -> Result<Decision, Refusal>
    ensures { result ≡ decision_of image.now trace.now }
{
    unread_test(image, trace)?;
    let mut state = [0u8; machine::STATE_BYTES];
    let bytes = states::HEAD_BYTES + layout::row_count(image);
    read_trace(image, &mut state[..bytes], trace)
}

// ---- the call

// Reads a trace from its first record to the decision. The result is 1, or 0 where the reply area is too short.
#[tactic(auto, unfolding(calls::specs::Calls::decide, records::specs::Replies::call, crate::specs::Decisions::decision_of))]
pub fn monitor_decide(image: &[u8], trace: &[u8], reply: &mut [u8]) -> u32
    ensures { Gives (decide image.now trace.now reply.old) result tt reply.new }
{
    if reply.len() < DECIDE_REPLY_BYTES {
        return 0;
    }
    match decide(image, trace) {
        Ok(d) => records::put_reply(reply, Ok(()), d.outcome, &[d.blame, d.period, d.read, 0]),
        Err(refusal) => records::put_reply(reply, Err(refusal), 0, &[0; 4]),
    }
    1
}
