// The runner's calls for C: begin, step, run and decide. Document 01, "Calls"; document 02, "Stop reading once it is decided".
#![tactic(auto)]

ghost use Rattle.records.specs.Replies.{Gives};
ghost use Rattle.calls.specs.Calls.{begin, step, run, decide};

// Begins a state for an image. The result is 1, or 0 where the reply area is too short.
#[unsafe(no_mangle)]
pub extern "C" fn monitor_begin(image: &[u8], state: &mut [u8], reply: &mut [u8]) -> u32
    ensures { Gives (begin image.now state.old reply.old) result state.new reply.new }
{
    runner::monitor_begin(image, state, reply)
}

// Takes one period record. The result is 1, or 0 where the reply area is too short.
#[unsafe(no_mangle)]
pub extern "C" fn monitor_step(
    image: &[u8],
    state: &mut [u8],
    period: &[u8],
    reply: &mut [u8],
) -> u32
    ensures { Gives (step image.now state.old period.now reply.old) result state.new reply.new }
{
    runner::monitor_step(image, state, period, reply)
}

// Takes a trace of zero or more period records. The result is 1, or 0 where the reply area is too short.
#[unsafe(no_mangle)]
pub extern "C" fn monitor_run(image: &[u8], state: &mut [u8], trace: &[u8], reply: &mut [u8]) -> u32
    ensures { Gives (run image.now state.old trace.now reply.old) result state.new reply.new }
{
    runner::monitor_run(image, state, trace, reply)
}

// Reads a trace from its first record to the decision. The result is 1, or 0 where the reply area is too short.
#[unsafe(no_mangle)]
pub extern "C" fn monitor_decide(image: &[u8], trace: &[u8], reply: &mut [u8]) -> u32
    ensures { Gives (decide image.now trace.now reply.old) result tt reply.new }
{
    decider::monitor_decide(image, trace, reply)
}
