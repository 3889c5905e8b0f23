// Join for C. Document 02, "Join the two parties' logs".
#![tactic(auto)]

ghost use Rattle.records.specs.Replies.{Gives};
ghost use Rattle.joiner.specs.Calls.{join};

// Joins two logs to a trace in the buffer's first bytes. The result is 1, or 0 where the reply area is too short.
#[unsafe(no_mangle)]
pub extern "C" fn monitor_join(log1: &[u8], log2: &[u8], trace: &mut [u8], reply: &mut [u8]) -> u32
    ensures { Gives (join log1.now log2.now trace.old reply.old) result trace.new reply.new }
{
    joiner::monitor_join(log1, log2, trace, reply)
}
