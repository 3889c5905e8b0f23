// Join: makes one trace of the two parties' logs. Document 02, "Join the two parties' logs".
#![tactic(auto)]

ghost use Rattle.std.specs.Prelude.{◌≡◌, ℕ, Bool, ◌+◌, ◌*◌, ◌^◌, ◌<◌, ◌≤◌, length};
ghost use Rattle.std.proofs.lemmas.List.Edits.{sets};
ghost use Rattle.records.specs.Fields.{bytes};
ghost use Rattle.records.specs.Refusals.{Passed, first_failing};
ghost use Rattle.records.specs.Replies.{Gives};
ghost use Rattle.periods.specs.declared.Form.TheVariants.{Wide};
ghost use Rattle.periods.specs.Forms.{period_bytes};
ghost use Rattle.periods.specs.Computing.{period_of};
ghost use Rattle.periods.specs.Making.{record_of};
ghost use Rattle.joiner.specs.Limits.{log2_place};
ghost use Rattle.joiner.specs.Logs.{log_records, number_at, attempts_at, good_record, rises, last_number};
ghost use Rattle.joiner.specs.Joined.{joined_count, joined_trace};
ghost use Rattle.joiner.specs.Refusals.{length_test, records_test, log_test, order_test, logs_test, join_test};
ghost use Rattle.joiner.specs.Merging.{attempts_next, record_next};
ghost use Rattle.joiner.specs.Calls.{join};

use periods::{Attempts, Form};
use records::{Fault, Field, Refusal, Test};

// Join's reply: number (4 bytes), records (4), place (8).
pub const JOIN_REPLY_BYTES: usize = records::REPLY_HEAD;

// The bytes of a log record: the mark (2), the period number (2), attempts (4).
const LOG_RECORD_BYTES: usize = 8;

const MAX_LOG_RECORDS: usize = 65535;

// The places of each log's first record.
const LOG_1_PLACE: usize = 0;

const LOG_2_PLACE: usize = 65536;

// ---- a log's records, each function given the log's bytes: a struct around them would only lengthen the clauses

// How many there are.
#[tactic(auto, unfolding(crate::specs::Logs::log_records))]
fn log_records(log: &[u8]) -> usize
    ensures { result ≡ log_records log.now }
{
    log.len() / LOG_RECORD_BYTES
}

// What a log record says beside its mark.
#[derive(Clone, Copy)]
struct LogRecord {
    period: u16,
    attempts: u32,
}

// Record k.
#[tactic(auto, unfolding(crate::specs::Logs::log_records, crate::specs::Logs::number_at, crate::specs::Logs::attempts_at))]
fn record_at(log: &[u8], k: usize) -> LogRecord
    requires { k < log_records log.now }
    ensures period { result.period ≡ number_at log.now k }
    ensures attempts { result.attempts ≡ attempts_at log.now k }
{
    let at = LOG_RECORD_BYTES * k;
    LogRecord {
        period: u16::get(log, at + 2),
        attempts: u32::get(log, at + 4),
    }
}

// Whether record k has the mark, and a number from 1.
#[tactic(auto, unfolding(crate::specs::Logs::log_records, crate::specs::Logs::good_record))]
fn good_record(log: &[u8], k: usize) -> bool
    requires { k < log_records log.now }
    ensures { result ≡ good_record log.now k }
{
    records::marked(log, LOG_RECORD_BYTES * k, records::LOG_MARK) && record_at(log, k).period != 0
}

// Whether its number is above that of the record before it.
#[tactic(auto, using(crate::proofs::Logs::rises_is))]
fn rises(log: &[u8], k: usize) -> bool
    requires { k < log_records log.now }
    ensures { result ≡ rises log.now k }
{
    k == 0 || record_at(log, k - 1).period < record_at(log, k).period
}

// The last number, 0 where there is no record.
#[tactic(auto, unfolding(crate::specs::Logs::last_number))]
fn last_number(log: &[u8]) -> u16
    ensures { result ≡ last_number log.now }
{
    match log_records(log) {
        0 => 0,
        n => record_at(log, n - 1).period,
    }
}

// How many records the trace has: the greater of the two last numbers.
#[tactic(auto, unfolding(crate::specs::Joined::joined_count))]
fn joined_count(log1: &[u8], log2: &[u8]) -> u16
    ensures { result ≡ joined_count log1.now log2.now }
{
    last_number(log1).max(last_number(log2))
}

// ---- the tests

// 14 of a log's length.
#[tactic(auto, unfolding(crate::specs::Refusals::length_test))]
fn length_test(log: &[u8]) -> Test
    ensures { result ≡ length_test log.now }
{
    let whole = log.len() % LOG_RECORD_BYTES == 0;
    let few = log_records(log) <= MAX_LOG_RECORDS;
    records::require(whole && few, Fault::BadLog, 0)
}

// A log's records in their order: the first that fails is refused for this fault. The place of record 0 is `first`.
#[tactic(auto, using(records::proofs::Searches::failing_max), unfolding(crate::specs::Logs::log_records, crate::specs::Refusals::records_test))]
fn records_test<F: Fn(usize) -> bool>(log: &[u8], first: usize, fault: Fault, passes: F) -> Test
    requires place { first ≤ log2_place }
    requires called { (k : ℕ) → k < log_records log.now → F.pre passes k }
    ensures { (ok : ℕ → Bool) → ((k : ℕ) (b : Bool) → k < log_records log.now → F.post passes k b → b ≡ ok k)
        → result ≡ records_test ok fault log.now first }
{
    let n = log_records(log);
    let bad = records::first_failing(n, passes);
    if bad < n {
        Err(Refusal {
            fault,
            place: first + bad,
        })
    } else {
        Ok(())
    }
}

// 14 of a log, whose first record has place `first`: its length, then its records.
#[tactic(auto, unfolding(crate::specs::Refusals::log_test))]
fn log_test(log: &[u8], first: usize) -> Test
    requires { first ≤ log2_place }
    ensures { result ≡ log_test log.now first }
{
    length_test(log)?;
    records_test(log, first, Fault::BadLog, |k| good_record(log, k))
}

// 15 of a log.
#[tactic(auto, unfolding(crate::specs::Refusals::order_test))]
fn order_test(log: &[u8], first: usize) -> Test
    requires { first ≤ log2_place }
    ensures { result ≡ order_test log.now first }
{
    records_test(log, first, Fault::OutOfOrder, |k| rises(log, k))
}

// 14 of both logs, then 15 of both.
#[tactic(auto, unfolding(crate::specs::Refusals::logs_test))]
fn logs_test(log1: &[u8], log2: &[u8]) -> Test
    ensures { result ≡ logs_test log1.now log2.now }
{
    log_test(log1, LOG_1_PLACE)?;
    log_test(log2, LOG_2_PLACE)?;
    order_test(log1, LOG_1_PLACE)?;
    order_test(log2, LOG_2_PLACE)
}

// Then 16.
#[tactic(auto, unfolding(crate::specs::Refusals::join_test))]
fn join_test(log1: &[u8], log2: &[u8], trace: &[u8]) -> Test
    ensures { result ≡ join_test log1.now log2.now trace.now }
{
    logs_test(log1, log2)?;
    let needed = periods::period_bytes(Form::Wide) * usize::from(joined_count(log1, log2));
    records::require(needed <= trace.len(), Fault::ShortTrace, 0)
}

// ---- the trace

// A log, and the record at which the merge stands in it.
#[derive(Drop)]
struct Cursor<'a> {
    log: &'a [u8],
    at: usize,
}

impl Cursor<'_> {
    // What the log's party tries in this period: nothing, if the record at which the log stands is of a later period or there is none.
    // Then stands past a record of this period.
    #[tactic(auto, unfolding(crate::specs::Merging::is_of, crate::specs::Merging::attempts_next, crate::specs::Merging::record_next))]
    fn attempts_in(&mut self, period: u16) -> u32
        ensures log { self.new.log.now ≡ self.old.log.now }
        ensures attempts { result ≡ attempts_next self.old.log.now self.old.at period }
        ensures next { self.new.at ≡ record_next self.old.log.now self.old.at period }
    {
        if self.at < log_records(self.log) {
            let record = record_at(self.log, self.at);
            if record.period == period {
                self.at += 1;
                return record.attempts;
            }
        }
        0
    }
}

// Writes record k of the trace, that of period k + 1.
#[tactic(auto, using(crate::proofs::Writing::record_written))]
fn put_period(trace: &mut [u8], k: usize, attempts: Attempts)
    requires { period_bytes Wide * k + period_bytes Wide ≤ length trace.old }
    ensures { trace.new ≡ sets trace.old (period_bytes Wide * k) (record_of Wide (period_of attempts)) }
{
    let at = periods::period_bytes(Form::Wide) * k;
    records::put_mark(trace, at, records::WIDE_MARK);
    attempts.one.put(trace, at + 2);
    attempts.two.put(trace, at + 6);
}

// Writes the trace, period by period, and gives its record count.
#[tactic(auto, using(crate::proofs::Refusals::has_room))]
fn put_trace(log1: &[u8], log2: &[u8], trace: &mut [u8]) -> u16
    requires { join_test log1.now log2.now trace.old ≡ Passed }
    ensures written { trace.new ≡ sets trace.old 0 (joined_trace log1.now log2.now) }
    ensures count { result ≡ joined_count log1.now log2.now }
{
    let n = joined_count(log1, log2);
    let mut one = Cursor { log: log1, at: 0 };
    let mut two = Cursor { log: log2, at: 0 };
    for k in 0..n {
        let attempts = Attempts {
            one: one.attempts_in(k + 1),
            two: two.attempts_in(k + 1),
        };
        put_period(trace, usize::from(k), attempts);
    }
    n
}

// Joins two logs to a trace in the buffer's first bytes. The result is 1, or 0 where the reply area is too short.
#[tactic(auto, unfolding(crate::specs::Calls::join, records::specs::Replies::call))]
pub fn monitor_join(log1: &[u8], log2: &[u8], trace: &mut [u8], reply: &mut [u8]) -> u32
    ensures { Gives (join log1.now log2.now trace.old reply.old) result trace.new reply.new }
{
    if reply.len() < JOIN_REPLY_BYTES {
        return 0;
    }
    let t = join_test(log1, log2, trace);
    let count = match t {
        Ok(()) => put_trace(log1, log2, trace),
        Err(_) => 0,
    };
    records::put_head(reply, t, u32::from(count));
    1
}
