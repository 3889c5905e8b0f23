// The report that `watch` prints: the input split into contract and trace, and the lines. Document 01, "Watch"; document 02,
// "Thirty-two actions".
#![tactic(auto)]

ghost use Rattle.std.specs.Prelude.{◌≡◌, ℕ, List, [], ◌+◌, ◌*◌, ◌≤◌, ◌≢◌, length, IfOk, IfErr, OnOk, OnErr};
ghost use Rattle.std.specs.IoError.{error_kind};
ghost use Rattle.std.specs.Process.{exit_status};
ghost use Rattle.records.specs.Verdicts.{verdict_name};
ghost use Rattle.records.specs.Refusals.{fault_number};
ghost use Rattle.periods.specs.Traces.{period_records, trace_periods};
ghost use Rattle.layout.specs.Limits.{row_bytes, max_rows};
ghost use Rattle.states.specs.Limits.{head_bytes};
ghost use Rattle.contract.specs.Meaning.{Clause};
ghost use Rattle.grammar.specs.Reader.{read};
ghost use Rattle.image.specs.Monitors.{Monitors};
ghost use Rattle.report.specs.Limits.{text_bytes};
ghost use Rattle.report.specs.Texts.{ascii, decimal, period_line, decided_line, refused_line, Puts};
ghost use Rattle.report.specs.Split.{contract_length, contract_of, trace_of};
ghost use Rattle.report.specs.Reports.{on_contract, lines, report};
ghost use Rattle.report.specs.Putting.{HasRoom, Appends, Served, Follows, MayStep, Stepping, MayList, MayFollow};

use periods::Form;
use records::{Fault, Field, Refusal, Verdict};
use std::io::{Error, ErrorKind};
use std::process::ExitCode;

// The most bytes of an input.
pub const INPUT_BYTES: usize = 65520;

// An image buffer and a state for as many rows as an image can have, and room for a line for each period and one more.
pub const IMAGE_BYTES: usize = layout::ROW_BYTES * (layout::MAX_ROWS + 1);

pub const STATE_BYTES: usize = machine::STATE_BYTES;

pub const TEXT_BYTES: usize = LINE_BYTES * (INPUT_PERIODS + 1);

// The most period records of an input, all of them narrow.
const INPUT_PERIODS: usize = INPUT_BYTES / periods::NARROW_BYTES;

// The most bytes of a line.
const LINE_BYTES: usize = 21;

// ---- the text

// A text that grows in a buffer: the buffer's first `len` bytes.
#[derive(Drop)]
struct Text<'a> {
    bytes: &'a mut [u8],
    len: usize,
}

impl Text<'_> {
    // Puts a word behind the text.
    fn put(&mut self, word: &[u8])
        requires { HasRoom self.old word.now }
        ensures { Appends self.old word.now self.new }
    {
        let start = self.len;
        let end = start + word.len();
        self.bytes[start..end].copy_from_slice(word);
        self.len = end;
    }

    // Puts a number's digits. `write!` would promise them only where it succeeds, and nowhere that it does.
    fn put_number(&mut self, n: u64)
        requires { HasRoom self.old (decimal n) }
        ensures { Appends self.old (decimal n) self.new }
    {
        if n >= 10 {
            self.put_number(n / 10);
        }
        self.put(&[b'0' + (n % 10) as u8]);
    }

    // Ends the line.
    fn end_line(&mut self)
        requires { HasRoom self.old (ascii "\n") }
        ensures { Appends self.old (ascii "\n") self.new }
    {
        self.put(b"\n");
    }

    // Puts the line of a period.
    fn put_period(&mut self, n: u64, seen: Stepped)
        requires { HasRoom self.old (period_line n seen.verdict seen.blame) }
        ensures { Appends self.old (period_line n seen.verdict seen.blame) self.new }
    {
        self.put_number(n);
        self.put(b" ");
        self.put(verdict_name(seen.verdict));
        self.put(b" ");
        self.put_number(seen.blame as u64);
        // A text of its own, so that an edit of `must-fail/` can change this line's end alone.
        let end = b"\n";
        self.put(end);
    }

    // Puts the last line.
    fn put_decided(&mut self, decision: u64)
        requires { HasRoom self.old (decided_line decision) }
        ensures { Appends self.old (decided_line decision) self.new }
    {
        self.put(b"decided ");
        self.put_number(decision);
        self.end_line();
    }

    // Puts the line of a refusal, the only one there is.
    fn put_refused(&mut self, refused: RefusedLine)
        requires { HasRoom self.old (refused_line refused.number refused.place) }
        ensures { Appends self.old (refused_line refused.number refused.place) self.new }
    {
        self.put(b"refused ");
        self.put_number(refused.number as u64);
        self.put(b" ");
        self.put_number(refused.place);
        self.end_line();
    }
}

// A verdict's name.
fn verdict_name(verdict: Verdict) -> &'static [u8]
    ensures { result.now ≡ ascii (verdict_name verdict) }
{
    match verdict {
        Verdict::Open => b"open",
        Verdict::Met => b"met",
        Verdict::Broken => b"broken",
        Verdict::MetAfter => b"met-after",
        Verdict::BrokenAfter => b"broken-after",
    }
}

// ---- the input's parts

// How many bytes of the input are the contract; the rest is the trace.
fn contract_length(input: &[u8]) -> usize
    ensures { result ≡ contract_length input.now }
{
    let n = periods::whole_periods(Form::Narrow, input);
    let k = records::first_failing(n, |k| {
        !periods::either_mark(input, periods::NARROW_BYTES * k)
    });
    if k == n {
        input.len()
    } else {
        periods::NARROW_BYTES * k
    }
}

// The input's contract and its trace.
fn contract_and_trace(input: &[u8]) -> (&[u8], &[u8])
    ensures contract { result.0.now ≡ contract_of input.now }
    ensures trace { result.1.now ≡ trace_of input.now }
{
    input.split_at(contract_length(input))
}

// ---- compile and step, and what they reply

// What a refusal's line says: its number and its place.
#[derive(Clone, Copy)]
struct RefusedLine {
    number: u32,
    place: u64,
}

impl From<Refusal> for RefusedLine {
    ghost from_gives = { λ r l. (l.number ≡ fault_number r.fault) × (l.place ≡ r.place) };

    fn from(refusal: Refusal) -> RefusedLine {
        RefusedLine {
            number: records::fault_number(refusal.fault),
            place: refusal.place as u64,
        }
    }
}

// Compiles the contract into an image, and gives how many rows it has.
fn compile(contract: &[u8], image: &mut [u8]) -> Result<usize, RefusedLine>
    requires { length image.old ≡ row_bytes * (max_rows + 1) }
    ensures rows { IfOk result (λ n. Served contract.now image.new n) }
    ensures refused { IfErr result (λ r. (trace : List ℕ) → on_contract (read contract.now) trace ≡ refused_line r.number r.place) }
{
    let mut reply = [0u8; compiler::COMPILE_REPLY_BYTES];
    compiler::monitor_compile(contract, image, &mut reply);
    let head = records::get_head(&reply);
    if head.number != 0 {
        return Err(RefusedLine {
            number: head.number,
            place: head.place,
        });
    }
    Ok(head.own as usize)
}

// What a step replies, read from its bytes.
#[derive(Clone, Copy)]
struct Stepped {
    verdict: Verdict,
    blame: u32,
    decision: u32,
}

// A step on record k of a trace.
fn step(image: &[u8], state: &mut [u8], trace: &[u8], k: usize) -> Stepped
    requires { MayStep image.now state.old trace.now k }
    ensures { (c : Clause) → Follows c image.now state.old (trace_periods trace.now k) → Stepping c image.now trace.now k state.new result }
{
    let bytes = periods::period_bytes(periods::form_of(trace));
    let from = bytes * k;
    let mut reply = [0u8; runner::STEP_REPLY_BYTES];
    runner::monitor_step(image, state, &trace[from..from + bytes], &mut reply);
    let head = records::get_head(&reply);
    let blame = u32::get(&reply, records::REPLY_HEAD);
    let decision = u32::get(&reply, records::REPLY_HEAD + 4);
    let Ok(verdict) = Verdict::try_from(head.own) else {
        unreachable!();
    };
    Stepped {
        verdict,
        blame,
        decision,
    }
}

// ---- the report

// Puts the lines of n periods, then the decision period. The state has been begun.
fn put_lines(image: &[u8], state: &mut [u8], trace: &[u8], n: usize, text: &mut Text)
    requires { MayList image.now state.old trace.now n text.old }
    ensures { (c : Clause) → Follows c image.now state.old [] → Appends text.old (lines c trace.now n) text.new }
{
    let mut decision = 0;
    for k in 0..n {
        let seen = step(image, state, trace, k);
        text.put_period(k as u64 + 1, seen);
        decision = seen.decision;
    }
    text.put_decided(decision as u64);
}

// Begins a state and puts the lines of a trace without a fault.
fn follow(image: &[u8], state: &mut [u8], trace: &[u8], text: &mut Text)
    requires { MayFollow image.now state.old trace.now text.old }
    ensures { (contract : List ℕ) (m : Monitors contract image.now)
        → Appends text.old (lines m.clause trace.now (period_records trace.now)) text.new }
{
    let mut reply = [0u8; runner::BEGIN_REPLY_BYTES];
    runner::monitor_begin(image, state, &mut reply);
    put_lines(image, state, trace, periods::period_records(trace), text);
}

// Puts the lines of an input, or finds what refuses it.
fn put_parts(
    input: &[u8],
    image: &mut [u8],
    state: &mut [u8],
    text: &mut Text,
) -> Result<(), RefusedLine>
    requires image_len { length image.old ≡ row_bytes * (max_rows + 1) }
    requires state_len { length state.old ≡ head_bytes + max_rows }
    requires room { text.old.len + text_bytes ≤ length text.old.bytes.now }
    ensures puts { OnOk result (Appends text.old (report input.now) text.new) }
    ensures refused { IfErr result (λ r. report input.now ≡ refused_line r.number r.place) }
    ensures unchanged { OnErr result (text.new ≡ text.old) }
{
    records::require(input.len() <= INPUT_BYTES, Fault::LongInput, 0)?;
    let (contract, trace) = contract_and_trace(input);
    let rows = compile(contract, image)?;
    periods::trace_test(trace)?;
    let image_length = layout::ROW_BYTES * (rows + 1);
    let state_length = states::HEAD_BYTES + rows;
    follow(
        &image[..image_length],
        &mut state[..state_length],
        trace,
        text,
    );
    Ok(())
}

// Puts the report of an input into the text's first bytes, and gives its length. Image and state are lent to work in: what they hold
// afterwards is left open.
pub fn put_report(
    input: &[u8],
    image: &mut [u8; IMAGE_BYTES],
    state: &mut [u8; STATE_BYTES],
    text: &mut [u8; TEXT_BYTES],
) -> usize
    ensures { Puts text.old 0 (report input.now) text.new result }
{
    let mut out = Text {
        bytes: text,
        len: 0,
    };
    if let Err(refused) = put_parts(input, image, state, &mut out) {
        out.put_refused(refused);
    }
    out.len
}

// ---- how a program that prints ends

// The exit status where nobody reads what is written any more: the one that a shell gives a program which the signal SIGPIPE ended.
const PIPE_CLOSED: u8 = 141;

// The exit status after a write.
pub fn exit_status(written: Result<(), Error>) -> ExitCode
    ensures ok { OnOk written (exit_status result ≡ 0) }
    ensures pipe_closed { IfErr written (λ e. error_kind e ≡ ErrorKind.BrokenPipe → exit_status result ≡ 141) }
    ensures other_error { IfErr written (λ e. error_kind e ≢ ErrorKind.BrokenPipe → exit_status result ≡ 0) }
{
    match written {
        Err(error) if error.kind() == ErrorKind::BrokenPipe => ExitCode::from(PIPE_CLOSED),
        _ => ExitCode::SUCCESS,
    }
}
