// Periods: the period record in its forms, both parties' attempts, and traces of such records with refusal 11. Document 01, "Records"
// and "Replies that refuse"; document 02, "Thirty-two actions".
#![tactic(auto)]

ghost use Rattle.std.specs.Prelude.{◌≡◌, ◌+◌, ◌*◌, ◌<◌, ◌≤◌, ltb, length};
ghost use Rattle.records.specs.Holding.{HoldsField};
ghost use Rattle.records.specs.Marks.{marked};
ghost use Rattle.periods.specs.Limits.{actions};
ghost use Rattle.periods.specs.Forms.{form_mark, mask_bytes, period_bytes, either_mark};
ghost use Rattle.periods.specs.Periods.{party_number, bit, tries, period_from, Numbers};
ghost use Rattle.periods.specs.Computing.{period_of, HoldsPeriod};
ghost use Rattle.periods.specs.Traces.{whole_periods, period_at, marked_at, marks_test, form_of, period_records, form_test, start_test, trace_test, period_test};

use records::{Fault, Field, Test};

// How many actions there are, numbered from 0.
pub const ACTIONS: u32 = 32;

// The two parties to a contract, with their numbers in records.
#[derive(Clone, Copy)]
pub enum Party {
    One = 1,
    Two = 2,
}

// A number that is no party's.
#[derive(Clone, Copy)]
pub struct NoParty;

impl TryFrom<u32> for Party {
    type Error = NoParty;

    ghost try_from_gives = { Numbers };

    fn try_from(n: u32) -> Result<Self, NoParty> {
        match n {
            1 => Ok(Party::One),
            2 => Ok(Party::Two),
            _ => Err(NoParty),
        }
    }
}

// Both parties' attempts in a period: a mask each, whose bit a is set when the party tries action a.
#[derive(Clone, Copy)]
pub struct Attempts {
    pub one: u32,
    pub two: u32,
}

impl Attempts {
    // Whether the party tries the action.
    #[tactic(auto, unfolding(crate::specs::Periods::tries))]
    pub fn tries(self, party: Party, action: u32) -> bool
        requires { action < actions }
        ensures { result ≡ tries (period_of self) party action }
    {
        match party {
            Party::One => bit(self.one, action),
            Party::Two => bit(self.two, action),
        }
    }
}

// Whether a number is an action's.
pub fn is_action(a: u32) -> bool
    ensures { result ≡ ltb a actions }
{
    a < ACTIONS
}

// Bit `action` of a mask: the party tries the action.
#[tactic(auto, using(crate::proofs::Periods::bit_shift))]
pub fn bit(mask: u32, action: u32) -> bool
    requires { action < actions }
    ensures { result ≡ bit mask action }
{
    (mask >> action) & 1 == 1
}

// Whether the party of this number tries the action: a good row's field holds such a number, so there is no other to test for.
pub fn tried(a: Attempts, party: u32, action: u32) -> bool
    requires { action < actions }
    ensures { (p : Party) → party ≡ party_number p → result ≡ tries (period_of a) p action }
{
    a.tries(if party == 1 { Party::One } else { Party::Two }, action)
}

// ---- the form of a period record

#[derive(Clone, Copy)]
pub enum Form {
    Narrow,
    Wide,
}

// The bytes of a record of the narrow form.
pub const NARROW_BYTES: usize = 6;

impl Form {
    // The bytes of one party's attempts.
    fn mask_bytes(self) -> usize
        ensures { result ≡ mask_bytes self }
    {
        match self {
            Form::Narrow => 2,
            Form::Wide => 4,
        }
    }

    // The first two bytes of a record.
    fn mark(self) -> [u8; 2]
        ensures { result ≡ form_mark self }
    {
        match self {
            Form::Narrow => records::NARROW_MARK,
            Form::Wide => records::WIDE_MARK,
        }
    }

    // Whether the bytes from byte `at` on start with the mark.
    fn starts(self, s: &[u8], at: usize) -> bool
        requires { at + 2 ≤ length s.now }
        ensures { result ≡ marked s.now at (form_mark self) }
    {
        records::marked(s, at, self.mark())
    }

    // One party's attempts, from byte `at` on.
    fn mask(self, s: &[u8], at: usize) -> u32
        requires { at + mask_bytes self ≤ length s.now }
        ensures { HoldsField s.now at (mask_bytes self) result }
    {
        match self {
            Form::Narrow => u32::from(u16::get(s, at)),
            Form::Wide => u32::get(s, at),
        }
    }

    // Both parties' attempts in the record from byte `at` on.
    #[tactic(auto, using(crate::proofs::Forms::mask_small), unfolding(crate::specs::Periods::period_from))]
    fn attempts(self, s: &[u8], at: usize) -> Attempts
        requires { at + period_bytes self ≤ length s.now }
        ensures { HoldsPeriod (period_from self s.now at) result }
    {
        Attempts {
            one: self.mask(s, at + 2),
            two: self.mask(s, at + 2 + self.mask_bytes()),
        }
    }
}

// The bytes of a record: the mark's, and both parties' attempts.
pub fn period_bytes(form: Form) -> usize
    ensures { result ≡ period_bytes form }
{
    2 + 2 * form.mask_bytes()
}

// Whether the bytes from byte `at` on start with either form's mark.
#[tactic(auto, unfolding(crate::specs::Forms::either_mark))]
pub fn either_mark(s: &[u8], at: usize) -> bool
    requires { at + 2 ≤ length s.now }
    ensures { result ≡ either_mark s.now at }
{
    Form::Narrow.starts(s, at) || Form::Wide.starts(s, at)
}

// The form of a trace's records, or of a step's one record, by the first one's mark.
#[tactic(auto, using(crate::proofs::Forms::starts_wide), unfolding(crate::specs::Traces::form_of))]
pub fn form_of(trace: &[u8]) -> Form
    ensures { result ≡ form_of trace.now }
{
    if trace.starts_with(&records::WIDE_MARK) {
        Form::Wide
    } else {
        Form::Narrow
    }
}

// ---- bytes as records of one form

// How many whole records the bytes have.
#[tactic(auto, unfolding(crate::specs::Traces::whole_periods))]
pub fn whole_periods(form: Form, s: &[u8]) -> usize
    ensures { result ≡ whole_periods form s.now }
{
    s.len() / period_bytes(form)
}

// Where record k starts.
#[tactic(auto, using(crate::proofs::Forms::period_inside))]
fn record_start(form: Form, s: &[u8], k: usize) -> usize
    requires { k < whole_periods form s.now }
    ensures { (result ≡ period_bytes form * k) × (result + period_bytes form ≤ length s.now) }
{
    period_bytes(form) * k
}

// Both parties' attempts in record k.
#[tactic(auto, unfolding(crate::specs::Traces::period_at))]
pub fn read_period(form: Form, s: &[u8], k: usize) -> Attempts
    requires { k < whole_periods form s.now }
    ensures { HoldsPeriod (period_at form s.now k) result }
{
    form.attempts(s, record_start(form, s, k))
}

// Whether record k has the form's mark.
#[tactic(auto, unfolding(crate::specs::Traces::marked_at))]
pub fn is_marked(form: Form, s: &[u8], k: usize) -> bool
    requires { k < whole_periods form s.now }
    ensures { result ≡ marked_at form s.now k }
{
    form.starts(s, record_start(form, s, k))
}

// The marks of all whole records.
fn marks_test(form: Form, s: &[u8]) -> Test
    ensures { result ≡ marks_test form s.now (whole_periods form s.now) }
{
    let n = whole_periods(form, s);
    let bad = records::first_failing(n, |k| is_marked(form, s, k));
    records::require(bad == n, Fault::BadPeriod, bad)
}

// ---- traces

// How many period records a trace has.
pub fn period_records(trace: &[u8]) -> usize
    ensures { result ≡ period_records trace.now }
{
    whole_periods(form_of(trace), trace)
}

// The first tests of a trace or a record: no single byte, then the mark.
#[tactic(auto, using(crate::proofs::Traces::form_test_some), unfolding(crate::specs::Traces::form_test))]
fn form_test(trace: &[u8]) -> Test
    ensures { result ≡ form_test trace.now }
{
    records::require(
        trace.is_empty() || 1 < trace.len() && either_mark(trace, 0),
        Fault::BadPeriod,
        0,
    )
}

// A trace before its later marks: the first tests, then a length of whole records.
#[tactic(auto, unfolding(crate::specs::Traces::start_test))]
pub fn start_test(trace: &[u8]) -> Test
    ensures { result ≡ start_test trace.now }
{
    form_test(trace)?;
    let rest = trace.len() % period_bytes(form_of(trace));
    records::require(rest == 0, Fault::BadPeriod, 0)
}

// A run's trace: the tests before the later marks, then these.
#[tactic(auto, unfolding(crate::specs::Traces::trace_test))]
pub fn trace_test(trace: &[u8]) -> Test
    ensures { result ≡ trace_test trace.now }
{
    start_test(trace)?;
    marks_test(form_of(trace), trace)
}

// A step's record: the first tests, then the length of one record.
#[tactic(auto, unfolding(crate::specs::Traces::period_test))]
pub fn period_test(period: &[u8]) -> Test
    ensures { result ≡ period_test period.now }
{
    form_test(period)?;
    let one = period_bytes(form_of(period));
    records::require(period.len() == one, Fault::BadPeriod, 0)
}
