// The row machine: the periods that a state takes. Document 01, "Image and row machine".
#![tactic(auto)]

ghost use Rattle.std.specs.Prelude.{◌≡◌, true, false, ◌*◌, ◌<◌, ◌≤◌, length, get_or};
ghost use Rattle.std.proofs.Math.Option;
ghost use Rattle.periods.specs.Computing.{period_of};
ghost use Rattle.periods.specs.Traces.{whole_periods, form_of, period_records, trace_periods};
ghost use Rattle.layout.specs.Rows.{never};
ghost use Rattle.layout.specs.Fields.{row_from};
ghost use Rattle.layout.specs.Images.{image_of};
ghost use Rattle.states.specs.Limits.{head_bytes};
ghost use Rattle.states.specs.States.{outcome_number, state_of, state_bytes};
ghost use Rattle.machine.specs.Machine.{value, outcome_of, blame_of, after_period, after_periods};
ghost use Rattle.machine.specs.Premises.{Ready, takes_next, Takes};
ghost use Rattle.machine.specs.Computing.{first_bits, values_in, trimmed, packed, old_in, new_bits, GoodFields, NextRow, RowValues, HasRows, decisive_in, with_decision};

use layout::{EndFields, RowFields, RowKind};
use periods::{Attempts, Form};
use records::Field;
use states::{Outcome, StateHead};

// The bytes of the longest state.
pub const STATE_BYTES: usize = states::HEAD_BYTES + layout::MAX_ROWS;

// Row x's new value, which is in the first bit of its byte.
#[tactic(auto, using(crate::proofs::RowKinds::new_is))]
fn new_value(values: &[u8], x: usize) -> bool
    requires { x < length values.now }
    ensures { result ≡ get_or (values_in values.now) x false }
{
    values[x] % 2 == 1
}

// What row x was in the period before, where the first k rows have new values.
#[tactic(auto, using(crate::proofs::RowKinds::old_below, crate::proofs::RowKinds::old_above))]
fn old_value(values: &[u8], k: usize, x: usize) -> bool
    requires { x < length values.now }
    ensures { result ≡ get_or (old_in k values.now) x false }
{
    if x < k {
        values[x] / 2 % 2 == 1
    } else {
        values[x] % 2 == 1
    }
}

// The value of a good row k.
#[tactic(auto, using(crate::proofs::RowKinds::value_by_kind, crate::proofs::RowKinds::old_by_now, crate::proofs::RowKinds::new_both, crate::proofs::RowKinds::new_either))]
fn value_of(row: RowFields, values: &[u8], k: usize, a: Attempts, first: bool) -> bool
    requires { GoodFields k values.now row first }
    ensures { result ≡ value first (period_of a) (old_in k values.now) (values_in values.now) (Option.get_or (row_from row) never) }
{
    let x = row.x as usize;
    let y = row.y as usize;
    match row.kind {
        RowKind::Never => false,
        RowKind::Initial => first,
        RowKind::Attempt => periods::tried(a, row.x, row.y),
        RowKind::Not => !new_value(values, x),
        // `&` and `|` of the bytes take no branch, and share one test of the first bit.
        RowKind::And => (values[x] & values[y]) % 2 == 1,
        RowKind::Or => (values[x] | values[y]) % 2 == 1,
        RowKind::Previous => old_value(values, k, x),
    }
}

// Row k's value. Of the row values, those of the lower rows hold new + 2 × old, the others their value in the first bit.
#[tactic(auto, using(layout::proofs::Images::row_fits, layout::proofs::Images::row_held, layout::proofs::Images::row_good, layout::proofs::Images::row_read))]
fn row_value(image: &[u8], values: &[u8], k: usize, a: Attempts, first: bool) -> bool
    requires { NextRow image.now values.now k first }
    ensures { result ≡ value first (period_of a) (old_in k values.now) (values_in values.now) (get_or (image_of image.now).rows k never) }
{
    let at = layout::ROW_BYTES * k;
    // A good row has a kind. With `Previous` in place of none, the loop has no test for that, and `Previous` a branch of its own.
    let kind = RowKind::try_from(image[at + 2]).unwrap_or(RowKind::Previous);
    let row = RowFields::of_kind(kind, image, at);
    value_of(row, values, k, a, first)
}

// Gives every row its new value, in order, beside the old one. A function of its own in the archive too: inlined in a loop over periods its
// own loop is slower.
#[inline(never)]
fn compute(image: &[u8], values: &mut [u8], a: Attempts, first: bool)
    requires { RowValues image.now values.old first }
    ensures { values.new ≡ packed (values_in values.old) (new_bits image.now (period_of a) first (first_bits values.old)) }
{
    for k in 0..values.len() {
        values[k] = 2 * (values[k] % 2) + row_value(image, values, k, a, first) as u8;
    }
}

// Keeps the first bits alone.
fn keep_first(values: &mut [u8])
    ensures { values.new ≡ first_bits values.old }
{
    for value in values.iter_mut() {
        *value %= 2;
    }
}

// Leaves each row's value alone in its byte.
fn trim(state: &mut [u8])
    requires { head_bytes ≤ length state.old }
    ensures { state.new ≡ trimmed state.old }
{
    keep_first(&mut state[states::HEAD_BYTES..]);
}

// The values of S, V1 and V2.
#[derive(Clone, Copy)]
struct Decisive {
    sat: bool,
    one: bool,
    two: bool,
}

impl Decisive {
    // Those that the state holds.
    fn read(image: &[u8], state: &[u8]) -> Decisive
        requires { HasRows image.now state.now }
        ensures { result ≡ decisive_in (image_of image.now) state.now }
    {
        let end = EndFields::get(image, image.len() - layout::ROW_BYTES);
        let values = &state[states::HEAD_BYTES..];
        Decisive {
            sat: new_value(values, end.sat as usize),
            one: new_value(values, end.one as usize),
            two: new_value(values, end.two as usize),
        }
    }

    fn outcome(self) -> Outcome
        ensures { outcome_number result ≡ outcome_of self.sat self.one self.two }
    {
        if self.one || self.two {
            Outcome::Violated
        } else if self.sat {
            Outcome::Satisfied
        } else {
            Outcome::Undecided
        }
    }

    fn blame(self) -> u8
        ensures { result ≡ blame_of self.one self.two }
    {
        self.one as u8 + 2 * (self.two as u8)
    }
}

// Writes outcome, blame and decision period as these values give them in a period.
#[tactic(auto, using(crate::proofs::Deciding::decision_none, crate::proofs::Deciding::decision_some), unfolding(crate::specs::Computing::with_decision))]
fn put_decision(state: &mut [u8], by: Decisive, period: u32)
    requires { head_bytes ≤ length state.old }
    ensures { state.new ≡ with_decision by period state.old }
{
    let outcome = by.outcome();
    state[0] = outcome as u8;
    state[1] = by.blame();
    let decision = match outcome {
        Outcome::Undecided => 0,
        Outcome::Satisfied | Outcome::Violated => period,
    };
    decision.put(state, 6);
}

// One period: the row machine on both parties' attempts. It leaves older values in second bits, so that the next period needs no pass before it.
// Inlined in both loops: a period after the decision takes no call.
#[inline(always)]
fn advance(image: &[u8], state: &mut [u8], a: Attempts)
    requires { Ready image.now (trimmed state.old) 1 }
    ensures { trimmed state.new ≡ state_bytes (after_period (image_of image.now) (period_of a) (state_of (trimmed state.old))) }
{
    let head = StateHead::read(state);
    (head.periods + 1).put(state, 2);
    if head.is_undecided() {
        compute(
            image,
            &mut state[states::HEAD_BYTES..],
            a,
            head.periods == 0,
        );
        put_decision(state, Decisive::read(image, state), head.periods + 1);
    }
}

// Whether the state takes record k, counted in records of a form, next: where it is undecided and the record has the form's mark.
fn takes_next(state: &[u8], form: Form, trace: &[u8], k: usize) -> bool
    requires { (head_bytes ≤ length state.now) × (k < whole_periods form trace.now) }
    ensures { result ≡ takes_next true (get_or state.now 0 0) form trace.now k }
{
    state[0] == Outcome::Undecided as u8 && periods::is_marked(form, trace, k)
}

// The periods of a trace's first n records: a loop without a test, which one loop for both would make in each period.
pub fn take_periods(image: &[u8], state: &mut [u8], trace: &[u8], n: usize)
    requires { Ready image.now state.old n × (n ≤ period_records trace.now) }
    ensures { state.new ≡ state_bytes (after_periods (image_of image.now) (state_of state.old) (trace_periods trace.now n)) }
{
    let form = periods::form_of(trace);
    for k in 0..n {
        advance(image, state, periods::read_period(form, trace, k));
    }
    trim(state);
}

// The periods of a trace's records, one after the other, as long as the state is undecided and the next of the first n records has
// its mark. Gives how many were taken.
pub fn take_while_undecided(image: &[u8], state: &mut [u8], trace: &[u8], n: usize) -> usize
    requires { Ready image.now state.old n × (n ≤ period_records trace.now) }
    ensures { Takes true image.now state.old (form_of trace.now) trace.now n state.new result }
{
    let form = periods::form_of(trace);
    for k in 0..n {
        if !takes_next(state, form, trace, k) {
            trim(state);
            return k;
        }
        let attempts = periods::read_period(form, trace, k);
        advance(image, state, attempts);
    }
    trim(state);
    n
}
