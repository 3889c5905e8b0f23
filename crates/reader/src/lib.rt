// The reader, which takes the bytes of a contract or refuses them. Document 01, "Records" and "Replies that refuse"; of
// windows document 02, "Duties with a deadline"; of a duty's owner document 02, "Duties that both parties own"; of the count of
// pending operands document 02, "A byte for pending operands".
#![tactic(auto)]

ghost use Rattle.std.specs.Prelude.{◌≡◌, [], ◌+◌, ◌*◌, ◌≤◌, length, get_or};
ghost use Rattle.grammar.specs.Limits.{max_records, record_bytes};
ghost use Rattle.grammar.specs.Table.{kind_of, line};
ghost use Rattle.grammar.specs.Reader.{next, read_records, just_one, contract_records, window_at, windows_of, test_of, read_test};
ghost use Rattle.reader.specs.Codes.{operand_count, expression_code, has_sort, good_operands, empty_under, completed, step_of, HasRecords};

use grammar::{Kind, Sort};
use records::{CONTRACT_MARK, Fault, Refusal, Test, require};

mod stack;
mod table;

use stack::Stack;
use table::entry_of;
pub use table::{Entry, Operands, Range};

// The most records of a contract.
pub const MAX_RECORDS: usize = 64;

// The bytes of a contract record.
pub const RECORD_BYTES: usize = 6;

// ---- the table

// How many operands a kind has, 0 for a number that is no kind's: any byte of a record may be asked for.
pub fn operands(kind: u8) -> u8
    ensures { result ≡ operand_count (kind_of kind) }
{
    match Kind::try_from(kind) {
        Ok(kind) => entry_of(kind).operands.count(),
        Err(_) => 0,
    }
}

// ---- the codes of operands

// No operand, a clause, an expression: bytes and no enum, since `completed` answers for every byte.
const NONE: u8 = 0;

const CLAUSE: u8 = 1;

const EXPRESSION: u8 = 2;

// The code of an expression that holds the empty list.
pub const EMPTY: u8 = 3;

// The kinds whose code goes by their operands, by number.
const SEQ: u8 = Kind::Seq as u8;

const OR: u8 = Kind::Or as u8;

const STAR: u8 = Kind::Star as u8;

// Whether a code is one of an operand of this sort.
fn has_sort(code: u8, sort: Sort) -> bool
    ensures { result ≡ has_sort code sort }
{
    match sort {
        Sort::Clause => code == CLAUSE,
        Sort::Expression => code == EXPRESSION || code == EMPTY,
    }
}

// The code of an expression.
fn expression(empty: bool) -> u8
    ensures { result ≡ expression_code empty }
{
    if empty { EMPTY } else { EXPRESSION }
}

// The codes of the two operands on top of the stack, NONE where there is none.
#[derive(Clone, Copy)]
struct TopTwo {
    below: u8,
    top: u8,
}

impl TopTwo {
    // Whether they are those that a kind asks for.
    fn fit(self, operands: Operands) -> bool
        ensures { result ≡ good_operands operands self.below self.top }
    {
        match operands {
            Operands::Zero => true,
            Operands::One(sort) => has_sort(self.top, sort),
            Operands::Two(first, second) => has_sort(self.below, first)
                && has_sort(self.top, second),
        }
    }

    // Whether the expression under `when` or `until` holds the empty list.
    fn hold_empty_under(self, kind: Kind) -> bool
        ensures { result ≡ empty_under kind self.below self.top }
    {
        match kind {
            Kind::When => self.below == EMPTY,
            Kind::Until => self.top == EMPTY,
            _ => false,
        }
    }
}

// The code of what a record completes.
#[tactic(auto, unfolding(crate::specs::Codes::completed))]
pub fn completed(kind: u8, below: u8, top: u8) -> u8
    ensures { result ≡ completed kind below top }
{
    match kind {
        1..=10 => CLAUSE,
        SEQ => expression(below == EMPTY && top == EMPTY),
        OR => expression(below == EMPTY || top == EMPTY),
        STAR => EMPTY,
        _ => EXPRESSION,
    }
}

// ---- a record

// What a record that is not refused does to the stack: so many operands replaced by one of this code.
#[derive(Clone, Copy)]
struct Step {
    operands: u8,
    code: u8,
}

// The tests of record k, in their order.
#[tactic(auto, unfolding(crate::specs::Codes::step_of))]
fn read_record(contract: &[u8], k: usize, two: TopTwo) -> Result<Step, Refusal>
    requires { record_bytes * k + record_bytes ≤ length contract.now }
    ensures { result ≡ step_of contract.now (record_bytes * k) k two.below two.top }
{
    let at = RECORD_BYTES * k;
    let good_mark = records::marked(contract, at, CONTRACT_MARK);
    require(good_mark, Fault::BadMark, k)?;
    let kind = Kind::try_from(contract[at + 2]).map_err(|fault| Refusal { fault, place: k })?;
    let entry = entry_of(kind);
    let good_fields = entry.allows(contract[at + 3], contract[at + 4], contract[at + 5]);
    require(good_fields, Fault::BadField, k)?;
    require(two.fit(entry.operands), Fault::BadOperands, k)?;
    require(!two.hold_empty_under(kind), Fault::EmptyList, k)?;
    Ok(Step {
        operands: entry.operands.count(),
        code: completed(kind as u8, two.below, two.top),
    })
}

// ---- the contract

// The records one after the other. The operands that await their operator are pending; the stack has their codes.
fn read_records(contract: &[u8], n: usize) -> Test
    requires { HasRecords contract.now n }
    ensures { result ≡ test_of (next (read_records 0 n [] contract.now) (just_one n)) }
{
    let mut stack = Stack::new();
    for k in 0..n {
        let step = read_record(contract, k, stack.top_two())?;
        stack.pop(step.operands);
        stack.push(step.code);
    }
    require(stack.is_just(CLAUSE), Fault::NotOneClause, n)
}

// How many records a contract has.
#[tactic(auto, unfolding(grammar::specs::Reader::contract_records))]
pub fn contract_records(contract: &[u8]) -> usize
    ensures { result ≡ contract_records contract.now }
{
    contract.len() / RECORD_BYTES
}

// The kind that has a window.
const DEADLINE: u8 = Kind::Deadline as u8;

// The window of the record from byte `at` on, 0 where it has none.
fn window_at(contract: &[u8], at: usize) -> u8
    requires { at + record_bytes ≤ length contract.now }
    ensures { result ≡ window_at contract.now at }
{
    if contract[at + 2] == DEADLINE {
        contract[at + 5]
    } else {
        0
    }
}

// The sum of all windows of the first n records. A loop, since no law of std's bounds a sum of so many bits.
#[tactic(auto, unfolding(grammar::specs::Reader::windows_of))]
pub fn windows(contract: &[u8], n: usize) -> usize
    requires { HasRecords contract.now n }
    ensures { result ≡ windows_of contract.now n }
{
    let mut sum = 0;
    for k in 0..n {
        sum += window_at(contract, RECORD_BYTES * k) as usize;
    }
    sum
}

// Reads a contract: the first refusal of 1 to 7, if there is one.
#[tactic(auto, unfolding(grammar::specs::Reader::read_test, grammar::specs::Reader::read, grammar::specs::Reader::good_contract_length, grammar::specs::Reader::contract_records))]
pub fn read(contract: &[u8]) -> Test
    ensures { result ≡ read_test contract.now }
{
    let bytes = contract.len();
    let good_length = bytes != 0
        && bytes % RECORD_BYTES == 0
        && bytes <= RECORD_BYTES * MAX_RECORDS;
    require(good_length, Fault::BadLength, 0)?;
    read_records(contract, contract_records(contract))
}
