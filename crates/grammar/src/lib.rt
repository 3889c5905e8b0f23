// How contracts are spelled in bytes and read back: the table of kinds, trees, spelling, refusals 1 to 7. Document 01, "Records" and
// "Replies that refuse". Definitions and their laws; the code is the kinds, the sorts, and the conversion of a number to a kind.
#![tactic(auto)]

ghost use Rattle.grammar.specs.Kinds.{NumbersKind};

use records::Fault;

// What a record completes, and what an operand is.
#[derive(Clone, Copy)]
pub enum Sort {
    Clause,
    Expression,
}

// The kinds of the table, by their numbers.
#[derive(Clone, Copy)]
pub enum Kind {
    Duty = 1,
    Ban,
    Power,
    Both,
    Then,
    Repair,
    Repeat,
    When,
    Until,
    Deadline,
    Any = 16,
    Tries,
    Idle,
    Succeeds,
    Fails,
    Seq,
    Or,
    Star,
}

// Every kind, in the table's order.
static KINDS: [Kind; 18] = [
    Kind::Duty,
    Kind::Ban,
    Kind::Power,
    Kind::Both,
    Kind::Then,
    Kind::Repair,
    Kind::Repeat,
    Kind::When,
    Kind::Until,
    Kind::Deadline,
    Kind::Any,
    Kind::Tries,
    Kind::Idle,
    Kind::Succeeds,
    Kind::Fails,
    Kind::Seq,
    Kind::Or,
    Kind::Star,
];

impl TryFrom<u8> for Kind {
    type Error = Fault;

    ghost try_from_gives = { NumbersKind };

    fn try_from(number: u8) -> Result<Kind, Fault> {
        match number {
            1..=10 => Ok(KINDS[number as usize - 1]),
            16..=23 => Ok(KINDS[number as usize - 6]),
            _ => Err(Fault::UnknownKind),
        }
    }
}
