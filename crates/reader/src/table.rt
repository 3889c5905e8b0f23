// The table of kinds: what operands each has, and what its fields may be.

ghost use Rattle.std.specs.Prelude.{◌≡◌};
ghost use Rattle.grammar.specs.Table.{range, within};
ghost use Rattle.reader.specs.Codes.{entry_of, count_of, in_ranges};

use Operands::{One, Two, Zero};
use grammar::Sort::{Clause, Expression};
use grammar::{Kind, Sort};

// The most periods of a window.
const MAX_WINDOW: u8 = 15;

// The least and the greatest number that a field may be. A range of std's is no `Copy` type.
#[derive(Clone, Copy)]
pub struct Range {
    pub least: u8,
    pub greatest: u8,
}

// A party is 1 or 2, the owner of a duty a party or 3 for both, an action one of those that there are, a window 1 to 15. A field that a kind does
// not use is 0 to 0.
const NO_FIELD: Range = Range {
    least: 0,
    greatest: 0,
};

const PARTY: Range = Range {
    least: 1,
    greatest: 2,
};

const OWNER: Range = Range {
    least: 1,
    greatest: 3,
};

const ACTION: Range = Range {
    least: 0,
    greatest: (periods::ACTIONS - 1) as u8,
};

const WINDOW: Range = Range {
    least: 1,
    greatest: MAX_WINDOW,
};

impl Range {
    pub(super) fn contains(self, x: u8) -> bool
        ensures { result ≡ within (range self.least self.greatest) x }
    {
        self.least <= x && x <= self.greatest
    }
}

// The sorts of a kind's operands, in the order in which they are read.
#[derive(Clone, Copy)]
pub enum Operands {
    Zero,
    One(Sort),
    Two(Sort, Sort),
}

impl Operands {
    pub(super) fn count(self) -> u8
        ensures { result ≡ count_of self }
    {
        match self {
            Zero => 0,
            One(_) => 1,
            Two(_, _) => 2,
        }
    }
}

// What a line of the table says of its kind.
#[derive(Clone, Copy)]
pub struct Entry {
    pub operands: Operands,
    pub party: Range,
    pub action: Range,
    pub last: Range,
}

impl Entry {
    // Whether each field is one that the kind allows.
    pub(super) fn allows(self, party: u8, action: u8, last: u8) -> bool
        ensures { result ≡ in_ranges self record { party = party; action = action; last = last } }
    {
        self.party.contains(party) && self.action.contains(action) && self.last.contains(last)
    }
}

// A line for each of the kinds 1 to 10, then 16 to 23: its operands, and the ranges of party, action and last byte.
static TABLE: [(Operands, Range, Range, Range); 18] = [
    (Zero, OWNER, ACTION, NO_FIELD), // 1 duty
    (Zero, PARTY, ACTION, NO_FIELD), // 2 ban
    (Zero, PARTY, ACTION, NO_FIELD), // 3 power
    (Two(Clause, Clause), NO_FIELD, NO_FIELD, NO_FIELD), // 4 both
    (Two(Clause, Clause), NO_FIELD, NO_FIELD, NO_FIELD), // 5 then
    (Two(Clause, Clause), NO_FIELD, NO_FIELD, NO_FIELD), // 6 repair
    (One(Clause), NO_FIELD, NO_FIELD, NO_FIELD), // 7 repeat
    (Two(Expression, Clause), NO_FIELD, NO_FIELD, NO_FIELD), // 8 when
    (Two(Clause, Expression), NO_FIELD, NO_FIELD, NO_FIELD), // 9 until
    (Zero, PARTY, ACTION, WINDOW), // 10 deadline
    (Zero, NO_FIELD, NO_FIELD, NO_FIELD), // 16 any
    (Zero, PARTY, ACTION, NO_FIELD), // 17 tries
    (Zero, PARTY, ACTION, NO_FIELD), // 18 idle
    (Zero, NO_FIELD, ACTION, NO_FIELD), // 19 succeeds
    (Zero, NO_FIELD, ACTION, NO_FIELD), // 20 fails
    (Two(Expression, Expression), NO_FIELD, NO_FIELD, NO_FIELD), // 21 seq
    (Two(Expression, Expression), NO_FIELD, NO_FIELD, NO_FIELD), // 22 or
    (One(Expression), NO_FIELD, NO_FIELD, NO_FIELD), // 23 star
];

pub fn entry_of(kind: Kind) -> Entry
    ensures { result ≡ entry_of kind }
{
    let (operands, party, action, last) = match kind as u8 {
        number @ 1..=10 => TABLE[number as usize - 1],
        number => TABLE[number as usize - 6],
    };
    Entry {
        operands,
        party,
        action,
        last,
    }
}
