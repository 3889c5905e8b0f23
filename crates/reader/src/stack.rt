// The stack of the operands that await their operator: their codes, of which there are at most as many as records. Fixed memory, and a byte
// for the count, as document 02 asks.

use super::{MAX_RECORDS, NONE, TopTwo};
use std::marker::Model;

// The codes, of which the first so many are those of pending operands, the top the last. In a clause it is the list of these, the top first.
// The count stands before the codes, where no write of a code can reach it: it stays in a register.
#[derive(Drop)]
pub struct Stack {
    pending: u8,
    codes: [u8; MAX_RECORDS],
}

impl Model for Stack {
    ghost use Rattle.std.specs.Prelude.{ℕ, List, ◌≤◌, reverse, take, length};
    ghost use Rattle.grammar.specs.Limits.{max_records};

    ghost Value = { List ℕ };

    ghost view = { λ s. reverse (take s.pending s.codes) };

    ghost invariant = { λ s. s.pending ≤ max_records };
}

impl Stack {
    ghost use Rattle.std.specs.Prelude.{◌≡◌, ◌&&◌, [], ◌∷◌, ◌<◌, ◌≤◌, eqb, length, drop, get_or};
    ghost use Rattle.grammar.specs.Limits.{max_records};

    pub fn new() -> Stack
        ensures { result ≡ [] }
    {
        Stack {
            pending: 0,
            codes: [NONE; MAX_RECORDS],
        }
    }

    // The code so many places below the top.
    fn peek(&self, depth: u8) -> u8
        ensures { result ≡ get_or self.now depth 0 }
    {
        if depth < self.pending {
            self.codes[(self.pending - 1 - depth) as usize]
        } else {
            NONE
        }
    }

    pub fn top_two(&self) -> TopTwo
        ensures { result ≡ record { below = get_or self.now 1 0; top = get_or self.now 0 0 } }
    {
        TopTwo {
            below: self.peek(1),
            top: self.peek(0),
        }
    }

    // Whether one operand is pending, of this code.
    pub fn is_just(&self, code: u8) -> bool
        ensures { result ≡ (eqb (length self.now) 1 && eqb (get_or self.now 0 0) code) }
    {
        self.pending == 1 && self.codes[0] == code
    }

    pub fn pop(&mut self, operands: u8)
        requires { operands ≤ length self.old }
        ensures { self.new ≡ drop operands self.old }
    {
        self.pending -= operands;
    }

    pub fn push(&mut self, code: u8)
        requires { length self.old < max_records }
        ensures { self.new ≡ code ∷ self.old }
    {
        self.codes[self.pending as usize] = code;
        self.pending += 1;
    }
}
