// Little-endian fields of byte slices, the marks of the records, refusals and replies. Document 01, "Records" and "Replies that refuse".
#![tactic(auto)]

ghost use Rattle.std.specs.Prelude.{◌≡◌, ℕ, Bool, [], ◌∷◌, ◌+◌, ◌*◌, ◌<◌, ◌≤◌, length, get_or};
ghost use Rattle.std.proofs.lemmas.List.Edits.{sets};
ghost use Rattle.records.specs.Fields.{bytes};
ghost use Rattle.records.specs.Holding.{HoldsField};
ghost use Rattle.records.specs.Marks.{marked};
ghost use Rattle.records.specs.Refusals.{Test, fault_number, number_of, place_of, require, first_failing};
ghost use Rattle.records.specs.Verdicts.{Numbers};
ghost use Rattle.records.specs.Replies.{alone, words, reply_of, head_of, head_size};

// The first two bytes of each record.
pub const CONTRACT_MARK: [u8; 2] = *b"TC";

pub const NARROW_MARK: [u8; 2] = *b"TP";

pub const WIDE_MARK: [u8; 2] = *b"TQ";

pub const LOG_MARK: [u8; 2] = *b"TL";

pub const ROW_MARK: [u8; 2] = *b"TR";

pub const END_MARK: [u8; 2] = *b"TE";

// A number in a field of two bytes, four or eight, low byte first. Each type has its impl, since std has no trait of their bytes.
pub trait Field: Copy {
    ghost width: { ℕ };

    ghost number: { Self → ℕ };

    // The number in the field from byte `at` on.
    fn get(s: &[u8], at: usize) -> Self
        requires { at + width ≤ length s.now }
        ensures { HoldsField s.now at width (number result) };

    // Puts it into the field from byte `at` on.
    fn put(self, s: &mut [u8], at: usize)
        requires { at + width ≤ length s.old }
        ensures { s.new ≡ sets s.old at (bytes width (number self)) };
}

impl Field for u16 {
    ghost width = { 2 };

    ghost number = { λ n. n };

    fn get(s: &[u8], at: usize) -> u16 {
        u16::from_le_bytes([s[at], s[at + 1]])
    }

    fn put(self, s: &mut [u8], at: usize) {
        s[at..at + 2].copy_from_slice(&self.to_le_bytes());
    }
}

impl Field for u32 {
    ghost width = { 4 };

    ghost number = { λ n. n };

    fn get(s: &[u8], at: usize) -> u32 {
        u32::from_le_bytes([s[at], s[at + 1], s[at + 2], s[at + 3]])
    }

    fn put(self, s: &mut [u8], at: usize) {
        s[at..at + 4].copy_from_slice(&self.to_le_bytes());
    }
}

impl Field for u64 {
    ghost width = { 8 };

    ghost number = { λ n. n };

    fn get(s: &[u8], at: usize) -> u64 {
        u64::from_le_bytes([
            s[at],
            s[at + 1],
            s[at + 2],
            s[at + 3],
            s[at + 4],
            s[at + 5],
            s[at + 6],
            s[at + 7],
        ])
    }

    fn put(self, s: &mut [u8], at: usize) {
        s[at..at + 8].copy_from_slice(&self.to_le_bytes());
    }
}

// A number's two low bytes.
pub fn low_half(x: u32) -> u16
    ensures { bytes 2 result ≡ bytes 2 x }
{
    (x % 65536) as u16
}

// ---- marks

// Whether the record from byte `at` on starts with this mark.
pub fn marked(s: &[u8], at: usize, mark: [u8; 2]) -> bool
    requires { at + 2 ≤ length s.now }
    ensures { result ≡ marked s.now at mark }
{
    s[at..at + 2] == mark[..]
}

// Writes a mark from byte `at` on.
pub fn put_mark(s: &mut [u8], at: usize, mark: [u8; 2])
    requires { at + 2 ≤ length s.old }
    ensures { s.new ≡ sets s.old at (get_or mark 0 0 ∷ get_or mark 1 0 ∷ []) }
{
    s[at..at + 2].copy_from_slice(&mark);
}

// ---- verdicts

// 002's five values.
#[derive(Clone, Copy)]
pub enum Verdict {
    Open,
    Met,
    Broken,
    MetAfter,
    BrokenAfter,
}

// A number that is no verdict's.
#[derive(Clone, Copy)]
pub struct NoVerdict;

impl TryFrom<u32> for Verdict {
    type Error = NoVerdict;

    ghost try_from_gives = { Numbers };

    fn try_from(n: u32) -> Result<Self, NoVerdict> {
        match n {
            0 => Ok(Verdict::Open),
            1 => Ok(Verdict::Met),
            2 => Ok(Verdict::Broken),
            3 => Ok(Verdict::MetAfter),
            4 => Ok(Verdict::BrokenAfter),
            _ => Err(NoVerdict),
        }
    }
}

// ---- refusals

// Document 01's table, in its order, and what document 02 adds to it.
#[derive(Clone, Copy)]
pub enum Fault {
    BadLength = 1,
    BadMark,
    UnknownKind,
    BadField,
    BadOperands,
    NotOneClause,
    EmptyList,
    ShortBuffer,
    BadImage,
    BadState,
    BadPeriod,
    FullCount,
    LongInput,
    BadLog,
    OutOfOrder,
    ShortTrace,
}

// A refusal: a fault at a place.
#[derive(Clone, Copy)]
pub struct Refusal {
    pub fault: Fault,
    pub place: usize,
}

// What a call's tests find: all passed, or the first refusal.
pub type Test = Result<(), Refusal>;

// Refused for a fault at a place, where the condition fails.
pub fn require(ok: bool, fault: Fault, place: usize) -> Test
    ensures { result ≡ require ok fault place }
{
    if ok {
        Ok(())
    } else {
        Err(Refusal { fault, place })
    }
}

// The first of n numbers from 0 on that fails the test; n where none does, as the definition of the places of refusals has it.
pub fn first_failing<F: Fn(usize) -> bool>(n: usize, passes: F) -> usize
    requires { (k : ℕ) → k < n → F.pre passes k }
    ensures { (ok : ℕ → Bool) → ((k : ℕ) (b : Bool) → k < n → F.post passes k b → b ≡ ok k) → result ≡ first_failing ok 0 n }
{
    for k in 0..n {
        if !passes(k) {
            return k;
        }
    }
    n
}

// A fault's number in the table.
pub fn fault_number(f: Fault) -> u32
    ensures { result ≡ fault_number f }
{
    f as u32
}

// A reply's number, 0 where the tests are passed.
pub fn number(t: Test) -> u32
    ensures { result ≡ number_of t }
{
    match t {
        Ok(()) => 0,
        Err(refusal) => fault_number(refusal.fault),
    }
}

// Its place, 0 where the tests are passed.
pub fn place(t: Test) -> u64
    ensures { result ≡ place_of t }
{
    match t {
        Ok(()) => 0,
        Err(refusal) => refusal.place as u64,
    }
}

// ---- replies

// The bytes of a reply's first three fields: number (4 bytes), a field of the call's own (4), place (8).
pub const REPLY_HEAD: usize = 16;

// These fields.
#[derive(Clone, Copy)]
pub struct Head {
    pub number: u32,
    pub own: u32,
    pub place: u64,
}

pub fn get_head(reply: &[u8]) -> Head
    requires { head_size ≤ length reply.now }
    ensures { result ≡ head_of reply.now }
{
    Head {
        number: u32::get(reply, 0),
        own: u32::get(reply, 4),
        place: u64::get(reply, 8),
    }
}

// Writes a reply's first three fields.
pub fn put_head(reply: &mut [u8], t: Test, own: u32)
    requires { head_size ≤ length reply.old }
    ensures { reply.new ≡ sets reply.old 0 (reply_of t (alone own)) }
{
    number(t).put(reply, 0);
    own.put(reply, 4);
    place(t).put(reply, 8);
}

// Writes a reply: its first three fields, and the words behind them.
pub fn put_reply(reply: &mut [u8], t: Test, own: u32, others: &[u32])
    requires { head_size + 4 * length others.now ≤ length reply.old }
    ensures { reply.new ≡ sets reply.old 0 (reply_of t (words own others.now)) }
{
    put_head(reply, t, own);
    for (k, word) in others.iter().enumerate() {
        word.put(reply, REPLY_HEAD + 4 * k);
    }
}
