// Writes the rows of a contract's clause. Document 01, "Image and row machine".
#![tactic(auto)]

ghost use Rattle.std.specs.Prelude.{◌≡◌, [], map, ◌+◌, ◌*◌, ◌-◌, ◌≤◌, eqb, length};
ghost use Rattle.std.proofs.Math.Option.{some};
ghost use Rattle.std.proofs.lemmas.List.Edits.{sets};
ghost use Rattle.layout.specs.Limits.{row_bytes, max_rows};
ghost use Rattle.layout.specs.Rows.{row_record};
ghost use Rattle.layout.specs.Fields.{kind_number};
ghost use Rattle.contract.specs.Meaning.{both_parties, parties_number};
ghost use Rattle.grammar.specs.Limits.{record_bytes};
ghost use Rattle.grammar.specs.Table.{kind_of};
ghost use Rattle.image.specs.Blocks.{window_rows};
ghost use Rattle.emitter.specs.Rows.{numbers_of, named_rows, written_rows};
ghost use Rattle.emitter.specs.Plans.{read_plan, plan_for, plan_of};
ghost use Rattle.emitter.specs.Blocks.{last_record, record_from, no_block, other_number, wire, whole, meant, wires_of, window_block, window_from, record_written, record_block, Emitted};
ghost use Rattle.emitter.specs.Premises.{InImage, RowRoom, RecordRows, OwnRows, PeriodRoom, WindowRoom, Emits};

use Name::{A, B, K, LE, LOne, LSat, LTwo, N, P, Party1, Party2, Q, ROne, RSat, RTwo, S, SE, Zero};
use grammar::Kind;
use layout::RowKind::{And, Attempt, Not, Or, Previous};
use layout::{RowFields, RowKind};

// ---- the rows of each kind

// What the fields of a record's own rows name.
#[derive(Clone, Copy)]
enum Name {
    // The row that is never true, or a field that is not used.
    Zero,
    // No rows: the parties' numbers.
    Party1,
    Party2,
    // The row that is true in a period in which the tree begins to read, and the one for a period in which it goes on.
    S,
    K,
    // So many rows on from the record's first row, and from the first after its operands' rows. Here and below a deadline's window stands for
    // its operands, its block for the left one's.
    B(u8),
    N(u8),
    // The rows `sat`, `one` and `two` of the left operand's block, and then of the right operand's, or the only one's.
    LSat,
    LOne,
    LTwo,
    RSat,
    ROne,
    RTwo,
    // S where the left operand holds the empty list, and LSat where the right one does; otherwise the row that is never true.
    SE,
    LE,
    // No rows: the record's party, the other party, and the action.
    P,
    Q,
    A,
}

// A row of a record's own: its kind, and what its fields x and y name.
#[derive(Clone, Copy)]
struct Row(RowKind, Name, Name);

// How a kind's rows are laid out: its own rows, those before its operands' rows and then those after them; the rows that tell the right operand
// when it begins to read (start) and when it goes on (go), and the left operand when it goes on (keep; it begins with the whole); and the rows
// that the block gives out, of a literal and of a deadline with its own party's blame as `one` and the other's as `two`, and party 1's and
// party 2's where both own a duty.
#[derive(Clone, Copy)]
struct Plan {
    before: &'static [Row],
    after: &'static [Row],
    start: Name,
    go: Name,
    keep: Name,
    sat: Name,
    one: Name,
    two: Name,
}

// What a plan leaves out.
const NO_ROWS: Plan = Plan {
    before: &[],
    after: &[],
    start: Zero,
    go: Zero,
    keep: Zero,
    sat: Zero,
    one: Zero,
    two: Zero,
};

// The plan of each kind: constants, so that the archive's data holds no addresses. The rows lie in place, and a plan is made where it is asked for.
const DUTY: Plan = Plan {
    before: &[
        Row(Attempt, P, A),
        Row(Attempt, Q, A),
        Row(And, S, B(0)),
        Row(And, B(2), B(1)),
        Row(Not, B(0), Zero),
        Row(And, S, B(4)),
        Row(Not, B(1), Zero),
        Row(And, B(2), B(6)),
    ],
    sat: B(3),
    one: B(5),
    two: B(7),
    ..NO_ROWS
};

// The same of a duty that both parties own.
const JOINT_DUTY: Plan = Plan {
    before: &[
        Row(Attempt, Party1, A),
        Row(Attempt, Party2, A),
        Row(And, S, B(0)),
        Row(And, B(2), B(1)),
        Row(Not, B(0), Zero),
        Row(And, S, B(4)),
        Row(Not, B(1), Zero),
        Row(And, S, B(6)),
    ],
    sat: B(3),
    one: B(5),
    two: B(7),
    ..NO_ROWS
};

const BAN: Plan = Plan {
    before: &[
        Row(Attempt, P, A),
        Row(Attempt, Q, A),
        Row(And, S, B(0)),
        Row(And, B(2), B(1)),
        Row(Not, B(3), Zero),
        Row(And, S, B(4)),
    ],
    sat: B(5),
    one: B(3),
    ..NO_ROWS
};

const POWER: Plan = Plan {
    before: &[
        Row(Attempt, P, A),
        Row(Attempt, Q, A),
        Row(And, S, B(0)),
        Row(Not, B(1), Zero),
        Row(And, B(2), B(3)),
        Row(Not, B(4), Zero),
        Row(And, S, B(5)),
    ],
    sat: B(6),
    two: B(4),
    ..NO_ROWS
};

const BOTH: Plan = Plan {
    before: &[
        Row(Previous, N(10), Zero),
        Row(Not, B(0), Zero),
        Row(And, K, B(1)),
    ],
    after: &[
        Row(Previous, N(2), Zero),
        Row(And, B(2), N(0)),
        Row(Or, N(1), LSat),
        Row(Previous, N(5), Zero),
        Row(And, B(2), N(3)),
        Row(Or, N(4), RSat),
        Row(And, N(2), N(5)),
        Row(Or, LOne, ROne),
        Row(Or, LTwo, RTwo),
        Row(Or, N(7), N(8)),
        Row(Or, N(6), N(9)),
    ],
    start: S,
    go: B(2),
    keep: B(2),
    sat: N(6),
    one: N(7),
    two: N(8),
};

const THEN: Plan = Plan {
    before: &[
        Row(Previous, LSat, Zero),
        Row(And, K, B(0)),
        Row(Not, B(0), Zero),
        Row(And, K, B(2)),
    ],
    after: &[Row(Or, LOne, ROne), Row(Or, LTwo, RTwo)],
    start: B(1),
    go: B(3),
    keep: K,
    sat: RSat,
    one: N(0),
    two: N(1),
};

const REPAIR: Plan = Plan {
    before: &[
        Row(Previous, N(0), Zero),
        Row(And, K, B(0)),
        Row(Not, B(0), Zero),
        Row(And, K, B(2)),
    ],
    after: &[Row(Or, LOne, LTwo), Row(Or, LSat, RSat)],
    start: B(1),
    go: B(3),
    keep: K,
    sat: N(1),
    one: ROne,
    two: RTwo,
};

const REPEAT: Plan = Plan {
    before: &[
        Row(Previous, RSat, Zero),
        Row(And, K, B(0)),
        Row(Not, B(0), Zero),
        Row(And, K, B(2)),
        Row(Or, S, B(1)),
    ],
    start: B(4),
    go: B(3),
    one: ROne,
    two: RTwo,
    ..NO_ROWS
};

const WHEN: Plan = Plan {
    before: &[
        Row(Previous, LSat, Zero),
        Row(And, K, B(0)),
        Row(Not, B(0), Zero),
        Row(And, K, B(2)),
    ],
    after: &[
        Row(Previous, LOne, Zero),
        Row(And, B(3), N(0)),
        Row(Or, S, N(1)),
        Row(Or, LSat, LOne),
        Row(Not, N(3), Zero),
        Row(And, N(2), N(4)),
        Row(Or, RSat, N(5)),
    ],
    start: B(1),
    go: B(3),
    keep: B(3),
    sat: N(6),
    one: ROne,
    two: RTwo,
};

const UNTIL: Plan = Plan {
    before: &[
        Row(Previous, N(4), Zero),
        Row(Not, B(0), Zero),
        Row(And, K, B(1)),
        Row(Previous, B(5), Zero),
        Row(And, B(2), B(3)),
        Row(Or, B(4), S),
    ],
    after: &[
        Row(Or, LOne, LTwo),
        Row(Not, N(0), Zero),
        Row(And, RSat, N(1)),
        Row(Or, LSat, N(2)),
        Row(Or, N(3), N(0)),
    ],
    start: B(5),
    go: B(2),
    keep: B(2),
    sat: N(3),
    one: LOne,
    two: LTwo,
};

const DEADLINE: Plan = Plan {
    before: &[
        Row(Attempt, P, A),
        Row(Attempt, Q, A),
        Row(And, B(0), B(1)),
        Row(Not, B(2), Zero),
        Row(And, K, B(3)),
        Row(And, S, B(3)),
    ],
    after: &[
        Row(And, K, LSat),
        Row(Or, S, N(0)),
        Row(And, N(1), B(2)),
        Row(Not, B(0), Zero),
        Row(And, LOne, N(3)),
        Row(And, LOne, B(0)),
    ],
    sat: N(2),
    one: N(4),
    two: N(5),
    ..NO_ROWS
};

const ANY: Plan = Plan { sat: S, ..NO_ROWS };

const TRIES: Plan = Plan {
    before: &[Row(Attempt, P, A), Row(And, S, B(0))],
    sat: B(1),
    ..NO_ROWS
};

const IDLE: Plan = Plan {
    before: &[Row(Attempt, P, A), Row(Not, B(0), Zero), Row(And, S, B(1))],
    sat: B(2),
    ..NO_ROWS
};

const SUCCEEDS: Plan = Plan {
    before: &[
        Row(Attempt, Party1, A),
        Row(Attempt, Party2, A),
        Row(And, B(0), B(1)),
        Row(And, S, B(2)),
    ],
    sat: B(3),
    ..NO_ROWS
};

const FAILS: Plan = Plan {
    before: &[
        Row(Attempt, Party1, A),
        Row(Attempt, Party2, A),
        Row(And, B(0), B(1)),
        Row(Not, B(2), Zero),
        Row(And, S, B(3)),
    ],
    sat: B(4),
    ..NO_ROWS
};

const SEQ: Plan = Plan {
    before: &[
        Row(Previous, LSat, Zero),
        Row(And, K, B(0)),
        Row(Or, B(1), SE),
    ],
    after: &[Row(Or, RSat, LE), Row(Or, LOne, ROne), Row(Or, N(1), LSat)],
    start: B(2),
    go: K,
    keep: K,
    sat: N(0),
    one: N(2),
    ..NO_ROWS
};

const OR: Plan = Plan {
    after: &[Row(Or, LSat, RSat), Row(Or, LOne, ROne)],
    start: S,
    go: K,
    keep: K,
    sat: N(0),
    one: N(1),
    ..NO_ROWS
};

const STAR: Plan = Plan {
    before: &[
        Row(Previous, RSat, Zero),
        Row(And, K, B(0)),
        Row(Or, B(1), S),
    ],
    after: &[Row(Or, ROne, RSat)],
    start: B(2),
    go: K,
    sat: RSat,
    one: N(0),
    ..NO_ROWS
};

// ---- the plan of each record

// The bytes of a record after its mark, by which the rows are defined.
#[derive(Clone, Copy)]
struct RecordBody {
    kind: u8,
    party: u8,
    action: u8,
    last: u8,
}

// The last of the first n records.
fn last_record(contract: &[u8], n: usize) -> RecordBody
    requires le_n { 1 ≤ n }
    requires n_in_bounds { record_bytes * n ≤ length contract.now }
    ensures { result ≡ last_record contract.now n }
{
    let at = reader::RECORD_BYTES * (n - 1);
    RecordBody {
        kind: contract[at + 2],
        party: contract[at + 3],
        action: contract[at + 4],
        last: contract[at + 5],
    }
}

// The number of both parties.
const BOTH_PARTIES: u8 = 3;

// The plan of a kind's records with this number as their party's.
fn plan_for(kind: Kind, party: u8) -> Plan
    ensures { read_plan result ≡ plan_for kind (eqb party (parties_number both_parties)) }
{
    match kind {
        Kind::Duty if party == BOTH_PARTIES => JOINT_DUTY,
        Kind::Duty => DUTY,
        Kind::Ban => BAN,
        Kind::Power => POWER,
        Kind::Both => BOTH,
        Kind::Then => THEN,
        Kind::Repair => REPAIR,
        Kind::Repeat => REPEAT,
        Kind::When => WHEN,
        Kind::Until => UNTIL,
        Kind::Deadline => DEADLINE,
        Kind::Any => ANY,
        Kind::Tries => TRIES,
        Kind::Idle => IDLE,
        Kind::Succeeds => SUCCEEDS,
        Kind::Fails => FAILS,
        Kind::Seq => SEQ,
        Kind::Or => OR,
        Kind::Star => STAR,
    }
}

// The plan of a record.
fn plan_of(r: RecordBody) -> Plan
    ensures { (k : Kind) → kind_of r.kind ≡ some k → read_plan result ≡ plan_of (record_from k r) }
{
    match Kind::try_from(r.kind) {
        Ok(kind) => plan_for(kind, r.party),
        // No contract that is taken has such a record.
        Err(_) => NO_ROWS,
    }
}

// ---- the rows of one record

// The rows of a tree, once they are written: how many records stand before the tree's own, the row after its rows, the three rows that it
// gives out, and the tree's code as an operand. Of a clause `sat` is that it is satisfied, `one` that it is violated with party 1, `two` with
// party 2 to blame; of an expression they are the end of a list, that one may go on, and never; of a window's later periods `earlier`, `missed`
// and never.
#[derive(Clone, Copy)]
pub struct Block {
    pub before: usize,
    pub next: u32,
    pub sat: u32,
    pub one: u32,
    pub two: u32,
    pub code: u8,
}

// A block of no rows, where a record has no such operand.
fn no_block(before: usize, next: u32) -> Block
    ensures { result ≡ no_block before next }
{
    Block {
        before,
        next,
        sat: 0,
        one: 0,
        two: 0,
        code: 0,
    }
}

// The other party.
fn other(party: u8) -> u8
    ensures { result ≡ other_number party }
{
    if party == 1 { 2 } else { 1 }
}

// Writes a row.
fn put_row(image: &mut [u8], at: u32, kind: RowKind, x: u32, y: u32)
    requires { row_bytes * at + row_bytes ≤ length image.old }
    ensures { image.new ≡ sets image.old (row_bytes * at) (row_record (kind_number kind) x y) }
{
    RowFields { kind, x, y }.put(image, at);
}

// A record where its rows stand: its bytes, its first row, and the rows that are true in a period in which the tree begins to read (s) and in
// one in which it goes on (k).
#[derive(Clone, Copy)]
struct Node {
    body: RecordBody,
    at: u32,
    s: u32,
    k: u32,
}

// The rows that tell a record's operands when they read: the right one when it begins and when it goes on, the left one when it goes on.
#[derive(Clone, Copy)]
struct Wires {
    start: u32,
    go: u32,
    keep: u32,
}

impl Node {
    // The row that a name stands for while the operands have no rows yet.
    fn wire(&self, name: Name) -> u32
        requires { self.now.at ≤ max_rows }
        ensures { result ≡ wire self.now.at self.now.s self.now.k name }
    {
        match name {
            S => self.s,
            K => self.k,
            B(i) => self.at + i as u32,
            _ => 0,
        }
    }

    // The rows that tell the operands when they read.
    #[tactic(auto, unfolding(crate::specs::Blocks::wires_of))]
    fn wires(&self, plan: &Plan) -> Wires
        requires { self.now.at ≤ max_rows }
        ensures { result ≡ wires_of (read_plan plan.now) self.now.at self.now.s self.now.k }
    {
        Wires {
            start: self.wire(plan.start),
            go: self.wire(plan.go),
            keep: self.wire(plan.keep),
        }
    }
}

// A record with its operands' blocks.
#[derive(Clone, Copy)]
struct Whole {
    node: Node,
    left: Block,
    right: Block,
}

impl Whole {
    // The row, or other number, that a name stands for.
    fn meant(&self, name: Name) -> u32
        requires { InImage self.now.node.at self.now.left.next }
        ensures { result ≡ meant self.now name }
    {
        match name {
            S | K | B(_) => self.node.wire(name),
            N(i) => self.left.next + i as u32,
            LSat => self.left.sat,
            LOne => self.left.one,
            LTwo => self.left.two,
            RSat => self.right.sat,
            ROne => self.right.one,
            RTwo => self.right.two,
            SE if self.left.code == reader::EMPTY => self.node.s,
            LE if self.right.code == reader::EMPTY => self.left.sat,
            Zero | SE | LE => 0,
            Party1 => 1,
            Party2 => 2,
            P => self.node.body.party as u32,
            Q => other(self.node.body.party) as u32,
            A => self.node.body.action as u32,
        }
    }

    // Writes rows of the record's own from row `at` on.
    fn put_rows(&self, image: &mut [u8], at: u32, rows: &[Row])
        requires few { InImage self.now.node.at self.now.left.next }
        requires room { RowRoom (length image.old) at (length rows.now) }
        ensures { image.new ≡ written_rows image.old at (named_rows (meant self.now) rows.now) }
    {
        for (i, &Row(kind, x, y)) in rows.iter().enumerate() {
            put_row(image, at + i as u32, kind, self.meant(x), self.meant(y));
        }
    }

    // The block of the record and its operands.
    #[tactic(auto, unfolding(crate::specs::Blocks::record_block))]
    fn block(&self, plan: &Plan) -> Block
        requires at_few { self.now.node.at ≤ max_rows }
        requires next_few { self.now.left.next + length plan.now.after.now ≤ max_rows }
        ensures { let r = self.now.node.body in
            result ≡ record_block (meant self.now) (read_plan plan.now) r.kind r.party self.now.left self.now.right }
    {
        let own = self.meant(plan.one);
        let others = self.meant(plan.two);
        let second = self.node.body.party == 2;
        Block {
            before: self.left.before,
            next: self.left.next + plan.after.len() as u32,
            sat: self.meant(plan.sat),
            one: if second { others } else { own },
            two: if second { own } else { others },
            code: reader::completed(self.node.body.kind, self.left.code, self.right.code),
        }
    }
}

// Writes a record's own rows by its plan, where its operands' rows are written, and gives its block.
#[tactic(auto, unfolding(crate::specs::Blocks::record_written))]
fn put_planned(image: &mut [u8], plan: &Plan, node: Node, left: Block, right: Block) -> Block
    requires { RecordRows (length image.old) (read_plan plan.now) node.at left.next }
    ensures written { image.new ≡ record_written image.old (meant (whole node left right)) (read_plan plan.now) node.at left.next }
    ensures gives { result ≡ record_block (meant (whole node left right)) (read_plan plan.now) node.body.kind node.body.party left right }
{
    let whole = Whole { node, left, right };
    whole.put_rows(image, node.at, plan.before);
    whole.put_rows(image, left.next, plan.after);
    whole.block(plan)
}

// The same by the plan of the record's kind. It is made here again, so that no plan lies on the stack while the operands' rows are written.
#[inline(never)]
fn put_record(image: &mut [u8], node: &Node, left: Block, right: Block) -> Block
    requires { OwnRows (length image.old) node.now.body node.now.at left.next }
    ensures written { (k : Kind) → kind_of node.now.body.kind ≡ some k
        → image.new ≡ record_written image.old (meant (whole node.now left right)) (plan_of (record_from k node.now.body)) node.now.at left.next }
    ensures gives { let r = node.now.body in (k : Kind) → kind_of r.kind ≡ some k
        → result ≡ record_block (meant (whole node.now left right)) (plan_of (record_from k r)) r.kind r.party left right }
{
    put_planned(image, &plan_of(node.body), *node, left, right)
}

// ---- the rows of a window

// The rows of each period of a window after its first.
const PERIOD_ROWS: u32 = 3;

// Writes the rows of one later period of a window from row `at` on. `unmet`: the block goes on and not both try. Of the window's periods so far,
// `missed` tells that the duty is missed now in the last one, `earlier` that it was missed in the period before in one before that.
fn put_period(image: &mut [u8], at: u32, unmet: u32, earlier: u32, missed: u32)
    requires { PeriodRoom (length image.old) at unmet earlier missed }
    ensures { image.new ≡ written_rows image.old at (map numbers_of (window_rows 1 unmet earlier missed at [])) }
{
    put_row(image, at, Previous, missed, 0);
    put_row(image, at + 1, Or, earlier, at);
    put_row(image, at + 2, And, unmet, at);
}

// Writes the rows of a window's later periods from row `at` on, right after the record's own rows before them, and gives their block.
fn put_window(image: &mut [u8], before: usize, at: u32, window: u8) -> Block
    requires { WindowRoom (length image.old) (window - 1) at }
    ensures written { image.new ≡ written_rows image.old at (map numbers_of (window_from (window - 1) at)) }
    ensures gives { result ≡ window_block before (window - 1) at }
{
    let mut block = Block {
        one: at - 1,
        ..no_block(before, at)
    };
    for _ in 1..window {
        let next = block.next;
        put_period(image, next, at - 2, block.sat, block.one);
        block.sat = next + 1;
        block.one = next + 2;
        block.next = next + PERIOD_ROWS;
    }
    block
}

// ---- the rows of a tree

// Writes the rows of the tree that the last of the first n records completes, from row `at` on. Backwards its records are the operator, the
// right operand's and the left operand's, so no operand is searched for; each record's own rows are written when those of its operands are.
pub fn emit(contract: &[u8], n: usize, image: &mut [u8], at: u32, s: u32, k: u32) -> Block
    requires { Emits contract.now n image.old at s k }
    ensures { Emitted contract.now n image.old at s k image.new result }
{
    let body = last_record(contract, n);
    let before = n - 1;
    let plan = plan_of(body);
    let node = Node { body, at, s, k };
    let operands = reader::operands(body.kind);
    let inside = at + plan.before.len() as u32;
    if operands == 0 {
        let later = put_window(image, before, inside, body.last);
        return put_record(image, &node, later, later);
    }
    let wires = node.wires(&plan);
    let right = emit(contract, before, image, inside, wires.start, wires.go);
    if operands == 1 {
        let none = no_block(right.before, right.next);
        return put_record(image, &node, none, right);
    }
    let left = emit(contract, right.before, image, right.next, s, wires.keep);
    put_record(image, &node, left, right)
}
