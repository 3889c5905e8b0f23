// Compile: reads a contract and writes the image that monitors it. Document 01, "Image and row machine" and "Calls"; of windows
// document 02, "Duties with a deadline".
#![tactic(auto)]

ghost use Rattle.std.specs.Prelude.{◌≡◌};
ghost use Rattle.std.proofs.lemmas.List.Edits.{sets};
ghost use Rattle.layout.specs.Images.{row_count};
ghost use Rattle.records.specs.Refusals.{Passed};
ghost use Rattle.grammar.specs.Reader.{read_test};
ghost use Rattle.image.specs.Limits.{buffer_for};
ghost use Rattle.image.specs.Images.{image_for};
ghost use Rattle.emitter.specs.Premises.{Writes};
ghost use Rattle.compiler.specs.Refusals.{compile_test};
ghost use Rattle.compiler.specs.Calls.{Compiles};

use layout::RowKind;
use records::{Fault, Test};

// ---- the image

// The rows that every image has first: never true, true in period 1 only, and true in all the others.
const NEVER_ROW: u32 = 0;

const FIRST_ROW: u32 = 1;

const LATER_ROW: u32 = 2;

const FIXED_ROWS: u32 = 3;

// Writes the image of a contract of n records, and gives its row count.
fn put_image(contract: &[u8], n: usize, image: &mut [u8]) -> u32
    requires { Writes contract.now n image.old }
    ensures written { image.new ≡ sets image.old 0 (image_for contract.now) }
    ensures count { result ≡ row_count (image_for contract.now) }
{
    layout::put_row(image, NEVER_ROW, RowKind::Never as u8, 0, 0);
    layout::put_row(image, FIRST_ROW, RowKind::Initial as u8, 0, 0);
    layout::put_row(image, LATER_ROW, RowKind::Not as u8, FIRST_ROW, 0);
    let whole = emitter::emit(contract, n, image, FIXED_ROWS, FIRST_ROW, LATER_ROW);
    layout::put_end(image, whole.next, whole.sat, whole.one, whole.two);
    whole.next
}

// ---- the call

// Compile's reply: number (4 bytes), rows (4), place (8).
pub const COMPILE_REPLY_BYTES: usize = records::REPLY_HEAD;

// An image buffer must have room for so many rows for each record, so many for each period of each window, and so many more with the end record.
const RECORD_ROWS: usize = 32;

const WINDOW_PERIOD_ROWS: usize = 4;

const MORE_ROWS: usize = 65;

// The bytes that an image buffer must have for a contract that is taken.
#[tactic(auto, using(crate::proofs::Refusals::has_records, crate::proofs::Refusals::few_records, crate::proofs::Refusals::few_windows), unfolding(grammar::specs::Reader::contract_windows))]
fn buffer_for(contract: &[u8]) -> usize
    requires { read_test contract.now ≡ Passed }
    ensures { result ≡ buffer_for contract.now }
{
    let n = reader::contract_records(contract);
    let windows = reader::windows(contract, n);
    layout::ROW_BYTES * (RECORD_ROWS * n + WINDOW_PERIOD_ROWS * windows + MORE_ROWS)
}

// 1 to 7 as the contract is read, then 8.
#[tactic(auto, unfolding(crate::specs::Refusals::compile_test))]
fn compile_test(contract: &[u8], image: &[u8]) -> Test
    ensures { result ≡ compile_test contract.now image.now }
{
    reader::read(contract)?;
    records::require(buffer_for(contract) <= image.len(), Fault::ShortBuffer, 0)
}

// Reads a contract and writes its image into the buffer's first bytes. The result is 1, or 0 where the reply area is too short.
// Which rows an image has document 01 leaves open; the contract says which ones ours has, and that they do what it asks.
pub fn monitor_compile(contract: &[u8], image: &mut [u8], reply: &mut [u8]) -> u32
    ensures { Compiles contract.now image.old reply.old result image.new reply.new }
{
    if reply.len() < COMPILE_REPLY_BYTES {
        return 0;
    }
    let t = compile_test(contract, image);
    let rows = match t {
        Ok(()) => put_image(contract, reader::contract_records(contract), image),
        Err(_) => 0,
    };
    records::put_head(reply, t, rows);
    1
}
