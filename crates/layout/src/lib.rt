// The image: rows, their bytes, the end record, and refusal 9. Document 01, "Image and row machine".
#![tactic(auto)]

ghost use Rattle.std.specs.Prelude.{◌≡◌, ◌+◌, ◌*◌, ◌≤◌, length};
ghost use Rattle.std.proofs.lemmas.List.Edits.{sets};
ghost use Rattle.records.specs.Fields.{bytes};
ghost use Rattle.layout.specs.Limits.{row_bytes};
ghost use Rattle.layout.specs.Rows.{good_row, row_record};
ghost use Rattle.layout.specs.Fields.{kind_number, row_from, ReadsKind, fields_in, GivesRow, end_in};
ghost use Rattle.layout.specs.Images.{row_count, good_row_at, good_end, end_record};
ghost use Rattle.layout.specs.Refusals.{image_test};

use periods::Party;
use records::{Fault, Field, Test};

// The most rows of an image.
pub const MAX_ROWS: usize = 5952;

// The bytes of a row, and of an end record.
pub const ROW_BYTES: usize = 8;

// ---- rows

// What a row is computed from.
#[derive(Clone, Copy)]
pub enum RowKind {
    Never,
    Initial,
    Attempt,
    Not,
    And,
    Or,
    Previous,
}

// A byte that is no kind's.
#[derive(Clone, Copy)]
pub struct NoRowKind;

impl TryFrom<u8> for RowKind {
    type Error = NoRowKind;

    ghost try_from_gives = { ReadsKind };

    fn try_from(number: u8) -> Result<Self, NoRowKind> {
        match number {
            0 => Ok(RowKind::Never),
            1 => Ok(RowKind::Initial),
            2 => Ok(RowKind::Attempt),
            3 => Ok(RowKind::Not),
            4 => Ok(RowKind::And),
            5 => Ok(RowKind::Or),
            6 => Ok(RowKind::Previous),
            7..=255 => Err(NoRowKind),
        }
    }
}

impl From<RowKind> for u8 {
    ghost from_gives = { λ kind n. n ≡ kind_number kind };

    fn from(kind: RowKind) -> u8 {
        kind as u8
    }
}

// A row's kind and its fields.
#[derive(Clone, Copy)]
pub struct RowFields {
    pub kind: RowKind,
    pub x: u32,
    pub y: u32,
}

impl RowFields {
    // Those of a row of this kind from byte `at` on.
    pub fn of_kind(kind: RowKind, image: &[u8], at: usize) -> RowFields
        requires { at + row_bytes ≤ length image.now }
        ensures { result ≡ fields_in kind image.now at }
    {
        RowFields {
            kind,
            x: u32::from(u16::get(image, at + 4)),
            y: u32::from(u16::get(image, at + 6)),
        }
    }

    // Those of the row from byte `at` on, whatever its mark and zero byte are; none where no kind has its byte.
    #[tactic(auto, using(crate::proofs::Rows::no_kind))]
    pub fn get(image: &[u8], at: usize) -> Option<RowFields>
        requires { at + row_bytes ≤ length image.now }
        ensures { GivesRow image.now at result }
    {
        let Ok(kind) = RowKind::try_from(image[at + 2]) else {
            return None;
        };
        Some(RowFields::of_kind(kind, image, at))
    }

    // Whether they make a good row k of an image of n rows.
    #[tactic(auto, using(crate::proofs::Rows::good_by_kind))]
    pub fn is_good(self, k: usize, n: usize) -> bool
        ensures { result ≡ good_row k n (row_from self) }
    {
        let RowFields { kind, x, y } = self;
        match kind {
            RowKind::Never | RowKind::Initial => x == 0 && y == 0,
            RowKind::Attempt => Party::try_from(x).is_ok() && periods::is_action(y),
            RowKind::Not => y == 0 && (x as usize) < k,
            RowKind::And | RowKind::Or => (x as usize) < k && (y as usize) < k,
            RowKind::Previous => y == 0 && (x as usize) < n,
        }
    }

    // Writes the row.
    pub fn put(self, image: &mut [u8], at: u32)
        requires { row_bytes * at + row_bytes ≤ length image.old }
        ensures { image.new ≡ sets image.old (row_bytes * at) (row_record (kind_number self.kind) self.x self.y) }
    {
        put_row(image, at, u8::from(self.kind), self.x, self.y);
    }
}

// ---- the end record

// The numbers of the rows that decide.
#[derive(Clone, Copy)]
pub struct EndFields {
    pub sat: u32,
    pub one: u32,
    pub two: u32,
}

impl EndFields {
    // Those in the end record from byte `at` on.
    pub fn get(image: &[u8], at: usize) -> EndFields
        requires { at + row_bytes ≤ length image.now }
        ensures { result ≡ end_in image.now at }
    {
        EndFields {
            sat: u32::from(u16::get(image, at + 2)),
            one: u32::from(u16::get(image, at + 4)),
            two: u32::from(u16::get(image, at + 6)),
        }
    }
}

// ---- refusal 9

// How many rows stand before the end record.
#[tactic(auto, unfolding(crate::specs::Images::row_count))]
pub fn row_count(image: &[u8]) -> usize
    requires { row_bytes ≤ length image.now }
    ensures { result ≡ row_count image.now }
{
    image.len() / ROW_BYTES - 1
}

// Whether row k of the image is a good one of n rows.
#[tactic(auto, using(crate::proofs::Rows::not_marked, crate::proofs::Rows::no_zero_byte, crate::proofs::Rows::held_row), unfolding(crate::specs::Images::good_row_at))]
fn good_row_at(image: &[u8], n: usize, k: usize) -> bool
    requires { row_bytes * k + row_bytes ≤ length image.now }
    ensures { result ≡ good_row_at image.now n k }
{
    let at = ROW_BYTES * k;
    records::marked(image, at, records::ROW_MARK)
        && image[at + 3] == 0
        && RowFields::get(image, at).is_some_and(|row| row.is_good(k, n))
}

// Whether the end record after n rows names three of them.
#[tactic(auto, unfolding(crate::specs::Images::good_end))]
fn good_end(image: &[u8], n: usize) -> bool
    requires { row_bytes * n + row_bytes ≤ length image.now }
    ensures { result ≡ good_end image.now n }
{
    let at = ROW_BYTES * n;
    let end = EndFields::get(image, at);
    records::marked(image, at, records::END_MARK)
        && (end.sat as usize) < n
        && (end.one as usize) < n
        && (end.two as usize) < n
}

// The image's length, its rows, its end record.
#[tactic(auto, unfolding(crate::specs::Images::row_count, crate::specs::Images::good_image_length, crate::specs::Refusals::image_test))]
pub fn image_test(image: &[u8]) -> Test
    ensures { result ≡ image_test image.now }
{
    let bytes = image.len();
    let right_length = bytes % ROW_BYTES == 0
        && 2 * ROW_BYTES <= bytes
        && bytes <= ROW_BYTES * (MAX_ROWS + 1);
    records::require(right_length, Fault::BadImage, 0)?;
    let n = row_count(image);
    let bad = records::first_failing(n, |k| good_row_at(image, n, k));
    records::require(bad == n, Fault::BadImage, bad)?;
    records::require(good_end(image, n), Fault::BadImage, n)
}

// ---- what is written

// Writes a row of a kind given by its number: any byte is written as it is.
#[tactic(auto, using(crate::proofs::Rows::row_written))]
pub fn put_row(image: &mut [u8], at: u32, kind: u8, x: u32, y: u32)
    requires { row_bytes * at + row_bytes ≤ length image.old }
    ensures { image.new ≡ sets image.old (row_bytes * at) (row_record kind x y) }
{
    let i = ROW_BYTES * at as usize;
    records::put_mark(image, i, records::ROW_MARK);
    image[i + 2] = kind;
    image[i + 3] = 0;
    records::low_half(x).put(image, i + 4);
    records::low_half(y).put(image, i + 6);
}

// Writes the end record after `rows` rows, with the numbers of S, V1 and V2.
#[tactic(auto, using(crate::proofs::Images::end_written))]
pub fn put_end(image: &mut [u8], rows: u32, sat: u32, one: u32, two: u32)
    requires { row_bytes * rows + row_bytes ≤ length image.old }
    ensures { image.new ≡ sets image.old (row_bytes * rows) (end_record sat one two) }
{
    let i = ROW_BYTES * rows as usize;
    records::put_mark(image, i, records::END_MARK);
    records::low_half(sat).put(image, i + 2);
    records::low_half(one).put(image, i + 4);
    records::low_half(two).put(image, i + 6);
}
