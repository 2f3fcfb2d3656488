// A block against a table: its row, or why it is refused, and where its sub-blocks stand.
#![tactic(auto)]

ghost use Rattle.std.specs.Prelude.{◌≡◌, true, ◌+◌, ◌≤◌, ◌<◌, length};
ghost use Rattle.table.specs.Lists.{every};
ghost use Rattle.table.specs.Shape.{fields_of, shape_says};
ghost use Rattle.table.specs.Rules.{table_ok, block_ok};
ghost use Rattle.walk.specs.Walk.{count_in, walk_end, any_second};
ghost use Rattle.table.specs.Rows.{nested_row};
ghost use Rattle.block.specs.Block.{number_in, revision_in, ends_by, body_fits, one_span, one_fits, alone, offset_of, walk_of, nest_fits, Matching, SubMatching};
ghost use Rattle.block.specs.Code.{Fitting, Looking};
ghost use Rattle.frame.specs.Frame.{whole_frame};

use refusal::Refusal;
use rows::{FieldBytes, FieldRow};
use table::Shape;
use walk::{Nest, Span, Walked};

pub fn number(block: &[u8]) -> u16
    requires { 8 ≤ length block.now }
    ensures { result ≡ number_in block.now }
{
    wire::number(wire::u2(block, 4))
}

pub fn revision(block: &[u8]) -> u8
    requires { 8 ≤ length block.now }
    ensures { result ≡ revision_in block.now }
{
    let r = wire::revision(wire::u2(block, 4));
    r as u8
}

// Where the revision carries the field, it does not end past n.
fn ends_by(f: FieldRow, revision: u8, n: usize) -> bool
    requires { f.offset < 65536 }
    ensures { result ≡ ends_by revision n f }
{
    let end = f.offset + kinds::size(f.kind);
    !(f.first <= revision) | (end <= n)
}

// The same of each of these field rows.
fn all_end(fields: &[FieldBytes], revision: u8, n: usize) -> bool
    ensures { result ≡ every (ends_by revision n) (fields_of fields.now) }
{
    fields
        .iter()
        .all(|field| ends_by(rows::field(field), revision, n))
}

// Refusal 7 is given where this fails.
fn body_fits(row: Shape, block: &[u8]) -> bool
    requires { 8 ≤ length block.now }
    ensures { result ≡ body_fits block.now (shape_says row.entry) }
{
    let rev = revision(block);
    let all = all_end(row.body, rev, block.len());
    (14 <= block.len()) & all
}

// Where sub-block k of a block of one level stands.
fn sub_span(block: &[u8], k: usize) -> Span
    requires { (k < 256) × (16 ≤ length block.now) }
    ensures { result ≡ one_span block.now k }
{
    let size = usize::from(block[15]);
    let at = 16 + k * size;
    Span { at, size }
}

// The same as one with none nested in it; an empty one at the start where the block has no such sub-block.
fn one_nest(block: &[u8], k: usize) -> Nest
    requires { 16 ≤ length block.now }
    ensures { k < count_in block.now → result ≡ alone (one_span block.now k) }
{
    let first = if k < usize::from(block[14]) {
        sub_span(block, k)
    } else {
        Span { at: 0, size: 0 }
    };
    Nest {
        first,
        count: 0,
        size: 0,
    }
}

// Refusal 8 is given where this fails, of one level.
fn subs_fit(row: Shape, block: &[u8]) -> bool
    requires { 16 ≤ length block.now }
    ensures { result ≡ one_fits block.now (shape_says row.entry) }
{
    if row.subs.len() == 0 {
        return true;
    }
    let count = usize::from(block[14]);
    let end = sub_span(block, count);
    let all = all_end(row.subs, revision(block), end.size);
    ((count == 0) | all) & (end.at <= block.len())
}

// Where N2 stands in a first-level sub-block: the first level's last field.
fn nested_at(row: Shape) -> usize
    ensures { (result ≡ offset_of (nested_row (shape_says row.entry))) × (result < 65536) }
{
    match row.subs.get(row.firsts.saturating_sub(1)) {
        Some(field) => rows::field(field).offset,
        None => 0,
    }
}

// Refusal 8 is given where this fails, of two levels.
fn nest_fits(row: Shape, block: &[u8], w: Walked) -> bool
    requires in_bounds { 8 ≤ length block.now }
    requires end_value { (w.end ≡ walk_end 20 (walk_of (shape_says row) block.now)) × (w.any ≡ any_second (walk_of (shape_says row) block.now)) }
    ensures { result ≡ nest_fits block.now (shape_says row.entry) }
{
    let rev = revision(block);
    let empty = walk::byte_or_0(block, 14) == 0;
    let first = all_end(table::first_rows(row), rev, walk::byte_or_0(block, 15));
    let second = all_end(table::second_rows(row), rev, walk::byte_or_0(block, 16));
    (20 <= block.len()) & (w.end <= block.len()) & (empty | first) & (!w.any | second)
}

// Refusals 7 and 8, in this order; and sub-block k, found on the way.
fn fitted<'a>(row: Shape<'a>, block: &[u8], k: usize) -> Result<(Shape<'a>, Nest), Refusal>
    requires { (whole_frame block.now ≡ true) × (block_ok (shape_says row) ≡ true) }
    ensures { Fitting block.now k row.entry result }
{
    if !body_fits(row, block) {
        return Err(Refusal::TooShort);
    }
    if row.firsts == 0 {
        if !subs_fit(row, block) {
            return Err(Refusal::BadSubBlocks);
        }
        return Ok((row, one_nest(block, k)));
    }
    let w = walk::walk(block, nested_at(row), k);
    if !nest_fits(row, block, w) {
        return Err(Refusal::BadSubBlocks);
    }
    Ok((row, w.nest))
}

// The row that a block is read by, or the first refusal of 10, 6, 7 and 8.
fn look<'a>(t: &'a [u8], block: &[u8], k: usize) -> Result<(Shape<'a>, Nest), Refusal>
    requires { table_ok t.now ≡ true }
    ensures { Looking t.now block.now k result }
{
    if !frame::is_frame(block) {
        return Err(Refusal::NotOneFrame);
    }
    let row = table::find(t, number(block)).ok_or(Refusal::NoRow)?;
    fitted(row, block, k)
}

// The row that a block is read by, or why it is refused.
pub fn row_of<'a>(t: &'a [u8], block: &[u8]) -> Result<Shape<'a>, Refusal>
    requires { table_ok t.now ≡ true }
    ensures { Matching t.now block.now result }
{
    let (row, _) = look(t, block, 0)?;
    Ok(row)
}

// The same for sub-block k and where it stands, with those nested in it; refusal 9 comes after the others.
pub fn sub_row_of<'a>(t: &'a [u8], block: &[u8], k: usize) -> Result<(Shape<'a>, Nest), Refusal>
    requires { table_ok t.now ≡ true }
    ensures { SubMatching t.now block.now k result }
{
    let (row, nest) = look(t, block, k)?;
    if row.subs.len() == 0 || usize::from(block[14]) <= k {
        return Err(Refusal::NoSuchField);
    }
    Ok((row, nest))
}
