// What a block's fields answer, by a table that passes its check.
#![tactic(auto)]

ghost use Rattle.std.specs.Prelude.{◌≡◌, true, ◌+◌, ◌≤◌, length};
ghost use Rattle.std.specs.Result.{result_unwrap_or};
ghost use Rattle.wire.specs.Parts.{offset_by};
ghost use Rattle.refusal.specs.Numbers.{refusal_of};
ghost use Rattle.table.specs.Lists.{every, pick};
ghost use Rattle.table.specs.Rows.{ends};
ghost use Rattle.table.specs.Shape.{fields_of};
ghost use Rattle.table.specs.Decode.{decode};
ghost use Rattle.table.specs.Rules.{table_ok};
ghost use Rattle.record.specs.Answer.{Answers};
ghost use Rattle.block.specs.Block.{ends_by};
ghost use Rattle.record.specs.Calls.{field_said, field_or9, body_field, sub_slice, sub_field, sub_block, nowhere, sub_place, sub_block_refusal, tow_row, wnc_row, stamp};

use refusal::Refusal;
use rows::{FieldBytes, FieldRow};
use value::Value;
use walk::Span;

// What a field answers, or why it is refused.
pub type Answer = Result<Value, Refusal>;

// A field in these bytes, in which it ends if the revision carries it.
pub fn field_said(s: &[u8], f: FieldRow, revision: u8) -> Answer
    requires { ends_by revision (length s.now) f ≡ true }
    ensures { Answers result (field_said revision s.now f) }
{
    if revision < f.first {
        return Ok(Value::NotInRevision);
    }
    Ok(value::read(s, f))
}

// Field i of these rows, in these bytes, in which each ends that the revision carries.
pub fn field_in(fields: &[FieldBytes], i: usize, s: &[u8], revision: u8) -> Answer
    requires { every (ends_by revision (length s.now)) (fields_of fields.now) ≡ true }
    ensures { Answers result (field_or9 revision s.now (pick (fields_of fields.now) i)) }
{
    match fields.get(i) {
        Some(field) => field_said(s, rows::field(field), revision),
        None => Err(Refusal::NoSuchField),
    }
}

// Body field i of a block.
pub fn body_field(table: &[u8], block: &[u8], i: usize) -> Answer
    requires { table_ok table.now ≡ true }
    ensures { Answers result (body_field (decode table.now) block.now i) }
{
    let row = block::row_of(table, block)?;
    field_in(row.body, i, block, block::revision(block))
}

// The part of a block that stands there.
pub fn part(block: &[u8], s: Span) -> &[u8]
    requires { s.at + s.size ≤ length block.now }
    ensures result_value { (result.now ≡ sub_slice block.now s) × (length result.now ≡ s.size) }
    ensures ref_ptr_value { result.ref_ptr ≡ offset_by block.entry.ref_ptr s.at }
{
    wire::part(block, s.at, s.size)
}

// Field j of sub-block k of a block, of the first level where it has two.
pub fn sub_field(table: &[u8], block: &[u8], k: usize, j: usize) -> Answer
    requires { table_ok table.now ≡ true }
    ensures { Answers result (sub_field (decode table.now) block.now k j) }
{
    let (row, nest) = block::sub_row_of(table, block, k)?;
    let span = part(block, nest.first);
    field_in(table::first_rows(row), j, span, block::revision(block))
}

// Where sub-block k of a block stands, or why there is none.
pub fn sub_place(table: &[u8], block: &[u8], k: usize) -> Result<Span, Refusal>
    requires { table_ok table.now ≡ true }
    ensures handed_value { refusal_of result ≡ sub_block_refusal (decode table.now) block.now k }
    ensures span_value { result_unwrap_or result nowhere ≡ sub_place (decode table.now) block.now k }
    ensures size_in_bounds { let s = result_unwrap_or result nowhere in s.at + s.size ≤ length block.now }
{
    let (_, nest) = block::sub_row_of(table, block, k)?;
    Ok(nest.first)
}

// The bytes of sub-block k of a block; none where the call is refused.
pub fn sub_block<'a, 'b>(table: &'a [u8], block: &'b [u8], k: usize) -> &'b [u8]
    requires { table_ok table.now ≡ true }
    ensures result_value { result.now ≡ sub_block (decode table.now) block.now k }
    ensures ref_ptr_value { result.ref_ptr ≡ offset_by block.entry.ref_ptr (sub_place (decode table.now) block.now k).at }
{
    let place = sub_place(table, block, k).unwrap_or(Span { at: 0, size: 0 });
    part(block, place)
}

// Whether `sub_block` is refused.
pub fn sub_block_refusal(table: &[u8], block: &[u8], k: usize) -> Result<(), Refusal>
    requires { table_ok table.now ≡ true }
    ensures { refusal_of result ≡ sub_block_refusal (decode table.now) block.now k }
{
    sub_place(table, block, k)?;
    Ok(())
}

// A field that stands in every block from length 14 on.
fn stamped(block: &[u8], f: FieldRow) -> Answer
    requires { ends f ≤ 14 }
    ensures { Answers result (stamp f block.now) }
{
    if !frame::is_frame(block) {
        return Err(Refusal::NotOneFrame);
    }
    if block.len() < 14 {
        return Err(Refusal::TooShort);
    }
    Ok(value::read(block, f))
}

// The time of week of a block.
pub fn tow(block: &[u8]) -> Answer
    ensures { Answers result (stamp tow_row block.now) }
{
    stamped(block, rows::TOW)
}

// The week number of a block.
pub fn wnc(block: &[u8]) -> Answer
    ensures { Answers result (stamp wnc_row block.now) }
{
    stamped(block, rows::WNC)
}
