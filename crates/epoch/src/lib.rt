// What a block of two levels answers beyond a block of one: the fields of its second level, and a MeasEpoch's pseudoranges.
#![tactic(auto)]

ghost use Rattle.std.specs.Prelude.{◌≡◌, true, not, ◌&&◌, eqb, ◌+◌, ◌≤◌, ◌<◌, ◌^◌, length, IfSome};
ghost use Rattle.kinds.specs.Types.{size_of};
ghost use Rattle.table.specs.Lists.{every, pick};
ghost use Rattle.table.specs.Rows.{first_rows, second_rows};
ghost use Rattle.table.specs.Shape.{fields_of, shape_says};
ghost use Rattle.table.specs.Decode.{decode};
ghost use Rattle.table.specs.Rules.{table_ok};
ghost use Rattle.walk.specs.Walk.{nest_end, second_at};
ghost use Rattle.block.specs.Block.{revision_in, ends_by};
ghost use Rattle.record.specs.Answer.{Answers, answer_says};
ghost use Rattle.epoch.specs.Second.{second_field};
ghost use Rattle.epoch.specs.Ranges.{unsigned_of, unsigned_at, pair_at, first_pair, second_pair, is_epoch, range_field, range2_field};

use record::Answer;
use refusal::Refusal;
use rows::FieldBytes;
use table::Shape;
use value::Value;
use walk::{Nest, Span};

// Where second-level sub-block m of a first-level one stands.
fn second_span(n: Nest, m: usize) -> Span
    requires { (m < n.count) × (nest_end n < 18446744073709551616) }
    ensures { result ≡ second_at n m }
{
    let size = n.size;
    let start = n.first.at + n.first.size;
    let at = start + m * size;
    Span { at, size }
}

// Field j of sub-block m nested in first-level sub-block k of a block.
pub fn second_field(table: &[u8], block: &[u8], k: usize, m: usize, j: usize) -> Answer
    requires { table_ok table.now ≡ true }
    ensures { Answers result (second_field (decode table.now) block.now k m j) }
{
    let (row, nest) = block::sub_row_of(table, block, k)?;
    if nest.count <= m {
        return Err(Refusal::NoSuchField);
    }
    let span = second_span(nest, m);
    let bytes = record::part(block, span);
    record::field_in(table::second_rows(row), j, bytes, block::revision(block))
}

// The unsigned number that a field answers, if it answers one.
fn number_of(a: Answer) -> Option<u64>
    ensures { result ≡ unsigned_of (answer_says a) }
{
    match a {
        Ok(Value::Unsigned(n)) => Some(n),
        _ => None,
    }
}

// The number in field j of these rows, in these bytes, where it is of the type.
fn number_at(fields: &[FieldBytes], j: usize, kind: u8, s: &[u8], revision: u8) -> Option<u64>
    requires { (every (ends_by revision (length s.now)) (fields_of fields.now) ≡ true) × (kind ≤ 4) }
    ensures result_value { result ≡ unsigned_at revision s.now kind (pick (fields_of fields.now) j) }
    ensures number_below { IfSome result (λ n. n < 256 ^ size_of kind) }
{
    let f = rows::field(fields.get(j)?);
    if f.kind != kind {
        return None;
    }
    number_of(record::field_said(s, f, revision))
}

// The numbers in field 3, a u1, and in field j.
fn pair_at(fields: &[FieldBytes], j: usize, kind: u8, s: &[u8], revision: u8) -> Option<(u64, u64)>
    requires { (every (ends_by revision (length s.now)) (fields_of fields.now) ≡ true) × (kind ≤ 4) }
    ensures result_value { result ≡ pair_at revision s.now j kind (fields_of fields.now) }
    ensures pair_below { IfSome result (λ p. p.1 < 256 ^ size_of kind) }
{
    let high = number_at(fields, 3, 1, s, revision);
    let low = number_at(fields, j, kind, s, revision);
    high.zip(low)
}

// Misc and CodeLSB of a first-level sub-block.
fn first_pair(row: Shape, block: &[u8], nest: Nest) -> Option<(u64, u64)>
    requires { (8 ≤ length block.now) × (nest.first.at + nest.first.size ≤ length block.now) × (every (ends_by (revision_in block.now) nest.first.size) (first_rows (shape_says row)) ≡ true) }
    ensures result_value { result ≡ first_pair (shape_says row.entry) block.now nest }
    ensures pair_below { IfSome result (λ p. p.1 < 4294967296) }
{
    let bytes = record::part(block, nest.first);
    pair_at(table::first_rows(row), 4, 3, bytes, block::revision(block))
}

// OffsetsMSB and CodeOffsetLSB of a second-level one, which stands there.
fn second_pair(row: Shape, block: &[u8], span: Span) -> Option<(u64, u64)>
    requires { (8 ≤ length block.now) × (span.at + span.size ≤ length block.now) × (every (ends_by (revision_in block.now) span.size) (second_rows (shape_says row)) ≡ true) }
    ensures result_value { result ≡ second_pair (shape_says row.entry) block.now (Some span) }
    ensures pair_below { IfSome result (λ p. p.1 < 65536) }
{
    let bytes = record::part(block, span);
    pair_at(table::second_rows(row), 6, 2, bytes, block::revision(block))
}

fn is_epoch(block: &[u8], row: Shape) -> bool
    requires { 8 ≤ length block.now }
    ensures { result ≡ is_epoch block.now (shape_says row.entry) }
{
    block::number(block) == 4027 && row.firsts != 0
}

// The pseudorange of first-level sub-block k of a block.
pub fn range(table: &[u8], block: &[u8], k: usize) -> Answer
    requires { table_ok table.now ≡ true }
    ensures { Answers result (range_field (decode table.now) block.now k) }
{
    let (row, nest) = block::sub_row_of(table, block, k)?;
    if !is_epoch(block, row) {
        return Err(Refusal::NoSuchField);
    }
    pseudorange::range(first_pair(row, block, nest))
}

// The pseudorange of sub-block m nested in it.
pub fn range2(table: &[u8], block: &[u8], k: usize, m: usize) -> Answer
    requires { table_ok table.now ≡ true }
    ensures { Answers result (range2_field (decode table.now) block.now k m) }
{
    let (row, nest) = block::sub_row_of(table, block, k)?;
    if !is_epoch(block, row) || nest.count <= m {
        return Err(Refusal::NoSuchField);
    }
    let first = first_pair(row, block, nest);
    let span = second_span(nest, m);
    let second = second_pair(row, block, span);
    pseudorange::range2(first, second)
}
