// Record calls (rule C13): a body field, a sub-block's field, a sub-block's bytes by the table in force; TOW and WNc by no table.
#![tactic(auto)]

ghost use Rattle.std.specs.Prelude.{◌≡◌, true, ◌+◌, ◌≤◌, length, IfOk};
ghost use Rattle.std.specs.Result.{result_unwrap_or};
ghost use Rattle.wire.specs.Parts.{offset_by};
ghost use Rattle.refusal.specs.Numbers.{refusal_of};
ghost use Rattle.table.specs.Rules.{table_ok};
ghost use Rattle.record.specs.Answer.{Answers};
ghost use Rattle.record.specs.Calls.{nowhere};
ghost use Rattle.records.specs.Calls.{table_in_force, ask_refusal, body_of, sub_of, sub_bytes_of, sub_place_of, sub_bytes_refusal, tow_of, wnc_of};

use reader::State;
use record::Answer;
use refusal::Refusal;
use walk::Span;

// R1, R5, R4: the table in force, which is checked at every call, for a caller may have spoiled the store.
pub fn of_ask(s: State, in_force: &[u8]) -> Result<&[u8], Refusal>
    ensures refusal_value { refusal_of result ≡ ask_refusal s in_force.now }
    ensures table_value { IfOk result (λ t. (t.now ≡ table_in_force s in_force.now) × (table_ok t.now ≡ true)) }
{
    if !reader::is_sound(s) || in_force.len() < 8192 {
        return Err(Refusal::BadBuffer);
    }
    let n = s.in_force;
    if n == 0 {
        return Err(Refusal::NoTable);
    }
    let table = &in_force[..n];
    table::check(table).ok_or(Refusal::BadTable)?;
    Ok(table)
}

// Body field i of a block.
pub fn body(s: State, in_force: &[u8], block: &[u8], i: usize) -> Answer
    ensures { Answers result (body_of s in_force.now block.now i) }
{
    let table = of_ask(s, in_force)?;
    record::body_field(table, block, i)
}

// Field j of sub-block k of a block.
pub fn sub(s: State, in_force: &[u8], block: &[u8], k: usize, j: usize) -> Answer
    ensures { Answers result (sub_of s in_force.now block.now k j) }
{
    let table = of_ask(s, in_force)?;
    record::sub_field(table, block, k, j)
}

// C13, R22: the bytes of sub-block k, as a part of the block; an empty part where the call is refused.
pub fn sub_bytes<'a, 'b>(s: State, in_force: &'a [u8], block: &'b [u8], k: usize) -> &'b [u8]
    ensures result_value { result.now ≡ sub_bytes_of s in_force.now block.now k }
    ensures ref_ptr_value { result.ref_ptr ≡ offset_by block.entry.ref_ptr (sub_place_of s in_force.now block.now k).at }
{
    match of_ask(s, in_force) {
        Ok(table) => record::sub_block(table, block, k),
        Err(_) => record::part(block, Span { at: 0, size: 0 }),
    }
}

// R22: whether `sub_bytes` is refused, and why.
pub fn sub_bytes_refused(s: State, in_force: &[u8], block: &[u8], k: usize) -> Result<(), Refusal>
    ensures { refusal_of result ≡ sub_bytes_refusal s in_force.now block.now k }
{
    let table = of_ask(s, in_force)?;
    record::sub_block_refusal(table, block, k)
}

// Both in one: where the bytes of sub-block k stand in the block, or why the call is refused.
pub fn sub_place(s: State, in_force: &[u8], block: &[u8], k: usize) -> Result<Span, Refusal>
    ensures handed_value { refusal_of result ≡ sub_bytes_refusal s in_force.now block.now k }
    ensures span_value { result_unwrap_or result nowhere ≡ sub_place_of s in_force.now block.now k }
    ensures size_in_bounds { let p = result_unwrap_or result nowhere in p.at + p.size ≤ length block.now }
{
    let table = of_ask(s, in_force)?;
    record::sub_place(table, block, k)
}

// V8: the time of week of a block.
pub fn tow(s: State, block: &[u8]) -> Answer
    ensures { Answers result (tow_of s block.now) }
{
    reader::of_state(s)?;
    record::tow(block)
}

// V8: the week number of a block.
pub fn wnc(s: State, block: &[u8]) -> Answer
    ensures { Answers result (wnc_of s block.now) }
{
    reader::of_state(s)?;
    record::wnc(block)
}
