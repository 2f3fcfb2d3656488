// A block written through a table that passes its check, and under a ceiling (rules W1, W6 to W9, C17).
#![tactic(auto)]

ghost use Rattle.std.specs.Prelude.{◌≡◌, true, [], ◌+◌, ◌≤◌, length};
ghost use Rattle.std.proofs.lemmas.List.Edits.{sets};
ghost use Rattle.table.specs.Decode.{decode};
ghost use Rattle.table.specs.Shape.{shape_says};
ghost use Rattle.table.specs.Rules.{table_ok, block_ok};
ghost use Rattle.copy.specs.Over.{over};
ghost use Rattle.draft.specs.Draft.{draft_of, stamps_ok};
ghost use Rattle.writer.specs.Block.{block_bytes};
ghost use Rattle.writer.specs.Write.{write_outcome, written_by, written_of, written_says};
ghost use Rattle.writer.specs.Code.{stamps_out, lists_out, Ready, Writable};

use draft::{Head, Measured};
use refusal::Refusal;
use table::Shape;

// V8: TOW and WNc.
fn put_stamps(out: &mut [u8], h: Head)
    requires { (14 ≤ length out.old) × (stamps_ok (draft_of h [] []) ≡ true) }
    ensures { out.new ≡ sets out.old 8 (stamps_out (draft_of h [] [])) }
{
    let first = lay::given(rows::TOW, h.tow);
    let second = lay::given(rows::WNC, h.wnc);
    pen::little(out, 8, 4, first);
    pen::little(out, 12, 2, second);
}

// The body from 14 on, and the sub-blocks: N and SBLength where the row has sub-fields, else the values.
fn put_lists(
    row: Shape,
    revision: u8,
    kinds: &[u8],
    bits: &[u64],
    subs: usize,
    sub: usize,
    out: &mut [u8],
)
    requires { Ready (shape_says row) revision kinds.now bits.now subs sub (length out.old) }
    ensures { out.new ≡ sets out.old 14 (lists_out (shape_says row.entry) revision kinds.now bits.now) }
{
    if row.subs.len() == 0 {
        lay::fields(row.body, revision, kinds, bits, 0, out, 0, 14);
        return;
    }
    // T16: a byte each
    pen::little(out, 14, 2, (subs + 256 * sub) as u64);
    let p = lay::list_end(kinds, 0);
    lay::subs(row.subs, revision, kinds, bits, p, out, 16);
}

// The bytes of a draft that its row accepts and that has room.
fn put_block(
    row: Shape,
    h: Head,
    kinds: &[u8],
    bits: &[u64],
    subs: usize,
    z: Measured,
    out: &mut [u8],
)
    requires h_bound { h.number ≤ 65535 }
    requires writable { Writable (shape_says row) (draft_of h kinds.now bits.now) subs z (length out.old) }
    ensures { out.new ≡ over (block_bytes (shape_says row.entry) (draft_of h kinds.now bits.now)) out.old }
{
    let end = z.end;
    let all = z.all;
    put_stamps(out, h);
    put_lists(row, h.revision as u8, kinds, bits, subs, z.sub, out);
    pen::zeros(out, end, all - end);
    pen::seal(out, h.number + 8192 * h.revision, all);
}

// A draft by its row, of one level: R11, R12, then the bytes. How long the block is.
fn put(
    ceiling: usize,
    row: Shape,
    h: Head,
    kinds: &[u8],
    bits: &[u64],
    out: &mut [u8],
) -> Result<usize, Refusal>
    requires { (block_ok (shape_says row) ≡ true) × (row.firsts ≡ 0) × (h.number ≤ 65535) }
    ensures { write_outcome (written_says result) out.new ≡ written_by ceiling (Some (shape_says row.entry)) (draft_of h kinds.now bits.now) out.old }
{
    let Some(subs) = draft::accepts(row, h, kinds, bits) else {
        return Err(Refusal::BadValues);
    };
    let z = draft::sizes(row, h.revision as u8, subs);
    let all = z.all;
    if !((all <= out.len()) & (all <= ceiling) & (z.sub <= 255)) {
        return Err(Refusal::NoRoom);
    }
    put_block(row, h, kinds, bits, subs, z, out);
    Ok(all)
}

// The block of a draft, of no more bytes than the ceiling, at the start of the buffer: how long it is, or why there is none.
pub fn write(
    ceiling: usize,
    table: &[u8],
    h: Head,
    kinds: &[u8],
    bits: &[u64],
    out: &mut [u8],
) -> Result<usize, Refusal>
    requires { table_ok table.now ≡ true }
    ensures { write_outcome (written_says result) out.new ≡ written_of ceiling (decode table.now) (draft_of h kinds.now bits.now) out.old }
{
    let Ok(number) = u16::try_from(h.number) else {
        return Err(Refusal::NoRow);
    };
    let Some(row) = table::find(table, number) else {
        return Err(Refusal::NoRow);
    };
    // W1: only rows of one level are written by
    if row.firsts != 0 {
        return Err(Refusal::NoRow);
    }
    put(ceiling, row, h, kinds, bits, out)
}
