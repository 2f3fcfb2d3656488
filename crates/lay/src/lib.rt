// The carried fields of a list, and of each sub-block, laid into a buffer one after the other (rules W3, W6, W8).
#![tactic(auto)]

ghost use Rattle.std.specs.Prelude.{◌≡◌, true, ◌+◌, ◌-◌, ◌*◌, ◌≤◌, length};
ghost use mathlib.Core.List.{◌++◌, flat_map};
ghost use Rattle.std.proofs.lemmas.List.Edits.{sets};
ghost use Rattle.kinds.specs.Types.{size_of};
ghost use Rattle.table.specs.Lists.{every, is_some};
ghost use Rattle.table.specs.Shape.{fields_of};
ghost use Rattle.table.specs.Rows.{ends};
ghost use Rattle.pen.specs.Bytes.{little_bytes};
ghost use Rattle.entry.specs.Wanted.{wanted_of};
ghost use Rattle.entry.specs.Bits.{bits_of, list_ok};
ghost use Rattle.draft.specs.Draft.{last_end};
ghost use Rattle.draft.specs.Code.{Stops, ListLeft, subs_from, values_from};
ghost use Rattle.lay.specs.Fields.{field_out, zeros, laid};
ghost use Rattle.lay.specs.Code.{Ending, in_order};

use entry::Entry;
use rows::{FieldBytes, FieldRow};

// Where a list ended, and where its last field ends.
#[derive(Clone, Copy)]
pub struct Laid {
    pub next: usize,
    pub end: usize,
}

// Of an entry that is allowed: bits whose low bytes are the field's. Those of a value are as they were given: above the field's own bytes a
// negative number has ones, and any other zeros.
#[tactic(auto, unfolding(entry::specs::Wanted::wanted_of, entry::specs::Bits::bits_of))]
pub fn given(f: FieldRow, e: Entry) -> u64
    requires { is_some (bits_of f (wanted_of e.kind e.bits)) ≡ true }
    ensures { little_bytes (size_of f.kind) result ≡ field_out f (wanted_of e.kind e.bits) }
{
    if e.kind == 0 {
        return kinds::unset_bits(f.mark, f.kind).unwrap_or(0);
    }
    e.bits
}

// A carried field, its offset counted from `base`, with zeros before it from `from` on; where it ends.
fn field(out: &mut [u8], base: usize, from: usize, f: FieldRow, e: Entry) -> usize
    requires { (from ≤ f.offset) × (base + ends f ≤ length out.old) × (is_some (bits_of f (wanted_of e.kind e.bits)) ≡ true) }
    ensures value { result ≡ ends f }
    ensures out_after { out.new ≡ sets out.old (base + from) (zeros (f.offset - from) ++ field_out f (wanted_of e.kind e.bits)) }
{
    let x = given(f, e);
    let size = kinds::size(f.kind);
    pen::zeros(out, base + from, f.offset - from);
    let at = base + f.offset;
    pen::little(out, at, size, x);
    f.offset + size
}

// Where the list that has p ends.
pub fn list_end(kinds: &[u8], p: usize) -> usize
    requires { p ≤ length kinds.now }
    ensures { Ending kinds.now p result }
{
    for i in p..kinds.len() {
        if kinds[i] == 255 {
            return i;
        }
    }
    kinds.len()
}

// The carried ones of these field rows, with the values from p on; offsets count from `base`, and the
// first byte written is the one at `from`.
pub fn fields(
    rows: &[FieldBytes],
    revision: u8,
    kinds: &[u8],
    bits: &[u64],
    p: usize,
    out: &mut [u8],
    base: usize,
    from: usize,
) -> Laid
    requires count_bound { p ≤ length kinds.now }
    requires count_value { (in_order from (fields_of rows.now) ≡ true) × (list_ok revision (fields_of rows.now) (values_from kinds.now bits.now p) ≡ true) }
    requires count_in_bounds { base + last_end revision from (fields_of rows.now) ≤ length out.old }
    ensures list_left { ListLeft kinds.now bits.now p result.next }
    ensures end_value { result.end ≡ last_end revision from (fields_of rows.now) }
    ensures out_after { out.new ≡ sets out.old (base + from) (laid revision from (fields_of rows.now) (values_from kinds.now bits.now p)) }
{
    let mut next = p;
    let mut end = from;
    for row in rows {
        let f = rows::field(row);
        let t = entry::take(kinds, bits, next);
        next = t.next;
        if f.first <= revision {
            end = field(out, base, end, f, t.entry);
        }
    }
    Laid {
        next: list_end(kinds, next),
        end,
    }
}

// The sub-blocks from p on, the first at `base`.
pub fn subs(
    rows: &[FieldBytes],
    revision: u8,
    kinds: &[u8],
    bits: &[u64],
    p: usize,
    out: &mut [u8],
    base: usize,
)
    requires count_bound { (p ≤ length kinds.now) × Stops kinds.now bits.now p }
    requires count_value { (in_order 0 (fields_of rows.now) ≡ true) × (every (list_ok revision (fields_of rows.now)) (subs_from kinds.now bits.now p) ≡ true) }
    requires count_in_bounds { base + length (subs_from kinds.now bits.now p) * last_end revision 0 (fields_of rows.now) ≤ length out.old }
    ensures { out.new ≡ sets out.old base (flat_map (laid revision 0 (fields_of rows.now)) (subs_from kinds.now bits.now p)) }
{
    let mut next = p;
    let mut to = base;
    // each list says where the next one begins, so there is no range to go over
    while next < kinds.len() {
        let l = fields(rows, revision, kinds, bits, next + 1, out, to, 0);
        next = l.next;
        to += l.end;
    }
}
