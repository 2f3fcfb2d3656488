// A draft of a block against its row (rule R11), and how long the block is (W7, W9).
#![tactic(auto)]

ghost use Rattle.std.specs.Prelude.{◌≡◌, [], ◌≤◌, length};
ghost use Rattle.table.specs.Shape.{fields_of, shape_says};
ghost use Rattle.entry.specs.Wanted.{wanted_of};
ghost use Rattle.entry.specs.Bits.{wanted_ok, list_ok};
ghost use Rattle.draft.specs.Draft.{draft_of, stamps_ok, draft_ok, last_end, sb_length_by};
ghost use Rattle.draft.specs.Code.{Stops, Resting, Listing, subs_from, subs_allowed, lists_counted, counted, Sizing};

use entry::Entry;
use rows::{FieldBytes, FieldRow};
use table::Shape;

// N is one byte, so a block has at most so many sub-blocks.
const MOST: usize = 255;

// W1: what a block begins with.
#[derive(Clone, Copy)]
pub struct Head {
    pub number: u64,
    pub revision: u64,
    pub tow: Entry,
    pub wnc: Entry,
}

// W7, W9: SBLength, where the last field or sub-block ends, and L.
#[derive(Clone, Copy)]
pub struct Measured {
    pub sub: usize,
    pub end: usize,
    pub all: usize,
}

// The rest of a list, from p on, where all is to be unset: where the list ends.
pub fn rest_ok(kinds: &[u8], p: usize) -> Option<usize>
    requires { p ≤ length kinds.now }
    ensures { Resting kinds.now p result }
{
    for i in p..kinds.len() {
        match kinds[i] {
            0 => {}
            255 => return Some(i),
            _ => return None,
        }
    }
    Some(kinds.len())
}

// What is wanted of a field.
pub fn wanted_ok(f: FieldRow, revision: u8, e: Entry) -> bool
    ensures { result ≡ wanted_ok revision f (wanted_of e.kind e.bits) }
{
    if f.first <= revision {
        return entry::bits_of(f, e).is_some();
    }
    e.kind == 0
}

// The list from p on, for these field rows: where it ends.
pub fn list_ok(
    fields: &[FieldBytes],
    revision: u8,
    kinds: &[u8],
    bits: &[u64],
    p: usize,
) -> Option<usize>
    requires { p ≤ length kinds.now }
    ensures { Listing revision (fields_of fields.now) kinds.now bits.now p result }
{
    let mut next = p;
    for field in fields {
        let f = rows::field(field);
        let t = entry::take(kinds, bits, next);
        if !wanted_ok(f, revision, t.entry) {
            return None;
        }
        next = t.next;
    }
    rest_ok(kinds, next)
}

// The sub-blocks' lists from p on, where the first one begins or all has ended: how many there are.
fn subs_ok(
    fields: &[FieldBytes],
    revision: u8,
    kinds: &[u8],
    bits: &[u64],
    p: usize,
) -> Option<usize>
    requires { (p ≤ length kinds.now) × Stops kinds.now bits.now p }
    ensures { result ≡ counted (subs_allowed (list_ok revision (fields_of fields.now)) (subs_from kinds.now bits.now p)) (subs_from kinds.now bits.now p) }
{
    let mut n: usize = 0;
    let mut next = p;
    // each list says where the next one begins, so there is no range to go over
    while next < kinds.len() {
        next = list_ok(fields, revision, kinds, bits, next + 1)?;
        if MOST <= n {
            return None;
        }
        n += 1;
    }
    Some(n)
}

// V8: TOW and WNc.
fn stamps_ok(h: Head) -> bool
    ensures { result ≡ stamps_ok (draft_of h [] []) }
{
    wanted_ok(rows::TOW, 0, h.tow) && wanted_ok(rows::WNC, 0, h.wnc)
}

// Body and sub-blocks. Where the row has sub-fields the body's values are all unset; where it has none no sub-block may begin.
fn lists_ok(row: Shape, revision: u8, kinds: &[u8], bits: &[u64]) -> Option<usize>
    ensures { result ≡ lists_counted (shape_says row.entry) revision kinds.now bits.now }
{
    if row.subs.len() == 0 {
        let end = list_ok(row.body, revision, kinds, bits, 0)?;
        return (end == kinds.len()).then_some(0);
    }
    let p = rest_ok(kinds, 0)?;
    subs_ok(row.subs, revision, kinds, bits, p)
}

// R11: how many sub-blocks the draft has, where it may stand in a block of the row.
pub fn accepts(row: Shape, h: Head, kinds: &[u8], bits: &[u64]) -> Option<usize>
    ensures { result ≡ counted (draft_ok (shape_says row.entry) (draft_of h kinds.now bits.now)) (draft_of h kinds.now bits.now).subs }
{
    if 7 < h.revision {
        return None;
    }
    if !stamps_ok(h) {
        return None;
    }
    lists_ok(row, h.revision as u8, kinds, bits)
}

// Where the last carried one of these field rows ends. It is looked for from the last row on: in most blocks that one is carried.
fn last_end(fields: &[FieldBytes], revision: u8, from: usize) -> usize
    requires { from ≤ 65543 }
    ensures { (result ≡ last_end revision from (fields_of fields.now)) × (result ≤ 65543) }
{
    for i in (0..fields.len()).rev() {
        let f = rows::field(&fields[i]);
        if f.first <= revision {
            return f.offset + kinds::size(f.kind);
        }
    }
    from
}

// SBLength of so many sub-blocks.
fn sub_length(row: Shape, revision: u8, subs: usize) -> usize
    ensures { (result ≡ sb_length_by (shape_says row.entry) revision subs) × (result ≤ 65543) }
{
    if subs == 0 {
        return 0;
    }
    last_end(row.subs, revision, 0)
}

// SBLength and L, of so many sub-blocks.
pub fn sizes(row: Shape, revision: u8, subs: usize) -> Measured
    requires { subs ≤ 255 }
    ensures { Sizing (shape_says row.entry) revision subs result }
{
    let sub = sub_length(row, revision, subs);
    let body = last_end(row.body, revision, 14);
    let end = body + subs * sub;
    Measured {
        sub,
        end,
        all: 4 * ((end + 3) / 4),
    }
}
