// The block table: its check (rules T1 to T20), and the row of a block's number.
#![tactic(auto)]

ghost use Rattle.std.specs.Prelude.{◌≡◌, true, min, ◌+◌, ◌≤◌, length};
ghost use Rattle.table.specs.Decode.{block_of};
ghost use Rattle.table.specs.Rows.{first_rows, second_rows};
ghost use Rattle.table.specs.Rules.{table_ok};
ghost use Rattle.table.specs.Answer.{check_says, check_of};
ghost use Rattle.table.specs.Lookup.{Finding};
ghost use Rattle.rows.specs.Places.{field_count};
ghost use Rattle.table.specs.Shape.{fields_of, shape_says};
ghost use Rattle.table.specs.Theorems.{OneRow};

use rows::{FieldBytes, Row};

mod blocks; // blocks.rt: the rules on block rows, and the pass over all rows
mod fields; // fields.rt: the rules on field rows
mod trailer; // trailer.rt: the rules on file and trailer

// The version of a table, where it breaks no rule.
pub fn check(t: &[u8]) -> Option<u16>
    ensures { check_says result ≡ check_of t.now }
{
    if !trailer::file_ok(t) || !blocks::rows_ok(t) {
        return None;
    }
    Some(rows::version(t))
}

// The row of a block's number, in a table that passes.
pub fn find(t: &[u8], number: u16) -> Option<Shape<'_>>
    requires { table_ok t.now ≡ true }
    ensures { Finding t.now number result }
{
    let count = rows::block_count(t);
    let at = rows::blocks_at(t);
    for i in 0..count {
        let r = rows::row_at(t, at, i);
        if r.number == number {
            return Some(shaped(t, r));
        }
    }
    None
}

// A block row by what it says: beside its numbers its field rows as they stand in the table, those of the body and those of sub-blocks,
// of which the first `firsts` are the first level's.
#[derive(Clone, Copy)]
pub struct Shape<'a> {
    pub number: u16,
    pub highest: u8,
    pub body: &'a [FieldBytes],
    pub subs: &'a [FieldBytes],
    pub firsts: usize,
}

fn shaped(t: &[u8], r: Row) -> Shape<'_>
    requires { r.start + r.bodies + r.subs ≤ field_count t.now }
    ensures { shape_says result ≡ block_of t.now r }
{
    let (rows, _): (&[FieldBytes], &[u8]) = t.as_chunks();
    let at = r.start + r.bodies;
    Shape {
        number: r.number,
        highest: r.highest,
        body: &rows[r.start..at],
        subs: &rows[at..at + r.subs],
        firsts: r.firsts,
    }
}

// Where the second level's field rows begin among those of sub-blocks.
fn split(s: Shape) -> usize
    ensures { result ≡ min s.entry.firsts (length s.entry.subs.now) }
{
    if s.firsts < s.subs.len() {
        s.firsts
    } else {
        s.subs.len()
    }
}

// The field rows of the first level, or of the only one.
pub fn first_rows(s: Shape<'_>) -> &[FieldBytes]
    ensures { fields_of result.now ≡ first_rows (shape_says s.entry) }
{
    if s.firsts == 0 {
        return s.subs;
    }
    &s.subs[..split(s)]
}

// The field rows of the second level.
pub fn second_rows(s: Shape<'_>) -> &[FieldBytes]
    ensures { fields_of result.now ≡ second_rows (shape_says s.entry) }
{
    if s.firsts == 0 {
        return &s.subs[..0];
    }
    &s.subs[split(s)..]
}

// A number has one row.
pub fn one_row()
    ensures { OneRow }
{}
