// The rules on field rows (T12 to T16, T20), as they stand.
ghost use Rattle.std.specs.Prelude.{◌≡◌, ◌<◌};
ghost use Rattle.rows.specs.Places.{field_of};
ghost use Rattle.table.specs.Lists.{every};
ghost use Rattle.table.specs.Shape.{fields_of};
ghost use Rattle.table.specs.Rules.{is_count, is_pair, is_nested, is_triple, early};
ghost use Rattle.table.specs.Code.{field_step, field_pass};

use rows::{FieldBytes, FieldRow, field};

// A field row, where the one before ends at `low` and has the first revision `rev`.
fn field_ok(f: FieldRow, low: usize, rev: u8, highest: u8) -> bool
    ensures { result ≡ field_step low rev highest f }
{
    let listed = (1 <= f.kind) & (f.kind <= 10);
    let marked = kinds::mark_fits(f.kind, f.mark);
    (low <= f.offset) & (rev <= f.first) & (f.first <= highest) & listed & marked
}

// A body's rows, or those of sub-fields, the first at `least` or past it.
pub fn fields_ok(rows: &[FieldBytes], least: usize, highest: u8) -> bool
    ensures { result ≡ field_pass least 0 highest (fields_of rows.now) }
{
    let mut low = least;
    let mut rev: u8 = 0;
    for row in rows {
        let f = field(row);
        if !field_ok(f, low, rev, highest) {
            return false;
        }
        low = f.offset + kinds::size(f.kind);
        rev = f.first;
    }
    true
}

fn is_count(f: FieldRow, at: usize) -> bool
    ensures { result ≡ is_count at f }
{
    (f.offset == at) & (f.kind == 1) & (f.first == 0) & (f.mark == 0)
}

// Whether these rows are N and SBLength.
pub fn pair_ok(rows: &[FieldBytes]) -> bool
    ensures { result ≡ is_pair (fields_of rows.now) }
{
    match rows {
        [n, s] => is_count(field(n), 14) & is_count(field(s), 15),
        _ => false,
    }
}

// Whether the row can be N2.
pub fn nested_ok(row: &FieldBytes) -> bool
    ensures { result ≡ is_nested (Some (field_of row.now)) }
{
    let f = field(row);
    is_count(f, f.offset)
}

// Whether these rows begin with N1, SB1Length and SB2Length.
pub fn triple_ok(rows: &[FieldBytes]) -> bool
    ensures { result ≡ is_triple (fields_of rows.now) }
{
    match rows {
        [n, first, second, ..] => {
            is_count(field(n), 14) & is_count(field(first), 15) & is_count(field(second), 16)
        }
        _ => false,
    }
}

fn is_early(f: FieldRow) -> bool
    requires { f.offset < 65536 }
    ensures { result ≡ early f }
{
    f.offset + kinds::size(f.kind) <= 20
}

// Whether these fields all end by 20, where the sub-blocks begin.
pub fn all_early(rows: &[FieldBytes]) -> bool
    ensures { result ≡ every early (fields_of rows.now) }
{
    rows.iter().all(|row| is_early(field(row)))
}
