// The rules on block rows (T8 to T10), and the pass over all rows.
ghost use Rattle.std.specs.Prelude.{◌≡◌, true, ◌+◌, ◌≤◌, ◌<◌};
ghost use Rattle.rows.specs.Places.{field_count};
ghost use Rattle.table.specs.Decode.{rows_of};
ghost use Rattle.table.specs.Rules.{file_ok};
ghost use Rattle.table.specs.Shape.{shape_says};
ghost use Rattle.table.specs.Code.{row_step, block_pass, row_pass, one_pass, two_pass};

use crate::{Shape, fields};
use rows::Row;

// A block row, where the least number allowed is `least` and `used` field rows are before it.
fn row_ok(r: Row, least: u16, used: usize, fields: usize) -> bool
    requires { (r.bodies < 256) × (r.subs < 256) × (used ≤ 8192) }
    ensures { result ≡ row_step least used fields r }
{
    let alone = (r.number <= 8191) & (r.highest <= 7);
    alone & (least <= r.number) & (r.start == used) & (used + (r.bodies + r.subs) <= fields)
}

// T13 to T16, the sub-fields of a row of one level. N and SBLength are asked for only where there are any.
fn one_level(s: Shape) -> bool
    ensures { result ≡ one_pass (shape_says s.entry) }
{
    if s.subs.len() == 0 {
        return true;
    }
    let subs = fields::fields_ok(s.subs, 0, s.highest);
    let pair = fields::pair_ok(s.body);
    subs & pair
}

// T13 to T15, T19, T20, the sub-fields of a row of two levels, each level by itself.
fn two_levels(s: Shape) -> bool
    requires { 0 < s.firsts }
    ensures { result ≡ two_pass (shape_says s.entry) }
{
    let c = s.firsts;
    if s.subs.len() < c {
        return false;
    }
    let (level, nest) = s.subs.split_at(c);
    let first = fields::fields_ok(level, 0, s.highest);
    let second = fields::fields_ok(nest, 0, s.highest);
    let nested = fields::nested_ok(&s.subs[c - 1]);
    let triple = fields::triple_ok(s.body);
    let early = fields::all_early(s.body);
    first & second & nested & triple & early
}

// T12 to T16, T19, T20, the field rows of a block row.
fn block_ok(s: Shape) -> bool
    ensures { result ≡ block_pass (shape_says s.entry) }
{
    let body = fields::fields_ok(s.body, 14, s.highest);
    if s.firsts == 0 {
        return body & one_level(s);
    }
    body & two_levels(s)
}

// All rows, in one pass.
pub fn rows_ok(t: &[u8]) -> bool
    requires { file_ok t.now ≡ true }
    ensures { result ≡ row_pass t.now 0 0 (field_count t.now) (rows_of t.now) }
{
    let count = rows::block_count(t);
    let at = rows::blocks_at(t);
    let fields = rows::field_count(t, at);
    let mut least: u16 = 0;
    let mut used: usize = 0;
    for i in 0..count {
        let r = rows::row_at(t, at, i);
        if !row_ok(r, least, used, fields) {
            return false;
        }
        if !block_ok(crate::shaped(t, r)) {
            return false;
        }
        least = r.number + 1;
        used += r.bodies + r.subs;
    }
    used == fields
}
