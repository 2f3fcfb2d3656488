// Sub-blocks of two levels (rule T21): the walk over a block's first-level sub-blocks and those nested in each.
#![tactic(auto)]

ghost use Rattle.std.specs.Prelude.{◌≡◌, ◌+◌, ◌≤◌, ◌<◌, get_or};
ghost use Rattle.walk.specs.Walk.{nest_at, nest_end, walked_of};
ghost use Rattle.walk.specs.Theorems.{WalkLaid};

// Where a part of a block stands: it starts at `at` and has `size` bytes.
#[derive(Clone, Copy)]
pub struct Span {
    pub at: usize,
    pub size: usize,
}

// A first-level sub-block, and those nested in it: `count` of them stand right behind it, each `size` bytes long.
#[derive(Clone, Copy)]
pub struct Nest {
    pub first: Span,
    pub count: usize,
    pub size: usize,
}

// A whole walk: where it ends, whether any first-level sub-block has nested ones, and the first-level sub-block that was asked for.
#[derive(Clone, Copy)]
pub struct Walked {
    pub end: usize,
    pub any: bool,
    pub nest: Nest,
}

// The byte at a place of a block, 0 past its end: a walk past the end is seen by where it ends.
pub fn byte_or_0(block: &[u8], at: usize) -> usize
    ensures { (result ≡ get_or block.now at 0) × (result < 256) }
{
    if at < block.len() {
        usize::from(block[at])
    } else {
        0
    }
}

// The first-level sub-block that stands there; its N2 stands n2 bytes into it.
fn nest_at(block: &[u8], n2: usize, at: usize) -> Nest
    requires { (n2 < 65536) × (at < 33554432) }
    ensures value { result ≡ nest_at n2 block.now at }
    ensures size_bound { (result.first.size < 256) × (result.count < 256) × (result.size < 256) }
{
    let first = byte_or_0(block, 15);
    let size = byte_or_0(block, 16);
    let count = byte_or_0(block, at + n2);
    Nest {
        first: Span { at, size: first },
        count,
        size,
    }
}

// Where the last sub-block nested in it ends.
fn end_of(n: Nest) -> usize
    requires { (n.first.at < 33554432) × (n.first.size < 256) × (n.count < 256) × (n.size < 256) }
    ensures { (result ≡ nest_end n) × (result ≤ n.first.at + 65280) }
{
    let nested = n.count * n.size;
    n.first.at + n.first.size + nested
}

// The walk over all first-level sub-blocks, in one pass, which finds number k on its way: an empty one at the start where none is.
pub fn walk(block: &[u8], n2: usize, k: usize) -> Walked
    requires { n2 < 65536 }
    ensures { result ≡ walked_of n2 block.now k }
{
    let count = byte_or_0(block, 14);
    let mut at: usize = 20;
    let mut any = false;
    let mut nest = Nest {
        first: Span { at: 0, size: 0 },
        count: 0,
        size: 0,
    };
    for i in 0..count {
        let n = nest_at(block, n2, at);
        if i == k {
            nest = n;
        }
        any |= 0 < n.count;
        at = end_of(n);
    }
    Walked { end: at, any, nest }
}

// The places of a walk that ends in the block lie in the block, in order, and no two overlap.
pub fn walk_laid()
    ensures { WalkLaid }
{}
