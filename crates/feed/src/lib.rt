// A run fed piece by piece, and read with a ceiling (rules C4, C6, C8, F16): what is taken and not decided, and a reported block, are
// kept at the front of the hold.
#![tactic(auto)]

ghost use Rattle.std.specs.Prelude.{◌≡◌, ◌++◌, min, ◌+◌, ◌-◌, ◌≤◌, length, take, drop};
ghost use Rattle.std.proofs.Math.Seq.{paste};
ghost use Rattle.frame.specs.Judge.{judged_last};
ghost use Rattle.scan.specs.Settle.{settle};
ghost use Rattle.scan.specs.Feed.{feed_lit, stop};
ghost use Rattle.feed.specs.Hold.{rest_of, numbers_of, hold_of, GoodNumbers, LeftForNext};

use scan::{Passed, Scanned};

// What a call leaves.
#[derive(Clone, Copy)]
pub struct HoldNumbers {
    // How many bytes of the piece were taken.
    pub taken: usize,
    // What is known of the bytes skipped.
    pub passed: Passed,
    // How many bytes of the hold count, a standing block among them.
    pub held: usize,
    // The length of the block that stands at the front of the hold, 0 for none.
    pub standing: usize,
}

// k bytes from `from` on go to `to`, by way of a buffer: so both copies are of parts that do not overlap, and wide.
fn move_some(hold: &mut [u8], from: usize, to: usize, buf: &mut [u8; 1024], k: usize)
    requires { (from + k ≤ length hold.old) × (to + k ≤ length hold.old) × (k ≤ 1024) }
    ensures { hold.new ≡ paste hold.old to (drop from hold.old) k }
{
    copy::copy_in(buf, 0, hold, from, k);
    copy::copy_in(hold, to, buf, 0, k);
}

// k bytes from `from` on move to the front. The library's `copy_within` is slower, for it goes byte by byte: a clean run in pieces of 64
// bytes takes 45 instructions a byte by it, and 14 so.
fn move_down(hold: &mut [u8], from: usize, k: usize)
    requires { from + k ≤ length hold.old }
    ensures { hold.new ≡ paste hold.old 0 (drop from hold.old) k }
{
    if from == 0 {
        return;
    }
    let mut buf = [0u8; 1024];
    let mut moved = 0;
    while moved < k {
        let n = (k - moved).min(1024);
        move_some(hold, from + moved, moved, &mut buf, n);
        moved += n;
    }
}

// The bytes p .. m of the run go to the front of the hold. The run: the n bytes behind the standing block, then the piece.
fn keep(hold: &mut [u8], standing: usize, n: usize, piece: &[u8], p: usize, m: usize)
    requires { (standing + n ≤ length hold.old) × (p ≤ m) × (n ≤ m) × (m ≤ n + length piece.now) × (m - p ≤ length hold.old) }
    ensures { hold.new ≡ drop p (take m (take n (drop standing hold.old) ++ piece.now)) ++ drop (m - p) hold.old }
{
    if p < n {
        let k = n - p;
        move_down(hold, standing + p, k);
        copy::copy_in(hold, k, piece, 0, m - n);
    } else {
        copy::copy_in(hold, 0, piece, p - n, m - p);
    }
}

// Drops the standing block and takes at most `room` bytes of the piece; the promise is by C6, a byte at a time.
pub fn feed(
    ceiling: usize,
    hold: &mut [u8],
    held: usize,
    standing: usize,
    piece: &[u8],
    room: usize,
) -> HoldNumbers
    requires { (ceiling ≤ 65532) × (standing ≤ held) × (held ≤ 65532) × (65532 ≤ length hold.old) }
    ensures value { result ≡ numbers_of (feed_lit ceiling (rest_of hold.old held standing) piece.now room) }
    ensures hold_after { hold.new ≡ hold_of (feed_lit ceiling (rest_of hold.old held standing) piece.now room) hold.old }
    ensures good_numbers { GoodNumbers result (min room (length piece.now)) }
{
    let n = held - standing;
    let t = room.min(piece.len());
    let found = scan::scan(ceiling, &hold[standing..held], &piece[..t]);
    let Scanned {
        taken,
        passed,
        block,
    } = found;
    let p = passed.skipped;
    let m = n + taken;
    keep(hold, standing, n, piece, p, m);
    HoldNumbers {
        taken,
        passed,
        held: m - p,
        standing: block,
    }
}

// Drops the standing block; what is held is read on with nothing to follow.
pub fn finish(ceiling: usize, hold: &mut [u8], held: usize, standing: usize) -> HoldNumbers
    requires { (standing ≤ held) × (held ≤ 65532) × (65532 ≤ length hold.old) }
    ensures value { result ≡ numbers_of (stop (settle (judged_last ceiling) (rest_of hold.old held standing))) }
    ensures hold_after { hold.new ≡ hold_of (stop (settle (judged_last ceiling) (rest_of hold.old held standing))) hold.old }
    ensures good_numbers { GoodNumbers result 0 }
{
    let found = scan::last(ceiling, &hold[standing..held]);
    let passed = found.passed;
    let p = passed.skipped;
    let k = held - standing - p;
    move_down(hold, standing + p, k);
    HoldNumbers {
        taken: 0,
        passed,
        held: k,
        standing: found.block,
    }
}

// What a call leaves in the hold is what the next one starts from.
pub fn left_for_next()
    ensures { LeftForNext }
{}
