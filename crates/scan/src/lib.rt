// Reading a run with a ceiling from place to place, up to the first block (rules F11 to F16, C6). The run lies in two slices: the held bytes,
// then the piece.
#![tactic(auto)]

ghost use Rattle.std.specs.Prelude.{◌≡◌, ◌++◌, false, ◌+◌, ◌≤◌, ◌<◌, length, replicate};
ghost use Rattle.frame.specs.Judge.{judged, judged_last};
ghost use Rattle.scan.specs.Settle.{settle};
ghost use Rattle.scan.specs.Feed.{feed_lit, stop};
ghost use Rattle.frame.specs.declared.Reason.TheVariants.{NoSync};
ghost use Rattle.scan.specs.Passed.{nothing_passed, count, count_all, scanned_of};
ghost use Rattle.scan.specs.Scan.{NoDollar, NoStart, with_rest, stretch_of};

use frame::{Reason, Verdict};

// What is known of the places passed over.
#[derive(Clone, Copy)]
pub struct Passed {
    pub skipped: usize,
}

// What a scan comes to.
#[derive(Clone, Copy)]
pub struct Scanned {
    // How many bytes of the piece had to be taken.
    pub taken: usize,
    pub passed: Passed,
    // The length of the block behind the bytes passed, 0 for none.
    pub block: usize,
}

// What the places of a part come to.
#[derive(Clone, Copy)]
pub enum Stretch {
    // A block of so many bytes behind those passed, and how many bytes of the run had to be taken.
    Block(Passed, usize, usize),
    // The place behind those passed is not decided.
    Waits(Passed),
    // All are passed, and so many bytes had to be taken.
    Through(Passed, usize),
}

// Whether a first sync byte stands in the four bytes from k on.
fn dollar_in_four(s: &[u8], k: usize) -> bool
    requires { k + 4 ≤ length s.now }
    ensures { result ≡ false → NoDollar s.now k (k + 4) }
{
    (s[k] == 0x24) | (s[k + 1] == 0x24) | (s[k + 2] == 0x24) | (s[k + 3] == 0x24)
}

// Passes groups of eight bytes from i on, as long as no first sync byte stands in them: eight tests, one branch. It goes by eights,
// for noise is read at two instructions a byte so.
fn skip_eights(s: &[u8], i: usize) -> usize
    requires { i ≤ length s.now }
    ensures { NoDollar s.now i result }
{
    let mut k = i;
    while 8 <= s.len() - k {
        let low = dollar_in_four(s, k);
        let high = dollar_in_four(s, k + 4);
        if low | high {
            return k;
        }
        k += 8;
    }
    k
}

// The first place from i on that may be a frame's start, or the end: no sync stands at the places passed.
fn start_from(s: &[u8], i: usize) -> usize
    requires { i ≤ length s.now }
    ensures { NoStart s.now i result }
{
    let mut k = skip_eights(s, i);
    while k < s.len() {
        let next = k + 1;
        if s[k] == 0x24 {
            if next == s.len() {
                return k;
            }
            if s[next] == 0x40 {
                return k;
            }
            k = skip_eights(s, next);
            continue;
        }
        k = next;
    }
    k
}

const NOTHING_PASSED: Passed = Passed { skipped: 0 };

// One more place is passed, for a reason.
fn count(a: Passed, why: Reason) -> Passed
    requires { a.skipped + 1 < 18446744073709551616 }
    ensures { result ≡ count a why }
{
    Passed {
        skipped: a.skipped + 1,
    }
}

// As many places more are passed for want of a sync pair: at once, for they are most of a run of noise.
fn count_no_sync(a: Passed, n: usize) -> Passed
    requires { a.skipped + n < 18446744073709551616 }
    ensures { result ≡ count_all a (replicate n NoSync) }
{
    Passed {
        skipped: a.skipped + n,
    }
}

// The places of `s`, with `rest` behind it; `before` are passed, for which `mark` bytes had to be taken.
fn scan_part(ceiling: usize, s: &[u8], rest: &[u8], before: Passed, mark: usize) -> Stretch
    requires { before.skipped + length s.now + length rest.now < 18446744073709551616 }
    ensures { result ≡ stretch_of (settle (with_rest (judged ceiling) rest.now) s.now) before mark }
{
    let mut k: usize = 0;
    let mut m = mark;
    let mut passed = before;
    while k < s.len() {
        let p = start_from(s, k);
        passed = count_no_sync(passed, p - k);
        if p == s.len() {
            return Stretch::Through(passed, m);
        }
        let place = passed.skipped;
        match frame::judge(ceiling, &s[p..], rest) {
            Verdict::Frame(n) => return Stretch::Block(passed, n, m.max(place + n)),
            Verdict::Undecided => return Stretch::Waits(passed),
            Verdict::NoFrame(why) => {
                passed = count(passed, why);
                match why {
                    Reason::CrcWrong(n) => {
                        m = m.max(place + n);
                        // And not p + n (F11, D6): a header made of noise must not hide the blocks behind it.
                        k = 1 + p;
                    }
                    _ => k = p + 1,
                }
            }
        }
    }
    Stretch::Through(passed, m)
}

// What the places of the held bytes and then of the piece come to.
fn scan_both(ceiling: usize, held: &[u8], piece: &[u8]) -> Stretch
    ensures { result ≡ stretch_of (settle (judged ceiling) (held.now ++ piece.now)) nothing_passed (length held.now) }
{
    match scan_part(ceiling, held, piece, NOTHING_PASSED, held.len()) {
        Stretch::Through(before, mark) => scan_part(ceiling, piece, b"", before, mark),
        within => within,
    }
}

// The held bytes and then the piece, up to the first block or the place that is not decided; the promise is by C6, a byte at
// a time.
pub fn scan(ceiling: usize, held: &[u8], piece: &[u8]) -> Scanned
    ensures { result ≡ scanned_of (feed_lit ceiling held.now piece.now (length piece.now)) }
{
    let (taken, passed, block) = match scan_both(ceiling, held, piece) {
        Stretch::Block(passed, length, m) => (m - held.len(), passed, length),
        Stretch::Waits(passed) => (piece.len(), passed, 0),
        Stretch::Through(passed, _) => (piece.len(), passed, 0),
    };
    Scanned {
        taken,
        passed,
        block,
    }
}

// What the run's last bytes come to: none had to be taken.
fn last_found(passed: Passed, block: usize) -> Scanned
    ensures { result ≡ record { taken = 0; passed = passed; block = block } }
{
    Scanned {
        taken: 0,
        passed,
        block,
    }
}

// The held bytes, which are the run's last, up to the first block.
pub fn last(ceiling: usize, held: &[u8]) -> Scanned
    ensures { result ≡ scanned_of (stop (settle (judged_last ceiling) held.now)) }
{
    let mut passed = NOTHING_PASSED;
    while passed.skipped < held.len() {
        let k = passed.skipped;
        let p = start_from(held, k);
        passed = count_no_sync(passed, p - k);
        if p == held.len() {
            return last_found(passed, 0);
        }
        match frame::judge_last(ceiling, &held[p..]) {
            Verdict::Frame(n) => return last_found(passed, n),
            Verdict::NoFrame(why) => passed = count(passed, why),
            // Never: at the run's end every place is decided (F13).
            Verdict::Undecided => return last_found(passed, 0),
        }
    }
    last_found(passed, 0)
}
