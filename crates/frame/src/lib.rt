// What stands at a place of a run (rules F2 to F8, F12, F13), read with a ceiling (F16). The run lies in two slices, the held bytes and
// then the piece; at its end in one.
#![tactic(auto)]

ghost use Rattle.std.specs.Prelude.{◌≡◌, ◌++◌, ◌+◌, ◌≤◌, ◌<◌, length, get_or, take, drop};
ghost use Rattle.crc.specs.Crc.{crc_of};
ghost use Rattle.wire.specs.Little.{little_at};
ghost use Rattle.frame.specs.Frame.{allowed, ceiling_ok, whole_frame};
ghost use Rattle.frame.specs.Judge.{judged, judged_last};

// Why no frame stands at a place.
#[derive(Clone, Copy, PartialEq, Eq)]
pub enum Reason {
    // No sync pair.
    NoSync,
    LengthNotAllowed,
    // A wrong CRC, of so many bytes.
    CrcWrong(usize),
    // Fewer than eight bytes are left of the run.
    FewLeft,
    // The length passes the run's end.
    PastEnd,
}

// What stands at a place, as far as the bytes that are there show.
#[derive(Clone, Copy, PartialEq, Eq)]
pub enum Verdict {
    NoFrame(Reason),
    // A frame of so many bytes.
    Frame(usize),
    // Too few bytes to tell.
    Undecided,
}

// The byte at i of `a` and then `b`.
fn at(a: &[u8], b: &[u8], i: usize) -> u8
    requires { i < length a.now + length b.now }
    ensures { result ≡ get_or (a.now ++ b.now) i 0 }
{
    if i < a.len() { a[i] } else { b[i - a.len()] }
}

// The two bytes at i of `a` and then `b`, low byte first.
fn pair_at(a: &[u8], b: &[u8], i: usize) -> u16
    requires { i + 1 < length a.now + length b.now }
    ensures { result ≡ little_at 2 (a.now ++ b.now) i }
{
    wire::pair(at(a, b, i), at(a, b, i + 1))
}

// F6: where the bytes that the CRC covers begin, behind the sync pair and the CRC itself.
const COVERED: usize = 4;

// The CRC of the bytes from 4 up to n of `a` and then `b`.
fn crc_between(a: &[u8], b: &[u8], n: usize) -> u16
    requires { (4 ≤ n) × (n ≤ length a.now + length b.now) }
    ensures { result ≡ crc_of (drop 4 (take n (a.now ++ b.now))) }
{
    let i = a.len().min(COVERED);
    let e = a.len().min(n);
    let j = COVERED - i;
    let f = n - e;
    crc::update(0, &a[i..e], &b[j..f])
}

// F16: the greatest ceiling.
pub const GREATEST_CEILING: usize = 65532;

// F16: whether a number is a ceiling: three tests and no branch, as the definition has them.
pub fn ceiling_ok(c: usize) -> bool
    ensures { result ≡ ceiling_ok c }
{
    (c % 4 == 0) & (16 <= c) & (c <= GREATEST_CEILING)
}

// F4: which lengths are allowed under a ceiling; as above without a branch.
fn length_allowed(ceiling: usize, n: usize) -> bool
    ensures { result ≡ allowed ceiling n }
{
    (n % 4 == 0) & (8 <= n) & (n <= ceiling)
}

// F12: what stands at the front of `a` and then `b`.
pub fn judge(ceiling: usize, a: &[u8], b: &[u8]) -> Verdict
    ensures { result ≡ judged ceiling (a.now ++ b.now) }
{
    let left = a.len() + b.len();
    if left == 0 {
        return Verdict::Undecided;
    }
    if at(a, b, 0) != 0x24 {
        return Verdict::NoFrame(Reason::NoSync);
    }
    if left == 1 {
        return Verdict::Undecided;
    }
    if at(a, b, 1) != 0x40 {
        return Verdict::NoFrame(Reason::NoSync);
    }
    if left < 8 {
        return Verdict::Undecided;
    }
    let n = usize::from(pair_at(a, b, 6));
    if !length_allowed(ceiling, n) {
        // Known by eight bytes: a header made of noise does not wait for as many as it says (F17).
        return Verdict::NoFrame(Reason::LengthNotAllowed);
    }
    if left < n {
        // And no frame, should the run end here.
        return Verdict::Undecided;
    }
    let crc = crc_between(a, b, n);
    if pair_at(a, b, 2) == crc {
        Verdict::Frame(n)
    } else {
        Verdict::NoFrame(Reason::CrcWrong(n))
    }
}

// F13: what stands at the front of the run's last bytes.
pub fn judge_last(ceiling: usize, s: &[u8]) -> Verdict
    ensures { result ≡ judged_last ceiling s.now }
{
    let v = judge(ceiling, s, b"");
    let Verdict::Undecided = v else {
        return v;
    };
    let why = match s.len() {
        0..=1 => Reason::NoSync,
        2..=7 => Reason::FewLeft,
        _ => Reason::PastEnd,
    };
    Verdict::NoFrame(why)
}

// R10: whether the bytes given are exactly one frame, however long.
pub fn is_frame(s: &[u8]) -> bool
    ensures { result ≡ whole_frame s.now }
{
    judge(GREATEST_CEILING, s, b"") == Verdict::Frame(s.len())
}
