// Numbers in a slice of bytes (rule F1), parts of a slice, and what a block's ID is made of (F9).
#![tactic(auto)]

ghost use Rattle.std.specs.Prelude.{◌≡◌, ◌+◌, ◌*◌, ◌≤◌, ◌<◌, ◌/◌, ◌%◌, length, take, drop};
ghost use Rattle.wire.specs.Little.{little_at};
ghost use Rattle.wire.specs.Range.{InRange};
ghost use Rattle.wire.specs.Parts.{offset_by};

// The number of two bytes.
pub fn pair(low: u8, high: u8) -> u16
    ensures { result ≡ low + 256 * high }
{
    u16::from_le_bytes([low, high])
}

// The N bytes at `at`.
fn bytes<const N: usize>(s: &[u8], at: usize) -> [u8; N]
    requires { at + N ≤ length s.now }
    ensures { result ≡ take N (drop at s.now) }
{
    let mut there = [0; N];
    there.copy_from_slice(&s[at..at + N]);
    there
}

// The two bytes at `at`; by index, for a table's rows are read by this, and a copy of a part takes twice as long.
pub fn u2(s: &[u8], at: usize) -> u16
    requires { at + 2 ≤ length s.now }
    ensures { result ≡ little_at 2 s.now at }
{
    pair(s[at], s[at + 1])
}

// The four bytes at `at`.
pub fn u4(s: &[u8], at: usize) -> u32
    requires { at + 4 ≤ length s.now }
    ensures { result ≡ little_at 4 s.now at }
{
    u32::from_le_bytes(bytes(s, at))
}

// The eight bytes at `at`.
pub fn u8(s: &[u8], at: usize) -> u64
    requires { at + 8 ≤ length s.now }
    ensures { result ≡ little_at 8 s.now at }
{
    u64::from_le_bytes(bytes(s, at))
}

// So many bytes from `at` on, where they stand: every part that a call hands back is made here.
pub fn part(s: &[u8], at: usize, size: usize) -> &[u8]
    requires { at + size ≤ length s.now }
    ensures result_value { (result.now ≡ take size (drop at s.now)) × (length result.now ≡ size) }
    ensures ref_ptr_value { result.ref_ptr ≡ offset_by s.entry.ref_ptr at }
{
    let end = at + size;
    &s[at..end]
}

// F9: the block number, by a mask (D7).
pub fn number(id: u16) -> u16
    ensures { result ≡ id % 8192 }
{
    id & 0x1fff
}

// F9: the revision, by a shift (D7).
pub fn revision(id: u16) -> u16
    ensures { result ≡ id / 8192 }
{
    id >> 13
}

// k bytes make a number of k bytes.
pub fn in_range()
    ensures { InRange }
{}
