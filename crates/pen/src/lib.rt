// Numbers, zeros and a block's header written into a buffer (rules F1 to F3, F6, W8).
#![tactic(auto)]

ghost use Rattle.std.specs.Prelude.{◌≡◌, ◌+◌, ◌≤◌, length, replicate};
ghost use Rattle.std.proofs.lemmas.List.Edits.{sets};
ghost use Rattle.pen.specs.Bytes.{little_bytes};
ghost use Rattle.pen.specs.Seal.{sealed};

// `size` bytes of x go to `at`, the low one first.
pub fn little(out: &mut [u8], at: usize, size: usize, x: u64)
    requires { at + size ≤ length out.old }
    ensures { out.new ≡ sets out.old at (little_bytes size x) }
{
    let mut rest = x;
    for byte in out[at..at + size].iter_mut() {
        *byte = (rest % 256) as u8;
        rest /= 256;
    }
}

// n zeros go to `at`.
pub fn zeros(out: &mut [u8], at: usize, n: usize)
    requires { at + n ≤ length out.old }
    ensures { out.new ≡ sets out.old at (replicate n 0) }
{
    out[at..at + n].fill(0);
}

// Over a block that has the rest: ID and L, then the sync pair and the CRC of all from ID on.
pub fn seal(out: &mut [u8], id: u64, all: usize)
    requires { (8 ≤ all) × (all ≤ length out.old) }
    ensures { out.new ≡ sealed out.old id all }
{
    little(out, 4, 2, id);
    little(out, 6, 2, all as u64);
    let done: &[u8] = out;
    let crc = crc::crc_of(&done[4..all]);
    little(out, 0, 2, 0x4024);
    little(out, 2, 2, u64::from(crc));
}
