// Bytes of one slice copied to a place of another.
#![tactic(auto)]

ghost use Rattle.std.specs.Prelude.{◌≡◌, ◌+◌, ◌≤◌, length, drop};
ghost use Rattle.std.proofs.Math.Seq.{paste};

// k bytes of `s` from b on go to the place `at`.
pub fn copy_in(out: &mut [u8], at: usize, s: &[u8], b: usize, k: usize)
    requires { (at + k ≤ length out.old) × (b + k ≤ length s.now) }
    ensures { out.new ≡ paste out.old at (drop b s.now) k }
{
    out[at..at + k].copy_from_slice(&s[b..b + k]);
}
