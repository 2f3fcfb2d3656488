// The calls on blocks of two levels, for C: a second-level field, and pseudoranges.
ghost use Rattle.std.specs.Prelude.{◌≡◌};
ghost use Rattle.capi.specs.Calls.{sub2_c, range_c, range2_c};

use cform::{CField, CState};

pub fn alderflute_sub2(
    s: CState,
    in_force: &[u8],
    block: &[u8],
    k: usize,
    m: usize,
    j: usize,
) -> CField
    ensures { result ≡ sub2_c s in_force.now block.now k m j }
{
    let t = cform::states::state_of(s);
    cform::fields::field_c(epochs::sub2(t, in_force, block, k, m, j))
}

pub fn alderflute_range(s: CState, in_force: &[u8], block: &[u8], k: usize) -> CField
    ensures { result ≡ range_c s in_force.now block.now k }
{
    let t = cform::states::state_of(s);
    cform::fields::field_c(epochs::range(t, in_force, block, k))
}

pub fn alderflute_range2(s: CState, in_force: &[u8], block: &[u8], k: usize, m: usize) -> CField
    ensures { result ≡ range2_c s in_force.now block.now k m }
{
    let t = cform::states::state_of(s);
    cform::fields::field_c(epochs::range2(t, in_force, block, k, m))
}
