// The calls that answer a field, for C: a body field, a sub-block's field, TOW and WNc.
ghost use Rattle.std.specs.Prelude.{◌≡◌};
ghost use Rattle.capi.specs.Calls.{body_c, sub_c, tow_c, wnc_c};

use cform::{CField, CState};

pub fn alderflute_body(s: CState, in_force: &[u8], block: &[u8], i: usize) -> CField
    ensures { result ≡ body_c s in_force.now block.now i }
{
    let t = cform::states::state_of(s);
    cform::fields::field_c(records::body(t, in_force, block, i))
}

pub fn alderflute_sub(s: CState, in_force: &[u8], block: &[u8], k: usize, j: usize) -> CField
    ensures { result ≡ sub_c s in_force.now block.now k j }
{
    let t = cform::states::state_of(s);
    cform::fields::field_c(records::sub(t, in_force, block, k, j))
}

pub fn alderflute_tow(s: CState, block: &[u8]) -> CField
    ensures { result ≡ tow_c s block.now }
{
    let t = cform::states::state_of(s);
    cform::fields::field_c(records::tow(t, block))
}

pub fn alderflute_wnc(s: CState, block: &[u8]) -> CField
    ensures { result ≡ wnc_c s block.now }
{
    let t = cform::states::state_of(s);
    cform::fields::field_c(records::wnc(t, block))
}
