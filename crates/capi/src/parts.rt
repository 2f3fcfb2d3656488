// The calls that answer a part of a buffer, for C: the block just reported in the hold, and a sub-block in its block.
ghost use Rattle.std.specs.Prelude.{◌≡◌};
ghost use Rattle.capi.specs.Calls.{handing, bytes_c, sub_bytes_c};

use cform::{CPart, CState};

pub fn alderflute_bytes(s: CState, hold: &[u8]) -> CPart
    ensures { handing result hold.now ≡ bytes_c s hold.now }
{
    let t = cform::states::state_of(s);
    match runs::bytes_refused(t, hold) {
        Err(why) => cform::parts::no_part(why),
        Ok(()) => {
            let part = runs::bytes(t, hold);
            CPart {
                refusal: 0,
                offset: 0,
                length: part.len(),
            }
        }
    }
}

pub fn alderflute_subbytes(s: CState, in_force: &[u8], block: &[u8], k: usize) -> CPart
    ensures { handing result block.now ≡ sub_bytes_c s in_force.now block.now k }
{
    let t = cform::states::state_of(s);
    match records::sub_place(t, in_force, block, k) {
        Err(why) => cform::parts::no_part(why),
        Ok(span) => CPart {
            refusal: 0,
            offset: span.at,
            length: span.size,
        },
    }
}
