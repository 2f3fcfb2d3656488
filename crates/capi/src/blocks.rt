// The call that makes a block, for C: Write.
ghost use Rattle.std.specs.Prelude.{◌≡◌};
ghost use Rattle.draft.specs.Draft.{draft_of};
ghost use Rattle.cform.specs.Draft.{head_of};
ghost use Rattle.capi.specs.Calls.{making, write_c};

use cform::{CState, CValue, CWritten};

pub fn alderflute_write(
    s: CState,
    in_force: &[u8],
    number: u64,
    revision: u64,
    tow: CValue,
    wnc: CValue,
    kinds: &[u8],
    bits: &[u64],
    out: &mut [u8],
) -> CWritten
    ensures { making result out.new ≡ write_c s in_force.now (draft_of (head_of number revision tow wnc) kinds.now bits.now) out.old }
{
    let t = cform::states::state_of(s);
    let h = cform::drafts::head_of(number, revision, tow, wnc);
    cform::drafts::written_c(writes::write(t, in_force, h, kinds, bits, out))
}
