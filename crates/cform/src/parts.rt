// Parts of buffers as C has them.
ghost use Rattle.std.specs.Prelude.{◌≡◌};
ghost use Rattle.refusal.specs.Numbers.{number_for};
ghost use Rattle.cform.specs.Answer.{part_c};

use crate::CPart;
use refusal::Refusal;

// The empty part of a refused call.
pub fn no_part(why: Refusal) -> CPart
    ensures { result ≡ part_c (Some (number_for why)) 0 0 }
{
    CPart {
        refusal: u32::from(why),
        offset: 0,
        length: 0,
    }
}
