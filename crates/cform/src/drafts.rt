// What Write is given and answers: from C's, and as C has it.
ghost use Rattle.std.specs.Prelude.{◌≡◌};
ghost use Rattle.writer.specs.Write.{written_says};
ghost use Rattle.cform.specs.Draft.{entry_of, head_of, written_c};

use crate::{CValue, CWritten};
use draft::Head;
use entry::Entry;
use refusal::Refusal;

fn entry_of(v: CValue) -> Entry
    ensures { result ≡ entry_of v }
{
    Entry {
        kind: v.kind,
        bits: v.bits,
    }
}

// What the block begins with.
pub fn head_of(number: u64, revision: u64, tow: CValue, wnc: CValue) -> Head
    ensures { result ≡ head_of number revision tow wnc }
{
    Head {
        number,
        revision,
        tow: entry_of(tow),
        wnc: entry_of(wnc),
    }
}

pub fn written_c(w: Result<usize, Refusal>) -> CWritten
    ensures { result ≡ written_c (written_says w) }
{
    match w {
        Ok(n) => CWritten {
            refusal: 0,
            length: n,
        },
        Err(why) => CWritten {
            refusal: u32::from(why),
            length: 0,
        },
    }
}
