// Answers as C has them, by kind. What a kind does not have is 0.
ghost use Rattle.std.specs.Prelude.{◌≡◌};
ghost use Rattle.refusal.specs.Numbers.{number_for};
ghost use Rattle.reader.specs.Said.{report_of, refused, ended, waited};
ghost use Rattle.cform.specs.Answer.{no_block, no_end, block_c, say, answer_c};

use crate::{CAnswer, CBlock, CCounts, states};
use reader::{Block, Counts};
use refusal::Refusal;

// An answer that has no block and no counts.
pub fn no_block(refusal: u32, kind: u32, version: u16, waited: u16, taken: usize) -> CAnswer
    ensures { result ≡ say refusal kind version waited taken no_block no_end }
{
    CAnswer {
        refusal,
        kind,
        version,
        waited,
        taken,
        block: CBlock {
            place: 0,
            length: 0,
            number: 0,
            revision: 0,
        },
        end: CCounts {
            taken: 0,
            blocks: 0,
            skipped: 0,
        },
    }
}

// A block, with the count taken.
pub fn block_c(taken: usize, b: Block) -> CAnswer
    ensures { result ≡ say 0 2 0 0 taken (block_c (report_of b)) no_end }
{
    CAnswer {
        block: CBlock {
            place: b.place,
            length: b.length,
            number: b.number,
            revision: b.revision,
        },
        ..no_block(0, 2, 0, 0, taken)
    }
}

// The end, with its counts.
pub fn at_end(c: Counts) -> CAnswer
    ensures { result ≡ answer_c (ended c) }
{
    CAnswer {
        end: states::counts_c(c),
        ..no_block(0, 4, 0, 0, 0)
    }
}

pub fn refused_c(why: Refusal) -> CAnswer
    ensures { result ≡ answer_c (refused (number_for why)) }
{
    no_block(u32::from(why), 0, 0, 0, 0)
}

// Whether a table waited.
pub fn whether_waited(w: bool) -> CAnswer
    ensures { result ≡ answer_c (waited w) }
{
    no_block(0, 5, 0, u16::from(w), 0)
}
