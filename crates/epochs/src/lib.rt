// Record calls on blocks of two levels (rule C16), by the table in force: a second-level field, and pseudoranges.
#![tactic(auto)]

ghost use Rattle.record.specs.Answer.{Answers};
ghost use Rattle.epochs.specs.Calls.{sub2_of, range_of, range2_of};

use reader::State;
use record::Answer;

// Field j of sub-block m nested in first-level sub-block k of a block.
pub fn sub2(s: State, in_force: &[u8], block: &[u8], k: usize, m: usize, j: usize) -> Answer
    ensures { Answers result (sub2_of s in_force.now block.now k m j) }
{
    let table = records::of_ask(s, in_force)?;
    epoch::second_field(table, block, k, m, j)
}

// The pseudorange of first-level sub-block k of a MeasEpoch, in millimetres.
pub fn range(s: State, in_force: &[u8], block: &[u8], k: usize) -> Answer
    ensures { Answers result (range_of s in_force.now block.now k) }
{
    let table = records::of_ask(s, in_force)?;
    epoch::range(table, block, k)
}

// The pseudorange of sub-block m nested in it.
pub fn range2(s: State, in_force: &[u8], block: &[u8], k: usize, m: usize) -> Answer
    ensures { Answers result (range2_of s in_force.now block.now k m) }
{
    let table = records::of_ask(s, in_force)?;
    epoch::range2(table, block, k, m)
}
