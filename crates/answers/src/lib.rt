// Theorems about the answers of record calls, and samples of them (rules S4, S8 to S10). No code.
#![tactic(auto)]

ghost use Rattle.answers.specs.OneLevel.{OneLevelAsBefore};
ghost use Rattle.answers.specs.TwoLevels.{TwoLevelsLaid};
ghost use Rattle.answers.specs.Samples.{RecordSamplesHold};
ghost use Rattle.answers.specs.Theorems.{OneAnswer, AllByMeaning, FloatsKept};

// What is to be said fixes the answer.
pub fn one_answer()
    ensures { OneAnswer }
{}

// The answers depend on what the table means, and not on its bytes.
pub fn by_meaning()
    ensures { AllByMeaning }
{}

// Floats keep their bits.
pub fn floats_kept()
    ensures { FloatsKept }
{}

// By a row of one level every call answers as it did before there were two, and the new calls refuse (request M-102).
pub fn one_level_as_before()
    ensures { OneLevelAsBefore }
{}

// The sub-blocks of a block of two levels that is read lie in the block, and no two overlap (request M-102).
pub fn two_levels_laid()
    ensures { TwoLevelsLaid }
{}

// The samples of records hold, and the rules at their limits.
pub fn samples_hold()
    ensures { RecordSamplesHold }
{}
