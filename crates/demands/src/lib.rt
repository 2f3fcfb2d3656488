// What was demanded, as theorems over the definitions that the reader's contracts cite.
#![tactic(auto)]

ghost use Rattle.demands.specs.Demand1.{Demand1};
ghost use Rattle.demands.specs.Demand2.{Demand2};
ghost use Rattle.demands.specs.Demand3.{Demand3};
ghost use Rattle.demands.specs.History.{History};
ghost use Rattle.demands.specs.NoMore.{TakesNoMore};
ghost use Rattle.demands.specs.One.{OneOutcome};
ghost use Rattle.demands.specs.Progress.{Progress};
ghost use Rattle.demands.specs.Soundness.{SoundKept};
ghost use Rattle.demands.specs.Waits.{WaitsLess};

// D1: every call is refused exactly when the rules say; a refused call changes nothing and hands back nothing, Write's buffer too is as it
// was, and behind a block that Write made it stays so; states that are reached are sound; with long enough buffers refusal 1 is not given.
pub fn demand_1()
    ensures { Demand1 }
{}

// Every call keeps a sound state sound, whatever the buffers: the bytes taken are as many as those reported, skipped and held.
pub fn sound_kept()
    ensures { SoundKept }
{}

// D2: at every moment of a run the blocks reported are the first ones of the reading rule by its ceiling, after More nothing more can be
// decided, and records are read by the table in force, and Write writes by it.
pub fn demand_2()
    ensures { Demand2 }
{}

// D3: blocks, bytes and counts of a closed run are those of its whole bytes, which are the caller's stream where he offers unread bytes
// again; all records are read by the table that it was opened with, and Write writes by it; table calls moved to after it change nothing.
pub fn demand_3()
    ensures { Demand3 }
{}

// D4: two outcomes that meet a contract of the reader are one.
pub fn one_outcome()
    ensures { OneOutcome }
{}

// Phase, settings, waiting table, table in force and standing block are what the calls made and their answers say, and the next answers follow.
pub fn history()
    ensures { History }
{}

// More is answered only with all taken that may be, and Finish comes to End.
pub fn progress()
    ensures { Progress }
{}

// Feed takes no more than it needs: to a shorter front of its piece than it took it answers More.
pub fn takes_no_more()
    ensures { TakesNoMore }
{}

// A place is decided once as many bytes as the ceiling says are there, so after More fewer are held.
pub fn waits_less()
    ensures { WaitsLess }
{}
