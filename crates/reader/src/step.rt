// After a call: the run, its counts, and what is reported of a block. Here alone what a call did is added to the counts.
ghost use Rattle.std.specs.Prelude.{◌≡◌, ◌+◌, ◌-◌, ◌≤◌, length, option_map};
ghost use Rattle.reader.specs.Counting.{with_run};
ghost use Rattle.reader.specs.Said.{report_of};
ghost use Rattle.reader.specs.Code.{counted_by, run_by, phase_by, standing_by};

use crate::{Block, Counts, Phase, Run, State};

// The counts after a call that did what `f` says.
fn counted(c: Counts, f: feed::HoldNumbers) -> Counts
    requires { (c.taken + f.taken ≤ 4294967295) × (c.blocks ≤ 4294967295) × (c.skipped + f.passed.skipped ≤ 18446744073709551615) }
    ensures { result ≡ counted_by c f }
{
    Counts {
        taken: c.taken + f.taken,
        blocks: c.blocks + usize::from(f.standing != 0),
        skipped: c.skipped + f.passed.skipped,
    }
}

// The run after a call that did and kept what `f` says.
pub fn went_on(r: Run, phase: Phase, f: feed::HoldNumbers) -> Run
    requires { (r.counts.taken + f.taken ≤ 4294967295) × (r.counts.blocks ≤ 4294967295) × (r.counts.skipped + f.passed.skipped ≤ 18446744073709551615) }
    ensures { result ≡ run_by phase r f }
{
    Run {
        phase,
        held: f.held,
        standing: f.standing,
        counts: counted(r.counts, f),
        settings: r.settings,
    }
}

pub fn with_run(s: State, r: Run) -> State
    ensures { result ≡ with_run s r }
{
    State { run: r, ..s }
}

// Finish leaves a block of so many bytes, or 0 for none and the run's end.
pub fn phase_after(standing: usize) -> Phase
    ensures { result ≡ phase_by standing }
{
    if standing == 0 {
        Phase::Closed
    } else {
        Phase::Finishing
    }
}

// The block that stands at the front of the hold, where one does; its place is that of the first held byte.
pub fn standing_block(r: Run, hold: &[u8]) -> Option<Block>
    requires { (6 ≤ length hold.now) × (r.held ≤ r.counts.taken) }
    ensures { option_map report_of result ≡ standing_by r.standing hold.now (r.counts.taken - r.held) }
{
    if r.standing == 0 {
        return None;
    }
    let id = wire::u2(hold, 4);
    Some(Block {
        place: r.counts.taken - r.held,
        number: wire::number(id),
        revision: wire::revision(id),
        length: r.standing,
    })
}
