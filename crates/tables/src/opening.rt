// Open (rule C5): its refusals in R20's order, each tested once, or a version; and the run that it opens.
ghost use Rattle.std.specs.Prelude.{◌≡◌};
ghost use Rattle.tables.specs.Said.{said_version};
ghost use Rattle.tables.specs.Calls.{fresh_run, open_of};
ghost use Rattle.tables.specs.Code.{version_or4};

use reader::{Phase, Run, Settings, State};
use refusal::Refusal;

// 1, 2, 13, 5, 4, or the version of the table to be opened.
pub fn of_open(
    s: State,
    settings: Settings,
    in_force: &[u8],
    waiting: &[u8],
) -> Result<u16, Refusal>
    ensures { said_version result ≡ (open_of s settings in_force.now waiting.now).said }
{
    if !(reader::is_sound(s) & (8192 <= in_force.len()) & (8192 <= waiting.len())) {
        return Err(Refusal::BadBuffer);
    }
    if !reader::is_closed(s.run.phase) {
        return Err(Refusal::OutOfTurn);
    }
    if !frame::ceiling_ok(settings.ceiling) {
        return Err(Refusal::BadCeiling);
    }
    let w = s.waiting;
    let n = s.in_force;
    if 0 < w {
        return version_or_four(&waiting[..w]);
    }
    if 0 < n {
        return version_or_four(&in_force[..n]);
    }
    Err(Refusal::NoTable)
}

// 4, or the version.
pub fn version_or_four(t: &[u8]) -> Result<u16, Refusal>
    ensures { said_version result ≡ version_or4 t.now }
{
    table::check(t).ok_or(Refusal::BadTable)
}

// A run that has just opened with these settings, with a table of n bytes in force and none waiting.
pub fn open_state(settings: Settings, n: usize) -> State
    ensures { (result.run ≡ fresh_run settings) × (result.in_force ≡ n) × (result.waiting ≡ 0) }
{
    State {
        run: Run {
            phase: Phase::Feeding,
            held: 0,
            standing: 0,
            counts: reader::no_counts(),
            settings,
        },
        in_force: n,
        waiting: 0,
    }
}
