// States and settings as C has them, from the reader's and back.
ghost use Rattle.std.specs.Prelude.{◌≡◌};
ghost use Rattle.cform.specs.State.{counts_c, settings_c, settings_back, phase_of, in_phase, state_of, Reads, state_c};

use crate::{CCounts, CSettings, CState};
use reader::{Counts, Phase, Run, Settings, State};

pub fn settings_c(x: Settings) -> CSettings
    ensures { result ≡ settings_c x }
{
    CSettings { ceiling: x.ceiling }
}

pub fn settings_back(given: CSettings) -> Settings
    ensures { result ≡ settings_back given }
{
    Settings {
        ceiling: given.ceiling,
    }
}

// The phase of a number; any other is none.
#[tactic(auto, unfolding(crate::specs::State::phase_of))]
fn phase_of(n: usize) -> Option<Phase>
    ensures { result ≡ phase_of n }
{
    match n {
        0 => Some(Phase::Closed),
        1 => Some(Phase::Feeding),
        2 => Some(Phase::Finishing),
        _ => None,
    }
}

fn in_phase(s: CState, phase: Phase) -> State
    ensures { result ≡ in_phase s phase }
{
    State {
        run: Run {
            phase,
            held: s.held,
            standing: s.standing,
            counts: Counts {
                taken: s.counts.taken,
                blocks: s.counts.blocks,
                skipped: s.counts.skipped,
            },
            settings: settings_back(s.settings),
        },
        in_force: s.in_force,
        waiting: s.waiting,
    }
}

// The state to call the reader with. Where the phase is none, one with more held bytes than a hold may have: every call refuses
// it with 1, so that no call has to ask for the phase.
pub fn state_of(s: CState) -> State
    ensures { Reads (state_of s) result }
{
    match phase_of(s.phase) {
        Some(phase) => in_phase(s, phase),
        None => {
            let new = reader::new();
            State {
                run: Run {
                    held: 65533,
                    ..new.run
                },
                ..new
            }
        }
    }
}

pub fn counts_c(c: Counts) -> CCounts
    ensures { result ≡ counts_c c }
{
    CCounts {
        taken: c.taken,
        blocks: c.blocks,
        skipped: c.skipped,
    }
}

pub fn state_c(s: State) -> CState
    ensures { result ≡ state_c s }
{
    let run = s.run;
    CState {
        phase: usize::from(run.phase),
        held: run.held,
        standing: run.standing,
        counts: counts_c(run.counts),
        settings: settings_c(run.settings),
        in_force: s.in_force,
        waiting: s.waiting,
    }
}
