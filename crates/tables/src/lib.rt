// The tables of a reader: Stage and Withdraw (rules C10 to C12), which are lent nothing that an open run reads by, and Open (C5),
// which puts a table in force, and takes the settings of the run (C17).
#![tactic(auto)]

ghost use Rattle.std.specs.Prelude.{◌≡◌, []};
ghost use Rattle.reader.specs.Outcome.{outcome};
ghost use Rattle.tables.specs.Said.{said_version, said_withdrawn};
ghost use Rattle.tables.specs.Calls.{open_of, stage_of, withdraw_of};

mod opening; // opening.rt: what Open answers, and the run that it opens

use reader::{After, Settings, State};
use refusal::Refusal;

// C5, C17.
pub fn open(s: State, settings: Settings, in_force: &mut [u8], waiting: &[u8]) -> After<u16>
    ensures { outcome (said_version result.answer) result.state in_force.new ≡ open_of s settings in_force.old waiting.now }
{
    let version = match opening::of_open(s, settings, in_force, waiting) {
        Err(why) => return After::refused(why, s),
        Ok(v) => v,
    };
    let w = s.waiting;
    let n = if 0 < w {
        copy::copy_in(in_force, 0, waiting, 0, w);
        w
    } else {
        s.in_force
    };
    After {
        answer: Ok(version),
        state: opening::open_state(settings, n),
    }
}

// Stage: 1, 4, or the version of the table.
fn of_stage(s: State, waiting: &[u8], t: &[u8]) -> Result<u16, Refusal>
    ensures { said_version result ≡ (stage_of s waiting.now t.now).said }
{
    if !(reader::is_sound(s) & (8192 <= waiting.len())) {
        return Err(Refusal::BadBuffer);
    }
    opening::version_or_four(t)
}

// C10.
pub fn stage(s: State, waiting: &mut [u8], t: &[u8]) -> After<u16>
    ensures { outcome (said_version result.answer) result.state waiting.new ≡ stage_of s waiting.old t.now }
{
    match of_stage(s, waiting, t) {
        Err(why) => After::refused(why, s),
        Ok(version) => {
            let n = t.len();
            copy::copy_in(waiting, 0, t, 0, n);
            After {
                answer: Ok(version),
                state: State { waiting: n, ..s },
            }
        }
    }
}

// C11.
pub fn withdraw(s: State) -> After<bool>
    ensures { outcome (said_withdrawn result.answer) result.state [] ≡ withdraw_of s }
{
    match reader::of_state(s) {
        Err(why) => After::refused(why, s),
        Ok(()) => After {
            answer: Ok(0 < s.waiting),
            state: State { waiting: 0, ..s },
        },
    }
}
