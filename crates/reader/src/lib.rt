// A reader's state, what is reported of a block, what refusal 1 asks of the state and of a hold (rule R1), and whether a call is
// refused. The calls are those of `tables`, `runs` and `records`.
#![tactic(auto)]

ghost use Rattle.std.specs.Prelude.{◌≡◌, ◌&&◌, leb};
ghost use Rattle.reader.specs.State.{phase_number, no_counts, default_settings, new_state, sound};
ghost use Rattle.reader.specs.Said.{refusal_of};
ghost use Rattle.reader.specs.Refusals.{is_closed, need};
ghost use Rattle.reader.specs.Outcome.{RefusalKeeps};

pub mod step; // step.rt: the run after a call, its counts and what is reported of a block

use refusal::Refusal;

#[derive(Clone, Copy, PartialEq, Eq)]
pub enum Phase {
    Closed,
    Feeding,
    Finishing,
}

// What a run counts: the bytes taken, the blocks reported, the bytes skipped.
#[derive(Clone, Copy)]
pub struct Counts {
    pub taken: usize,
    pub blocks: usize,
    pub skipped: usize,
}

// What is reported of a block.
#[derive(Clone, Copy)]
pub struct Block {
    pub place: usize,
    pub number: u16,
    pub revision: u16,
    pub length: usize,
}

// C17: what Open is given, and a run goes by.
#[derive(Clone, Copy)]
pub struct Settings {
    // The greatest length that a block may have (F16); it may be wrong, and is refused then.
    pub ceiling: usize,
}

// A run, open or closed: its phase, how many bytes of the hold count, how many of these are the standing block, its counts, and
// its settings.
#[derive(Clone, Copy)]
pub struct Run {
    pub phase: Phase,
    pub held: usize,
    pub standing: usize,
    pub counts: Counts,
    pub settings: Settings,
}

// A length of 0 says that no table is in force, that none waits, or, of the run's block, that none stands: C's state has these
// numbers, and the rules are said of them.
#[derive(Clone, Copy)]
pub struct State {
    pub run: Run,
    pub in_force: usize,
    pub waiting: usize,
}

// C1: what a call answers, and the state that it leaves.
#[derive(Clone, Copy)]
pub struct After<T> {
    pub answer: Result<T, Refusal>,
    pub state: State,
}

impl<T> After<T> {
    // R21: a refused call leaves the state as it was.
    pub fn refused(why: Refusal, s: State) -> After<T>
        ensures { (result.answer ≡ Err why) × (result.state ≡ s) }
    {
        After {
            answer: Err(why),
            state: s,
        }
    }
}

// A phase by its number.
impl From<Phase> for usize {
    ghost from_gives = { λ p n. n ≡ phase_number p };

    fn from(p: Phase) -> usize {
        match p {
            Phase::Closed => 0,
            Phase::Feeding => 1,
            Phase::Finishing => 2,
        }
    }
}

// The counts of a run that has taken nothing.
pub fn no_counts() -> Counts
    ensures { result ≡ no_counts }
{
    Counts {
        taken: 0,
        blocks: 0,
        skipped: 0,
    }
}

// C15, C17: the settings of a reader that was never opened, with which a run is read as before there were any.
pub fn default_settings() -> Settings
    ensures { result ≡ default_settings }
{
    Settings {
        ceiling: frame::GREATEST_CEILING,
    }
}

// C15: a new reader.
pub fn new() -> State
    ensures { result ≡ new_state }
{
    State {
        run: Run {
            phase: Phase::Closed,
            held: 0,
            standing: 0,
            counts: no_counts(),
            settings: default_settings(),
        },
        in_force: 0,
        waiting: 0,
    }
}

// R1, the state's half: every call applies it.
pub fn is_sound(s: State) -> bool
    ensures { result ≡ sound s }
{
    let r = s.run;
    let c = r.counts;
    // With `&&` the one test would be nine branches to prove.
    (r.held <= 65532)
        & (r.held <= c.taken)
        & (r.standing <= r.held)
        & (s.in_force <= 8192)
        & (s.waiting <= 8192)
        & (c.taken <= 4294967295)
        & (c.blocks <= c.taken)
        & (c.skipped <= c.taken)
        & frame::ceiling_ok(r.settings.ceiling)
}

// R1: the state is sound, and a hold of so many bytes is long enough.
pub fn may_call(s: State, hold: usize) -> bool
    ensures { result ≡ (sound s && leb 65536 hold) }
{
    is_sound(s) && 65536 <= hold
}

// R1 of a call that is lent nothing.
pub fn of_state(s: State) -> Result<(), Refusal>
    ensures { refusal_of result ≡ need (sound s) 1 None }
{
    if is_sound(s) {
        Ok(())
    } else {
        Err(Refusal::BadBuffer)
    }
}

// Whether no run is open.
pub fn is_closed(p: Phase) -> bool
    ensures { result ≡ is_closed p }
{
    p == Phase::Closed
}

// R21, R22: the old state, and no byte written or handed back, whatever the call.
pub fn refusal_keeps()
    ensures { RefusalKeeps }
{}
