// A run that is open: Feed (rules C6, C7), Finish (C8), and the bytes of the standing block (C9).
#![tactic(auto)]

ghost use Rattle.std.specs.Prelude.{◌≡◌};
ghost use Rattle.reader.specs.Said.{refusal_of};
ghost use Rattle.reader.specs.Outcome.{outcome};
ghost use Rattle.runs.specs.Said.{said_fed, said_finished};
ghost use Rattle.runs.specs.Refusals.{feed_refusal, finish_refusal, bytes_refusal};
ghost use Rattle.runs.specs.Calls.{feeding_of, feeding_by, feed_of, finishing_of, finishing_by, finish_of, bytes_of};

mod refusals; // refusals.rt: the refusals of each call, in their order

use reader::{After, Block, Counts, Phase, State, step};
use refusal::Refusal;

// How many bytes were taken, with a block or with none.
#[derive(Clone, Copy)]
pub struct Fed {
    pub taken: usize,
    pub block: Option<Block>,
}

// A block, or the run's end with its counts.
#[derive(Clone, Copy)]
pub enum Finished {
    Block(Block),
    End(Counts),
}

fn feed_on(s: State, hold: &mut [u8], piece: &[u8]) -> After<Fed>
    requires { feed_refusal s hold.old piece.now ≡ None }
    ensures { outcome (said_fed result.answer) result.state hold.new ≡ feeding_by (feeding_of s hold.old piece.now) s hold.old }
{
    let run = s.run;
    let room = 4294967295 - run.counts.taken;
    let f = feed::feed(
        run.settings.ceiling,
        hold,
        run.held,
        run.standing,
        piece,
        room,
    );
    let next = step::went_on(run, Phase::Feeding, f);
    let block = step::standing_block(next, hold);
    After {
        answer: Ok(Fed {
            taken: f.taken,
            block,
        }),
        state: step::with_run(s, next),
    }
}

// C6, C7.
pub fn feed(s: State, hold: &mut [u8], piece: &[u8]) -> After<Fed>
    ensures { outcome (said_fed result.answer) result.state hold.new ≡ feed_of s hold.old piece.now }
{
    match refusals::of_feed(s, hold, piece.len()) {
        Err(why) => After::refused(why, s),
        Ok(()) => feed_on(s, hold, piece),
    }
}

fn finish_on(s: State, hold: &mut [u8]) -> After<Finished>
    requires { finish_refusal s hold.old ≡ None }
    ensures { outcome (said_finished result.answer) result.state hold.new ≡ finishing_by (finishing_of s hold.old) s hold.old }
{
    let run = s.run;
    let f = feed::finish(run.settings.ceiling, hold, run.held, run.standing);
    let next = step::went_on(run, step::phase_after(f.standing), f);
    let found = match step::standing_block(next, hold) {
        Some(block) => Finished::Block(block),
        None => Finished::End(next.counts),
    };
    After {
        answer: Ok(found),
        state: step::with_run(s, next),
    }
}

// C8.
pub fn finish(s: State, hold: &mut [u8]) -> After<Finished>
    ensures { outcome (said_finished result.answer) result.state hold.new ≡ finish_of s hold.old }
{
    match refusals::of_finish(s, hold.len()) {
        Err(why) => After::refused(why, s),
        Ok(()) => finish_on(s, hold),
    }
}

// C9, R22: the standing block, as a part of the hold; an empty part where none stands or the call is refused.
pub fn bytes(s: State, hold: &[u8]) -> &[u8]
    ensures result_value { result.now ≡ bytes_of s hold.now }
    ensures ref_ptr_value { result.ref_ptr ≡ hold.entry.ref_ptr }
{
    match refusals::of_bytes(s, hold.len()) {
        Err(_) => wire::part(hold, 0, 0),
        Ok(()) => wire::part(hold, 0, s.run.standing),
    }
}

// R22: whether `bytes` is refused, and why.
pub fn bytes_refused(s: State, hold: &[u8]) -> Result<(), Refusal>
    ensures { refusal_of result ≡ bytes_refusal s hold.now }
{
    refusals::of_bytes(s, hold.len())
}
