// The refusals of Feed, Finish and Bytes, in R20's order, each tested once.
ghost use Rattle.std.specs.Prelude.{◌≡◌, List, ℕ, ◌≤◌, length};
ghost use Rattle.feed.specs.Hold.{rest_of};
ghost use Rattle.frame.specs.Judge.{judged};
ghost use Rattle.scan.specs.Settle.{settle};
ghost use Rattle.reader.specs.Said.{refusal_of};
ghost use Rattle.runs.specs.Refusals.{is_feeding, is_some, feed_refusal, finish_refusal, bytes_refusal};

use reader::{Phase, State};
use refusal::Refusal;

fn is_feeding(p: Phase) -> bool
    ensures { result ≡ is_feeding p }
{
    p == Phase::Feeding
}

// Whether the held bytes, without the standing block, give a block.
fn gives_block(ceiling: usize, hold: &[u8], held: usize, standing: usize) -> bool
    requires { (standing ≤ held) × (held ≤ length hold.now) }
    ensures { result ≡ is_some (settle (judged ceiling) (rest_of hold.now held standing)).standing }
{
    let found = scan::scan(ceiling, &hold[standing..held], b"");
    0 < found.block
}

// Feed, with a piece of so many bytes: 1, 2, 3.
pub fn of_feed(s: State, hold: &[u8], piece: usize) -> Result<(), Refusal>
    ensures { (v : List ℕ) → length v ≡ piece → refusal_of result ≡ feed_refusal s hold.now v }
{
    if !reader::may_call(s, hold.len()) {
        return Err(Refusal::BadBuffer);
    }
    let run = s.run;
    if !is_feeding(run.phase) {
        return Err(Refusal::OutOfTurn);
    }
    // One test, as the proof takes it, and not two branches.
    if (run.counts.taken < 4294967295) | (piece == 0) {
        return Ok(());
    }
    if gives_block(run.settings.ceiling, hold, run.held, run.standing) {
        Ok(())
    } else {
        Err(Refusal::RunFull)
    }
}

// Finish, with a hold of so many bytes: 1, 2.
pub fn of_finish(s: State, hold: usize) -> Result<(), Refusal>
    ensures { (v : List ℕ) → length v ≡ hold → refusal_of result ≡ finish_refusal s v }
{
    if !reader::may_call(s, hold) {
        return Err(Refusal::BadBuffer);
    }
    if reader::is_closed(s.run.phase) {
        return Err(Refusal::OutOfTurn);
    }
    Ok(())
}

// Bytes, with a hold of so many bytes: 1.
pub fn of_bytes(s: State, hold: usize) -> Result<(), Refusal>
    ensures { (v : List ℕ) → length v ≡ hold → refusal_of result ≡ bytes_refusal s v }
{
    if reader::may_call(s, hold) {
        Ok(())
    } else {
        Err(Refusal::BadBuffer)
    }
}
