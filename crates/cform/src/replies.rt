// What a call that goes on with the state answers, and the reply that it makes with the state, as C has them.
ghost use Rattle.std.specs.Prelude.{◌≡◌};
ghost use Rattle.tables.specs.Said.{said_version, said_withdrawn};
ghost use Rattle.runs.specs.Said.{said_fed, said_finished};
ghost use Rattle.cform.specs.State.{state_of, back_c};
ghost use Rattle.cform.specs.Answer.{answer_c};

use crate::{CAnswer, CReply, CState, answers, states};
use reader::State;
use refusal::Refusal;
use runs::{Fed, Finished};

// Open's and Stage's.
pub fn version_c(a: Result<u16, Refusal>) -> CAnswer
    ensures { result ≡ answer_c (said_version a) }
{
    match a {
        Ok(v) => answers::no_block(0, 1, v, 0, 0),
        Err(why) => answers::refused_c(why),
    }
}

pub fn fed_c(a: Result<Fed, Refusal>) -> CAnswer
    ensures { result ≡ answer_c (said_fed a) }
{
    match a {
        Ok(fed) => match fed.block {
            Some(b) => answers::block_c(fed.taken, b),
            None => answers::no_block(0, 3, 0, 0, fed.taken),
        },
        Err(why) => answers::refused_c(why),
    }
}

pub fn finished_c(a: Result<Finished, Refusal>) -> CAnswer
    ensures { result ≡ answer_c (said_finished a) }
{
    match a {
        Ok(Finished::Block(b)) => answers::block_c(0, b),
        Ok(Finished::End(c)) => answers::at_end(c),
        Err(why) => answers::refused_c(why),
    }
}

pub fn withdrawn_c(a: Result<bool, Refusal>) -> CAnswer
    ensures { result ≡ answer_c (said_withdrawn a) }
{
    match a {
        Ok(w) => answers::whether_waited(w),
        Err(why) => answers::refused_c(why),
    }
}

// The answer to a call made with C's state s that left the state `next`. C gets its own state back where its phase is none.
pub fn reply(s: CState, next: State, a: CAnswer) -> CReply
    ensures { result ≡ record { state = back_c s (state_of s) next; answer = a } }
{
    CReply {
        state: if 2 < s.phase {
            s
        } else {
            states::state_c(next)
        },
        answer: a,
    }
}
