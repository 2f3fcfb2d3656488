// What a call that may write answered, as a reply: it says what the answer says, and a version is told as its call's. The same of
// Write.
ghost use Rattle.std.specs.Prelude.{◌≡◌, false, T};
ghost use Rattle.tables.specs.Said.{said_version, said_withdrawn};
ghost use Rattle.runs.specs.Said.{said_fed, said_finished};
ghost use Rattle.writer.specs.Write.{written_says};
ghost use Rattle.desk.specs.Says.{reply_says, is_staged, is_version};
ghost use Rattle.desk.specs.Plain.{plainly};
ghost use Rattle.play.specs.Wrote.{wrote_says, crc_told};

use desk::{AskReply, PartCrc, RunReply};
use refusal::Refusal;
use runs::{Fed, Finished};

pub fn opened(a: Result<u16, Refusal>) -> Result<RunReply, Refusal>
    ensures result_value { reply_says result ≡ said_version a }
    ensures result_value_2 { is_staged result ≡ false }
{
    Ok(RunReply::Opened(a?))
}

pub fn fed(a: Result<Fed, Refusal>) -> Result<RunReply, Refusal>
    ensures { reply_says result ≡ said_fed a }
{
    let f = a?;
    Ok(RunReply::Fed(f.taken, f.block))
}

pub fn finished(a: Result<Finished, Refusal>) -> Result<RunReply, Refusal>
    ensures { reply_says result ≡ said_finished a }
{
    match a? {
        Finished::Block(b) => Ok(RunReply::Found(b)),
        Finished::End(c) => Ok(RunReply::End(c)),
    }
}

pub fn staged(a: Result<u16, Refusal>) -> Result<RunReply, Refusal>
    ensures result_value { reply_says result ≡ said_version a }
    ensures result_value_2 { is_staged result ≡ is_version (said_version a) }
{
    Ok(RunReply::Staged(a?))
}

pub fn withdrawn(a: Result<bool, Refusal>) -> Result<RunReply, Refusal>
    ensures { reply_says result ≡ said_withdrawn a }
{
    Ok(RunReply::Withdrawn(a?))
}

// The CRC is told where a block was written.
pub fn written(a: Result<usize, Refusal>, crc: u16) -> Result<AskReply, Refusal>
    ensures t { T (plainly result) }
    ensures result_value { (wrote_says result ≡ Some (written_says a)) × (crc_told result crc ≡ crc) }
{
    Ok(AskReply::Written(PartCrc { count: a?, crc }))
}
