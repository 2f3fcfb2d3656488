// The lines of the calls that may write: what the call replied, the state's nine numbers, the CRCs of the three buffers.
#![tactic(auto)]

ghost use Rattle.std.specs.Prelude.{◌+◌, ◌≤◌, ◌≡◌, ◌++◌, take};
ghost use Rattle.reader.specs.Said.{report_of, took};
ghost use Rattle.phrases.specs.Replies.{state_text};
ghost use Rattle.show.specs.Lines.{word_fed, said_text, run_text, crcs_text};

use desk::{Crcs, RunReply};
use reader::{Block, State};
use refusal::Refusal;

// The longest line that a call prints fits.
pub const CALL_LINE: usize = 340;

// Feed took n bytes and needs more.
fn more_words(out: &mut [u8; 8192], at: usize, n: usize) -> usize
    requires { at + 120 ≤ 8192 }
    ensures upper_bound { result ≤ at + 120 }
    ensures out_after { take result out.new ≡ take at out.old ++ said_text word_fed (took n None) }
{
    let count = text::word_number(out, at, b"fed", n as u64);
    text::put(out, count, b" more")
}

// Feed took n bytes and reports a block.
fn fed_words(out: &mut [u8; 8192], at: usize, n: usize, b: Block) -> usize
    requires { at + 120 ≤ 8192 }
    ensures upper_bound { result ≤ at + 120 }
    ensures out_after { take result out.new ≡ take at out.old ++ said_text word_fed (took n (Some (report_of b))) }
{
    let count = text::word_number(out, at, b"fed", n as u64);
    let gap = text::put(out, count, b" ");
    phrases::block_words(out, gap, b)
}

fn print(out: &mut [u8; 8192], at: usize, reply: Result<RunReply, Refusal>) -> usize
    requires { at + 120 ≤ 8192 }
    ensures upper_bound { result ≤ at + 120 }
    ensures out_after { take result out.new ≡ take at out.old ++ run_text reply }
{
    match reply {
        Ok(RunReply::Opened(v)) => text::word_number(out, at, b"opened", u64::from(v)),
        Ok(RunReply::Staged(v)) => text::word_number(out, at, b"staged", u64::from(v)),
        Ok(RunReply::Withdrawn(one)) => text::word_number(out, at, b"withdrawn", u64::from(one)),
        Ok(RunReply::Fed(taken, None)) => more_words(out, at, taken),
        Ok(RunReply::Fed(taken, Some(b))) => fed_words(out, at, taken, b),
        Ok(RunReply::Found(b)) => phrases::block_words(out, at, b),
        Ok(RunReply::End(c)) => phrases::end_words(out, at, c),
        Err(why) => phrases::refused(out, at, why),
    }
}

// The CRCs of the whole buffers, behind a bar, and the line's end.
fn crcs(out: &mut [u8; 8192], at: usize, c: Crcs) -> usize
    requires { at + 18 ≤ 8192 }
    ensures upper_bound { result ≤ at + 18 }
    ensures out_after { take result out.new ≡ take at out.old ++ crcs_text c }
{
    let bar = text::put(out, at, b" |");
    let first = text::crc(out, bar, c.hold);
    let second = text::crc(out, first, c.in_force);
    let third = text::crc(out, second, c.waiting);
    text::put(out, third, b"\n")
}

// The line of a call that may write, with the CRCs of the whole buffers after it.
pub fn run_line(
    out: &mut [u8; 8192],
    at: usize,
    reply: Result<RunReply, Refusal>,
    state: State,
    c: Crcs,
) -> usize
    requires { at + 340 ≤ 8192 }
    ensures upper_bound { result ≤ at + 340 }
    ensures out_after { take result out.new ≡ take at out.old ++ (run_text reply ++ state_text state ++ crcs_text c) }
{
    let said = print(out, at, reply);
    let numbers = phrases::state_text(out, said, state);
    crcs(out, numbers, c)
}
