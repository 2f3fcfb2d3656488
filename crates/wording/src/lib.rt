// The lines of the calls that are lent none of the reader's buffers to write: what a field answers, how many bytes were handed back,
// or how long a block was written.
#![tactic(auto)]

ghost use Rattle.std.specs.Prelude.{◌+◌, ◌≤◌, ◌≡◌, ◌++◌, T, length, take};
ghost use Rattle.value.specs.Said.{no_nan, value_says};
ghost use Rattle.desk.specs.Plain.{plainly};
ghost use Rattle.phrases.specs.Replies.{state_text};
ghost use Rattle.wording.specs.Values.{field_text};
ghost use Rattle.wording.specs.Lines.{bytes_text, ask_text, word_no_crcs};

use desk::{AskReply, PartCrc};
use reader::State;
use refusal::Refusal;
use value::Value;

fn signed(out: &mut [u8; 8192], at: usize, z: i64) -> usize
    requires { at + 120 ≤ 8192 }
    ensures upper_bound { result ≤ at + 120 }
    ensures out_after { take result out.new ≡ take at out.old ++ field_text (value_says (Value.Signed z)) }
{
    let word = text::put(out, at, b"signed");
    text::integer(out, word, z)
}

// A value of a field. No float that is carried is a NaN, so each has its bits.
fn put_value(out: &mut [u8; 8192], at: usize, v: Value) -> usize
    requires t { T (no_nan v) }
    requires at_bound { at + 120 ≤ 8192 }
    ensures upper_bound { result ≤ at + 120 }
    ensures out_after { take result out.new ≡ take at out.old ++ field_text (value_says v) }
{
    match v {
        Value::Unsigned(n) => text::word_number(out, at, b"unsigned", n),
        Value::Signed(z) => signed(out, at, z),
        Value::Single(x) => text::word_number(out, at, b"single", u64::from(value::single_bits(x))),
        Value::Double(x) => text::word_number(out, at, b"double", value::double_bits(x)),
        Value::SingleNan(b) => text::word_number(out, at, b"single", u64::from(b)),
        Value::DoubleNan(b) => text::word_number(out, at, b"double", b),
        Value::DoNotUse => text::put(out, at, b"do-not-use"),
        Value::NotInRevision => text::put(out, at, b"not-in-this-revision"),
    }
}

// A word, how many bytes, and a CRC.
fn bytes(out: &mut [u8; 8192], at: usize, word: &[u8], b: PartCrc) -> usize
    requires { (at + 120 ≤ 8192) × (length word.now ≤ 90) }
    ensures upper_bound { result ≤ at + 120 }
    ensures out_after { take result out.new ≡ take at out.old ++ bytes_text word.now b }
{
    let count = text::word_number(out, at, word, b.count as u64);
    text::crc(out, count, b.crc)
}

// What such a call replies.
fn ask_reply(out: &mut [u8; 8192], at: usize, reply: Result<AskReply, Refusal>) -> usize
    requires t { T (plainly reply) }
    requires at_bound { at + 120 ≤ 8192 }
    ensures upper_bound { result ≤ at + 120 }
    ensures out_after { take result out.new ≡ take at out.old ++ ask_text reply }
{
    match reply {
        Ok(AskReply::Field(v)) => put_value(out, at, v),
        Ok(AskReply::Bytes(b)) => bytes(out, at, b"part", b),
        Ok(AskReply::Written(b)) => bytes(out, at, b"written", b),
        Err(why) => phrases::refused(out, at, why),
    }
}

// The line of such a call.
pub fn ask_line(
    out: &mut [u8; 8192],
    at: usize,
    reply: Result<AskReply, Refusal>,
    state: State,
) -> usize
    requires t { T (plainly reply) }
    requires at_bound { at + 340 ≤ 8192 }
    ensures upper_bound { result ≤ at + 340 }
    ensures out_after { take result out.new ≡ take at out.old ++ (ask_text reply ++ state_text state ++ word_no_crcs) }
{
    let said = ask_reply(out, at, reply);
    let numbers = phrases::state_text(out, said, state);
    text::put(out, numbers, b" | - - -\n")
}
