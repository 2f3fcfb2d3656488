// What lies on the desk between two calls: the reader's state, and how much of each buffer the next call is lent; and what a call
// replies, as values.
#![tactic(auto)]

ghost use Rattle.std.specs.Prelude.{◌≡◌, min, length};
ghost use Rattle.std.specs.Counts.{IsPrefixLen};

use reader::{Block, Phase, State};
use script::{Buffer, StateNumber};
use value::Value;

// More than any buffer has: all of it is lent.
const WHOLE: usize = 0xffff_ffff_ffff_ffff;

#[derive(Clone, Copy)]
pub struct Desk {
    pub state: State,
    pub hold: usize,
    pub in_force: usize,
    pub waiting: usize,
    pub out: usize,
}

// What a call replies that may write and is not refused: Open, Stage and Withdraw, Feed with a block or without one, Finish with a
// block and at the end.
#[derive(Clone, Copy)]
pub enum RunReply {
    Opened(u16),
    Staged(u16),
    Withdrawn(bool),
    Fed(usize, Option<Block>),
    Found(Block),
    End(reader::Counts),
}

// Bytes that were handed back: how many, and their CRC. Of a block that was written: its length, and the CRC of the whole buffer.
#[derive(Clone, Copy)]
pub struct PartCrc {
    pub count: usize,
    pub crc: u16,
}

// What a call replies that is lent none of the reader's buffers to write and is not refused.
#[derive(Clone, Copy)]
pub enum AskReply {
    Field(Value),
    Bytes(PartCrc),
    Written(PartCrc),
}

// The CRCs of the three whole buffers.
#[derive(Clone, Copy)]
pub struct Crcs {
    pub hold: u16,
    pub in_force: u16,
    pub waiting: u16,
}

// After a call every buffer is lent whole again.
pub fn after(state: State) -> Desk {
    Desk {
        state,
        hold: WHOLE,
        in_force: WHOLE,
        waiting: WHOLE,
        out: WHOLE,
    }
}

// How many bytes of a buffer are lent: as many as were asked for, or all.
pub fn lent(n: usize, buffer: &[u8]) -> usize
    ensures prefix_len { IsPrefixLen result buffer.now }
    ensures value { result ≡ min n (length buffer.now) }
{
    n.min(buffer.len())
}

// `size`: what the next call is lent.
pub fn sized(b: Desk, buffer: Buffer, n: usize) -> Desk {
    let mut next = b;
    match buffer {
        Buffer::Hold => next.hold = n,
        Buffer::InForce => next.in_force = n,
        Buffer::Waiting => next.waiting = n,
        Buffer::Out => next.out = n,
    }
    next
}

fn poked_phase(v: usize) -> Phase {
    match v {
        0 => Phase::Closed,
        1 => Phase::Feeding,
        _ => Phase::Finishing,
    }
}

// `poke`: a number of the state is set, whether the reader would or not.
pub fn poked(b: Desk, part: StateNumber, v: usize) -> Desk {
    let mut next = b;
    match part {
        StateNumber::Phase => next.state.run.phase = poked_phase(v),
        StateNumber::InForce => next.state.in_force = v,
        StateNumber::Waiting => next.state.waiting = v,
        StateNumber::Held => next.state.run.held = v,
        StateNumber::Standing => next.state.run.standing = v,
        StateNumber::Taken => next.state.run.counts.taken = v,
        StateNumber::Blocks => next.state.run.counts.blocks = v,
        StateNumber::Skipped => next.state.run.counts.skipped = v,
        StateNumber::Ceiling => next.state.run.settings.ceiling = v,
    }
    next
}

// `put`: bytes go into a buffer; answers whether they end in it.
pub fn written(buffer: &mut [u8], offset: usize, bytes: &[u8]) -> bool {
    let n = bytes.len();
    if buffer.len() < offset || buffer.len() - offset < n {
        return false;
    }
    copy::copy_in(buffer, offset, bytes, 0, n);
    true
}
