// Plays a script of calls from standard input, and prints one line a call.
#![tactic(auto)]

ghost use Rattle.std.specs.Prelude.{◌≡◌, ◌+◌, ◌≤◌, T, ◌++◌, take, length};
ghost use Rattle.play.specs.Turns.{plain};
ghost use Rattle.replay.specs.Printed.{printed};

use console::lines::Lines;
use console::{Failure, Output};
use desk::{Crcs, Desk};
use play::{Played, Turn};
use script::LineCall;

// What the calls are lent: the bytes and the values that a line gives, the reader's three buffers, and the one that Write writes.
#[derive(Drop)]
pub struct Buffers {
    given: [u8; 135000],
    kinds: [u8; 135000],
    bits: [u64; 135000],
    hold: [u8; 65536],
    force: [u8; 8192],
    waiting: [u8; 8192],
    block: [u8; 65536],
}

impl Buffers {
    // Reads what Write is given, and plays it.
    fn play_write(&mut self, desk: Desk, text: &[u8]) -> Played
        requires { length text.now ≤ 270000 }
        ensures { T (plain result.turn) }
    {
        let values = lists::read(text, &mut self.kinds, &mut self.bits);
        let k = values.map_or(0, |v| v.count);
        play::write_call(
            desk,
            values,
            &self.kinds[..k],
            &self.bits[..k],
            &self.force,
            &mut self.block,
        )
    }

    // Reads a line of n bytes as a call, and plays it. One that is too long is longer than what is kept of it, and is none.
    fn play_line(&mut self, desk: Desk, line: &[u8; 270000], n: usize) -> Played
        ensures { T (plain result.turn) }
    {
        let Some(text) = line.get(..n) else {
            return Played {
                desk,
                turn: Turn::Bad,
            };
        };
        let asked = script::read(text, &mut self.given);
        match asked.call {
            LineCall::Write => self.play_write(desk, &text[asked.behind..]),
            call => play::call(
                desk,
                call,
                &self.given[..asked.count],
                &mut self.hold,
                &mut self.force,
                &mut self.waiting,
            ),
        }
    }

    // The CRCs of the whole buffers, after a call that may write. No other line prints any.
    fn crcs_after(&self, turn: Turn) -> Crcs {
        match turn {
            Turn::Ran(_) => play::crcs(&self.hold, &self.force, &self.waiting),
            _ => Crcs {
                hold: 0,
                in_force: 0,
                waiting: 0,
            },
        }
    }
}

// What a line came to, as text.
fn print(p: Played, c: Crcs, out: &mut [u8; 8192], at: usize) -> usize
    requires t { T (plain p.turn) }
    requires at_bound { at + 340 ≤ 8192 }
    ensures upper_bound { result ≤ at + 340 }
    ensures out_after { take result out.new ≡ take at out.old ++ printed p.turn p.desk.state c }
{
    let state = p.desk.state;
    match p.turn {
        Turn::Ran(reply) => show::run_line(out, at, reply, state, c),
        Turn::Asked(reply) => wording::ask_line(out, at, reply, state),
        Turn::Quiet | Turn::Bad => at,
    }
}

// Plays line after line, to the end of the input. A line is printed, or told as a bad one; room is made for what it prints before it
// is played.
fn play_all(
    rt: &HostRuntime,
    lines: &mut Lines,
    buffers: &mut Buffers,
    out: &mut Output,
) -> Result<(), Failure> {
    let mut desk = desk::after(reader::new());
    // A proved loop has to end, and nothing says that the input does; so many lines are never read.
    for number in 1..u64::MAX {
        let Some(n) = lines.next_line(rt)? else {
            break;
        };
        out.make_room(rt, show::CALL_LINE)?;
        let played = buffers.play_line(desk, lines.line, n);
        desk = played.desk;
        if let Turn::Bad = played.turn {
            let _ = eprintln!(rt; "bad line {number}");
        }
        let crcs = buffers.crcs_after(played.turn);
        out.filled = print(played, crcs, &mut out.bytes, out.filled);
    }
    Ok(())
}

// The buffers begin with bytes of their own, so that a byte that a call has not written shows.
fn main(rt: HostRuntime) {
    let mut line = [0u8; 270000];
    let mut piece = [0u8; 65536];
    let mut lines = Lines::new(&mut line, &mut piece);
    let mut buffers = Buffers {
        given: [0u8; 135000],
        kinds: [0u8; 135000],
        bits: [0u64; 135000],
        hold: [0xa5u8; 65536],
        force: [0x5au8; 8192],
        waiting: [0x3cu8; 8192],
        block: [0xc3u8; 65536],
    };
    let mut out = Output {
        bytes: [0u8; 8192],
        filled: 0,
    };
    let end = play_all(&rt, &mut lines, &mut buffers, &mut out);
    out.close(&rt, "replay", end);
}
