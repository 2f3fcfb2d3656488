// Lists the blocks of standard input, read as one run: a line for each, and last the run's counts (rule S11).
#![tactic(auto)]

ghost use Rattle.std.specs.Prelude.{◌≤◌, length, IfSome};

use console::{Failure, Output};
use reader::{After, Block, State};
use runs::{Fed, Finished};

// Offers a piece once. In a run that is open and fed by this program the one refusal left is a full run's.
fn offer(state: &mut State, hold: &mut [u8; 65536], piece: &[u8]) -> Option<Fed>
    ensures { IfSome result (λ f. f.taken ≤ length piece.now) }
{
    let fed = runs::feed(*state, hold, piece);
    *state = fed.state;
    fed.answer.ok()
}

fn list_block(rt: &HostRuntime, b: Block, out: &mut Output) -> Result<(), Failure> {
    out.make_room(rt, phrases::LIST_LINE)?;
    out.filled = phrases::block_line(&mut out.bytes, out.filled, b);
    Ok(())
}

// Offers what was read until it has no more to give: all of it is taken and gives no block, or the run is full. Answers whether
// the run takes more. Without a line to list, room is made as for a spent piece.
fn drain(
    rt: &HostRuntime,
    state: &mut State,
    piece: &[u8],
    spent: usize,
    hold: &mut [u8; 65536],
    out: &mut Output,
) -> Result<bool, Failure>
    requires { spent ≤ 8192 }
{
    let mut rest = piece;
    for _ in 0..u64::MAX {
        let Some(offered) = offer(state, hold, rest) else {
            out.make_room(rt, spent)?;
            return Ok(false);
        };
        rest = &rest[offered.taken..];
        if let Some(b) = offered.block {
            list_block(rt, b, out)?;
            continue;
        }
        out.make_room(rt, spent)?;
        if rest.is_empty() {
            break;
        }
    }
    Ok(true)
}

// How much room a spent piece asks for in the output buffer: all of it where the next read can wait, so that what waits is
// written out and a live stream's blocks are seen as they come; else as much as a line does.
fn room_of_spent(rt: &HostRuntime) -> usize
    ensures { (90 ≤ result) × (result ≤ 8192) }
{
    if console::live(rt) {
        return 8192;
    }
    phrases::LIST_LINE
}

// Reads and feeds, to the end of the input or of the run.
fn read_all(
    rt: &HostRuntime,
    state: &mut State,
    buf: &mut [u8; 65536],
    hold: &mut [u8; 65536],
    out: &mut Output,
) -> Result<(), Failure> {
    let spent = room_of_spent(rt);
    // A proved loop has to end, and nothing says that the input does.
    for _ in 0..u64::MAX {
        let count = console::read(rt, buf)?;
        if count == 0 {
            break;
        }
        if !drain(rt, state, &buf[..count], spent, hold, out)? {
            let _ = eprintln!(rt; "lister: the run is full at 4294967295 bytes");
            break;
        }
    }
    Ok(())
}

// Finishes the run: the blocks that were held back, then the end.
fn close_all(
    rt: &HostRuntime,
    state: State,
    hold: &mut [u8; 65536],
    out: &mut Output,
) -> Result<(), Failure> {
    let mut now = state;
    for _ in 0..u64::MAX {
        let closed = runs::finish(now, hold);
        now = closed.state;
        match closed.answer {
            Ok(Finished::Block(b)) => list_block(rt, b, out)?,
            Ok(Finished::End(c)) => {
                out.make_room(rt, phrases::LIST_LINE)?;
                out.filled = phrases::end_line(&mut out.bytes, out.filled, c);
                break;
            }
            Err(_) => break,
        }
    }
    Ok(())
}

// Reads the run and lists it; without its end, where reading or writing fails.
fn list_run(
    rt: &HostRuntime,
    state: State,
    buf: &mut [u8; 65536],
    hold: &mut [u8; 65536],
    out: &mut Output,
) -> Result<(), Failure> {
    let mut now = state;
    read_all(rt, &mut now, buf, hold, out)?;
    close_all(rt, now, hold, out)
}

fn list(rt: &HostRuntime, state: State) {
    let mut buf = [0u8; 65536];
    let mut hold = [0u8; 65536];
    let mut out = Output {
        bytes: [0u8; 8192],
        filled: 0,
    };
    let end = list_run(rt, state, &mut buf, &mut hold, &mut out);
    out.close(rt, "lister", end);
}

// Stages the rows shipped and opens with them. A refused table would wait nowhere, and then Open is refused too.
fn open() -> After<u16> {
    let mut in_force = [0u8; 8192];
    let mut waiting = [0u8; 8192];
    let rows = shipped::table();
    let staged = tables::stage(reader::new(), &mut waiting, &rows);
    tables::open(
        staged.state,
        reader::default_settings(),
        &mut in_force,
        &waiting,
    )
}

fn main(rt: HostRuntime) {
    let opened = open();
    match opened.answer {
        Ok(_) => list(&rt, opened.state),
        Err(_) => {
            let _ = eprintln!(rt; "lister: the rows shipped are refused");
        }
    }
}
