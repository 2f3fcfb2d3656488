// One call, played with the reader's own, or with Write, on the buffers of the desk.
#![tactic(auto)]

ghost use Rattle.std.specs.Prelude.{◌≤◌, ◌≡◌, T, length};
ghost use Rattle.crc.specs.Crc.{crc_of};
ghost use Rattle.record.specs.Answer.{no_nan_in};
ghost use Rattle.desk.specs.Plain.{plainly};
ghost use Rattle.reader.specs.Outcome.{outcome};
ghost use Rattle.tables.specs.Said.{said_version};
ghost use Rattle.tables.specs.Calls.{open_of};
ghost use Rattle.play.specs.Turns.{plain};
ghost use Rattle.play.specs.Opening.{settings_by};

mod replies; // replies.rt: what a call that may write answered, and Write, as a reply

use desk::{AskReply, Crcs, Desk, PartCrc, RunReply};
use lists::LineRead;
use reader::{After, Settings, State};
use record::Answer;
use refusal::Refusal;
use script::{Ask, Buffer, LineCall, RunCall};

// What a line came to: nothing to print, a bad line, or what its call replied.
#[derive(Clone, Copy)]
pub enum Turn {
    Quiet,
    Bad,
    Ran(Result<RunReply, Refusal>),
    Asked(Result<AskReply, Refusal>),
}

// The desk after a line, and what the line came to.
#[derive(Clone, Copy)]
pub struct Played {
    pub desk: Desk,
    pub turn: Turn,
}

// A line that prints nothing: a bad one, or not.
fn quiet(desk: Desk, good: bool) -> Played
    ensures { T (plain result.turn) }
{
    Played {
        desk,
        turn: if good { Turn::Quiet } else { Turn::Bad },
    }
}

// After a call that the reader answers, every buffer is lent whole again.
fn ran(state: State, reply: Result<RunReply, Refusal>) -> Played
    ensures { T (plain result.turn) }
{
    Played {
        desk: desk::after(state),
        turn: Turn::Ran(reply),
    }
}

// What a run is to go by: an `open` without a number gives the default settings, whatever the state has.
fn settings_by(ceiling: Option<u64>) -> Settings
    ensures { result ≡ settings_by ceiling }
{
    match ceiling {
        None => reader::default_settings(),
        Some(n) => Settings {
            ceiling: n as usize,
        },
    }
}

fn open(s: State, ceiling: Option<u64>, force: &mut [u8], waiting: &[u8]) -> After<u16>
    ensures { outcome (said_version result.answer) result.state force.new ≡ open_of s (settings_by ceiling) force.old waiting.now }
{
    tables::open(s, settings_by(ceiling), force, waiting)
}

// A call that may write, on what it is lent of each buffer.
fn run_on(
    s: State,
    run: RunCall,
    given: &[u8],
    hold: &mut [u8],
    force: &mut [u8],
    waiting: &mut [u8],
) -> Played
    ensures { T (plain result.turn) }
{
    match run {
        RunCall::Open(ceiling) => {
            let r = open(s, ceiling, force, waiting);
            ran(r.state, replies::opened(r.answer))
        }
        RunCall::Feed => {
            let r = runs::feed(s, hold, given);
            ran(r.state, replies::fed(r.answer))
        }
        RunCall::Finish => {
            let r = runs::finish(s, hold);
            ran(r.state, replies::finished(r.answer))
        }
        RunCall::Stage => {
            let r = tables::stage(s, waiting, given);
            ran(r.state, replies::staged(r.answer))
        }
        RunCall::Withdraw => {
            let r = tables::withdraw(s);
            ran(r.state, replies::withdrawn(r.answer))
        }
    }
}

// A call that may write.
fn run_call(
    b: Desk,
    run: RunCall,
    given: &[u8],
    hold: &mut [u8],
    force: &mut [u8],
    waiting: &mut [u8],
) -> Played
    ensures { T (plain result.turn) }
{
    let h = desk::lent(b.hold, hold);
    let f = desk::lent(b.in_force, force);
    let w = desk::lent(b.waiting, waiting);
    run_on(
        b.state,
        run,
        given,
        &mut hold[..h],
        &mut force[..f],
        &mut waiting[..w],
    )
}

// The CRCs of the whole buffers.
pub fn crcs(hold: &[u8; 65536], force: &[u8; 8192], waiting: &[u8; 8192]) -> Crcs
    ensures { (result.hold ≡ crc_of hold.now) × (result.in_force ≡ crc_of force.now) × (result.waiting ≡ crc_of waiting.now) }
{
    Crcs {
        hold: crc::crc_of(hold),
        in_force: crc::crc_of(force),
        waiting: crc::crc_of(waiting),
    }
}

// Bytes that a call hands back.
fn handed(bytes: &[u8]) -> PartCrc
    ensures { (result.count ≡ length bytes.now) × (result.crc ≡ crc_of bytes.now) }
{
    PartCrc {
        count: bytes.len(),
        crc: crc::crc_of(bytes),
    }
}

// The block just reported.
fn bytes(s: State, hold: &[u8]) -> Result<AskReply, Refusal>
    ensures { T (plainly result) }
{
    runs::bytes_refused(s, hold)?;
    Ok(AskReply::Bytes(handed(runs::bytes(s, hold))))
}

// A sub-block of a record.
fn sub_bytes(s: State, force: &[u8], block: &[u8], k: usize) -> Result<AskReply, Refusal>
    ensures { T (plainly result) }
{
    records::sub_bytes_refused(s, force, block, k)?;
    Ok(AskReply::Bytes(handed(records::sub_bytes(s, force, block, k))))
}

// What a field answers.
fn field(a: Answer) -> Result<AskReply, Refusal>
    requires { T (no_nan_in a) }
    ensures { T (plainly result) }
{
    Ok(AskReply::Field(a?))
}

// A call that is lent nothing to write, on what it is lent of each buffer. `tow` and `wnc` read no buffer.
fn ask_on(s: State, ask: Ask, given: &[u8], hold: &[u8], force: &[u8]) -> Result<AskReply, Refusal>
    ensures { T (plainly result) }
{
    match ask {
        Ask::Bytes => bytes(s, hold),
        Ask::Body(i) => field(records::body(s, force, given, i as usize)),
        Ask::Sub(k, j) => field(records::sub(s, force, given, k as usize, j as usize)),
        Ask::SubBytes(k) => sub_bytes(s, force, given, k as usize),
        Ask::Sub2(k, m, j) => {
            field(epochs::sub2(s, force, given, k as usize, m as usize, j as usize))
        }
        Ask::Range(k) => field(epochs::range(s, force, given, k as usize)),
        Ask::Range2(k, m) => field(epochs::range2(s, force, given, k as usize, m as usize)),
        Ask::Tow => field(records::tow(s, given)),
        Ask::Wnc => field(records::wnc(s, given)),
    }
}

// A call that is lent nothing to write.
fn ask_call(b: Desk, ask: Ask, given: &[u8], hold: &[u8], force: &[u8]) -> Played
    ensures { T (plain result.turn) }
{
    let h = desk::lent(b.hold, hold);
    let f = desk::lent(b.in_force, force);
    let reply = ask_on(b.state, ask, given, &hold[..h], &force[..f]);
    Played {
        desk: desk::after(b.state),
        turn: Turn::Asked(reply),
    }
}

// `put`: bytes go into a buffer, all of which is there for them; answers whether they end in it.
fn put(
    buffer: Buffer,
    offset: usize,
    bytes: &[u8],
    hold: &mut [u8; 65536],
    force: &mut [u8; 8192],
    waiting: &mut [u8; 8192],
) -> bool {
    match buffer {
        Buffer::Hold => desk::written(hold, offset, bytes),
        Buffer::InForce => desk::written(force, offset, bytes),
        Buffer::Waiting => desk::written(waiting, offset, bytes),
        Buffer::Out => false,
    }
}

// Plays one call, which is not Write.
pub fn call(
    b: Desk,
    call: LineCall,
    given: &[u8],
    hold: &mut [u8; 65536],
    force: &mut [u8; 8192],
    waiting: &mut [u8; 8192],
) -> Played
    ensures { T (plain result.turn) }
{
    match call {
        LineCall::Pass => quiet(b, true),
        LineCall::Bad => quiet(b, false),
        LineCall::Run(run) => run_call(b, run, given, hold, force, waiting),
        LineCall::Ask(ask) => ask_call(b, ask, given, hold, force),
        LineCall::Write => quiet(b, false),
        LineCall::Poke(part, v) => quiet(desk::poked(b, part, v as usize), true),
        LineCall::Put(buffer, offset) => {
            quiet(b, put(buffer, offset as usize, given, hold, force, waiting))
        }
        LineCall::Size(buffer, n) => quiet(desk::sized(b, buffer, n as usize), true),
    }
}

// Plays Write, on what it is lent of the store in force and of the buffer that it writes; the CRC is of the whole buffer. Where the
// line could not be read nothing is called.
pub fn write_call(
    b: Desk,
    line: Option<LineRead>,
    kinds: &[u8],
    bits: &[u64],
    force: &[u8],
    out: &mut [u8],
) -> Played
    ensures { T (plain result.turn) }
{
    let Some(LineRead { head, .. }) = line else {
        return quiet(b, false);
    };
    let f = desk::lent(b.in_force, force);
    let o = desk::lent(b.out, out);
    let answer = writes::write(b.state, &force[..f], head, kinds, bits, &mut out[..o]);
    let reply = replies::written(answer, crc::crc_of(out));
    Played {
        desk: desk::after(b.state),
        turn: Turn::Asked(reply),
    }
}
