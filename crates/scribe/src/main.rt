// Writes blocks of SBF to standard output, one for each line of standard input that gives its values. A line is a `write` of
// docs/REPLAY.md without that word. The table is the file that its argument names, or, without one, the rows shipped.
#![tactic(auto)]

ghost use Rattle.std.specs.Counts.{IsPrefixLen};

use console::Failure;
use console::lines::Lines;
use reader::State;
use refusal::Refusal;
use std::env::FillError;
use std::fs::File;
use std::io::{Error, Read, Write};
use std::rt::Env;
use std::{fmt, fs, str};

// Why a line makes no block.
#[derive(Clone, Copy)]
pub enum Fault {
    NoValues,
    Refused(Refusal),
}

// Why a block was refused, in words. The table was checked, so no other number comes.
fn words_for(why: Refusal) -> &'static str {
    match why {
        Refusal::NoRow => "no row of the table has this block's number",
        Refusal::BadValues => {
            "a value, TOW, WNc, the revision or the sub-blocks cannot stand in this block"
        }
        Refusal::NoRoom =>
            "the block has more than 65532 bytes, or its sub-blocks more than 255 each",
        _ => "the table cannot be read by",
    }
}

impl fmt::Display for Fault {
    fn fmt<W: fmt::Write>(&self, f: &mut fmt::Formatter<W>) -> fmt::Result {
        match self {
            Fault::NoValues => write!(
                f,
                "is not of the form NUMBER REVISION TOW WNC VALUE .. / VALUE .."
            ),
            Fault::Refused(why) => {
                let number = u32::from(*why);
                let words = words_for(*why);
                write!(f, "refused {number}: {words}")
            }
        }
    }
}

// An empty line, and one that begins with `#`.
fn is_passed_over(text: &[u8]) -> bool {
    matches!(text, [] | [b'#', ..])
}

// What blocks are written by, and room for a line's values and its block.
#[derive(Drop)]
pub struct Scribe<'a> {
    state: State,
    in_force: &'a [u8; 8192],
    kinds: [u8; 135000],
    bits: [u64; 135000],
    block: [u8; 65536],
}

impl Scribe<'_> {
    // Writes the block of a line of n bytes, and answers how long it is: none for a line that is passed over. A line that is too long
    // is longer than what is kept of it, and gives no values.
    fn write_block(&mut self, line: &[u8; 270000], n: usize) -> Result<usize, Fault> {
        let Some(text) = line.get(..n) else {
            return Err(Fault::NoValues);
        };
        if is_passed_over(text) {
            return Ok(0);
        }
        let read = lists::read(text, &mut self.kinds, &mut self.bits).ok_or(Fault::NoValues)?;
        let k = read.count;
        let in_force = self.in_force;
        let written = writes::write(
            self.state,
            in_force,
            read.head,
            &self.kinds[..k],
            &self.bits[..k],
            &mut self.block,
        );
        written.map_err(Fault::Refused)
    }

    // Writes out a block of so many bytes. It is never longer than its buffer.
    fn put_block(&self, rt: &HostRuntime, n: usize) -> Result<(), Failure> {
        let whole = n.min(65536);
        let written = rt.stdout().write_all(&self.block[..whole]);
        written.or(Err(Failure::Write))
    }

    // Writes line after line, and tells why one makes no block.
    fn write_all(&mut self, rt: &HostRuntime, lines: &mut Lines) -> Result<(), Failure> {
        // A proved loop has to end, and nothing says that the input does; so many lines are never read.
        for number in 1..u64::MAX {
            let Some(n) = lines.next_line(rt)? else {
                break;
            };
            match self.write_block(lines.line, n) {
                Ok(length) => self.put_block(rt, length)?,
                Err(why) => {
                    let _ = eprintln!(rt; "scribe: line {number}: {why}");
                }
            }
        }
        Ok(())
    }
}

fn scribe_lines(rt: &HostRuntime, state: State, in_force: &[u8; 8192]) {
    let mut line = [0u8; 270000];
    let mut piece = [0u8; 65536];
    let mut lines = Lines::new(&mut line, &mut piece);
    let mut scribe = Scribe {
        state,
        in_force,
        kinds: [0u8; 135000],
        bits: [0u64; 135000],
        block: [0u8; 65536],
    };
    if let Err(why) = scribe.write_all(rt, &mut lines) {
        console::tell(rt, "scribe", why);
    }
}

// Stages a table and opens with it. A refused table waits nowhere, and then Open is refused too.
fn scribe_by(rt: &HostRuntime, rows: &[u8]) {
    let mut in_force = [0u8; 8192];
    let mut waiting = [0u8; 8192];
    let staged = tables::stage(reader::new(), &mut waiting, rows);
    let opened = tables::open(
        staged.state,
        reader::default_settings(),
        &mut in_force,
        &waiting,
    );
    match opened.answer {
        Ok(_) => scribe_lines(rt, opened.state, &in_force),
        Err(_) => {
            let _ = eprintln!(rt; "scribe: the table breaks one of the rules T1 to T20");
        }
    }
}

// The system's numbers of two failures that it does not tell itself: the words of a name that is no text in UTF-8, and of one
// that is too long.
const NO_TEXT: i32 = 84;

const TOO_LONG: i32 = 36;

// The words of an error: what stands before the space and the bracket of its number.
fn words_of(text: &[u8]) -> &[u8] {
    match text.iter().position(|b| *b == b'(') {
        Some(i) => &text[..i.saturating_sub(1)],
        None => text,
    }
}

// Tells why the table cannot be read, in the system's words.
fn tell_failure(rt: &HostRuntime, why: Error) {
    let mut text = [0u8; 256];
    let mut room: &mut [u8] = &mut text;
    let _ = write!(room, "{why}");
    let n = 256usize.saturating_sub(room.len());
    let words = str::from_utf8(words_of(&text[..n])).unwrap_or("");
    let _ = eprintln!(rt; "scribe: the table: {words}");
}

// Reads until the buffer is full, the file ends or a read fails; answers how many bytes it put at the buffer's start.
fn read_full(file: &mut File, buf: &mut [u8]) -> usize
    ensures { IsPrefixLen result buf.new }
{
    let mut done: usize = 0;
    // The reads say how far it goes on, so no range does.
    while done < buf.len() {
        match file.read(&mut buf[done..]) {
            Ok(0) | Err(_) => return done,
            Ok(n) => done += n,
        }
    }
    done
}

// Reads the table file. What is longer than the buffer is no table, and is refused by its first part. A last read tells the
// file's end from a failure.
fn scribe_by_file(rt: &HostRuntime, file: &mut File) {
    let mut rows = [0u8; 65536];
    let mut rest = [0u8; 16];
    let n = read_full(file, &mut rows);
    match file.read(&mut rest) {
        Ok(_) => scribe_by(rt, &rows[..n]),
        Err(why) => tell_failure(rt, why),
    }
}

fn scribe_by_argument(rt: &HostRuntime, path: &[u8]) {
    let Ok(name) = str::from_utf8(path) else {
        tell_failure(rt, Error::from_raw_os_error(NO_TEXT));
        return;
    };
    match fs::open(rt, name) {
        Ok(mut file) => scribe_by_file(rt, &mut file),
        Err(why) => tell_failure(rt, why),
    }
}

fn main(rt: HostRuntime) {
    let mut path = [0u8; 4096];
    match rt.arg(1, &mut path) {
        Ok(n) => scribe_by_argument(&rt, &path[..n]),
        Err(FillError::TooLong) => tell_failure(&rt, Error::from_raw_os_error(TOO_LONG)),
        Err(FillError::NotPresent) => {
            let rows = shipped::table();
            scribe_by(&rt, &rows);
        }
    }
}
