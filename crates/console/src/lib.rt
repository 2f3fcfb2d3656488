// The three standard streams, as the programs use them: input in pieces, output from a buffer, and failures told.
#![tactic(auto)]

ghost use Rattle.std.specs.Prelude.{◌≡◌, ◌+◌, ◌≤◌, IfOk};
ghost use Rattle.std.specs.Counts.{IsPrefixLen};

pub mod lines; // lines.rt: the next line of standard input

use std::io::{Read, Seek};
use std::{fmt, fs, io};

// Standard input by its name.
const INPUT: &str = "/dev/stdin";

// Why a program stops before the input's end.
#[derive(Clone, Copy)]
pub enum Failure {
    Read,
    Write,
}

impl fmt::Display for Failure {
    fn fmt<W: fmt::Write>(&self, f: &mut fmt::Formatter<W>) -> fmt::Result {
        match self {
            Failure::Read => write!(f, "cannot read standard input"),
            Failure::Write => write!(f, "cannot write to standard output"),
        }
    }
}

// Tells a failure on standard error, by the program's name.
pub fn tell(rt: &HostRuntime, name: &str, why: Failure) {
    let _ = eprintln!(rt; "{name}: {why}");
}

// Reads once from standard input, and answers how many bytes: none at its end.
pub fn read(rt: &HostRuntime, buf: &mut [u8; 65536]) -> Result<usize, Failure>
    ensures { IfOk result (λ n. IsPrefixLen n buf.new × (n ≤ 65536)) }
{
    rt.stdin().read(buf).or(Err(Failure::Read))
}

// Whether standard input has a place in a file, and a pipe, a socket and a serial line have none. A file is opened once more to
// ask for a place, so that its own stays; nothing else is, since an opening may wait.
fn has_place(rt: &HostRuntime) -> io::Result<bool> {
    if !fs::metadata(rt, INPUT)?.is_file() {
        return Ok(false);
    }
    let mut file = fs::open(rt, INPUT)?;
    Ok(file.stream_position().is_ok())
}

// Whether a read of standard input can wait for bytes that are yet to come: not where the input has a place in a file.
pub fn live(rt: &HostRuntime) -> bool {
    !has_place(rt).unwrap_or(false)
}

// What waits to be written to standard output: the first bytes of a buffer.
#[derive(Drop)]
pub struct Output {
    pub bytes: [u8; 8192],
    pub filled: usize,
    pub ghost within: { filled ≤ 8192 },
}

impl Output {
    // Writes what waits. What cannot be written is not tried again.
    fn write(&mut self, rt: &HostRuntime) -> Result<(), Failure>
        ensures { self.new.filled ≡ 0 }
    {
        let waits = self.filled;
        self.filled = 0;
        let written = rt.stdout().write_all(&self.bytes[..waits]);
        written.or(Err(Failure::Write))
    }

    // Makes room for a line: writes out what waits where less than that is left.
    pub fn make_room(&mut self, rt: &HostRuntime, line: usize) -> Result<(), Failure>
        requires { line ≤ 8192 }
        ensures { (self.new.filled ≤ self.old.filled) × (self.new.filled + line ≤ 8192) }
    {
        if self.filled <= 8192 - line {
            return Ok(());
        }
        self.write(rt)
    }

    // A program's end: writes out what waits, and tells by the program's name what went wrong.
    pub fn close(&mut self, rt: &HostRuntime, name: &str, end: Result<(), Failure>) {
        let written = self.write(rt);
        if let Err(why) = end {
            tell(rt, name, why);
        }
        if let Err(why) = written {
            tell(rt, name, why);
        }
    }
}
