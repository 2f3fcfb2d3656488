// The next line of standard input, out of the pieces in which it is read.
ghost use Rattle.std.specs.Prelude.{◌≤◌, length, IfOk, IfSome};

use crate::Failure;

// The longest line, without its line feed.
const LONGEST: usize = 270000;

// The length of any longer line.
const TOO_LONG: usize = 270001;

// The lines of standard input: the last one that was found, the piece that was read last, of which the bytes from `at` to `end`
// are yet to be looked at, and how reading stopped, if it has.
#[derive(Drop)]
pub struct Lines<'a> {
    pub line: &'a mut [u8; 270000],
    piece: &'a mut [u8; 65536],
    at: usize,
    end: usize,
    stopped: Option<Result<(), Failure>>,
    ghost within: { (at ≤ end) × (end ≤ 65536) },
}

// Puts more of a line behind its first bytes, and answers how long it is then. A line that is too long keeps its first bytes only.
fn append(line: &mut [u8; 270000], so_far: usize, more: &[u8]) -> usize
    requires { (length more.now ≤ 65536) × (so_far ≤ 270001) }
    ensures { result ≤ 270001 }
{
    let from = so_far.min(LONGEST);
    let kept = more.len().min(LONGEST - from);
    line[from..from + kept].copy_from_slice(&more[..kept]);
    (so_far + more.len()).min(TOO_LONG)
}

impl<'a> Lines<'a> {
    // Before the first line.
    pub fn new(line: &'a mut [u8; 270000], piece: &'a mut [u8; 65536]) -> Self {
        Lines {
            line,
            piece,
            at: 0,
            end: 0,
            stopped: None,
        }
    }

    // Reads the next piece; whether there is one. An input that has ended, or that could not be read, is not read again: what stopped
    // it is answered from then on.
    fn fill(&mut self, rt: &HostRuntime) -> Result<bool, Failure> {
        if let Some(stopped) = self.stopped {
            return stopped.and(Ok(false));
        }
        match crate::read(rt, self.piece) {
            Ok(count) if count != 0 => {
                self.at = 0;
                self.end = count;
                Ok(true)
            }
            stop => {
                self.stopped = Some(stop.and(Ok(())));
                stop.and(Ok(false))
            }
        }
    }

    // How long the next line is, TOO_LONG for any longer one, or that there is none. A line begins where the last one ended; at the
    // input's end a last line without a line feed counts, an empty rest does not.
    pub fn next_line(&mut self, rt: &HostRuntime) -> Result<Option<usize>, Failure>
        ensures { IfOk result (λ found. IfSome found (λ n. n ≤ 270001)) }
    {
        let mut length = 0;
        // A proved loop has to end, and nothing says that the input does.
        for _ in 0..u64::MAX {
            if self.at == self.end && !self.fill(rt)? {
                return Ok(if length == 0 { None } else { Some(length) });
            }
            let piece: &[u8] = self.piece;
            let rest = &piece[self.at..self.end];
            let feed = rest.iter().position(|b| *b == b'\n');
            let n = feed.unwrap_or(rest.len());
            length = append(self.line, length, &rest[..n]);
            if feed.is_some() {
                self.at += n + 1;
                return Ok(Some(length));
            }
            self.at = self.end;
        }
        Ok(None)
    }
}
