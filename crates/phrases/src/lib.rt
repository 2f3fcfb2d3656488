// What is said of a refusal, a block, a run's counts and end, and a state: the lister's lines (rule S11), and what all of
// replay's lines have.
#![tactic(auto)]

ghost use Rattle.std.specs.Prelude.{◌+◌, ◌≤◌, take, ◌≡◌, ◌++◌};
ghost use Rattle.refusal.specs.Numbers.{number_for};
ghost use Rattle.reader.specs.Said.{report_of};
ghost use Rattle.phrases.specs.Lines.{block_words, block_line, counts_text, end_words, end_line};
ghost use Rattle.phrases.specs.Replies.{refused_text, state_text};
ghost use Rattle.phrases.specs.Samples.{LineSamplesHold};

use reader::{Block, Counts, State};
use refusal::Refusal;

// The lister's longest line: the word `block`, four numbers with a space before each, and the line's end.
pub const LIST_LINE: usize = 90;

// A refusal, by its number.
pub fn refused(out: &mut [u8; 8192], at: usize, why: Refusal) -> usize
    requires { at + 28 ≤ 8192 }
    ensures upper_bound { result ≤ at + 28 }
    ensures out_after { take result out.new ≡ take at out.old ++ refused_text (number_for why) }
{
    text::word_number(out, at, b"refused", u64::from(u32::from(why)))
}

// What is said of a block, with no line's end.
pub fn block_words(out: &mut [u8; 8192], at: usize, b: Block) -> usize
    requires { at + 89 ≤ 8192 }
    ensures upper_bound { result ≤ at + 89 }
    ensures out_after { take result out.new ≡ take at out.old ++ block_words (report_of b) }
{
    let word = text::put(out, at, b"block");
    let place = text::number(out, word, b.place as u64);
    let name = text::number(out, place, u64::from(b.number));
    let revision = text::number(out, name, u64::from(b.revision));
    text::number(out, revision, b.length as u64)
}

pub fn block_line(out: &mut [u8; 8192], at: usize, b: Block) -> usize
    requires { at + 90 ≤ 8192 }
    ensures upper_bound { result ≤ at + 90 }
    ensures out_after { take result out.new ≡ take at out.old ++ block_line (report_of b) }
{
    let words = block_words(out, at, b);
    text::put(out, words, b"\n")
}

// The counts of a run: bytes, blocks, skipped bytes.
pub fn counts(out: &mut [u8; 8192], at: usize, c: Counts) -> usize
    requires { at + 63 ≤ 8192 }
    ensures upper_bound { result ≤ at + 63 }
    ensures out_after { take result out.new ≡ take at out.old ++ counts_text c }
{
    let taken = text::number(out, at, c.taken as u64);
    let blocks = text::number(out, taken, c.blocks as u64);
    text::number(out, blocks, c.skipped as u64)
}

// What is said of a run's end, with no line's end.
pub fn end_words(out: &mut [u8; 8192], at: usize, c: Counts) -> usize
    requires { at + 66 ≤ 8192 }
    ensures upper_bound { result ≤ at + 66 }
    ensures out_after { take result out.new ≡ take at out.old ++ end_words c }
{
    let word = text::put(out, at, b"end");
    counts(out, word, c)
}

pub fn end_line(out: &mut [u8; 8192], at: usize, c: Counts) -> usize
    requires { at + 67 ≤ 8192 }
    ensures upper_bound { result ≤ at + 67 }
    ensures out_after { take result out.new ≡ take at out.old ++ end_line c }
{
    let words = end_words(out, at, c);
    text::put(out, words, b"\n")
}

// The state's nine numbers, behind a bar: one by one, as its text is defined, for the promise names each.
pub fn state_text(out: &mut [u8; 8192], at: usize, s: State) -> usize
    requires { at + 191 ≤ 8192 }
    ensures upper_bound { result ≤ at + 191 }
    ensures out_after { take result out.new ≡ take at out.old ++ state_text s }
{
    let run = s.run;
    let bar = text::word_number(out, at, b" |", usize::from(run.phase) as u64);
    let force = text::number(out, bar, s.in_force as u64);
    let waiting = text::number(out, force, s.waiting as u64);
    let held = text::number(out, waiting, run.held as u64);
    let standing = text::number(out, held, run.standing as u64);
    let skipped = counts(out, standing, run.counts);
    text::number(out, skipped, run.settings.ceiling as u64)
}

// The lines of S11's sample are these.
pub fn samples_hold()
    ensures { LineSamplesHold }
{}
