// Write (rule W1): a block made through the table in force, under the state's ceiling (C17).
#![tactic(auto)]

ghost use Rattle.std.specs.Prelude.{◌≡◌};
ghost use Rattle.draft.specs.Draft.{draft_of};
ghost use Rattle.writer.specs.Write.{write_outcome, written_says};
ghost use Rattle.writes.specs.Calls.{write_of};

use draft::Head;
use reader::State;
use refusal::Refusal;

// Writes a block to the start of the buffer: how long it is. The state stays as it is.
pub fn write(
    s: State,
    in_force: &[u8],
    h: Head,
    kinds: &[u8],
    bits: &[u64],
    out: &mut [u8],
) -> Result<usize, Refusal>
    ensures { write_outcome (written_says result) out.new ≡ write_of s in_force.now (draft_of h kinds.now bits.now) out.old }
{
    let table = records::of_ask(s, in_force)?;
    let run = s.run;
    let settings = run.settings;
    writer::write(settings.ceiling, table, h, kinds, bits, out)
}
