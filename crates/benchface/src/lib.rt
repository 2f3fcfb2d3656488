// What the benchmarks in C call: feed and the writer with plain numbers, and nothing else. `benchface_c` exports it. The C caller meets the
// `requires`.
#![tactic(auto)]

ghost use Rattle.std.specs.Prelude.{◌≡◌, ◌≤◌, length, true};
ghost use Rattle.frame.specs.Judge.{judged_last};
ghost use Rattle.scan.specs.Settle.{settle};
ghost use Rattle.scan.specs.Feed.{feed_lit, stop};
ghost use Rattle.feed.specs.Hold.{rest_of, numbers_of, hold_of};
ghost use Rattle.table.specs.Decode.{decode};
ghost use Rattle.table.specs.Rules.{table_ok};
ghost use Rattle.draft.specs.Draft.{draft_of};
ghost use Rattle.writer.specs.Write.{written_of};
ghost use Rattle.benchface.specs.Four.{four_of};
ghost use Rattle.benchface.specs.Written.{plain_head, length_said};

use draft::Head;
use entry::Entry;
use feed::HoldNumbers;

// The new held bytes, the standing block, the bytes taken and the bytes skipped.
fn four(r: HoldNumbers) -> [usize; 4]
    ensures { result ≡ four_of r }
{
    let passed = r.passed;
    [r.held, r.standing, r.taken, passed.skipped]
}

pub fn alderflute_bench_feed(
    ceiling: usize,
    hold: &mut [u8],
    held: usize,
    standing: usize,
    piece: &[u8],
    room: usize,
    out: &mut [usize; 4],
)
    requires { (ceiling ≤ 65532) × (standing ≤ held) × (held ≤ 65532) × (65532 ≤ length hold.old) }
    ensures out_after { out.new ≡ four_of (numbers_of (feed_lit ceiling (rest_of hold.old held standing) piece.now room)) }
    ensures hold_after { hold.new ≡ hold_of (feed_lit ceiling (rest_of hold.old held standing) piece.now room) hold.old }
{
    *out = four(feed::feed(ceiling, hold, held, standing, piece, room));
}

pub fn alderflute_bench_finish(
    ceiling: usize,
    hold: &mut [u8],
    held: usize,
    standing: usize,
    out: &mut [usize; 4],
)
    requires { (standing ≤ held) × (held ≤ 65532) × (65532 ≤ length hold.old) }
    ensures out_after { out.new ≡ four_of (numbers_of (stop (settle (judged_last ceiling) (rest_of hold.old held standing)))) }
    ensures hold_after { hold.new ≡ hold_of (stop (settle (judged_last ceiling) (rest_of hold.old held standing))) hold.old }
{
    *out = four(feed::finish(ceiling, hold, held, standing));
}

// A block of a table that passes, by the writer alone: its length, or 0 where it is refused. TOW and WNc are unsigned numbers.
pub fn alderflute_bench_write(
    ceiling: usize,
    table: &[u8],
    number: u64,
    revision: u64,
    tow: u64,
    wnc: u64,
    kinds: &[u8],
    bits: &[u64],
    out: &mut [u8],
) -> usize
    requires { table_ok table.now ≡ true }
    ensures value { result ≡ length_said (written_of ceiling (decode table.now) (draft_of (plain_head number revision tow wnc) kinds.now bits.now) out.old).said }
    ensures out_after { out.new ≡ (written_of ceiling (decode table.now) (draft_of (plain_head number revision tow wnc) kinds.now bits.now) out.old).buffer }
{
    let head = Head {
        number,
        revision,
        tow: Entry { kind: 1, bits: tow },
        wnc: Entry { kind: 1, bits: wnc },
    };
    writer::write(ceiling, table, head, kinds, bits, out).unwrap_or(0)
}
