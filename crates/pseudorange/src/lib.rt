// Pseudoranges of a MeasEpoch, in whole millimetres (rules V11, V12), from the numbers in its fields.
#![tactic(auto)]

ghost use Rattle.std.specs.Prelude.{◌≡◌, ◌<◌, IfSome};
ghost use Rattle.record.specs.Answer.{Answers};
ghost use Rattle.pseudorange.specs.Range.{first_range, no_first, second_range, no_offset, range_said, range2_said};
ghost use Rattle.pseudorange.specs.Theorems.{RangesFit};

use record::Answer;
use refusal::Refusal;
use value::Value;

// V11: by a mask, as the ID is taken apart.
fn first_range(misc: u64, lsb: u64) -> u64
    requires { lsb < 4294967296 }
    ensures { (result ≡ first_range misc lsb) × (result < 68719476736) }
{
    let msb = misc & 15;
    msb * 4294967296 + lsb
}

fn no_first(misc: u64, lsb: u64) -> bool
    ensures { result ≡ no_first misc lsb }
{
    let msb = misc & 15;
    msb == 0 && lsb == 0
}

// V12: three bits in two's complement; with the first of them set the offset lies `down` below the sum's other part.
fn second_range(first: u64, offsets: u64, lsb: u64) -> i64
    requires { (first < 68719476736) × (lsb < 65536) }
    ensures { result ≡ second_range first offsets lsb }
{
    let msb = offsets & 7;
    if msb < 4 {
        return (first + (msb * 65536 + lsb)) as i64;
    }
    let down = (8 - msb) * 65536 - lsb;
    if first < down {
        let n = down - first - 1;
        return -1 - (n as i64);
    }
    (first - down) as i64
}

fn no_offset(offsets: u64, lsb: u64) -> bool
    ensures { result ≡ no_offset offsets lsb }
{
    let msb = offsets & 7;
    msb == 4 && lsb == 0
}

// What Range answers, by Misc and CodeLSB, where both are numbers.
pub fn range(p: Option<(u64, u64)>) -> Answer
    requires { IfSome p (λ n. n.1 < 4294967296) }
    ensures { Answers result (range_said p) }
{
    let (misc, lsb) = p.ok_or(Refusal::NoSuchField)?;
    if no_first(misc, lsb) {
        return Ok(Value::DoNotUse);
    }
    Ok(Value::Signed(first_range(misc, lsb) as i64))
}

// What Range2 answers, by the same, OffsetsMSB and CodeOffsetLSB, where all four are numbers.
pub fn range2(p: Option<(u64, u64)>, q: Option<(u64, u64)>) -> Answer
    requires { IfSome p (λ n. n.1 < 4294967296) × IfSome q (λ n. n.1 < 65536) }
    ensures { Answers result (range2_said p q) }
{
    let (misc, code) = p.ok_or(Refusal::NoSuchField)?;
    let (offsets, lsb) = q.ok_or(Refusal::NoSuchField)?;
    if no_first(misc, code) || no_offset(offsets, lsb) {
        return Ok(Value::DoNotUse);
    }
    Ok(Value::Signed(second_range(first_range(misc, code), offsets, lsb)))
}

// Every pseudorange fits the answer, with its sign.
pub fn ranges_fit()
    ensures { RangesFit }
{}
