// What is wanted of a field, as a caller gives it (rules W2, W3), and the bits that the field is written with (W5, W6).
#![tactic(auto)]

ghost use Rattle.std.specs.Prelude.{◌≡◌, ◌&&◌, ◌+◌, ◌^◌, ◌≤◌, ltb, cond, length};
ghost use Rattle.kinds.specs.Types.{size_of, is_unsigned, is_signed, half};
ghost use Rattle.value.specs.Bits.{with_sign};
ghost use Rattle.entry.specs.Wanted.{wanted_of};
ghost use Rattle.entry.specs.Bits.{signed_within, signed_bits, bits_of};
ghost use Rattle.entry.specs.Code.{wanted_bits, Taking};

use rows::FieldRow;

// W2: a kind, 0 to 4, and 64 bits; numbers, since C gives them so.
#[derive(Clone, Copy)]
pub struct Entry {
    pub kind: u8,
    pub bits: u64,
}

// Whether x is a number of a type without sign.
#[tactic(auto, unfolding(kinds::specs::Types::size_of))]
fn unsigned_ok(kind: u8, x: u64) -> bool
    ensures { result ≡ (is_unsigned kind && ltb x (256 ^ size_of kind)) }
{
    match kind {
        1 => x < 0x100,
        2 => x < 0x1_0000,
        3 => x < 0x1_0000_0000,
        4 => true,
        _ => false,
    }
}

// The bits of x, a number with sign in 64 bits, where `half` is the first number too large and `ones` the last that the bits make.
#[tactic(auto, unfolding(value::specs::Bits::with_sign))]
fn signed_within(x: u64, half: u64, ones: u64) -> Option<u64>
    requires { half ≤ ones }
    ensures { result ≡ signed_within half (ones + 1) (with_sign (2 ^ 63) x) }
{
    if x < 0x8000_0000_0000_0000 {
        return (x < half).then_some(x);
    }
    let n = 0xffff_ffff_ffff_ffff - x;
    if n < half {
        return Some(ones - n);
    }
    None
}

// The same by a type with sign; no other type has such bits.
#[tactic(auto, unfolding(kinds::specs::Types::size_of))]
fn signed_bits(kind: u8, x: u64) -> Option<u64>
    ensures { result ≡ cond (is_signed kind) (signed_bits (size_of kind) (with_sign (half 8) x)) None }
{
    match kind {
        5 => signed_within(x, 0x80, 0xff),
        6 => signed_within(x, 0x8000, 0xffff),
        7 => signed_within(x, 0x8000_0000, 0xffff_ffff),
        8 => signed_within(x, 0x8000_0000_0000_0000, 0xffff_ffff_ffff_ffff),
        _ => None,
    }
}

// The bits of a type that read as the entry; an unset one reads as none.
#[tactic(auto, unfolding(crate::specs::Wanted::wanted_of, crate::specs::Bits::bits_for))]
fn bits_for(kind: u8, e: Entry) -> Option<u64>
    ensures { result ≡ wanted_bits kind (wanted_of e.kind e.bits) }
{
    let x = e.bits;
    match e.kind {
        1 => unsigned_ok(kind, x).then_some(x),
        2 => signed_bits(kind, x),
        3 => (kind == 9 && x < 0x1_0000_0000).then_some(x),
        4 => (kind == 10).then_some(x),
        _ => None,
    }
}

// The bits that a carried field is written with.
#[tactic(auto, unfolding(crate::specs::Wanted::wanted_of, crate::specs::Bits::bits_of, crate::specs::Bits::bits_for))]
pub fn bits_of(f: FieldRow, e: Entry) -> Option<u64>
    ensures { result ≡ bits_of f (wanted_of e.kind e.bits) }
{
    if e.kind == 0 {
        return kinds::unset_bits(f.mark, f.kind);
    }
    let x = bits_for(f.kind, e)?;
    let marked = kinds::is_do_not_use(f.mark, f.kind, x);
    (!marked).then_some(x)
}

// A value of a list, and where the next one stands.
#[derive(Clone, Copy)]
pub struct Taken {
    pub entry: Entry,
    pub next: usize,
}

// W3: the value at p; unset where the list has ended there.
pub fn take(kinds: &[u8], bits: &[u64], p: usize) -> Taken
    requires { p ≤ length kinds.now }
    ensures { Taking kinds.now bits.now p result }
{
    match kinds.get(p) {
        Some(&kind) if kind != 255 => Taken {
            entry: Entry {
                kind,
                bits: bits.get(p).copied().unwrap_or(0),
            },
            next: p + 1,
        },
        _ => Taken {
            entry: Entry { kind: 0, bits: 0 },
            next: p,
        },
    }
}
