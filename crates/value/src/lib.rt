// What the bits of a field mean, by its type and mark: the value of a field row in the bytes it is read from.
#![tactic(auto)]

ghost use Rattle.std.specs.Prelude.{◌≡◌, not, ◌+◌, ◌^◌, ◌≤◌, ◌<◌, T, length};
ghost use Rattle.std.specs.Float.{binary32, binary64};
ghost use Rattle.std.specs.Float.Ieee.{is_nan, to_bits};
ghost use Rattle.wire.specs.Little.{little_at};
ghost use Rattle.kinds.specs.Types.{size_of};
ghost use Rattle.value.specs.Said.{single, double, Means};
ghost use Rattle.value.specs.Bits.{with_sign, read_as, field_value};

use rows::FieldRow;

// What a field answers. A NaN is carried as its bits: no float can be made of them.
#[derive(Clone, Copy)]
pub enum Value {
    Unsigned(u64),
    Signed(i64),
    Single(f32),
    Double(f64),
    SingleNan(u32),
    DoubleNan(u64),
    DoNotUse,
    NotInRevision,
}

// x with a sign, where `half` is the first number that is negative.
fn signed(x: u64, half: u64) -> i64
    requires { (x < half + half) × (half ≤ 2 ^ 63) }
    ensures { result ≡ with_sign half x }
{
    if x < half {
        x as i64
    } else {
        let n = (half - 1) - (x - half);
        -1 - (n as i64)
    }
}

// The bits of an f4; those of an f8 have a function of their own, for no trait makes a float of either width.
fn single_of(x: u64) -> Value
    requires { x < 256 ^ 4 }
    ensures { Means result (single x) }
{
    let b = x as u32;
    if 0x7f80_0000 < b % 0x8000_0000 {
        Value::SingleNan(b)
    } else {
        Value::Single(f32::from_bits(b))
    }
}

// The bits of an f8.
fn double_of(x: u64) -> Value
    ensures { Means result (double x) }
{
    if 0x7ff0_0000_0000_0000 < x % 0x8000_0000_0000_0000 {
        Value::DoubleNan(x)
    } else {
        Value::Double(f64::from_bits(x))
    }
}

// The bits of a float that is no NaN.
pub fn single_bits(x: f32) -> u32
    requires { T (not (is_nan x)) }
    ensures { result ≡ to_bits binary32 x }
{
    f32::to_bits(x)
}

pub fn double_bits(x: f64) -> u64
    requires { T (not (is_nan x)) }
    ensures { result ≡ to_bits binary64 x }
{
    f64::to_bits(x)
}

// The bits of a type.
fn read_as(kind: u8, x: u64) -> Value
    requires { x < 256 ^ size_of kind }
    ensures { Means result (read_as kind x) }
{
    match kind {
        5 => Value::Signed(signed(x, 0x80)),
        6 => Value::Signed(signed(x, 0x8000)),
        7 => Value::Signed(signed(x, 0x8000_0000)),
        8 => Value::Signed(signed(x, 0x8000_0000_0000_0000)),
        9 => single_of(x),
        10 => double_of(x),
        _ => Value::Unsigned(x),
    }
}

fn byte(s: &[u8], at: usize) -> u64
    requires { at < length s.now }
    ensures { (result ≡ little_at 1 s.now at) × (result < 256) }
{
    u64::from(s[at])
}

// The bits of a field of the type.
fn bits_at(s: &[u8], at: usize, kind: u8) -> u64
    requires { at + size_of kind ≤ length s.now }
    ensures { (result ≡ little_at (size_of kind) s.now at) × (result < 256 ^ size_of kind) }
{
    match kinds::size(kind) {
        1 => byte(s, at),
        2 => u64::from(wire::u2(s, at)),
        4 => u64::from(wire::u4(s, at)),
        8 => wire::u8(s, at),
        _ => 0,
    }
}

// The field of a row that is carried: its offset counts from the start of these bytes.
pub fn read(s: &[u8], f: FieldRow) -> Value
    requires { f.offset + size_of f.kind ≤ length s.now }
    ensures { Means result (field_value s.now f) }
{
    let x = bits_at(s, f.offset, f.kind);
    if kinds::is_do_not_use(f.mark, f.kind, x) {
        return Value::DoNotUse;
    }
    read_as(f.kind, x)
}
