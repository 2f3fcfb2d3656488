// A field's answer as C has it, from the record reader's. Floats go over as their bits, so that a NaN keeps its own.
ghost use Rattle.std.specs.Prelude.{◌≡◌, T};
ghost use Rattle.value.specs.Said.{no_nan};
ghost use Rattle.record.specs.Answer.{value_says, answer_says, no_nan_in};
ghost use Rattle.cform.specs.Answer.{tell, field_c};

use crate::CField;
use record::Answer;
use value::Value;

fn tell_c(refusal: u32, kind: u32, number: u64, signed: i64, bits: u64) -> CField
    ensures { result ≡ tell refusal kind number signed bits }
{
    CField {
        refusal,
        kind,
        number,
        signed,
        bits,
    }
}

fn value_c(v: Value) -> CField
    requires { T (no_nan v) }
    ensures { result ≡ field_c (value_says v) }
{
    match v {
        Value::Unsigned(n) => tell_c(0, 1, n, 0, 0),
        Value::Signed(z) => tell_c(0, 2, 0, z, 0),
        Value::Single(f) => tell_c(0, 3, 0, 0, u64::from(value::single_bits(f))),
        Value::Double(f) => tell_c(0, 4, 0, 0, value::double_bits(f)),
        Value::SingleNan(b) => tell_c(0, 3, 0, 0, u64::from(b)),
        Value::DoubleNan(b) => tell_c(0, 4, 0, 0, b),
        Value::DoNotUse => tell_c(0, 5, 0, 0, 0),
        Value::NotInRevision => tell_c(0, 6, 0, 0, 0),
    }
}

// Of an answer that the record reader gave: a float in it is no NaN.
pub fn field_c(a: Answer) -> CField
    requires { T (no_nan_in a) }
    ensures { result ≡ field_c (answer_says a) }
{
    match a {
        Ok(v) => value_c(v),
        Err(why) => tell_c(u32::from(why), 0, 0, 0, 0),
    }
}
