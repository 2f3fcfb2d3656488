// Words and numbers put into a buffer for standard output, each behind what stands there.
#![tactic(auto)]

ghost use Rattle.std.specs.Prelude.{◌+◌, ◌≤◌, length, take, ◌≡◌, ◌++◌};
ghost use Rattle.text.specs.Numbers.{decimal, spaced, integer_text, crc_text};

// A word goes to the place `at`; answers the place behind it.
pub fn put(out: &mut [u8; 8192], at: usize, word: &[u8]) -> usize
    requires { at + length word.now ≤ 8192 }
    ensures value { result ≡ at + length word.now }
    ensures out_after { take result out.new ≡ take at out.old ++ word.now }
{
    let n = word.len();
    copy::copy_in(out, at, word, 0, n);
    at + n
}

// The first k digits go to the place `at`.
fn put_digits(out: &mut [u8; 8192], at: usize, digits: &[u8; 20], k: usize) -> usize
    requires { (at + 20 ≤ 8192) × (k ≤ length digits.now) }
    ensures upper_bound { result ≤ at + 20 }
    ensures out_after { take result out.new ≡ take at out.old ++ take k digits.now }
{
    copy::copy_in(out, at, digits, 0, k);
    at + k
}

// A number in decimal.
fn decimal_digits(out: &mut [u8; 8192], at: usize, n: u64) -> usize
    requires { at + 20 ≤ 8192 }
    ensures upper_bound { result ≤ at + 20 }
    ensures out_after { take result out.new ≡ take at out.old ++ decimal n }
{
    let mut digits = [0u8; 20];
    let k = io::decimal(n, &mut digits);
    put_digits(out, at, &digits, k)
}

// A space and a number in decimal.
pub fn number(out: &mut [u8; 8192], at: usize, n: u64) -> usize
    requires { at + 21 ≤ 8192 }
    ensures upper_bound { result ≤ at + 21 }
    ensures out_after { take result out.new ≡ take at out.old ++ spaced n }
{
    let from = put(out, at, b" ");
    decimal_digits(out, from, n)
}

// A word and a number.
pub fn word_number(out: &mut [u8; 8192], at: usize, word: &[u8], n: u64) -> usize
    requires { at + length word.now + 21 ≤ 8192 }
    ensures upper_bound { result ≤ at + length word.now + 21 }
    ensures out_after { take result out.new ≡ take at out.old ++ (word.now ++ spaced n) }
{
    let name = put(out, at, word);
    number(out, name, n)
}

// A space and a CRC: four hex digits, in lower case.
pub fn crc(out: &mut [u8; 8192], at: usize, n: u16) -> usize
    requires { at + 5 ≤ 8192 }
    ensures value { result ≡ at + 5 }
    ensures out_after { take result out.new ≡ take at out.old ++ crc_text n }
{
    let mut digits = [0u8; 16];
    let k = io::hex(u64::from(n), 4, &mut digits);
    let gap = put(out, at, b" ");
    put(out, gap, &digits[..k])
}

// A space and a number with a sign.
pub fn integer(out: &mut [u8; 8192], at: usize, z: i64) -> usize
    requires { at + 22 ≤ 8192 }
    ensures upper_bound { result ≤ at + 22 }
    ensures out_after { take result out.new ≡ take at out.old ++ integer_text z }
{
    let n = z.unsigned_abs();
    if z < 0 {
        let minus = put(out, at, b" -");
        return decimal_digits(out, minus, n);
    }
    number(out, at, n)
}
