// The words of a line: where one ends, its key, decimal numbers, the values of a `write`, bytes in hex; and the keys of a script's
// words.
#![tactic(auto)]

ghost use Rattle.std.specs.Prelude.{◌+◌, ◌≤◌, ◌≡◌, ◌<◌, length, take, option_map, IfSome, MatchOption};
ghost use Rattle.std.specs.Counts.{IsPrefixLen};
ghost use Rattle.words.specs.Words.{up_to, key_of, add_digit, decimal_in, hex_digit, bytes_from, bytes_in};
ghost use Rattle.words.specs.Values.{from_zero, below_zero, signed_number_in, of_kind, letter_is, lone_is, value_in, stamp_in};
ghost use Rattle.words.specs.Keys.{KeysHold};
ghost use Rattle.words.specs.Theorems.{KeysApart};

// Where the word at the front of a text ends: at its first space, or with it.
pub fn word_end(text: &[u8]) -> usize
    ensures value { result ≡ up_to 32 text.now }
    ensures prefix_len { IsPrefixLen result text.now }
{
    text.iter().position(|c| *c == b' ').unwrap_or(text.len())
}

// A word as one number, so that words are told apart by one `match`; 0 for a word that has no key.
#[tactic(auto, unfolding(crate::specs::Words::key_of))]
pub fn key(word: &[u8]) -> u64
    ensures { result ≡ key_of word.now }
{
    if 8 < word.len() {
        return 0;
    }
    let mut k: u64 = 0;
    for c in word {
        if *c == 0 {
            return 0;
        }
        k = k * 256 + u64::from(*c);
    }
    k
}

// No two words have the same key, and the words that have one are those of one to eight bytes, none of them zero.
pub fn keys_apart()
    ensures { KeysApart }
{}

// The keys of a script's words. `script` matches on these numbers, which no proof says.
pub fn keys_hold()
    ensures { KeysHold }
{}

// A number with one more digit, where that is a digit and the number still fits 64 bits.
#[tactic(auto, unfolding(crate::specs::Words::add_digit))]
fn add_digit(v: u64, c: u8) -> Option<u64>
    ensures { result ≡ add_digit v c }
{
    match c {
        b'0'..=b'9' => v.checked_mul(10)?.checked_add(u64::from(c - b'0')),
        _ => None,
    }
}

// A word as a decimal number.
pub fn number(word: &[u8]) -> Option<u64>
    ensures { result ≡ decimal_in word.now }
{
    if word.is_empty() {
        return None;
    }
    let mut v: u64 = 0;
    for c in word {
        v = add_digit(v, *c)?;
    }
    Some(v)
}

// A number without a minus, as 64 bits with sign.
fn from_zero(d: Option<u64>) -> Option<u64>
    ensures { result ≡ from_zero d }
{
    let n = d?;
    if n < 0x8000_0000_0000_0000 {
        return Some(n);
    }
    None
}

// A number behind a minus, as 64 bits with sign.
fn below_zero(d: Option<u64>) -> Option<u64>
    ensures { result ≡ below_zero d }
{
    let n = d?;
    if n <= 0x8000_0000_0000_0000 {
        return Some(n.wrapping_neg());
    }
    None
}

// A word as a decimal number with sign, as 64 bits.
fn signed_number(word: &[u8]) -> Option<u64>
    ensures { result ≡ signed_number_in word.now }
{
    match word {
        [] => None,
        [b'-', digits @ ..] => below_zero(number(digits)),
        _ => from_zero(number(word)),
    }
}

fn of_kind(kind: u8, d: Option<u64>) -> Option<(u8, u64)>
    ensures { result ≡ of_kind kind d }
{
    Some((kind, d?))
}

// A word of one byte.
#[tactic(auto, unfolding(crate::specs::Values::lone_is))]
fn lone(c: u8) -> Option<(u8, u64)>
    ensures { result ≡ lone_is c }
{
    match c {
        b'-' => Some((0, 0)),
        b'/' => Some((255, 0)),
        _ => None,
    }
}

// A letter, and the word behind it.
#[tactic(auto, unfolding(crate::specs::Values::letter_is))]
fn lettered(c: u8, word: &[u8]) -> Option<(u8, u64)>
    ensures { result ≡ letter_is c word.now }
{
    match c {
        b'u' => of_kind(1, number(word)),
        b'i' => of_kind(2, signed_number(word)),
        b'f' => of_kind(3, number(word)),
        b'd' => of_kind(4, number(word)),
        _ => None,
    }
}

// A word as a value, its kind and its bits (rules W2, W3), or as the sign that a sub-block begins.
pub fn value(word: &[u8]) -> Option<(u8, u64)>
    ensures { result ≡ value_in word.now }
{
    match word {
        [] => None,
        [c] => lone(*c),
        [c, rest @ ..] => lettered(*c, rest),
    }
}

// A word as TOW or WNc.
pub fn stamp(word: &[u8]) -> Option<(u8, u64)>
    ensures { result ≡ stamp_in word.now }
{
    match word {
        b"-" => Some((0, 0)),
        _ => of_kind(1, number(word)),
    }
}

// The value of a hex digit in either case.
#[tactic(auto, unfolding(crate::specs::Words::hex_digit))]
fn hex_digit(c: u8) -> Option<u8>
    ensures { MatchOption result (hex_digit c ≡ 16) (λ d. (d ≡ hex_digit c) × (d < 16)) }
{
    match c {
        b'0'..=b'9' => Some(c - b'0'),
        b'A'..=b'F' => Some(c - b'A' + 10),
        b'a'..=b'f' => Some(c - b'a' + 10),
        _ => None,
    }
}

// Pairs of hex digits, as bytes at the start of `given`: how many.
fn hex_pairs(word: &[u8], given: &mut [u8]) -> Option<usize>
    requires { length word.now ≤ length given.old + length given.old }
    ensures given_after { option_map (λ n. take n given.new) result ≡ bytes_from word.now }
    ensures count_in_bounds { IfSome result (λ n. n ≤ length given.old) }
{
    let count = word.len() / 2;
    for i in 0..count {
        let high = hex_digit(word[2 * i])?;
        let low = hex_digit(word[2 * i + 1])?;
        given[i] = high * 16 + low;
    }
    if word.len() % 2 == 0 {
        return Some(count);
    }
    None
}

// A word as bytes: `-` for none, else hex. How many they are.
pub fn bytes(word: &[u8], given: &mut [u8; 135000]) -> Option<usize>
    requires { length word.now ≤ 270000 }
    ensures given_after { option_map (λ n. take n given.new) result ≡ bytes_in word.now }
    ensures count_bound { IfSome result (λ n. n ≤ 135000) }
{
    match word {
        [] => None,
        b"-" => Some(0),
        _ => hex_pairs(word, given),
    }
}
