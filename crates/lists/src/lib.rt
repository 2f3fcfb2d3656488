// A line of `write` behind its first word, read as what Write is given: a head, and the lists of kinds and bits (rules W1, W3).
#![tactic(auto)]

ghost use Rattle.std.specs.Prelude.{◌+◌, ◌*◌, ◌≤◌, ◌≡◌, [], ◌∷◌, length, take, option_map, unwrap_or, IfSome};
ghost use Rattle.lists.specs.Line.{words_of, lists_in, head_by, line_in};

use draft::Head;
use entry::Entry;

// A line that is one: its head, and how many kinds and bits it has.
#[derive(Clone, Copy)]
pub struct LineRead {
    pub head: Head,
    pub count: usize,
}

// The first word of a text, and what stands behind its space; none where the text ends with the word.
fn cut(text: &[u8]) -> (&[u8], Option<&[u8]>)
    ensures within { length result.0.now ≤ length text.now }
    ensures words { words_of text.now ≡ result.0.now ∷ unwrap_or (option_map (λ rest. words_of rest.now) result.1) [] }
    ensures rest { IfSome result.1 (λ rest. length text.now ≡ length result.0.now + length rest.now + 1) }
{
    let end = words::word_end(text);
    (&text[..end], text.get(end + 1..))
}

fn head_of(
    number: Option<u64>,
    revision: Option<u64>,
    tow: Option<(u8, u64)>,
    wnc: Option<(u8, u64)>,
) -> Option<Head>
    ensures { result ≡ head_by number revision tow wnc }
{
    let number = number?;
    let revision = revision?;
    let (kind, bits) = tow?;
    let tow = Entry { kind, bits };
    let (kind, bits) = wnc?;
    let wnc = Entry { kind, bits };
    Some(Head {
        number,
        revision,
        tow,
        wnc,
    })
}

// The words of a text as values: how many. Each has a byte at least, and a space before it but for the first, so all have room.
fn lists(text: &[u8], kinds: &mut [u8], bits: &mut [u64]) -> Option<usize>
    requires { (length text.now ≤ 2 * length kinds.old) × (length kinds.old ≡ length bits.old) }
    ensures bits_after { option_map (λ n. (take n kinds.new, take n bits.new)) result ≡ lists_in (words_of text.now) }
    ensures count_in_bounds { IfSome result (λ n. n ≤ length kinds.old) }
{
    let mut count: usize = 0;
    let mut left = text;
    loop {
        let (word, rest) = cut(left);
        let (kind, value) = words::value(word)?;
        kinds[count] = kind;
        bits[count] = value;
        count += 1;
        let Some(more) = rest else {
            return Some(count);
        };
        left = more;
    }
}

// A line without its line feed and without the word `write`; kinds and bits go to the start of their buffers.
pub fn read(text: &[u8], kinds: &mut [u8; 135000], bits: &mut [u64; 135000]) -> Option<LineRead>
    requires { length text.now ≤ 270000 }
    ensures bits_after { option_map (λ l. (l.head, (take l.count kinds.new, take l.count bits.new))) result ≡ line_in text.now }
    ensures count_bound { IfSome result (λ l. l.count ≤ 135000) }
{
    let (number, rest) = cut(text);
    let (revision, rest) = cut(rest?);
    let (tow, rest) = cut(rest?);
    let (wnc, rest) = cut(rest?);
    let head = head_of(
        words::number(number),
        words::number(revision),
        words::stamp(tow),
        words::stamp(wnc),
    )?;
    let count = match rest {
        Some(values) => lists(values, kinds, bits)?,
        None => 0,
    };
    Some(LineRead { head, count })
}
