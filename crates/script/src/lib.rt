// A script's lines: each is read as a call. Its first word says which, and the words behind it are read as that call asks. Words are
// matched by their keys (`words::keys_hold`).
#![tactic(auto)]

ghost use Rattle.std.specs.Prelude.{◌≤◌, ◌≡◌, length, IfSome};

#[derive(Clone, Copy)]
pub enum Buffer {
    Hold,
    InForce,
    Waiting,
    Out,
}

// A number of the state, as `poke` names it.
#[derive(Clone, Copy)]
pub enum StateNumber {
    Phase,
    InForce,
    Waiting,
    Held,
    Standing,
    Taken,
    Blocks,
    Skipped,
    Ceiling,
}

// The calls after which the CRCs of the buffers are printed. A line may have a ceiling behind `open`, or none.
#[derive(Clone, Copy)]
pub enum RunCall {
    Open(Option<u64>),
    Feed,
    Finish,
    Stage,
    Withdraw,
}

// The calls that are lent nothing to write.
#[derive(Clone, Copy)]
pub enum Ask {
    Bytes,
    Body(u64),
    Sub(u64, u64),
    SubBytes(u64),
    Sub2(u64, u64, u64),
    Range(u64),
    Range2(u64, u64),
    Tow,
    Wnc,
}

// What a line asks for. `Pass` is an empty line or a comment, `Bad` no call at all. What `Write` is given is read by itself (crate
// `lists`), and where that cannot be read the line is bad.
#[derive(Clone, Copy)]
pub enum LineCall {
    Pass,
    Bad,
    Run(RunCall),
    Ask(Ask),
    Write,
    Poke(StateNumber, u64),
    Put(Buffer, u64),
    Size(Buffer, u64),
}

// A call, how many bytes it is given, and where the text behind its first word begins.
#[derive(Clone, Copy)]
pub struct Asked {
    pub call: LineCall,
    pub count: usize,
    pub behind: usize,
}

// A word of a line: its key, and where the text behind its space begins. `leads` is its value where it is a number with more behind it,
// `ends` where it is one and the line ends with it.
#[derive(Clone, Copy)]
struct Word {
    key: u64,
    next: usize,
    is_last: bool,
    leads: Option<u64>,
    ends: Option<u64>,
}

// Behind the space at the end of a word, or the end of the line.
fn behind(end: usize, length: usize) -> usize
    requires { end ≤ length }
    ensures { (end ≤ result) × (result ≤ length) }
{
    if end < length { end + 1 } else { length }
}

fn word_at(line: &[u8], from: usize) -> Word
    requires { from ≤ length line.now }
    ensures { (from ≤ result.next) × (result.next ≤ length line.now) }
{
    let text = &line[from..];
    let e = words::word_end(text);
    let word = &text[..e];
    let number = words::number(word);
    let is_last = e == text.len();
    Word {
        key: words::key(word),
        next: behind(from + e, line.len()),
        is_last,
        leads: if is_last { None } else { number },
        ends: if is_last { number } else { None },
    }
}

fn buffer_of(key: u64) -> Option<Buffer> {
    match key {
        0x686f6c64 => Some(Buffer::Hold), // hold
        0x666f726365 => Some(Buffer::InForce), // force
        0x77616974696e67 => Some(Buffer::Waiting), // waiting
        0x6f7574 => Some(Buffer::Out), // out
        _ => None,
    }
}

// Bytes are put into the reader's buffers, and not into the one that Write writes.
fn buffer_to_put(key: u64) -> Option<Buffer> {
    match buffer_of(key)? {
        Buffer::Out => None,
        buffer => Some(buffer),
    }
}

fn number_named(key: u64) -> Option<StateNumber> {
    match key {
        0x7068617365 => Some(StateNumber::Phase), // phase
        0x666f726365 => Some(StateNumber::InForce), // force
        0x7761697473 => Some(StateNumber::Waiting), // waits
        0x68656c64 => Some(StateNumber::Held), // held
        0x7374616e6473 => Some(StateNumber::Standing), // stands
        0x74616b656e => Some(StateNumber::Taken), // taken
        0x626c6f636b73 => Some(StateNumber::Blocks), // blocks
        0x736b6970706564 => Some(StateNumber::Skipped), // skipped
        0x6365696c696e67 => Some(StateNumber::Ceiling), // ceiling
        _ => None,
    }
}

// A phase is 0, 1 or 2.
fn poke_of(key: u64, v: u64) -> Option<LineCall> {
    match number_named(key)? {
        StateNumber::Phase if 2 < v => None,
        part => Some(LineCall::Poke(part, v)),
    }
}

// `open` alone on its line, or with a number behind it.
fn open_of(first: Word, second: Word) -> Option<RunCall> {
    if first.is_last {
        return Some(RunCall::Open(None));
    }
    Some(RunCall::Open(Some(second.ends?)))
}

// A call that is lent nothing to write, and where the bytes that it is given begin: `body FIELD HEX`, `sub SUBBLOCK FIELD HEX`,
// `subbytes SUBBLOCK HEX`, `sub2 SUBBLOCK NESTED FIELD HEX`, `range SUBBLOCK HEX`, `range2 SUBBLOCK NESTED HEX`.
fn ask_of(first: Word, second: Word, third: Word, fourth: Word) -> Option<(Ask, Option<usize>)>
    requires { (first.next ≤ second.next) × (second.next ≤ third.next) × (third.next ≤ fourth.next) }
    ensures { IfSome result (λ a. IfSome a.1 (λ from. from ≤ fourth.next)) }
{
    let n = second.leads;
    let m = third.leads;
    match first.key {
        0x6279746573 if first.is_last => Some((Ask::Bytes, None)), // bytes
        0x746f77 if !first.is_last => Some((Ask::Tow, Some(first.next))), // tow
        0x776e63 if !first.is_last => Some((Ask::Wnc, Some(first.next))), // wnc
        0x626f6479 => Some((Ask::Body(n?), Some(second.next))), // body
        0x7375626279746573 => Some((Ask::SubBytes(n?), Some(second.next))), // subbytes
        0x737562 => Some((Ask::Sub(n?, m?), Some(third.next))), // sub
        0x73756232 => Some((Ask::Sub2(n?, m?, fourth.leads?), Some(fourth.next))), // sub2
        0x72616e6765 => Some((Ask::Range(n?), Some(second.next))), // range
        0x72616e676532 => Some((Ask::Range2(n?, m?), Some(third.next))), // range2
        _ => None,
    }
}

// A call as far as it is read without its bytes, and where they begin; none where it is given none.
#[derive(Clone, Copy)]
struct Head {
    call: LineCall,
    bytes: Option<usize>,
}

// A call by its first word, with the three words behind it as that call asks: `open [CEILING]`, `poke NAME VALUE`,
// `put hold|force|waiting OFFSET HEX`, `size hold|force|waiting|out N`.
fn begun(first: Word, second: Word, third: Word, fourth: Word) -> Option<Head>
    requires { (first.next ≤ second.next) × (second.next ≤ third.next) × (third.next ≤ fourth.next) }
    ensures { IfSome result (λ h. IfSome h.bytes (λ from. from ≤ fourth.next)) }
{
    let alone = first.is_last;
    let (call, bytes) = match first.key {
        0x6f70656e => (LineCall::Run(open_of(first, second)?), None), // open
        0x66696e697368 if alone => (LineCall::Run(RunCall::Finish), None), // finish
        0x7769746864726177 if alone => (LineCall::Run(RunCall::Withdraw), None), // withdraw
        0x66656564 if !alone => (LineCall::Run(RunCall::Feed), Some(first.next)), // feed
        0x7374616765 if !alone => (LineCall::Run(RunCall::Stage), Some(first.next)), // stage
        0x7772697465 if !alone => (LineCall::Write, None), // write
        0x706f6b65 => (poke_of(second.key, third.ends?)?, None), // poke
        // put
        0x707574 => (
            LineCall::Put(buffer_to_put(second.key)?, third.leads?),
            Some(third.next),
        ),
        0x73697a65 => (LineCall::Size(buffer_of(second.key)?, third.ends?), None), // size
        _ => {
            let (ask, bytes) = ask_of(first, second, third, fourth)?;
            (LineCall::Ask(ask), bytes)
        }
    };
    Some(Head { call, bytes })
}

// A call that is given no bytes.
fn bare(call: LineCall, behind: usize) -> Asked
    ensures { (result.count ≤ 135000) × (result.behind ≡ behind) }
{
    Asked {
        call,
        count: 0,
        behind,
    }
}

// A line without its line feed; the bytes that the call is given go to the start of `given`.
pub fn read(line: &[u8], given: &mut [u8; 135000]) -> Asked
    requires { length line.now ≤ 270000 }
    ensures { (result.count ≤ 135000) × (result.behind ≤ length line.now) }
{
    if matches!(line, [] | [b'#', ..]) {
        return bare(LineCall::Pass, 0);
    }
    let first = word_at(line, 0);
    let second = word_at(line, first.next);
    let third = word_at(line, second.next);
    let fourth = word_at(line, third.next);
    let behind = first.next;
    let Some(head) = begun(first, second, third, fourth) else {
        return bare(LineCall::Bad, behind);
    };
    let Some(from) = head.bytes else {
        return bare(head.call, behind);
    };
    match words::bytes(&line[from..], given) {
        Some(count) => Asked {
            call: head.call,
            count,
            behind,
        },
        None => bare(LineCall::Bad, behind),
    }
}
