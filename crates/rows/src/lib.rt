// A table's trailer and rows by value (rules T1, T2, T7, T11): with the table's rules on its trailer, the code that knows where
// in a table's bytes a thing stands.
#![tactic(auto)]

ghost use Rattle.std.specs.Prelude.{◌≡◌, ◌+◌, ◌*◌, ◌≤◌, ◌<◌, length};
ghost use Rattle.rows.specs.Places.{version_of, block_count, blocks_at, field_count, field_of, row_at};

// T11: `kind` is the type, `first` the first revision.
#[derive(Clone, Copy)]
pub struct FieldRow {
    pub offset: usize,
    pub kind: u8,
    pub first: u8,
    pub mark: u8,
}

// V8: TOW and WNc, which every block has at 8 and at 12, by the rows that they would have: a u4 and a u2, with mark 1.
pub const TOW: FieldRow = FieldRow {
    offset: 8,
    kind: 3,
    first: 0,
    mark: 1,
};

pub const WNC: FieldRow = FieldRow {
    offset: 12,
    kind: 2,
    first: 0,
    mark: 1,
};

// T7, a block row as it stands: `bodies` and `subs` are its counts of body rows and of sub-field rows, `start` is the index of
// its first field row, `firsts` the count of first-level rows among the sub-field rows (T17).
#[derive(Clone, Copy)]
pub struct Row {
    pub number: u16,
    pub highest: u8,
    pub bodies: usize,
    pub start: usize,
    pub subs: usize,
    pub firsts: usize,
}

pub fn version(t: &[u8]) -> u16
    requires { 12 ≤ length t.now }
    ensures { result ≡ version_of t.now }
{
    wire::u2(t, t.len() - 12)
}

// R, the count of block rows.
pub fn block_count(t: &[u8]) -> usize
    requires { 12 ≤ length t.now }
    ensures { (result ≡ block_count t.now) × (result < 65536) }
{
    usize::from(wire::u2(t, t.len() - 10))
}

// Where the block rows begin, which is where the field rows end.
pub fn blocks_at(t: &[u8]) -> usize
    requires { 12 + 8 * block_count t.now ≤ length t.now }
    ensures { result ≡ blocks_at t.now }
{
    t.len() - (12 + 8 * block_count(t))
}

// How many field rows there are, by where they end.
pub fn field_count(t: &[u8], at: usize) -> usize
    requires { at ≡ blocks_at t.now }
    ensures { result ≡ field_count t.now }
{
    at / 4
}

// T11: the bytes of a field row. What holds rows names them so: wider rows then change no caller.
pub type FieldBytes = [u8; 4];

// T11: a field row, from its bytes.
pub fn field(bytes: &FieldBytes) -> FieldRow
    ensures { (result ≡ field_of bytes.now) × (result.offset < 65536) }
{
    let [offset, kind, first, mark] = *bytes;
    FieldRow {
        offset: usize::from(offset),
        kind,
        first,
        mark,
    }
}

// Block row i, by where the block rows begin.
pub fn row_at(t: &[u8], at: usize, i: usize) -> Row
    requires { (at ≡ blocks_at t.now) × (at + 8 * i + 8 ≤ length t.now) }
    ensures { (result ≡ row_at t.now i) × (result.bodies < 256) × (result.start < 65536) × (result.subs < 256) × (result.firsts < 256) }
{
    let p = at + 8 * i;
    Row {
        number: wire::u2(t, p),
        highest: t[p + 2],
        bodies: usize::from(t[p + 3]),
        start: usize::from(wire::u2(t, p + 4)),
        subs: usize::from(t[p + 6]),
        firsts: usize::from(t[p + 7]),
    }
}
