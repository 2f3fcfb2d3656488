// The rules on file and trailer (T1, T3 to T6).
ghost use Rattle.std.specs.Prelude.{◌≡◌, ◌≤◌, length};
ghost use Rattle.table.specs.Rules.{closing_ok, file_ok};

// T6: the closing bytes, as a byte string (D7).
fn closes(t: &[u8]) -> bool
    requires { 2 ≤ length t.now }
    ensures { result ≡ closing_ok t.now }
{
    t.ends_with(b"BT")
}

pub fn file_ok(t: &[u8]) -> bool
    ensures { result ≡ file_ok t.now }
{
    let n = t.len();
    if n < 20 {
        return false;
    }
    let r = rows::block_count(t);
    let back = 12 + 8 * r;
    if n < back {
        return false;
    }
    let fields = rows::field_count(t, n - back);
    let to_blocks = usize::from(wire::u2(t, n - 8));
    let to_fields = usize::from(wire::u2(t, n - 6));
    let sum = wire::u2(t, n - 4);
    let m = n - 4;
    let crc = crc::crc_of(&t[..m]);
    let mark = closes(t);
    let sizes = (n <= 8192) & (4 * fields + back == n);
    sizes & (1 <= r) & (to_blocks == back) & (to_fields == n) & (sum == crc) & mark
}
