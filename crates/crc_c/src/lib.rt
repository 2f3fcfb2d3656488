// The CRC for C, exported: the function of that name in `crc`, with its clause.
#![tactic(auto)]

ghost use Rattle.std.specs.Prelude.{◌≡◌};
ghost use Rattle.crc.specs.Crc.{crc_of};

// The CRC of the bytes of `s`.
#[unsafe(no_mangle)]
pub extern "C" fn alderflute_crc(s: &[u8]) -> u16
    ensures { result ≡ crc_of s.now }
{
    crc::alderflute_crc(s)
}
