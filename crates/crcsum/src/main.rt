// Prints the CRC of standard input: four hexadecimal digits and a line end. Input that cannot be read to its end has none.
#![tactic(auto)]

use std::io;
use std::io::Read;

fn of_input(rt: &HostRuntime) -> io::Result<u16> {
    let mut buf = [0u8; 65536];
    let mut crc = 0;
    // A proved loop has to end, and nothing says that the input does.
    for _ in 0..u64::MAX {
        let n = rt.stdin().read(&mut buf)?;
        if n == 0 {
            break;
        }
        crc = crc::update(crc, &buf[..n], b"");
    }
    Ok(crc)
}

fn main(rt: HostRuntime) {
    match of_input(&rt) {
        Ok(crc) => {
            if println!(rt; "{crc:04x}").is_err() {
                let _ = eprintln!(rt; "crcsum: cannot write to standard output");
            }
        }
        Err(_) => {
            let _ = eprintln!(rt; "crcsum: cannot read standard input");
        }
    }
}
