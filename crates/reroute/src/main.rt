// reroute: a sheet on standard input, its listing on standard output. It takes the first 65,536 bytes and reads no
// further.
#![tactic(auto)]

use std::io;

fn main(rt: HostRuntime) -> io::Result<()> {
    let mut sheet = [0u8; 65536];
    let n = input::read_full(&mut rt.stdin(), &mut sheet)?;
    let mut work = [0u8; 8192];
    let mut out = [0u8; 7053];
    match ops::print::print(&sheet[..n], &mut work, &mut out) {
        Ok(n) => rt.write_all(&out[..n]),
        // both slices are long enough
        Err(_) => Ok(()),
    }
}
