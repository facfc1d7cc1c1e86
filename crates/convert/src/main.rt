// convert: a sheet of 01's layout or of the present one on standard input, the same sheet by the other on standard
// output. It takes the first 65,536 bytes and reads no further. A refusal goes to standard error, with status 1.
#![tactic(auto)]

use refusal::Refusal;
use std::io;
use std::process::ExitCode;

fn tell(rt: &impl Eprint, r: Refusal) -> io::Result<()> {
    let number = r.row.number();
    let second = r.second;
    eprintln!(rt; "(refused {number} {second})")
}

fn main(rt: HostRuntime) -> io::Result<ExitCode> {
    let mut sheet = [0u8; 65536];
    let n = input::read_full(&mut rt.stdin(), &mut sheet)?;
    let mut out = [0u8; 20500];
    match converting::either::convert(&sheet[..n], &mut out) {
        Ok(n) => {
            rt.write_all(&out[..n])?;
            Ok(ExitCode::SUCCESS)
        }
        Err(r) => {
            tell(&rt, r)?;
            Ok(ExitCode::FAILURE)
        }
    }
}
