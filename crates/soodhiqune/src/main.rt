// The program: plays the script on standard input. It reads, calls and writes; every byte written to standard output comes from
// `playing::play`. Where it cannot read or write it says so on standard error, and where it cannot read it prints nothing; `./play` makes a
// status of that.
#![tactic(auto)]

ghost use Rattle.std.specs.Prelude.{◌≤◌, IfOk, length};

use std::io;
use std::io::{Read, Write};

// As many bytes as the reader gives and the buffer takes: fewer than the buffer takes only where the reader is at its end.
fn read_full<R: Read>(reader: &mut R, buf: &mut [u8]) -> io::Result<usize>
    ensures { IfOk result (λ n. n ≤ length buf.new) }
{
    let mut n = 0;
    // a reader gives as many bytes at a time as it likes, so no range is known beforehand
    while n < buf.len() {
        let more = reader.read(&mut buf[n..])?;
        if more == 0 {
            break;
        }
        n += more;
    }
    Ok(n)
}

// The bytes of the script that the reader gives, played. It answers whether there was a script to read.
fn play(rt: HostRuntime) -> io::Result<bool> {
    // one byte more than a script may have, enough to see that it is too long
    let mut script = [0u8; 16385];
    let n = match read_full(&mut rt.stdin(), &mut script) {
        Ok(n) => n,
        Err(_) => {
            return Ok(false);
        }
    };
    let mut out = [0u8; 49152];
    let m = playing::play(&script[..n], &mut out);
    rt.stdout().write_all(&out[..m])?;
    Ok(true)
}

// Nothing depends on its being heard: standard error may be closed.
fn say(rt: HostRuntime, what: &[u8]) {
    let _said = rt.stderr().write_all(what).is_ok();
}

fn main(rt: HostRuntime) {
    match play(rt) {
        Ok(true) => (),
        Ok(false) => say(rt, b"soodhiqune: the script could not be read\n"),
        Err(_) => say(rt, b"soodhiqune: the output could not be written\n"),
    }
}
