// Reads a reading set from standard input, and prints Fisher's analysis of it, or its refusal.
#![tactic(auto)]

ghost use Rattle.std.specs.Prelude.{◌≤◌, length};

mod answers;

use std::io;
use std::io::{Read, Write};

// A `while`: how much a read brings is not known before it.
// Reads until `buf` is full or the input ends, and returns how many bytes stand at the front of `buf`. A read that fails counts as the end.
fn read_full<R: Read>(input: &mut R, buf: &mut [u8]) -> usize
    ensures { result ≤ length buf.new }
{
    let mut done = 0;
    while done < buf.len() {
        match input.read(&mut buf[done..]) {
            Ok(n) if n > 0 => done += n,
            _ => break,
        }
    }
    done
}

fn main(rt: HostRuntime) -> io::Result<()> {
    let mut set = [0u8; answers::TOO_LONG];
    let n = read_full(&mut rt.stdin(), &mut set);
    let mut out = [0u8; answers::ROOM];
    let len = answers::answer(&set[..n], &mut out);
    rt.stdout().write_all(&out[..len])
}
