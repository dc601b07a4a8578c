// The program (document 01, "The program"): reads standard input, and writes what `lines::run` makes of it to standard output. The largest input
// that it takes has 2,129 bytes, and what stands past the first 2,130 changes nothing (`first_bytes`), so one buffer of 4,096 is enough.
#![tactic(auto)]

ghost use Rattle.std.specs.Prelude.{◌≤◌, length};

use std::io;
use std::io::Read;

// Reads until the buffer is full, the input ends or a read fails, and answers how many bytes it has put at the front.
fn read_full(input: &mut impl Read, buffer: &mut [u8]) -> usize
    ensures { result ≤ length buffer.new }
{
    let mut done = 0;
    while done < buffer.len() {
        let n = input.read(&mut buffer[done..]).unwrap_or(0);
        if n == 0 {
            break;
        }
        done += n;
    }
    done
}

fn main(rt: HostRuntime) -> io::Result<()> {
    let mut input = [0u8; 4096];
    let n = read_full(&mut rt.stdin(), &mut input);
    let mut out = [0u8; lines::ROOM];
    let m = lines::run(&input[..n], &mut out);
    rt.write_all(&out[..m])
}
