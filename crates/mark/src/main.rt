// The program: reads standard input whole, and prints what `report` makes of it.
#![tactic(auto)]

ghost use Rattle.std.specs.Prelude.{◌≤◌, length, IfOk};

use report::report::{TEXT, report};
use std::io;
use std::io::Read;

// More than the 65,448 bytes that an input may have, so a longer one is recognised by what fits.
const INPUT: usize = 65_536;

// Reads until the buffer is full or the input ends, and answers how many bytes it has put at the buffer's front. A loop
// of its own, since std's `read_to_end` fills a vector, and the project has no heap.
fn read_full(from: &mut impl Read, buffer: &mut [u8]) -> io::Result<usize>
    ensures { IfOk result (λ n. n ≤ length buffer.new) }
{
    let mut done = 0;
    while done < buffer.len() {
        let count = from.read(&mut buffer[done..])?;
        if count == 0 {
            break;
        }
        done += count;
    }
    Ok(done)
}

fn main(rt: HostRuntime) -> io::Result<()> {
    let mut input = [0u8; INPUT];
    let size = read_full(&mut rt.stdin(), &mut input)?;
    let mut text = [0u8; TEXT];
    let end = report(&input[..size], &mut text);
    rt.write_all(&text[..end])
}
