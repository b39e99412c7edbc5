// Examples of every operation, executed by its function for C, every refusal among them. They are data: a line of the
// program's input is a call with the answer and the buffers that should come of it, and the file itself, `stdin`, says
// how a line is written. A line that cannot be read and a line that comes out otherwise are told with their number; the
// last line of the output counts them.
#![tactic(auto)]

ghost use Rattle.std.specs.Prelude.{◌≤◌, length};

mod lines;
mod tally;

use lines::run;
use std::io::Read;

// More than the input has.
const INPUT: usize = 262_144;

// Reads until the buffer is full or the input ends, and answers how many bytes it has put at the buffer's front. A read
// that fails ends the input.
fn read_full(from: &mut impl Read, buffer: &mut [u8]) -> usize
    ensures { result ≤ length buffer.new }
{
    let mut done = 0;
    while done < buffer.len() {
        let Ok(count) = from.read(&mut buffer[done..]) else {
            break;
        };
        if count == 0 {
            break;
        }
        done += count;
    }
    done
}

fn main(rt: HostRuntime) {
    let mut input = [0u8; INPUT];
    let size = read_full(&mut rt.stdin(), &mut input);
    run(&rt, &input[..size]);
}
