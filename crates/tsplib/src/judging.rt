// The judge of a text: the first line that the language cannot hold, or what the text says.
ghost use Rattle.std.specs.Prelude.{◌≡◌, ◌+◌, ◌^◌, ◌<◌};
ghost use Rattle.tsplib.specs.Judging.{judged, judged_end, maximum_of};

use crate::state::{Heading, State, Weigh};
use tsplib_lines::text_line::{TalliedLine, Weighing, read_line};
use tsplib_lines::words;
use tsplib_lines::words::find;

// What a text says: n, how it is weighed and its largest number.
#[derive(Clone, Copy)]
pub struct Described {
    pub n: u32,
    pub weighing: Weighing,
    pub maximum: u32,
}

// The line at fault.
#[derive(Clone, Copy, Debug, PartialEq, Eq)]
pub struct Fault {
    pub line: u64,
}

// The largest number of a line.
fn maximum_of(line: TalliedLine) -> u32
    ensures { result ≡ maximum_of line }
{
    match line {
        TalliedLine::Numbers(tally) => tally.maximum,
        _ => 0,
    }
}

// The end of a text behind whole lines, so many of them, with what stands behind the last.
fn judge_end(state: State, passed: u64, maximum: u32, rest: &[u8]) -> Result<Described, Fault>
    requires { passed + 1 < 2 ^ 64 }
    ensures { result ≡ judged_end state passed maximum rest.now }
{
    match state {
        State::Ended { n, weighing } if rest.is_empty() => Ok(Described {
            n,
            weighing,
            maximum,
        }),
        _ => Err(Fault { line: passed + 1 }),
    }
}

// Judges a text, one line a turn to its end.
pub fn judge(text: &[u8]) -> Result<Described, Fault>
    ensures { result ≡ judged text.now }
{
    let mut state = State::Specification(Heading {
        name: false,
        typed: false,
        points: None,
        weigh: Weigh::Unset,
    });
    let mut passed: u64 = 0;
    let mut maximum: u32 = 0;
    let mut rest = text;
    while let Some(end) = find(rest, words::NEWLINE) {
        let line = read_line(&rest[..end]);
        passed += 1;
        state = state.step(line).ok_or(Fault { line: passed })?;
        maximum = maximum.max(maximum_of(line));
        rest = &rest[end + 1..];
    }
    judge_end(state, passed, maximum, rest)
}
