// Each line of the examples: read, called, and held to what should come of it. The buffers stay from line to line.
use crate::tally::{Fault, Tally};
use example_calls::calls::{Answer, call};
use example_text::arguments::{Slots, expected, given};
use example_text::signatures::find;

// Runs an example. A buffer that is not named behind the answer should be as it is.
fn example(line: &[u8], slots: &mut Slots) -> Result<(), Fault> {
    let (function, list, rest) = find(line).ok_or(Fault::NoFunction)?;
    let mut numbers = [0; 16];
    let rest = given(rest, list, &mut numbers, slots).ok_or(Fault::NoArguments)?;
    let rest = rest.strip_prefix(b" -> ").ok_or(Fault::NoArguments)?;
    let (answer, rest) = Answer::read(function, rest).ok_or(Fault::NoAnswer)?;
    let rest = expected(rest, list, slots).ok_or(Fault::NoBuffers)?;
    if !rest.is_empty() {
        return Err(Fault::NoBuffers);
    }
    if Some(call(function, &numbers, slots)) != answer {
        return Err(Fault::Answer);
    }
    if slots.are_left() {
        Ok(())
    } else {
        Err(Fault::Buffer)
    }
}

// Runs the examples, a line at a time, and counts them. A line that is empty or begins with # has no example.
pub fn run(rt: &impl Print, input: &[u8]) {
    let mut slots = Slots::EMPTY;
    let mut tally = Tally::default();
    for (i, text) in input.split_inclusive(|x| *x == b'\n').enumerate() {
        let line = text.strip_suffix(b"\n");
        if line.is_some_and(|line| line.is_empty() || line.starts_with(b"#")) {
            continue;
        }
        let example = match line {
            Some(line) => example(line, &mut slots),
            None => Err(Fault::NoNewline),
        };
        tally.count(rt, i + 1, example);
    }
    let _ = println!(rt; "{tally}");
}
