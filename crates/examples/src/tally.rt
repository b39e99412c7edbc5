// What came of the lines: told where it is not what it should be, and counted.
use std::fmt;

// What is wrong with a line: another answer; another buffer; or what of it cannot be read.
#[derive(Clone, Copy)]
pub enum Fault {
    Answer,
    Buffer,
    NoFunction,
    NoArguments,
    NoAnswer,
    NoBuffers,
    NoNewline,
}

impl fmt::Display for Fault {
    fn fmt<W: fmt::Write>(&self, f: &mut fmt::Formatter<W>) -> fmt::Result {
        f.write_str(match self {
            Fault::Answer => "the answer is another",
            Fault::Buffer => "a buffer that is left is another",
            Fault::NoFunction => "no such function",
            Fault::NoArguments => "its arguments cannot be read",
            Fault::NoAnswer => "the answer that should come cannot be read",
            Fault::NoBuffers => "the buffers that should be left cannot be read",
            Fault::NoNewline => "the file ends within it",
        })
    }
}

// How many examples there are, and how many of them are wrong or cannot be read.
#[derive(Clone, Copy, Default)]
pub struct Tally {
    examples: usize,
    wrong: usize,
}

impl Tally {
    // Counts an example, the one of a line, and tells what is wrong with it. Where that cannot be written the others
    // are counted all the same.
    pub fn count(&mut self, rt: &impl Print, line: usize, example: Result<(), Fault>) {
        self.examples = self.examples.saturating_add(1);
        if let Err(fault) = example {
            self.wrong = self.wrong.saturating_add(1);
            let _ = println!(rt; "line {line}: {fault}");
        }
    }
}

impl fmt::Display for Tally {
    fn fmt<W: fmt::Write>(&self, f: &mut fmt::Formatter<W>) -> fmt::Result {
        let examples = self.examples;
        let wrong = self.wrong;
        write!(f, "{examples} examples, {wrong} wrong")
    }
}
