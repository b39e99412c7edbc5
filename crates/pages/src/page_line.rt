// A line of the edge page: written, and read by its columns.
ghost use Rattle.std.specs.Prelude.{◌≡◌, length};
ghost use Rattle.text.specs.Words.{Room, Wrote};
ghost use Rattle.pages.specs.PageLine.{line_bytes, line_text, length_read, is_line};
ghost use Rattle.pages.specs.asks.PageLine.{line_end, LineAsked, MarkReadIs, IsLineAsked};

use lengths::instance::Instance;
use marks::mark;
use text::columns::{put_padded, value_of};
use text::words::{put_word, same};

// How many bytes a line has: 24 columns and a newline.
pub const BYTES: usize = 25;

// Writes the end of a line, from column 16: the word of the mark, and the newline.
#[tactic(auto, unfolding(crate::specs::PageLine::mark_word, crate::specs::asks::PageLine::line_end))]
fn put_end(mark: u8, out: &mut [u8], at: usize) -> usize
    requires { Room out.old at (line_end mark) }
    ensures { Wrote out.old at (line_end mark) result out.new }
{
    match mark {
        mark::OPEN => put_word(b" open    \n", out, at),
        mark::PENDING => put_word(b" pending \n", out, at),
        _ => put_word(b" struck  \n", out, at),
    }
}

// Writes the line of the edge ab, whose lower point is a. The blank before a number is one of its columns.
pub fn put_line(a: u32, b: u32, len: u32, mark: u8, out: &mut [u8], at: usize) -> usize
    requires { LineAsked a b len out.old at }
    ensures { Wrote out.old at (line_text a b len mark) result out.new }
{
    let mut next = put_padded(3, a, out, at);
    next = put_padded(4, b, out, next);
    next = put_padded(8, len, out, next);
    put_end(mark, out, next)
}

// The length that a line says, whatever bytes it is.
pub fn length_read(line: &[u8]) -> u32
    requires { length line.now ≡ line_bytes }
    ensures { result ≡ length_read line.now }
{
    value_of(&line[8..15])
}

// The mark that a line says, whatever bytes it is.
#[tactic(auto, unfolding(crate::specs::PageLine::mark_read, crate::specs::PageLine::mark_of_letter))]
pub fn mark_read(line: &[u8]) -> u8
    requires { length line.now ≡ line_bytes }
    ensures { MarkReadIs line.now result }
{
    match line[16] {
        b'o' => mark::OPEN,
        b'p' => mark::PENDING,
        _ => mark::STRUCK,
    }
}

// Is the line one of the edge ab? What it says, the length within the limit, is written anew and compared.
#[tactic(auto, using(crate::proofs::LineTexts::long_line))]
pub fn is_line(a: u32, b: u32, line: &[u8]) -> bool
    requires { IsLineAsked a b line.now }
    ensures { result ≡ is_line a b line.now }
{
    let len = length_read(line);
    if Instance::MOST_LENGTH < len {
        return false;
    }
    let mark = mark_read(line);
    let mut anew = [0u8; BYTES];
    let _end = put_line(a, b, len, mark, &mut anew, 0);
    same(line, &anew)
}
