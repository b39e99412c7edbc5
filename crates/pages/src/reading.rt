// The operation "read a page".
ghost use Rattle.std.specs.Prelude.{◌≡◌, ◌*◌, ◌/◌, length};
ghost use Rattle.endian.specs.Bytes.{bytes32};
ghost use Rattle.pages.specs.PageLine.{is_line};
ghost use Rattle.pages.specs.Reading.{line_at, lengths_read, overlay, page_refused, wrong_line, ReadAs};
ghost use Rattle.pages.specs.asks.Page.{PartAsked};
ghost use Rattle.pages.specs.asks.Reading.{LineOfAsked, StoreAsked, MarksStored};

use crate::page::{PageLines, edge_at, page_of};
use crate::page_line;
use crate::page_line::{is_line, length_read, mark_read};
use admission::tests::test_places;
use endian::bytes::Number;
use lengths::edge::following;
use lengths::refusal::Refusal;
use marks::mark::set_mark_at;

// A refusal of "read a page", and of 27 the line, else line 0.
#[derive(Clone, Copy, Debug, PartialEq, Eq)]
pub struct PageRefused {
    pub refusal: Refusal,
    pub line: u16,
}

impl From<Refusal> for PageRefused {
    ghost from_gives = { λ refusal r. r ≡ page_refused refusal 0 };

    fn from(refusal: Refusal) -> PageRefused {
        PageRefused {
            refusal: refusal,
            line: 0,
        }
    }
}

// Is line k of the text, from 0, one of the edge ab?
#[tactic(auto, using(crate::proofs::Seeking::line_part, crate::proofs::Seeking::missing_line))]
fn has_line(a: u32, b: u32, text: &[u8], k: usize) -> bool
    requires { LineOfAsked a b k }
    ensures { result ≡ is_line a b (line_at text.now k) }
{
    let at = page_line::BYTES * k;
    let end = at + page_line::BYTES;
    end <= text.len() && is_line(a, b, &text[at..end])
}

// The first wrong of so many lines, counted from 1, or one past the last: line 1 is that of the edge at `first`.
fn wrong_line(n: u16, first: usize, lines: usize, text: &[u8]) -> usize
    requires { PartAsked n first lines }
    ensures { result ≡ wrong_line n first lines text.now }
{
    let points = n as usize;
    let mut edge = edge_at(points, first);
    for i in 0..lines {
        if !has_line(edge.low as u32, edge.high as u32, text, i) {
            return i + 1;
        }
        edge = following(points, edge.low, edge.high);
    }
    lines + 1
}

// Writes the lengths of so many lines into the table, from a place on.
fn store_lengths(text: &[u8], first: usize, lines: usize, table: &mut [u8])
    requires { StoreAsked text.now first lines (length table.old / 4) }
    ensures { table.new ≡ overlay (4 * first) (bytes32 (lengths_read text.now lines)) table.old }
{
    for i in 0..lines {
        let at = page_line::BYTES * i;
        let end = at + page_line::BYTES;
        u32::put(table, first + i, length_read(&text[at..end]));
    }
}

// Writes the marks of so many lines into the packed set, from a place on.
fn store_marks(text: &[u8], first: usize, lines: usize, set: &mut [u8])
    requires { StoreAsked text.now first lines (4 * length set.old) }
    ensures { MarksStored text.now first lines set.old set.new }
{
    for i in 0..lines {
        let at = page_line::BYTES * i;
        let end = at + page_line::BYTES;
        set_mark_at(set, first + i, mark_read(&text[at..end]));
    }
}

// Reads page `page` of n points into the table and the marks: only its own edges are changed there, and nothing
// where it is refused.
pub fn read_page(
    n: u32,
    page: u32,
    text: &[u8],
    table: &mut [u8],
    marks: &mut [u8],
) -> Result<(), PageRefused>
    ensures { ReadAs n page text.now table.old marks.old result table.new marks.new }
{
    let points = test_places(n, table, marks)?;
    let PageLines { first, lines } = page_of(points, page)?;
    let wrong = wrong_line(points, first, lines, text);
    if wrong <= lines || text.len() != page_line::BYTES * lines {
        return Err(PageRefused {
            refusal: Refusal::PageText,
            line: wrong as u16,
        });
    }
    store_lengths(text, first, lines, table);
    store_marks(text, first, lines, marks);
    Ok(())
}
