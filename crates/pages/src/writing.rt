// The operation "write a page".
ghost use Rattle.endian.specs.Bytes.{whole32};
ghost use Rattle.marks.specs.Packed.{marks_of};
ghost use Rattle.text.specs.Words.{Wrote};
ghost use Rattle.pages.specs.Writing.{WrittenAs};
ghost use Rattle.pages.specs.asks.Writing.{lines_from, LinesAsked};

use crate::page::{PageLines, edge_at, page_of};
use crate::page_line;
use crate::page_line::put_line;
use admission::tests::test_instance;
use endian::bytes::Number;
use lengths::edge::following;
use lengths::refusal::{Refusal, Refused};
use marks::mark::mark_at;

// Writes so many lines, from that of the edge at a place on, to the front of the text: the next place.
fn put_lines(
    n: u16,
    table: &[u8],
    marks: &[u8],
    first: usize,
    lines: usize,
    text: &mut [u8],
) -> usize
    requires { LinesAsked n (whole32 table.now) (marks_of n marks.now) first lines text.old }
    ensures { Wrote text.old 0
        (lines_from n (whole32 table.now) (marks_of n marks.now) first lines) result text.new }
{
    let points = n as usize;
    let mut edge = edge_at(points, first);
    let mut at = 0;
    for i in 0..lines {
        let place = first + i;
        let len = u32::number(table, place);
        let mark = mark_at(marks, place);
        at = put_line(edge.low as u32, edge.high as u32, len, mark, text, at);
        edge = following(points, edge.low, edge.high);
    }
    at
}

// Writes page `page` of n points to the front of the text, and answers how many bytes it has; the bytes past it stay.
pub fn write_page(
    n: u32,
    table: &[u8],
    marks: &[u8],
    page: u32,
    text: &mut [u8],
) -> Result<u16, Refused>
    ensures { WrittenAs n (whole32 table.now) (marks_of n marks.now) page text.old result text.new }
{
    let points = test_instance(n, table, marks)?;
    let PageLines { first, lines } = page_of(points, page)?;
    if text.len() < page_line::BYTES * lines {
        return Err(Refusal::Buffer.into());
    }
    let size = put_lines(points, table, marks, first, lines, text);
    Ok(size as u16)
}
