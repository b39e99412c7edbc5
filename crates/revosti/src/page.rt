// Edge pages for C: the answer as one 64-bit number.
ghost use Rattle.std.specs.Prelude.{◌≡◌};
ghost use Rattle.endian.specs.Bytes.{whole32};
ghost use Rattle.marks.specs.Packed.{marks_of};
ghost use Rattle.revosti.specs.Page.{page_read_number, WrittenInC, PageReadInC};

use crate::outcome::counted_number;
use pages::reading::{PageRefused, read_page};
use pages::writing::write_page;

// The refusal number or 0, plus 256 times the line, which only 27 has.
fn page_read_number(read: Result<(), PageRefused>) -> u64
    ensures { result ≡ page_read_number read }
{
    match read {
        Ok(()) => 0,
        Err(refused) => u64::from(refused.refusal.number()) + 256 * u64::from(refused.line),
    }
}

// Writes a page of the wall list to the front of the text.
pub fn revosti_write_page(n: u32, table: &[u8], marks: &[u8], page: u32, text: &mut [u8]) -> u64
    ensures { WrittenInC n (whole32 table.now) (marks_of n marks.now) page
        text.old result text.new }
{
    counted_number(write_page(n, table, marks, page, text))
}

// Reads a page of the wall list into the table and the marks.
pub fn revosti_read_page(n: u32, page: u32, text: &[u8], table: &mut [u8], marks: &mut [u8]) -> u64
    ensures { PageReadInC n page text.now table.old marks.old result
        table.new marks.new }
{
    page_read_number(read_page(n, page, text, table, marks))
}
