// Edge pages for C: the answer as one 64-bit number.
ghost use Rattle.endian.specs.Bytes.{whole32};
ghost use Rattle.marks.specs.Packed.{marks_of};
ghost use Rattle.revosti.specs.Page.{WrittenInC, PageReadInC};

// Writes a page of the wall list to the front of the text.
#[unsafe(no_mangle)]
pub extern "C" fn revosti_write_page(
    n: u32,
    table: &[u8],
    marks: &[u8],
    page: u32,
    text: &mut [u8],
) -> u64
    ensures { WrittenInC n (whole32 table.now) (marks_of n marks.now) page
        text.old result text.new }
{
    revosti::page::revosti_write_page(n, table, marks, page, text)
}

// Reads a page of the wall list into the table and the marks.
#[unsafe(no_mangle)]
pub extern "C" fn revosti_read_page(
    n: u32,
    page: u32,
    text: &[u8],
    table: &mut [u8],
    marks: &mut [u8],
) -> u64
    ensures { PageReadInC n page text.now table.old marks.old result
        table.new marks.new }
{
    revosti::page::revosti_read_page(n, page, text, table, marks)
}
